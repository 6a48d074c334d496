//! What was read for an answer, by its roles.

ghost use Rattle.std.specs.Prelude.{◌≡◌};
ghost use Rattle.mrc_print.specs.Heads.{wiring_text};

use mrc_answer::WasRead;
use mrc_command::FileNames;

/// The names of the files, if they were read.
pub(crate) fn names_of<'a, 'b>(read: &'a WasRead<'b>) -> Option<&'a FileNames<'b>> {
    match read {
        WasRead::Texts(files) => Some(&files.names),
        WasRead::Nothing | WasRead::Defs(_) => None,
    }
}

/// The text of the wiring: none, if it was not read.
pub(crate) fn wiring_text<'a>(read: &'a WasRead<'_>) -> &'a [u8]
    ensures { result.now ≡ wiring_text read.now }
{
    match read {
        WasRead::Texts(files) => files.texts.wiring.as_slice(),
        WasRead::Nothing | WasRead::Defs(_) => &[],
    }
}

/// The text of the policy: none, if it was not read.
pub(crate) fn policy_text<'a>(read: &'a WasRead<'_>) -> &'a [u8] {
    match read {
        WasRead::Texts(files) => files.texts.policy(),
        WasRead::Nothing | WasRead::Defs(_) => &[],
    }
}

/// The texts of the MIG files of a system: none, if they were not read.
pub(crate) fn defs_texts<'a>(read: &'a WasRead<'_>) -> &'a [Vec<u8>] {
    match read {
        WasRead::Texts(files) => files.texts.defs.as_slice(),
        WasRead::Nothing | WasRead::Defs(_) => &[],
    }
}

/// The name of the wiring: empty, if it was not read.
pub(crate) fn wiring_name<'a>(read: &'a WasRead<'_>) -> &'a str {
    match names_of(read) {
        Some(names) => names.wiring,
        None => "",
    }
}

/// The name of the policy: empty, if it was not read.
pub(crate) fn policy_name<'a>(read: &'a WasRead<'_>) -> &'a str {
    match names_of(read) {
        Some(names) => names.policy.unwrap_or(""),
        None => "",
    }
}

/// The name of the certificate: empty, if it was not read.
pub(crate) fn certificate_name<'a>(read: &'a WasRead<'_>) -> &'a str {
    match names_of(read) {
        Some(names) => names.certificate.unwrap_or(""),
        None => "",
    }
}

/// The name of the script: empty, if it was not read.
pub(crate) fn script_name<'a>(read: &'a WasRead<'_>) -> &'a str {
    match names_of(read) {
        Some(names) => names.script.unwrap_or(""),
        None => "",
    }
}

/// The name of the MIG file of this number. There is one for each that was read.
pub(crate) fn defs_name<'a>(read: &'a WasRead<'_>, number: usize) -> &'a str {
    let Some(names) = names_of(read) else {
        return "";
    };
    match names.defs.get(number) {
        Some(name) => name,
        None => "",
    }
}
