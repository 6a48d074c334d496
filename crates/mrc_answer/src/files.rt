//! The files of a command, read by their roles.

ghost use Rattle.std.specs.Prelude.{◌≡◌, IfOk, IfErr};
ghost use Rattle.std.specs.List.{All};
ghost use Rattle.std.specs.Option.{option_map};
ghost use Rattle.mrc_files.specs.Files.{AreHeld, Exceeds, Fits, IsFirstUnread};
ghost use Rattle.mrc_answer.specs.Files.{given, word_of, names_if_given, all_names, IsHeld};
ghost use Rattle.mrc_answer.specs.Files.{asked_policy, AreRead};

use mrc_check::PolicyText;
use mrc_command::FileNames;
use mrc_files::{Folder, InputFault, Unread, bytes_of, bytes_of_all};
use std::alloc::Global;
use std::marker::Model;

/// The bytes of files, by their roles.
#[derive(Drop)]
pub struct Texts {
    pub defs: Vec<Vec<u8>>,
    pub wiring: Vec<u8>,
    pub policy: Option<Vec<u8>>,
    /// Whether what the policy waives is let pass.
    pub waives: bool,
    pub certificate: Option<Vec<u8>>,
    pub script: Option<Vec<u8>>,
}

impl Model for Texts {
    ghost use Rattle.std.specs.Prelude.{map};
    ghost use Rattle.std.specs.Option.{option_map};
    ghost use Rattle.mrc_answer.specs.Files as definitions;

    ghost Value = { definitions.Texts };

    ghost view = { λ t. record {
      defs = map (λ text. text.items) t.defs.items;
      wiring = t.wiring.items;
      policy = option_map (λ text. text.items) t.policy;
      waives = t.waives;
      certificate = option_map (λ text. text.items) t.certificate;
      script = option_map (λ text. text.items) t.script;
    } };
}

/// The names of files, by their roles, and their bytes.
#[derive(Drop)]
pub struct Files<'a> {
    pub names: FileNames<'a>,
    pub texts: Texts,
}

impl<'a> Model for Files<'a> {
    ghost use Rattle.mrc_answer.specs.Files as definitions;

    ghost Value = { definitions.Files };

    ghost view = { λ f. record { names = f.names; texts = f.texts } };
}

/// The bytes of a text that may be given: none, if it is not.
fn given(text: &Option<Vec<u8>>) -> &[u8]
    ensures { result.now ≡ given (option_map (λ bytes. bytes.items) text.now) }
{
    match text {
        Some(bytes) => bytes.as_slice(),
        None => &[],
    }
}

impl Texts {
    /// The bytes of the policy: none, if it is not given.
    pub fn policy(&self) -> &[u8]
        ensures { result.now ≡ given self.now.policy }
    {
        given(&self.policy)
    }

    /// The policy as it is asked for.
    pub fn asked_policy(&self) -> PolicyText<'_>
        ensures { result ≡ asked_policy self.now }
    {
        PolicyText {
            bytes: self.policy(),
            waives: self.waives,
        }
    }

    /// The bytes of the certificate: none, if it is not given.
    pub fn certificate(&self) -> &[u8]
        ensures { result.now ≡ given self.now.certificate }
    {
        given(&self.certificate)
    }

    /// The bytes of the script: none, if it is not given.
    pub fn script(&self) -> &[u8]
        ensures { result.now ≡ given self.now.script }
    {
        given(&self.script)
    }
}

/// The bytes of a file that may be named.
fn bytes_if_given<'a, F: Folder>(
    folder: &F,
    alloc: Global,
    file: Option<&'a str>,
) -> Result<Option<Vec<u8>>, Unread<'a>>
    ensures held { IfOk result (λ bytes. IsHeld (F.held folder.now) (word_of file.entry)
        (option_map (λ text. text.items) bytes)) }
    ensures fit { IfOk result (λ _. All (Fits (F.held folder.now)) (names_if_given file.entry)) }
    ensures first { IfErr result (λ unread.
        IsFirstUnread (F.held folder.now) (names_if_given file.entry) unread.file.now) }
    ensures too_big { IfErr result (λ unread. unread.fault ≡ InputFault.TooBig
        → Exceeds (F.held folder.now) unread.file.now) }
{
    match file {
        None => Ok(None),
        Some(file) => match bytes_of(folder, alloc, file) {
            Ok(bytes) => Ok(Some(bytes)),
            Err(unread) => Err(unread),
        },
    }
}

/// All files are read before any is judged: the MIG files in their order, the wiring, the policy,
/// the certificate and the script. If one can't be read, it is the first.
pub fn texts_of<'a, F: Folder>(
    folder: &F,
    alloc: Global,
    names: &FileNames<'a>,
) -> Result<Texts, Unread<'a>>
    ensures read { IfOk result (λ texts. AreRead (F.held folder.now) names.now texts) }
    ensures first { IfErr result (λ unread.
        IsFirstUnread (F.held folder.now) (all_names names.now) unread.file.now) }
    ensures too_big { IfErr result (λ unread. unread.fault ≡ InputFault.TooBig
        → Exceeds (F.held folder.now) unread.file.now) }
{
    let defs = bytes_of_all(folder, alloc, names.defs.as_slice())?;
    let wiring = bytes_of(folder, alloc, names.wiring)?;
    let policy = bytes_if_given(folder, alloc, names.policy)?;
    let certificate = bytes_if_given(folder, alloc, names.certificate)?;
    let script = bytes_if_given(folder, alloc, names.script)?;
    Ok(Texts {
        defs,
        wiring,
        policy,
        waives: names.waives,
        certificate,
        script,
    })
}
