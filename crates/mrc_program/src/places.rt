//! What helps with a fault of a text, by the text's role.

use crate::notes::draft_note;
use mrc_answer::{Files, Texts};
use mrc_base::OrMemory;
use mrc_certificate::DraftFault;
use mrc_check::{CaseFault, PolicyFault, WiringFault};
use mrc_hints::{
    mig_hint, names_hint, policy_name_hint, policy_stand_hint, script_hint, stand_hint,
    wide_line_hint, wide_name_hint, wide_policy_line_hint, wiring_name_hint,
};
use mrc_interface::FileFault;
use mrc_line_hints::{policy_line_hint, wiring_line_hint};
use mrc_objects::expanded_text;
use mrc_place::{Hint, one_note};
use mrc_wide_text::read_said;
use mrc_wiring::{ClaimFault, ResolveFault};
use mrc_wiring_text::{Edition, TextFault, read_policy, wiring_edition};
use std::alloc::{AllocError, Global};
use std::str;

/// What helps with a fault of a MIG file.
fn defs_hint(alloc: Global, texts: &Texts, fault: &FileFault) -> Result<Option<Hint>, AllocError> {
    let Some(bytes) = texts.defs.get(fault.file) else {
        return Ok(None);
    };
    let hint = mig_hint(alloc, bytes.as_slice(), &fault.fault)?;
    Ok(Some(hint))
}

/// Whether a text names a version that is none of 1 to 3.
fn is_wide(alloc: Global, wiring: &[u8]) -> Result<bool, AllocError> {
    match wiring_edition(alloc, wiring) {
        Ok(_) => Ok(false),
        Err(OrMemory::Fault(fault)) => Ok(fault == TextFault::Version),
        Err(OrMemory::Memory) => Err(AllocError),
    }
}

/// The lines of a wiring as a text of version 1 to 3: its own, or those that it stands for.
fn plain_wiring(alloc: Global, texts: &Texts) -> Result<Vec<u8>, AllocError> {
    let wiring = texts.wiring.as_slice();
    if !is_wide(alloc, wiring)? {
        return Vec::from_slice(alloc, wiring);
    }
    match read_said(alloc, wiring) {
        Ok(said) => {
            let text = expanded_text(alloc, Some(Edition::Third), said.lines.as_slice())?;
            Vec::from_slice(alloc, text.as_bytes())
        }
        Err(OrMemory::Fault(_)) => Ok(Vec::new(alloc)),
        Err(OrMemory::Memory) => Err(AllocError),
    }
}

/// What helps with a fault of a wiring of version 4: nothing here of one of the list of files, of
/// its version or of its bytes.
fn wide_hint(
    alloc: Global,
    files: &Files<'_>,
    fault: &WiringFault,
) -> Result<Option<Hint>, AllocError> {
    let Ok(text) = str::from_utf8(files.texts.wiring.as_slice()) else {
        return Ok(None);
    };
    let hint = match fault {
        WiringFault::Text(TextFault::BadLine(line)) => wide_line_hint(alloc, text, *line)?,
        WiringFault::Lines(ResolveFault::TwiceNamed(0))
        | WiringFault::Lines(ResolveFault::TooMany(0)) => return Ok(None),
        WiringFault::Lines(fault) => wide_name_hint(alloc, text, *fault)?,
        WiringFault::Stands(fault) => stand_hint(alloc, text, *fault)?,
        WiringFault::Text(_) | WiringFault::TooManyNames(_) => return Ok(None),
    };
    Ok(Some(hint))
}

/// What helps with a fault of the names of the wiring's lines.
fn wiring_names_hint(
    alloc: Global,
    files: &Files<'_>,
    fault: ResolveFault,
) -> Result<Option<Hint>, AllocError> {
    let Ok(text) = str::from_utf8(files.texts.wiring.as_slice()) else {
        return Ok(None);
    };
    let names = files.names.defs.as_slice();
    let hint = wiring_name_hint(alloc, text, names, files.texts.defs.as_slice(), fault)?;
    Ok(Some(hint))
}

/// What helps with a fault of the wiring.
fn wiring_hint(
    alloc: Global,
    files: &Files<'_>,
    fault: &WiringFault,
) -> Result<Option<Hint>, AllocError> {
    if is_wide(alloc, files.texts.wiring.as_slice())? {
        if let Some(hint) = wide_hint(alloc, files, fault)? {
            return Ok(Some(hint));
        }
    }
    older_hint(alloc, files, fault)
}

/// What helps with a fault of a wiring of version 1 to 3, and with one that is not of its lines.
fn older_hint(
    alloc: Global,
    files: &Files<'_>,
    fault: &WiringFault,
) -> Result<Option<Hint>, AllocError> {
    match fault {
        WiringFault::Text(fault) => {
            let hint = wiring_line_hint(alloc, files.texts.wiring.as_slice(), *fault)?;
            Ok(Some(hint))
        }
        WiringFault::Lines(fault) => wiring_names_hint(alloc, files, *fault),
        WiringFault::TooManyNames(name) => {
            let hint = names_hint(alloc, name)?;
            Ok(Some(hint))
        }
        WiringFault::Stands(_) => Ok(None),
    }
}

/// What helps with a fault of the names of the policy's lines.
fn policy_names_hint(
    alloc: Global,
    texts: &Texts,
    fault: ClaimFault,
) -> Result<Option<Hint>, AllocError> {
    let Ok(text) = str::from_utf8(texts.policy()) else {
        return Ok(None);
    };
    let plain = plain_wiring(alloc, texts)?;
    let Ok(wiring) = str::from_utf8(plain.as_slice()) else {
        return Ok(None);
    };
    let hint = policy_name_hint(alloc, text, wiring, fault)?;
    Ok(Some(hint))
}

/// Whether the text of a policy names a version that is none of 1 and 2.
fn is_wide_policy(alloc: Global, policy: &[u8]) -> Result<bool, AllocError> {
    match read_policy(alloc, policy) {
        Ok(_) => Ok(false),
        Err(OrMemory::Fault(fault)) => Ok(fault == TextFault::Version),
        Err(OrMemory::Memory) => Err(AllocError),
    }
}

/// What helps with a line of a policy of version 3 that is refused.
fn wide_policy_hint(
    alloc: Global,
    texts: &Texts,
    fault: PolicyFault,
) -> Result<Option<Hint>, AllocError> {
    let Ok(text) = str::from_utf8(texts.policy()) else {
        return Ok(None);
    };
    let hint = match fault {
        PolicyFault::Text(TextFault::BadLine(line)) => wide_policy_line_hint(alloc, text, line)?,
        PolicyFault::Stands(fault) => policy_stand_hint(alloc, text, fault)?,
        PolicyFault::Text(_) | PolicyFault::Lines(_) => return Ok(None),
    };
    Ok(Some(hint))
}

/// What helps with a fault of the policy.
fn policy_hint(
    alloc: Global,
    texts: &Texts,
    fault: PolicyFault,
) -> Result<Option<Hint>, AllocError> {
    if is_wide_policy(alloc, texts.policy())? {
        if let Some(hint) = wide_policy_hint(alloc, texts, fault)? {
            return Ok(Some(hint));
        }
    }
    match fault {
        PolicyFault::Text(fault) => {
            let hint = policy_line_hint(alloc, texts.policy(), fault)?;
            Ok(Some(hint))
        }
        PolicyFault::Lines(fault) => policy_names_hint(alloc, texts, fault),
        PolicyFault::Stands(_) => Ok(None),
    }
}

/// What helps with a fault of the script.
fn script_text_hint(
    alloc: Global,
    texts: &Texts,
    live: bool,
    fault: TextFault,
) -> Result<Option<Hint>, AllocError> {
    let plain = plain_wiring(alloc, texts)?;
    let Ok(wiring) = str::from_utf8(plain.as_slice()) else {
        return Ok(None);
    };
    let hint = script_hint(alloc, texts.script(), wiring, live, fault)?;
    Ok(Some(hint))
}

/// What helps with a fault of the certificate.
fn certificate_hint(alloc: Global, fault: DraftFault) -> Result<Hint, AllocError> {
    Ok(Hint::of_notes(one_note(alloc, draft_note(fault))?))
}

/// What helps with the fault of a text: nothing, if memory runs out while the texts are read.
pub(crate) fn hint_of(
    alloc: Global,
    files: &Files<'_>,
    live: bool,
    fault: &CaseFault,
) -> Result<Option<Hint>, AllocError> {
    match fault {
        CaseFault::Defs(fault) => defs_hint(alloc, &files.texts, fault),
        CaseFault::Wiring(fault) => wiring_hint(alloc, files, fault),
        CaseFault::Policy(fault) => policy_hint(alloc, &files.texts, *fault),
        CaseFault::Certificate(fault) => Ok(Some(certificate_hint(alloc, *fault)?)),
        CaseFault::Script(fault) => script_text_hint(alloc, &files.texts, live, *fault),
    }
}
