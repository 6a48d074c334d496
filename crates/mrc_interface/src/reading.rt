//! From the bytes of MIG files to the forms of their messages.

ghost use Rattle.std.specs.Prelude.{◌≡◌, List, map, Ok, IfOk, IfErr};
ghost use Rattle.mrc_base.specs.Reading.{UnlessMemory};
ghost use Rattle.mrc_forms.specs.Tables.{Table};
ghost use Rattle.mrc_mig_forms.specs.Files.{FormsSay};
ghost use Rattle.mrc_interface.specs.Reading.{IsDefs, IsInterface, IsReason, AreInterfaces};
ghost use Rattle.mrc_interface.specs.Reading.{IsFirstRefused, reason_of, refused_of, GivesAs};
ghost use Rattle.mrc_interface.specs.Reading.{step, text_of, said_by, defs_of, interface_of};
ghost use Rattle.mrc_interface.specs.Reading.{interfaces_of};

use crate::fault::{DefsFault, FileFault};
use crate::first::first_edition;
use crate::second::second_edition;
use mrc_base::OrMemory;
use mrc_forms::Interface;
use mrc_mig_forms::Forms;
use mrc_mig_tokens::{Edition, edition_of};
use std::alloc::Global;
use std::str;

/// The text that bytes are.
fn text_of(bytes: &[u8]) -> Result<&str, OrMemory<DefsFault>>
    ensures { GivesAs (λ text. text.now) reason_of result (text_of bytes.now) }
{
    match str::from_utf8(bytes) {
        Ok(text) => Ok(text),
        Err(_) => Err(OrMemory::Fault(DefsFault::NotUtf8)),
    }
}

/// What a text of this edition says.
fn said_by(alloc: Global, edition: Edition, text: &str) -> Result<Forms, OrMemory<DefsFault>>
    ensures { GivesAs (λ said. said) reason_of result (said_by edition text.now) }
{
    match edition {
        Edition::First => first_edition(alloc, text),
        Edition::Second => second_edition(alloc, text, false),
        Edition::Received => second_edition(alloc, text, true),
    }
}

/// What the bytes of a file say.
fn defs_of(alloc: Global, bytes: &[u8]) -> Result<Forms, OrMemory<DefsFault>>
    ensures { GivesAs (λ said. said) reason_of result (defs_of bytes.now) }
{
    let text = text_of(bytes)?;
    said_by(alloc, edition_of(text), text)
}

/// Reads a MIG file from its bytes, of the edition that its first lines name: the table of its
/// forms with the rows that are left out and the types that are not read, or the fault of the first
/// step that refuses it. A file of edition 1 leaves nothing out. The steps are the text (UTF-8), its
/// tokens, the grammar, the ids; so a fault of the tokens is told before any of the grammar.
pub fn read_defs(alloc: Global, bytes: &[u8]) -> Result<Forms, OrMemory<DefsFault>>
    // What is read is what the file says that the bytes are.
    ensures found { IfOk result (IsDefs bytes.now) }
    // What a file says is read, unless memory runs out.
    ensures only { (said : FormsSay) → IsDefs bytes.now said →
        GivesAs (λ said. said) reason_of result (Ok said) }
    // The fault tells why the bytes are no file.
    ensures refused { IfErr result (UnlessMemory (λ fault. IsReason bytes.now (reason_of fault))) }
    // Which step it is: the first.
    ensures fault { GivesAs (λ said. said) reason_of result (defs_of bytes.now) }
{
    defs_of(alloc, bytes)
}

/// The table of what the bytes of a file say.
fn interface_of(alloc: Global, bytes: &[u8]) -> Result<Interface, OrMemory<DefsFault>>
    ensures { GivesAs (λ table. table) reason_of result (interface_of bytes.now) }
{
    let Forms {
        interface,
        left_out: _,
        unread: _,
    } = defs_of(alloc, bytes)?;
    Ok(interface)
}

/// Reads a MIG file from its bytes as [`read_defs`] does: the table of its forms alone.
pub fn read_interface(alloc: Global, bytes: &[u8]) -> Result<Interface, OrMemory<DefsFault>>
    // What is read is the table of the file that the bytes are.
    ensures found { IfOk result (IsInterface bytes.now) }
    // The table of a file is read, unless memory runs out.
    ensures only { (table : Table) → IsInterface bytes.now table →
        GivesAs (λ table. table) reason_of result (Ok table) }
    // The fault tells why the bytes have no table.
    ensures refused { IfErr result (UnlessMemory (λ fault. IsReason bytes.now (reason_of fault))) }
    // Which step it is: the first.
    ensures fault { GivesAs (λ table. table) reason_of result (interface_of bytes.now) }
{
    interface_of(alloc, bytes)
}

/// What the file of this number says.
fn file_at(alloc: Global, file: usize, bytes: &[u8]) -> Result<Interface, OrMemory<FileFault>>
    ensures { GivesAs (λ table. table) refused_of result
        (step (λ reason. record { file = file; reason = reason }) (interface_of bytes.now)) }
{
    match interface_of(alloc, bytes) {
        Ok(interface) => Ok(interface),
        Err(OrMemory::Fault(fault)) => Err(OrMemory::Fault(FileFault { file, fault })),
        Err(OrMemory::Memory) => Err(OrMemory::Memory),
    }
}

/// What the files of a list say, one after the other.
fn interfaces_of(alloc: Global, files: &[Vec<u8>]) -> Result<Vec<Interface>, OrMemory<FileFault>>
    ensures { GivesAs (λ tables. tables.items) refused_of result
        (interfaces_of (map (λ bytes. bytes.items) files.now)) }
{
    let mut interfaces = Vec::new(alloc);
    let mut file = 0;
    for bytes in files {
        interfaces.push(file_at(alloc, file, bytes.as_slice())?)?;
        file += 1;
    }
    Ok(interfaces)
}

/// Reads a list of MIG files from their bytes: the tables of their forms, in the same order, or the
/// first file that is refused, with its fault.
pub fn read_interfaces(
    alloc: Global,
    files: &[Vec<u8>],
) -> Result<Vec<Interface>, OrMemory<FileFault>>
    // What is read are the tables of the files.
    ensures found { IfOk result (λ tables.
        AreInterfaces (map (λ bytes. bytes.items) files.now) tables.items) }
    // The tables of files are read, unless memory runs out.
    ensures only { (tables : List Table) →
        AreInterfaces (map (λ bytes. bytes.items) files.now) tables →
        GivesAs (λ tables. tables.items) refused_of result (Ok tables) }
    // The file that is told is the first that is refused.
    ensures refused { IfErr result (UnlessMemory (λ fault.
        IsFirstRefused (map (λ bytes. bytes.items) files.now) (refused_of fault))) }
    // Which step of that file it is: the first.
    ensures fault { GivesAs (λ tables. tables.items) refused_of result
        (interfaces_of (map (λ bytes. bytes.items) files.now)) }
{
    interfaces_of(alloc, files)
}
