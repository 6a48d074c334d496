//! Files by their names.

ghost use Rattle.std.specs.Prelude.{◌≡◌, ◌≤◌, ◌<◌, ℕ, List, Option, length, vec_len, IfOk, IfErr};
ghost use Rattle.std.specs.Prelude.{IfSome, [], ◌∷◌, ◌++◌, OnOk, map};
ghost use Rattle.std.specs.List.{All};
ghost use Rattle.mrc_base.specs.Limits.{limit_of_file};
ghost use Rattle.mrc_files.specs.Files.{HasBytes, AreHeld, Fits, Exceeds, IsFirstUnread, IsLeftBy};
ghost use Rattle.mrc_files.specs.Files.{KeepsOthers};

use crate::streams::{InputFault, WriteFault, read_all, read_fault};
use mrc_base::{OrMemory, limits};
use std::alloc::Global;
use std::io;
use std::io::Read;

/// Files by their names.
pub trait Folder {
    type File: Read + Drop;

    // The bytes of the file of a name, where they are known.
    ghost held: { Self → List ℕ → Option (List ℕ) };

    /// Opens the file of a name.
    fn open(&self, name: &str) -> io::Result<Self::File>
        ensures { IfOk result
            (λ file. IfSome (held self.now name.now)
            (λ bytes. Self.File.remaining file ≡ Some bytes)) };

    /// Gives the file of a name these bytes instead of all that it held. If that fails, the file
    /// has what it had, or, if it can't be replaced and was written in place, the first of the
    /// bytes, as many as the fault says. No other file changes.
    fn replace(
        &mut self,
        alloc: Global,
        name: &str,
        bytes: &[u8],
    ) -> Result<(), OrMemory<WriteFault>>
        ensures whole { OnOk result (HasBytes (held self.new) name.now bytes.now) }
        ensures err { IfErr result
            (IsLeftBy (held self.old) (held self.new) name.now bytes.now) }
        // In both cases the other files keep what they had.
        ensures others { KeepsOthers (held self.old) (held self.new) name.now };
}

/// All bytes of the file of a name.
pub fn read_file<F: Folder>(folder: &F, alloc: Global, name: &str) -> Result<Vec<u8>, InputFault>
    // Where it is known what the file has, that was read.
    ensures whole { IfOk result
        (λ bytes. IfSome (F.held folder.now name.now) (λ known. bytes.items ≡ known)) }
    ensures within { IfOk result (λ bytes. vec_len bytes ≤ limit_of_file) }
    ensures too_big { IfErr result (λ fault. fault ≡ InputFault.TooBig
        → IfSome (F.held folder.now name.now) (λ known. limit_of_file < length known)) }
{
    match folder.open(name) {
        Ok(mut file) => read_all(alloc, &mut file, limits::FILE as u32),
        Err(error) => Err(read_fault(&error)),
    }
}

/// A file that could not be read, and why.
#[derive(Drop)]
pub struct Unread<'a> {
    pub file: &'a str,
    pub fault: InputFault,
}

/// The bytes of a file, or the file with the reason why they can't be had.
pub fn bytes_of<'a, F: Folder>(
    folder: &F,
    alloc: Global,
    file: &'a str,
) -> Result<Vec<u8>, Unread<'a>>
    ensures held { IfOk result (λ bytes. HasBytes (F.held folder.now) file.now bytes.items) }
    ensures fits { IfOk result (λ bytes. Fits (F.held folder.now) file.now) }
    ensures named { IfErr result (λ unread. unread.file.now ≡ file.now) }
    ensures too_big { IfErr result (λ unread. unread.fault ≡ InputFault.TooBig
        → Exceeds (F.held folder.now) file.now) }
{
    match read_file(folder, alloc, file) {
        Ok(bytes) => Ok(bytes),
        Err(fault) => Err(Unread { file, fault }),
    }
}

/// Adds the bytes of a file, or tells that there is no memory for them.
fn add_text<'a>(texts: &mut Vec<Vec<u8>>, text: Vec<u8>, file: &'a str) -> Result<(), Unread<'a>>
    ensures added { OnOk result (texts.new.items ≡ texts.old.items ++ text ∷ []) }
    ensures named { IfErr result (λ unread. unread.file.now ≡ file.now) }
    ensures memory { IfErr result (λ unread. unread.fault ≡ InputFault.Memory) }
{
    match texts.push(text) {
        Ok(()) => Ok(()),
        Err(_) => Err(Unread {
            file,
            fault: InputFault::Memory,
        }),
    }
}

/// The bytes of each of the files, in their order, or the first that can't be read.
pub fn bytes_of_all<'a, F: Folder>(
    folder: &F,
    alloc: Global,
    files: &[&'a str],
) -> Result<Vec<Vec<u8>>, Unread<'a>>
    ensures held { IfOk result (λ texts. AreHeld (F.held folder.now)
        (map (λ file. file.now) files.now) (map (λ text. text.items) texts.items)) }
    ensures fit { IfOk result
        (λ _. All (Fits (F.held folder.now)) (map (λ file. file.now) files.now)) }
    ensures first { IfErr result (λ unread. IsFirstUnread (F.held folder.now)
        (map (λ file. file.now) files.now) unread.file.now) }
    ensures too_big { IfErr result (λ unread. unread.fault ≡ InputFault.TooBig
        → Exceeds (F.held folder.now) unread.file.now) }
{
    let mut texts = Vec::new(alloc);
    for file in files {
        let text = bytes_of(folder, alloc, file)?;
        add_text(&mut texts, text, file)?;
    }
    Ok(texts)
}
