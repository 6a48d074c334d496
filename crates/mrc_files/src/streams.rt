//! Bytes in from sources, and out to sinks.

ghost use Rattle.std.specs.Prelude.{◌≡◌, ◌+◌, ◌≤◌, ◌<◌, ℕ, take, length, vec_len, OnOk, IfOk};
ghost use Rattle.std.specs.Prelude.{IfErr, IfSome, IfNone, OnErr, List, Option, None, true, false};
ghost use Rattle.std.specs.IoError.{error_kind};
ghost use Rattle.std.specs.Io.KnownBytes.{Appends, Keeps, Consumes, IsAtEnd};
ghost use Rattle.mrc_files.specs.Streams.{failure, read_fault, LosesAtMost, IsOneMore};
ghost use Rattle.mrc_files.specs.Streams.{IsAtMostMore, IsFailedRead};

use std::alloc::Global;
use std::io;
use std::io::{ErrorKind, Read, Write};

/// What the system says of a file that can't be opened or read.
#[derive(Clone, Copy, Debug, PartialEq, Eq, thiserror::Error)]
pub enum ReadFailure {
    /// Nothing has the name, or a folder of its path is missing.
    #[error("no such file or folder")]
    Missing,
    /// A part of its path is no folder.
    #[error("a part of its path is not a folder")]
    NotAFolder,
    /// It is a folder.
    #[error("it is a folder")]
    IsAFolder,
    /// The user may not read it.
    #[error("permission denied")]
    Denied,
    /// Anything else.
    #[error("the system could not read it")]
    Other,
}

/// Why a file was not read.
#[derive(Clone, Copy, Debug, PartialEq, Eq, thiserror::Error)]
pub enum InputFault {
    /// It can't be opened, or a read failed.
    #[error("ReadFailed")]
    ReadFailed(ReadFailure),
    /// It has more bytes than a file may have.
    #[error("TooBig")]
    TooBig,
    /// There is no memory for it.
    #[error("Memory")]
    Memory,
}

/// Not all of a text was taken.
#[derive(Clone, Copy, Debug, PartialEq, Eq, thiserror::Error)]
#[error("WriteFailed {written}")]
pub struct WriteFault {
    /// The bytes that went out.
    pub written: usize,
}

/// What the system says of a failure of this kind.
fn failure(kind: ErrorKind) -> ReadFailure
    ensures { result ≡ failure kind }
{
    match kind {
        ErrorKind::NotFound => ReadFailure::Missing,
        ErrorKind::NotADirectory => ReadFailure::NotAFolder,
        ErrorKind::IsADirectory => ReadFailure::IsAFolder,
        ErrorKind::PermissionDenied => ReadFailure::Denied,
        _ => ReadFailure::Other,
    }
}

/// The fault of a read that failed, or of a file that can't be opened.
pub fn read_fault(error: &io::Error) -> InputFault
    ensures { result ≡ read_fault (error_kind error.now) }
{
    match error.kind() {
        ErrorKind::OutOfMemory => InputFault::Memory,
        kind => InputFault::ReadFailed(failure(kind)),
    }
}

/// What bytes are read from.
pub trait Source {
    // The bytes that reads will give from here on, where they are known.
    ghost remaining: { Self → Option (List ℕ) };
    // How many reads there were, where they are counted.
    ghost reads: { Self → Option ℕ };
    // How many of them failed, where that is counted.
    ghost failures: { Self → Option ℕ };

    /// One read: how many bytes came, none at the end.
    fn read_some(&mut self, buffer: &mut [u8]) -> Result<usize, InputFault>
        ensures kept { length buffer.new ≡ length buffer.old }
        ensures some { IfOk result (λ count. (count ≤ length buffer.old)
            × Consumes (remaining self.old) (remaining self.new) (take count buffer.new)) }
        ensures end { IfOk result (λ count. count ≡ 0 → 0 < length buffer.old
            → IsAtEnd (remaining self.new)) }
        ensures err { OnErr result (Keeps (remaining self.old) (remaining self.new)) }
        ensures fault { IfErr result (λ fault. fault ≡ InputFault.TooBig → ⊥) }
        ensures counted { IsOneMore (reads self.old) (reads self.new) }
        ensures passed { OnOk result (failures self.new ≡ failures self.old) }
        ensures failed { OnErr result (IsOneMore (failures self.old) (failures self.new)) };
}

/// A reader of std. A read that is interrupted is tried again.
impl<R: Read> Source for R {
    ghost remaining = { R.Read.remaining };

    ghost reads = { λ _. None };

    ghost failures = { λ _. None };

    fn read_some(&mut self, buffer: &mut [u8]) -> Result<usize, InputFault> {
        for _ in 0..u64::MAX {
            match self.read(buffer) {
                Ok(count) => return Ok(count),
                Err(error) => {
                    if error.kind() != ErrorKind::Interrupted {
                        return Err(read_fault(&error));
                    }
                }
            }
        }
        Err(InputFault::ReadFailed(ReadFailure::Other))
    }
}

/// How many bytes are asked for at once, at most.
const BUFFER: usize = 4096;

/// All bytes of a source, or `TooBig` if there are more than the limit.
pub fn read_all<S: Source>(alloc: Global, source: &mut S, limit: u32) -> Result<Vec<u8>, InputFault>
    // Where it is known what there is to read, that was read.
    ensures whole { IfOk result
        (λ bytes. IfSome (S.remaining source.old) (λ known. bytes.items ≡ known)) }
    ensures within { IfOk result (λ bytes. vec_len bytes ≤ limit) }
    ensures too_big { IfErr result (λ fault. fault ≡ InputFault.TooBig
        → IfSome (S.remaining source.old) (λ known. limit < length known)) }
    // One byte more than the limit is read at most.
    ensures few { LosesAtMost (S.remaining source.old) (S.remaining source.new) (limit + 1) }
    // So many reads are made at most.
    ensures often { IsAtMostMore (S.reads source.old) (S.reads source.new) (limit + 1) }
    // Bytes are returned only if no read failed.
    ensures passed { OnOk result (S.failures source.new ≡ S.failures source.old) }
    // A failed read is reported only if a read failed.
    ensures failed { IfErr result (λ fault. IsFailedRead fault
        → IsOneMore (S.failures source.old) (S.failures source.new)) }
{
    let mut bytes = Vec::new(alloc);
    let mut buffer = [0u8; BUFFER];
    while bytes.len() <= limit as usize {
        let room = (limit as usize + 1 - bytes.len()).min(BUFFER);
        let count = source.read_some(&mut buffer[..room])?;
        if count == 0 {
            return Ok(bytes);
        }
        if bytes.extend_from_slice(&buffer[..count]).is_err() {
            return Err(InputFault::Memory);
        }
    }
    Err(InputFault::TooBig)
}

/// What bytes are written to.
pub trait Sink {
    // The bytes that it holds, where they are known.
    ghost contents: { Self → Option (List ℕ) };
    // How many writes there were, where they are counted.
    ghost writes: { Self → Option ℕ };
    // How many writes and flushes failed, where that is counted.
    ghost failures: { Self → Option ℕ };

    /// One write: how many bytes were taken, at least one; nothing if it failed.
    fn write_some(&mut self, text: &[u8]) -> Option<usize>
        ensures some { IfSome result (λ count. (count ≤ length text.now)
            × Appends (contents self.old) (contents self.new) (take count text.now)) }
        ensures more { IfSome result (λ count. 0 < count) }
        ensures none { IfNone result (Keeps (contents self.old) (contents self.new)) }
        ensures counted { IsOneMore (writes self.old) (writes self.new) }
        ensures passed { IfSome result (λ _. failures self.new ≡ failures self.old) }
        ensures failed { IfNone result (IsOneMore (failures self.old) (failures self.new)) };

    /// Whether all that was written was passed on.
    fn is_flushed(&mut self) -> bool
        ensures kept { Keeps (contents self.old) (contents self.new) }
        ensures counted { writes self.new ≡ writes self.old }
        ensures passed { result ≡ true → failures self.new ≡ failures self.old }
        ensures failed { result ≡ false → IsOneMore (failures self.old) (failures self.new) };
}

/// A writer of std. A write or a flush that is interrupted is tried again, and a write that takes
/// no byte is a failure.
impl<W: Write> Sink for W {
    ghost contents = { W.Write.contents };

    ghost writes = { λ _. None };

    ghost failures = { λ _. None };

    fn write_some(&mut self, text: &[u8]) -> Option<usize> {
        for _ in 0..u64::MAX {
            match self.write(text) {
                Ok(0) => return None,
                Ok(count) => return Some(count),
                Err(error) => {
                    if error.kind() != ErrorKind::Interrupted {
                        return None;
                    }
                }
            }
        }
        None
    }

    fn is_flushed(&mut self) -> bool {
        for _ in 0..u64::MAX {
            match self.flush() {
                Ok(()) => return true,
                Err(error) => {
                    if error.kind() != ErrorKind::Interrupted {
                        return false;
                    }
                }
            }
        }
        false
    }
}

/// Writes the whole text.
pub fn write_text<S: Sink>(sink: &mut S, text: &[u8]) -> Result<(), WriteFault>
    // All of the text was appended.
    ensures whole { OnOk result (Appends (S.contents sink.old) (S.contents sink.new) text.now) }
    // Else the bytes that the fault counts were.
    ensures cut { IfErr result
        (λ fault. Appends (S.contents sink.old) (S.contents sink.new)
        (take fault.written text.now)) }
    // They are bytes of the text.
    ensures within { IfErr result (λ fault. fault.written ≤ length text.now) }
    // There are at most as many writes as bytes.
    ensures often { IsAtMostMore (S.writes sink.old) (S.writes sink.new) (length text.now) }
    // It is done only if no write and no flush failed.
    ensures passed { OnOk result (S.failures sink.new ≡ S.failures sink.old) }
    // A fault is reported only if one failed.
    ensures failed { OnErr result (IsOneMore (S.failures sink.old) (S.failures sink.new)) }
{
    let mut written = 0;
    while written < text.len() {
        let Some(count) = sink.write_some(&text[written..]) else {
            return Err(WriteFault { written });
        };
        written += count;
    }
    if sink.is_flushed() {
        Ok(())
    } else {
        Err(WriteFault { written })
    }
}
