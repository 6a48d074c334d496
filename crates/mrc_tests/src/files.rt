//! Readers and writers that give or take few bytes a call, are interrupted, and fail in mid-stream.

use mrc_files::{InputFault, ReadFailure, WriteFault, read_all, write_text};
use std::alloc::Global;
use std::io;
use std::io::{ErrorKind, Read, Write};

/// A reader that gives so many zeros, two a read at most, and then the end or an error; it is
/// interrupted first.
#[derive(Drop)]
struct Zeros {
    interrupted: bool,
    left: usize,
    last: Option<ErrorKind>,
}

impl Read for Zeros {
    fn read(&mut self, buf: &mut [u8]) -> io::Result<usize> {
        if !self.interrupted {
            self.interrupted = true;
            return Err(io::Error::from(ErrorKind::Interrupted));
        }
        if self.left == 0 {
            return match self.last {
                Some(kind) => Err(io::Error::from(kind)),
                None => Ok(0),
            };
        }
        let count = self.left.min(buf.len()).min(2);
        buf[..count].fill(0);
        self.left -= count;
        Ok(count)
    }
}

/// How many bytes are read of a reader of so many zeros if 4 are allowed, and what is left.
fn zeros_read(
    alloc: Global,
    left: usize,
    last: Option<ErrorKind>,
) -> (Result<usize, InputFault>, usize) {
    let mut reader = Zeros {
        interrupted: false,
        left,
        last,
    };
    let read = read_all(alloc, &mut reader, 4);
    (read.map(|bytes| bytes.len()), reader.left)
}

// The limit itself is allowed, and one byte more is read at most. A read that is interrupted is
// tried again; one that fails is a fault, also after other reads, and out of memory is another.
#[test]
fn reads(rt: HostRuntime) {
    let broken = Some(ErrorKind::BrokenPipe);
    let failed: Result<usize, InputFault> = Err(InputFault::ReadFailed(ReadFailure::Other));
    for (left, last, want, rest) in [
        (0, None, Ok(0), 0),
        (4, None, Ok(4), 0),
        (5, None, Err(InputFault::TooBig), 0),
        (9, broken, Err(InputFault::TooBig), 4),
        (
            3,
            broken,
            Err(InputFault::ReadFailed(ReadFailure::Other)),
            0,
        ),
        (3, Some(ErrorKind::OutOfMemory), Err(InputFault::Memory), 0),
    ] {
        assert_eq!(rt; zeros_read(rt.alloc(), left, last), (want, rest));
    }
}

/// A writer that fails as each of its turns says: it is interrupted, takes a byte, or fails.
#[derive(Drop)]
struct Turned<'a> {
    turns: &'a [Option<ErrorKind>],
    taken: Vec<u8>,
}

impl Turned<'_> {
    /// The next turn, if there is one.
    fn next(&mut self) -> Option<Option<ErrorKind>> {
        let (turn, later) = self.turns.split_first()?;
        self.turns = later;
        Some(*turn)
    }
}

impl Write for Turned<'_> {
    fn write(&mut self, buf: &[u8]) -> io::Result<usize> {
        let (Some(turn), Some(byte)) = (self.next(), buf.first()) else {
            return Ok(0);
        };
        if let Some(kind) = turn {
            return Err(io::Error::from(kind));
        }
        self.taken.push(*byte)?;
        Ok(1)
    }

    fn flush(&mut self) -> io::Result<()> {
        match self.next() {
            Some(Some(kind)) => Err(io::Error::from(kind)),
            _ => Ok(()),
        }
    }
}

/// What is answered if two bytes are written in these turns, and which of them were taken.
fn written(alloc: Global, turns: &[Option<ErrorKind>]) -> (Result<(), WriteFault>, Vec<u8>) {
    let mut writer = Turned {
        turns,
        taken: Vec::new(alloc),
    };
    (write_text(&mut writer, b"ab"), writer.taken)
}

// A write and a flush that are interrupted are tried again; a write that fails is not, and one that
// takes no byte is a failure.
#[test]
fn writes(rt: HostRuntime) {
    let again = Some(ErrorKind::Interrupted);
    let broken = Some(ErrorKind::BrokenPipe);
    let whole = [again, None, again, None, again, None];
    let cut = [again, None, again, broken, None];
    let unflushed = [None, None, again, broken];
    let stuck = [None, again];
    for (turns, taken, want) in [
        (whole.as_slice(), b"ab".as_slice(), Ok(())),
        (cut.as_slice(), b"a".as_slice(), Err(1)),
        (unflushed.as_slice(), b"ab".as_slice(), Err(2)),
        (stuck.as_slice(), b"a".as_slice(), Err(1)),
    ] {
        let (answer, bytes) = written(rt.alloc(), turns);
        assert_eq!(rt; answer.map_err(|fault| fault.written), want);
        assert_eq!(rt; bytes.as_slice(), taken);
    }
}
