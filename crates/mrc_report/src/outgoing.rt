//! Text on its way to a sink.

ghost use Rattle.std.specs.Prelude.{◌≡◌, ◌+◌, ◌<◌, ◌^◌, [], ◌++◌, IfErr, OnOk, length};
ghost use Rattle.std.specs.Prelude.{string_bytes, string_len};
ghost use Rattle.mrc_report.specs.Output.{HasFailed, IsOut, IsPartOut, written};

use mrc_files::{Sink, write_text};
use std::alloc::Global;
use thiserror::Error;

/// Why a text was not printed to its end, and how many of its bytes went out.
#[derive(Clone, Copy, Debug, PartialEq, Eq, Error)]
pub enum Unprinted {
    /// Memory ran out behind so many bytes.
    #[error("Memory")]
    Memory(u128),
    /// So many bytes were taken, and then no more.
    #[error("WriteFailed {0}")]
    WriteFailed(u128),
}

/// From so many bytes on what is kept back goes out.
const KEPT: usize = 8192;

/// Text on its way to a sink. Some of it is kept back, so that short lines go out together.
#[derive(Drop)]
pub(crate) struct Outgoing {
    /// What did not go out yet.
    pub(crate) kept: String,
    /// How many bytes went out before.
    pub(crate) written: u128,
}

/// No text.
pub(crate) fn nothing(alloc: Global) -> Outgoing
    ensures kept { string_bytes result.kept ≡ [] }
    ensures len { string_len result.kept ≡ 0 }
    ensures written { result.written ≡ 0 }
{
    Outgoing {
        kept: String::new(alloc),
        written: 0,
    }
}

/// Writes what was kept back.
pub(crate) fn pass_on<S: Sink>(sink: &mut S, out: &mut Outgoing) -> Result<(), Unprinted>
    requires room { out.old.written + string_len out.old.kept < 2 ^ 128 }
    ensures ok { OnOk result (IsOut (S.contents sink.old) (S.contents sink.new) out.old.written
        out.new.written (string_bytes out.old.kept) []) }
    ensures kept { OnOk result (string_bytes out.new.kept ≡ []) }
    ensures len { OnOk result (string_len out.new.kept ≡ 0) }
    ensures err { IfErr result (λ fault. IsPartOut (S.contents sink.old) (S.contents sink.new)
        out.old.written (written fault) (string_bytes out.old.kept)) }
    ensures count { OnOk result (out.new.written ≡ out.old.written + string_len out.old.kept) }
    ensures passed { OnOk result (S.failures sink.new ≡ S.failures sink.old) }
    ensures failed { IfErr result (HasFailed (S.failures sink.old) (S.failures sink.new)) }
{
    match write_text(sink, out.kept.as_bytes()) {
        Ok(()) => {
            out.written += out.kept.len() as u128;
            out.kept.clear();
            Ok(())
        }
        Err(fault) => Err(Unprinted::WriteFailed(out.written + fault.written as u128)),
    }
}

/// Adds a line, and writes what was kept back if that is long.
#[tactic(auto, using(crate::proofs::OutputLaws::none_out, crate::proofs::OutputLaws::none_part))]
pub(crate) fn print<S: Sink>(sink: &mut S, out: &mut Outgoing, line: &str) -> Result<(), Unprinted>
    requires room { out.old.written + (string_len out.old.kept + length line.now) < 2 ^ 128 }
    ensures ok { OnOk result (IsOut (S.contents sink.old) (S.contents sink.new) out.old.written
        out.new.written (string_bytes out.old.kept ++ line.now) (string_bytes out.new.kept)) }
    ensures err { IfErr result (λ fault. IsPartOut (S.contents sink.old) (S.contents sink.new)
        out.old.written (written fault) (string_bytes out.old.kept ++ line.now)) }
    ensures count { OnOk result (out.new.written + string_len out.new.kept
        ≡ out.old.written + (string_len out.old.kept + length line.now)) }
    ensures passed { OnOk result (S.failures sink.new ≡ S.failures sink.old) }
    ensures failed { IfErr result (HasFailed (S.failures sink.old) (S.failures sink.new)) }
{
    if out.kept.push_str(line).is_err() {
        return Err(Unprinted::Memory(out.written));
    }
    if out.kept.len() < KEPT {
        return Ok(());
    }
    pass_on(sink, out)
}
