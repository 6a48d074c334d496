//! The rows of a group of facts, side by side.

ghost use Rattle.std.specs.Prelude.{◌≤◌, length};
ghost use Rattle.mrc_rows.specs.Limits.{limit_of_words};

/// The rows of a group, one for each right. A group of backups has one row alone, that of the first
/// right.
#[derive(Clone, Copy, Debug)]
pub(crate) struct Planes<'a> {
    pub(crate) send: &'a [u64],
    pub(crate) receive: &'a [u64],
    pub(crate) once: &'a [u64],
    ghost few_of_send: { length send.now ≤ limit_of_words },
    ghost few_of_receive: { length receive.now ≤ limit_of_words },
    ghost few_of_once: { length once.now ≤ limit_of_words },
}
