//! Where a step of a chain comes from in the files of a system.

/// The names of a slot: of its subsystem, the routine, the argument and its type.
#[derive(Clone, Copy, Debug, PartialEq, Eq)]
pub struct SlotNames<'a> {
    /// The subsystem.
    pub subsystem: &'a str,
    /// The routine whose request or reply has the slot.
    pub routine: &'a str,
    /// The argument.
    pub argument: &'a str,
    /// The argument's type, one of the subsystem.
    pub type_name: &'a str,
}

/// Where a step comes from in the files of a system.
#[derive(Clone, Copy, Debug, PartialEq, Eq)]
pub enum Source<'a> {
    /// Of rule K1: the line of the wiring of this number, counted from 1.
    Line(u32),
    /// Of rule K4: a slot that lets the right pass.
    Slot(SlotNames<'a>),
    /// Of rule K5: the subsystem of this name, whose request brings the reply right.
    Subsystem(&'a str),
    /// Of rule K7: the task of this name, whose kernel port is held.
    KernelPort(&'a str),
}
