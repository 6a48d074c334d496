//! The ten rules by name and number.

ghost use Rattle.std.specs.Prelude.{◌≡◌, ◌<◌, ◌≤◌};
ghost use Rattle.mrc_classes.specs.Missing.{rule_number};

/// One of the ten rules.
#[derive(Clone, Copy, Debug, PartialEq, Eq)]
pub enum RuleName {
    /// What a task holds at first.
    First,
    /// A task may hold the receive right of a port of its births.
    Births,
    /// Send and send-once rights are made from a receive right.
    Weaker,
    /// A slot of a form carries what its type admits.
    Slot,
    /// A routine's request carries a reply right.
    Reply,
    /// What is carried can be received.
    Received,
    /// Who holds a send right to a task's kernel port takes what the task may hold, and gives it
    /// what it may hold itself.
    KernelPort,
    /// A port's receiver can ask for a port-destroyed notice.
    Request,
    /// A port-destroyed notice carries the receive right.
    Notice,
    /// A port's receiver can get the right of the request before.
    Returned,
}

impl RuleName {
    /// The rule's number among the ten, as K1 is printed.
    pub fn number(self) -> u8
        ensures { result ≡ rule_number self }
    {
        match self {
            RuleName::First => 1,
            RuleName::Births => 2,
            RuleName::Weaker => 3,
            RuleName::Slot => 4,
            RuleName::Reply => 5,
            RuleName::Received => 6,
            RuleName::KernelPort => 7,
            RuleName::Request => 8,
            RuleName::Notice => 9,
            RuleName::Returned => 10,
        }
    }
}

/// The rule of a number from 1 to 10.
pub(crate) fn rule_of(number: u8) -> RuleName
    requires some { 1 ≤ number }
    requires within { number ≤ 10 }
    ensures { rule_number result ≡ number }
{
    match number {
        1 => RuleName::First,
        2 => RuleName::Births,
        3 => RuleName::Weaker,
        4 => RuleName::Slot,
        5 => RuleName::Reply,
        6 => RuleName::Received,
        7 => RuleName::KernelPort,
        8 => RuleName::Request,
        9 => RuleName::Notice,
        _ => RuleName::Returned,
    }
}
