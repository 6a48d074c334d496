//! What is looked for.

ghost use Rattle.std.specs.Prelude.{◌≡◌};
ghost use Rattle.std.specs.Option.{option_to_list};
ghost use Rattle.mrc_attack.specs.Attacks.{rewriting_aim, exposed_aims, broken_aim};

use mrc_base::Fact;
use mrc_closure::Step;
use mrc_why::{Broken, Exposed};
use mrc_wiring::ForbiddenLine;

/// What an attack is looked for: that a line is broken.
#[derive(Clone, Copy, Debug, PartialEq, Eq)]
pub struct Aim {
    /// Whether the number is that of a trust line, about a task that another could rewrite. Else
    /// it is that of a line of the policy.
    pub trusted: bool,
    /// The line. For a trusted task it forbids the hold by which another could rewrite it.
    pub line: ForbiddenLine,
}

/// What is looked for if a trusted task could be rewritten by this hold.
fn rewriting_aim(line: u32, fact: Fact) -> Option<Aim>
    ensures { result ≡ rewriting_aim line fact }
{
    match fact {
        Fact::Hold { task, class, right } => Some(Aim {
            trusted: true,
            line: ForbiddenLine {
                line,
                task,
                right,
                class,
            },
        }),
        Fact::Carry { .. } | Fact::Backup { .. } => None,
    }
}

/// What is looked for if a trusted task could be rewritten, with the chain: nothing if there is no
/// such task, or if one line is asked for.
pub(crate) fn exposed_aim(only: Option<u32>, exposed: &Option<Exposed>) -> (Option<Aim>, &[Step])
    ensures { option_to_list result.0 ≡ exposed_aims only exposed.now }
{
    match (only, exposed) {
        (None, Some(exposed)) => (
            rewriting_aim(exposed.line(), exposed.fact()),
            exposed.steps(),
        ),
        _ => (None, &[]),
    }
}

/// What is looked for if a line is broken: nothing if another number is asked for.
pub(crate) fn broken_aim(only: Option<u32>, broken: &Broken) -> Option<Aim>
    ensures { result ≡ broken_aim only broken.now }
{
    let line = *broken.line();
    match only {
        Some(number) if line.line != number => None,
        _ => Some(Aim {
            trusted: false,
            line,
        }),
    }
}
