//! What a drawing is made of: facts of a wiring, those that K1 gives, and those that a policy
//! forbids.

use crate::sets::{forbidden_holds, set_of};
use mrc_base::{ClassId, Fact, PortRight};
use mrc_rows::Facts;
use mrc_wiring::{ForbiddenLine, Wired};
use std::alloc::{AllocError, Global};

/// The facts that are drawn, over their wiring.
#[derive(Drop)]
pub(crate) struct Drawing<'a> {
    pub(crate) wired: &'a Wired,
    pub(crate) facts: &'a Facts,
    pub(crate) first: Facts,
    pub(crate) forbidden: Facts,
}

/// How a hold is drawn.
#[derive(Clone, Copy, Debug)]
pub(crate) struct Style {
    /// K1 gives it.
    pub(crate) first: bool,
    /// The policy forbids it.
    pub(crate) forbidden: bool,
}

/// The styles, in the order in which edges of one pair are drawn.
pub(crate) const STYLES: [Style; 4] = [
    Style {
        first: true,
        forbidden: false,
    },
    Style {
        first: false,
        forbidden: false,
    },
    Style {
        first: true,
        forbidden: true,
    },
    Style {
        first: false,
        forbidden: true,
    },
];

/// The drawing of the facts, where a policy has these lines.
pub(crate) fn drawing_of<'a>(
    alloc: Global,
    wired: &'a Wired,
    facts: &'a Facts,
    lines: &[ForbiddenLine],
) -> Result<Drawing<'a>, AllocError> {
    let first = wired.first_holdings(alloc)?;
    let forbidden = forbidden_holds(alloc, lines)?;
    Ok(Drawing {
        wired,
        facts,
        first: set_of(alloc, first.as_slice())?,
        forbidden: set_of(alloc, forbidden.as_slice())?,
    })
}

/// Whether both are true, or both false.
fn agree(one: bool, other: bool) -> bool {
    if one { other } else { !other }
}

/// Whether the task holds the right on the class, by a fact of the style.
pub(crate) fn holds_so(
    drawing: &Drawing<'_>,
    task: u16,
    class: ClassId,
    style: Style,
    right: PortRight,
) -> bool {
    let hold = Fact::Hold { task, class, right };
    drawing.facts.has(&hold)
        && agree(style.first, drawing.first.has(&hold))
        && agree(style.forbidden, drawing.forbidden.has(&hold))
}

/// Whether both tasks hold the right on the class, or neither does.
pub(crate) fn holds_alike(
    drawing: &Drawing<'_>,
    task: u16,
    other: u16,
    class: ClassId,
    right: PortRight,
) -> bool {
    let one = Fact::Hold { task, class, right };
    let two = Fact::Hold {
        task: other,
        class,
        right,
    };
    agree(drawing.facts.has(&one), drawing.facts.has(&two))
}

/// Whether one of the tasks holds the right on the class, by a fact of the style.
pub(crate) fn is_held(
    drawing: &Drawing<'_>,
    tasks: &[u16],
    class: ClassId,
    style: Style,
    right: PortRight,
) -> bool {
    tasks
        .iter()
        .any(|task| holds_so(drawing, *task, class, style, right))
}
