//! Chains as trees, from their conclusions down.

ghost use Rattle.std.specs.Prelude.{◌≡◌, ◌++◌, OnOk, IfOk};
ghost use Rattle.mrc_why.specs.Trees.{below, told_first, turn, at_first, tree_lines};

use mrc_closure::{Places, Step};
use std::alloc::{AllocError, Global};
use std::collections::VecDeque;
use std::marker::Model;

/// A line of a tree.
#[derive(Clone, Copy, Debug, PartialEq, Eq)]
pub(crate) struct TreeLine {
    /// How deep it stands: 0 for the conclusion.
    pub(crate) depth: usize,
    /// The place of the step that it tells, in the chain.
    pub(crate) place: usize,
    /// The number of the earlier line that has told the step, if one has. They count from 1.
    pub(crate) seen: Option<usize>,
}

/// A step that is still to be told.
#[derive(Clone, Copy, Debug)]
pub(crate) struct Waiting {
    pub(crate) depth: usize,
    pub(crate) place: usize,
}

/// What was told so far, and what is still to be told.
#[derive(Drop)]
struct Telling {
    told: Vec<Option<usize>>,
    lines: Vec<TreeLine>,
    waiting: VecDeque<Waiting>,
}

impl Model for Telling {
    ghost use Rattle.mrc_why.specs.Trees as trees;

    ghost Value = { trees.Telling };

    ghost view = { λ t. record {
      told = t.told.items;
      lines = t.lines.items;
      waiting = t.waiting.items;
    } };
}

/// Puts the premises before what is still to be told.
fn put_below(
    waiting: &mut VecDeque<Waiting>,
    depth: usize,
    premises: Places,
) -> Result<(), AllocError>
    ensures { OnOk result (waiting.new.items ≡ below depth premises ++ waiting.old.items) }
{
    match premises {
        Places::Empty => {}
        Places::One(one) => {
            waiting.push_front(Waiting { depth, place: one })?;
        }
        Places::Two(one, other) => {
            if one != other {
                waiting.push_front(Waiting {
                    depth,
                    place: other,
                })?;
            }
            waiting.push_front(Waiting { depth, place: one })?;
        }
    }
    Ok(())
}

impl Telling {
    /// Nothing was told, and the last step is to be told.
    fn new(alloc: Global, steps: &[Step]) -> Result<Telling, AllocError>
        ensures { IfOk result (λ telling. telling ≡ at_first steps.now) }
    {
        let mut waiting = VecDeque::new(alloc);
        waiting.push_back(Waiting {
            depth: 0,
            place: steps.len().saturating_sub(1),
        })?;
        Ok(Telling {
            told: vec![in alloc; None; steps.len()]?,
            lines: Vec::new(alloc),
            waiting,
        })
    }

    /// Tells a step for the first time.
    fn tell(&mut self, next: Waiting, premises: Places) -> Result<(), AllocError>
        ensures { OnOk result (self.new ≡ told_first self.old next self.old.waiting premises) }
    {
        let number = self.lines.len() + 1;
        if let Some(told) = self.told.get_mut(next.place) {
            *told = Some(number);
        }
        self.lines.push(TreeLine {
            depth: next.depth,
            place: next.place,
            seen: None,
        })?;
        put_below(&mut self.waiting, next.depth.saturating_add(1), premises)
    }

    /// One turn: a line more, where something is still to be told.
    fn turn(&mut self, steps: &[Step]) -> Result<(), AllocError>
        ensures { OnOk result (self.new ≡ turn steps.now self.old) }
    {
        let Some(next) = self.waiting.pop_front() else {
            return Ok(());
        };
        match self.told.get(next.place).copied() {
            Some(Some(number)) => {
                self.lines.push(TreeLine {
                    depth: next.depth,
                    place: next.place,
                    seen: Some(number),
                })?;
            }
            Some(None) => {
                if let Some(step) = steps.get(next.place) {
                    self.tell(next, step.premises)?;
                }
            }
            None => {}
        }
        Ok(())
    }
}

/// The lines of a chain, from its last step down.
pub(crate) fn tree_lines(alloc: Global, steps: &[Step]) -> Result<Vec<TreeLine>, AllocError>
    ensures { IfOk result (λ lines. lines.items ≡ tree_lines steps.now) }
{
    let mut telling = Telling::new(alloc, steps)?;
    for _ in 0..2 * steps.len() + 1 {
        telling.turn(steps)?;
    }
    let Telling { lines, .. } = telling;
    Ok(lines)
}
