//! Actions that are left out while the others break the line.

use crate::actions::Action;
use crate::run::Run;
use crate::searching::Search;
use mrc_wiring::ForbiddenLine;
use std::alloc::AllocError;

/// How far the second of two actions that are left out may be from the first.
const NEAR: usize = 6;

impl Run<'_> {
    /// Does the actions, with names as they come. Answers whether each can be done and the line is
    /// broken then.
    fn breaks_by(&mut self, line: &ForbiddenLine, actions: &[Action]) -> Result<bool, AllocError> {
        for action in actions {
            if !self.act(action)? {
                return Ok(false);
            }
        }
        self.breaks(line)
    }
}

impl Search<'_> {
    /// Whether the actions break the line, from the first state on.
    fn is_breaking(&self, actions: &[Action]) -> Result<bool, AllocError> {
        let mut run = Run::new(self.alloc, self.hunt.wired)?;
        let is = run.breaks_by(self.line, actions);
        drop(run);
        is
    }

    /// The actions without that of the place, and if need be without one that is not far before it.
    fn shorter_at(
        &self,
        actions: &[Action],
        place: usize,
    ) -> Result<Option<Vec<Action>>, AllocError> {
        for other in (place.saturating_sub(NEAR - 1)..=place).rev() {
            let all = actions.iter().enumerate();
            let others = all.filter(|&(number, _)| number != place && number != other);
            let rest: Vec<Action> = others.map(|(_, action)| *action).collect(self.alloc)?;
            if self.is_breaking(&rest)? {
                return Ok(Some(rest));
            }
        }
        Ok(None)
    }

    /// Actions are left out, one or two at a time, as long as the others break the line.
    pub(crate) fn shortened(&self, actions: Vec<Action>) -> Result<Vec<Action>, AllocError> {
        let mut best = actions;
        for place in (0..best.len()).rev() {
            if place < best.len() {
                if let Some(rest) = self.shorter_at(&best, place)? {
                    best = rest;
                }
            }
        }
        Ok(best)
    }
}
