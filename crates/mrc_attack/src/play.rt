//! A chain is played: of the steps that are needed still the first that can be done, and those that
//! move a receive right away last. If it can't be played, some of its steps are the culprits.

use crate::run::Run;
use crate::searching::Search;
use crate::step::turn;
use mrc_base::Fact;
use mrc_classes::RuleName;
use mrc_closure::{Places, Step};
use mrc_wiring::ForbiddenLine;
use std::alloc::AllocError;

/// How many steps are done at most, and how often each.
const STEPS: usize = 60;

const TIMES: u8 = 3;

/// How it is with a step.
#[derive(Clone, Copy, Default)]
pub(crate) struct Mark {
    /// Its fact is there.
    is_there: bool,
    /// Its fact is there, or is made where it is used.
    is_usable: bool,
    /// It is needed still.
    is_needed: bool,
    /// How often it, or a part of it, was done.
    times: u8,
    /// The step that took away what this one had brought.
    taker: Option<usize>,
    /// The chain can't be played because of it.
    pub(crate) is_culprit: bool,
}

/// How far a play has come.
#[derive(Drop)]
pub(crate) struct Play<'a> {
    pub(crate) run: Run<'a>,
    line: &'a ForbiddenLine,
    steps: &'a [Step],
    pub(crate) marks: Vec<Mark>,
}

/// The steps that a step needs, of which the second may be the first again.
fn needs(step: &Step) -> Option<[usize; 2]> {
    match step.premises {
        Places::Empty => None,
        Places::One(one) => Some([one, one]),
        Places::Two(one, other) => Some([one, other]),
    }
}

impl<'a> Play<'a> {
    /// The first state.
    pub(crate) fn new(search: &Search<'a>, steps: &'a [Step]) -> Result<Play<'a>, AllocError> {
        let marks = vec![in search.alloc; Mark::default(); steps.len()]?;
        Ok(Play {
            run: Run::new(search.alloc, search.hunt.wired)?,
            line: search.line,
            steps,
            marks,
        })
    }

    /// How it is with the step at the place.
    fn mark(&self, place: usize) -> Mark {
        self.marks.get(place).copied().unwrap_or_default()
    }

    /// Marks which facts are there, and that this step took away those that were.
    fn mark_facts(&mut self, taker: Option<usize>) {
        for (mark, step) in self.marks.iter_mut().zip(self.steps) {
            let is_there = self.run.is_there(&step.fact);
            if mark.is_there && !is_there {
                mark.taker = taker;
            }
            mark.is_there = is_there;
            mark.is_usable = is_there || self.run.is_made(&step.fact);
            mark.is_needed = false;
        }
    }

    /// Marks the steps that this one needs, if it is needed and its fact is not there. What is held
    /// at first can't be had again.
    fn mark_needs(&mut self, place: usize, step: &Step) {
        let Some(mark) = self.marks.get_mut(place) else {
            return;
        };
        mark.is_needed &= !mark.is_there && step.rule != RuleName::First;
        if !mark.is_needed {
            return;
        }
        for place in needs(step).into_iter().flatten() {
            if let Some(need) = self.marks.get_mut(place) {
                need.is_needed = true;
            }
        }
    }

    /// Marks what is there, and which steps are needed still: those for the last one.
    fn look(&mut self, taker: Option<usize>) {
        self.mark_facts(taker);
        if let Some(last) = self.marks.last_mut() {
            last.is_needed = true;
        }
        for (place, step) in self.steps.iter().enumerate().rev() {
            self.mark_needs(place, step);
        }
    }

    /// Whether what the step needs is there. A step that makes something needs it now.
    fn is_ready(&self, step: &Step) -> bool {
        let is_making = turn(step) == 3;
        needs(step).into_iter().flatten().all(|place| {
            let need = self.mark(place);
            need.is_there || need.is_usable && !is_making
        })
    }

    /// The facts of the premises; without premises its own.
    fn premises(&self, step: &Step) -> (Fact, Fact) {
        let fact = |place: usize| self.steps.get(place).unwrap_or(step).fact;
        let [first, last] = needs(step).unwrap_or([usize::MAX; 2]);
        (fact(first), fact(last))
    }

    /// Does the step at the place. Answers whether it or a part of it was done.
    fn do_step(&mut self, place: usize, step: &Step) -> Result<bool, AllocError> {
        let before = self.run.actions.len();
        let (first, last) = self.premises(step);
        let _is_whole = self.run.do_step(step, &first, &last)?;
        if self.run.actions.len() == before {
            return Ok(false);
        }
        if let Some(mark) = self.marks.get_mut(place) {
            mark.times = mark.times.saturating_add(1);
        }
        self.look(Some(place));
        Ok(true)
    }

    /// Does the first step of this turn that is needed and can be done. Answers whether there is
    /// one.
    fn do_turn(&mut self, now: u8) -> Result<bool, AllocError> {
        for (place, step) in self.steps.iter().enumerate() {
            let mark = self.mark(place);
            let is_open = mark.is_needed && mark.times < TIMES;
            if is_open && turn(step) == now && self.is_ready(step) && self.do_step(place, step)? {
                return Ok(true);
            }
        }
        Ok(false)
    }

    /// Plays. Answers whether the line is broken.
    pub(crate) fn play(&mut self) -> Result<bool, AllocError> {
        self.look(None);
        for _ in 0..STEPS {
            if self.run.breaks(self.line)? {
                return Ok(true);
            }
            let is_done = self.do_turn(0)? || self.do_turn(1)? || self.do_turn(2)?;
            if !is_done && !self.do_turn(3)? {
                return Ok(false);
            }
        }
        self.run.breaks(self.line)
    }

    /// Marks a culprit.
    fn accuse(&mut self, place: usize) {
        if let Some(mark) = self.marks.get_mut(place) {
            mark.is_culprit = true;
        }
    }

    /// A step that is needed is a culprit if it has all that it needs; or if it misses what no
    /// other step brings still, and then so is the one that took it away.
    fn blame(&mut self, place: usize, step: &Step) {
        let (mut is_waiting, mut is_robbed) = (false, false);
        for place in needs(step).into_iter().flatten() {
            let need = self.mark(place);
            is_waiting |= !need.is_usable && need.is_needed;
            if !need.is_usable && !need.is_needed {
                is_robbed = true;
                self.accuse(need.taker.unwrap_or(usize::MAX));
            }
        }
        if is_robbed || !is_waiting {
            self.accuse(place);
        }
    }

    /// Marks the steps for which the chain can't be played.
    pub(crate) fn blame_all(&mut self) {
        for (place, step) in self.steps.iter().enumerate() {
            if self.mark(place).is_needed {
                self.blame(place, step);
            }
        }
    }
}
