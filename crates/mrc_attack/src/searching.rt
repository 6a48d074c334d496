//! Chains are played, the best first, until one of them breaks the line.

use crate::actions::Action;
use crate::calls::script_text;
use crate::play::{Mark, Play};
use crate::printing::Listing;
use crate::run::Run;
use crate::step::turn;
use mrc_base::Fact;
use mrc_classes::Rules;
use mrc_closure::Step;
use mrc_why::{chain_without, forbidden_fact};
use mrc_wiring::{ForbiddenLine, Wired};
use std::alloc::{AllocError, Global};

/// How often other chains are looked for at most.
const CLOSURES: usize = 100;

/// What is told how far a search has come.
pub trait Progress {
    /// So many chains were played since the search for the line began.
    fn played(&mut self, chains: usize);
}

/// What the searches of a policy's lines share.
#[derive(Drop)]
pub(crate) struct Hunt<'a> {
    pub(crate) wired: &'a Wired,
    pub(crate) rules: &'a Rules,
    pub(crate) listing: Listing,
    /// How many chains are played at most.
    pub(crate) most: usize,
}

/// What a search brings: lines of calls, not yet judged, and whether a bound cut it.
#[derive(Drop)]
pub(crate) struct Brought {
    pub(crate) script: Option<String>,
    pub(crate) cut: bool,
}

/// Facts that no step of a chain may conclude, how far that is from the first chain, and once it
/// was looked for the chain: no steps if there is none.
#[derive(Drop)]
struct Way {
    barred: Vec<Fact>,
    depth: usize,
    steps: Vec<Step>,
}

/// How far the search for a line has come.
#[derive(Drop)]
pub(crate) struct Search<'a> {
    pub(crate) alloc: Global,
    pub(crate) hunt: &'a Hunt<'a>,
    pub(crate) line: &'a ForbiddenLine,
    /// The chain that is printed.
    first: &'a [Step],
    open: Vec<Way>,
    done: Vec<Way>,
    played: usize,
}

impl Way {
    /// Whether nothing new comes of a way without these facts: this one, which is without some of
    /// them, has no chain, or its chain has none of them.
    fn covers(&self, barred: &[Fact]) -> bool {
        self.barred.iter().all(|fact| barred.contains(fact))
            && !self.steps.iter().any(|step| barred.contains(&step.fact))
    }
}

impl Search<'_> {
    /// Adds the way without these facts, if something new may come of it.
    fn add(&mut self, mut barred: Vec<Fact>, depth: usize) -> Result<(), AllocError> {
        barred.sort()?;
        let is_open = self.open.iter().any(|way| way.barred == barred);
        if !is_open && !self.done.iter().any(|way| way.covers(&barred)) {
            self.open.push(Way {
                barred,
                depth,
                steps: Vec::new(self.alloc),
            })?;
        }
        Ok(())
    }

    /// Takes the best way that is open: the nearest, and of these the first.
    fn best(&mut self) -> Option<Way> {
        let least = self.open.iter().map(|way| way.depth).min()?;
        let place = self.open.iter().position(|way| way.depth == least)?;
        Some(self.open.remove(place))
    }

    /// Looks for the chain of a way. Answers whether there is one that was not played yet.
    fn find(&self, way: &mut Way) -> Result<bool, AllocError> {
        if way.barred.is_empty() {
            way.steps = self.first.to_vec(self.alloc)?;
            return Ok(true);
        }
        let goal = forbidden_fact(self.line);
        let Some(steps) = chain_without(self.alloc, self.hunt.rules, goal, &way.barred)? else {
            return Ok(false);
        };
        way.steps = steps;
        Ok(!self.done.iter().any(|done| done.steps == way.steps))
    }

    /// Adds the ways without one of the steps: culprits first, and moves before other steps.
    fn go_on(&mut self, way: &Way, marks: &[Mark]) -> Result<(), AllocError> {
        let steps = way.steps.iter().zip(marks);
        let steps = steps.filter(|&(step, _)| turn(step) < 3);
        let mut order: Vec<(bool, u8, Fact)> = steps
            .map(|(step, mark)| (!mark.is_culprit, 2u8.saturating_sub(turn(step)), step.fact))
            .collect(self.alloc)?;
        order.sort_by_key(|one| (one.0, one.1))?;
        for (is_other, _, fact) in &order {
            let mut barred = way.barred.to_vec(self.alloc)?;
            barred.push(*fact)?;
            self.add(
                barred,
                way.depth.saturating_add(if *is_other { 2 } else { 1 }),
            )?;
        }
        Ok(())
    }

    /// What comes of a chain: its actions if they break the line. Else the ways without its steps
    /// are added.
    fn outcome(
        &mut self,
        way: &Way,
        play: &mut Play<'_>,
    ) -> Result<Option<Vec<Action>>, AllocError> {
        if play.play()? {
            return Ok(Some(play.run.actions.to_vec(self.alloc)?));
        }
        play.blame_all();
        self.go_on(way, &play.marks)?;
        Ok(None)
    }

    /// Plays the chain of a way from the first state on.
    fn play(&mut self, way: &Way) -> Result<Option<Vec<Action>>, AllocError> {
        let mut play = Play::new(self, &way.steps)?;
        let came = self.outcome(way, &mut play);
        drop(play);
        came
    }

    /// Tries a way.
    fn try_way<P: Progress>(
        &mut self,
        way: &mut Way,
        progress: &mut P,
    ) -> Result<Option<Vec<Action>>, AllocError> {
        let mut actions = None;
        if self.find(way)? {
            self.played = self.played.saturating_add(1);
            progress.played(self.played);
            actions = self.play(way)?;
        }
        self.open.retain(|other| !way.covers(&other.barred));
        Ok(actions)
    }

    /// Plays chains, the best first, until one of them breaks the line by its actions.
    fn play_all<P: Progress>(
        &mut self,
        progress: &mut P,
    ) -> Result<Option<Vec<Action>>, AllocError> {
        for _ in 0..CLOSURES.saturating_add(1) {
            if self.played >= self.hunt.most {
                return Ok(None);
            }
            let Some(mut way) = self.best() else {
                return Ok(None);
            };
            let actions = self.try_way(&mut way, progress)?;
            if actions.is_some() {
                return Ok(actions);
            }
            self.done.push(way)?;
        }
        Ok(None)
    }

    /// As few as can be of the actions, as lines of calls.
    fn script(&self, actions: Vec<Action>) -> Result<Option<String>, AllocError> {
        let actions = self.shortened(actions)?;
        let mut run = Run::new(self.alloc, self.hunt.wired)?;
        let script = script_text(&mut run, self.hunt.listing, &actions);
        drop(run);
        script
    }
}

/// Searches. The chain that is printed is played first.
pub(crate) fn searched<P: Progress>(
    alloc: Global,
    hunt: &Hunt<'_>,
    line: &ForbiddenLine,
    first: &[Step],
    progress: &mut P,
) -> Result<Brought, AllocError> {
    let mut search = Search {
        alloc,
        hunt,
        line,
        first,
        open: Vec::new(alloc),
        done: Vec::new(alloc),
        played: 0,
    };
    search.add(Vec::new(alloc), 0)?;
    let script = match search.play_all(progress)? {
        Some(actions) => search.script(actions)?,
        None => None,
    };
    let cut = !search.open.is_empty();
    Ok(Brought { script, cut })
}
