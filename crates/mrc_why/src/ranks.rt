//! The facts of a least set: which round finds each, and how many steps it takes.
//!
//! The ranks of a row of facts are side by side, as its bits are in `mrc_rows`: a row is a task and
//! a right, a class and a right, or the backups of a class; a place in it is the number of a class.
//! So the rank of a fact is found without a search.

ghost use Rattle.std.specs.Prelude.{◌<◌, ◌^◌};

use mrc_base::{Fact, PortRight};
use mrc_closure::Rounds;
use mrc_rows::limits::{FIRST_ROW_OF_BACKUPS, FIRST_ROW_OF_CARRIES};
use std::alloc::{AllocError, Global};

/// The round that finds a fact, counted from 1, and how many steps the fact takes: 0 if that is not
/// known.
#[derive(Clone, Copy, Debug)]
pub(crate) struct Rank {
    pub(crate) round: u32,
    pub(crate) steps: u32,
}

/// The rank of what no round finds.
const NONE: Rank = Rank { round: 0, steps: 0 };

/// The ranks of the facts that rounds find.
#[derive(Drop)]
pub(crate) struct Ranks {
    rows: Vec<Vec<Rank>>,
}

/// The number of a right.
fn number(right: PortRight) -> usize
    ensures { result < 3 }
{
    match right {
        PortRight::Send => 0,
        PortRight::Receive => 1,
        PortRight::SendOnce => 2,
    }
}

/// The fact's row, and its place there.
fn place_of(fact: &Fact) -> (usize, usize)
    ensures row { result.0 < 2 ^ 20 }
    ensures place { result.1 < 2 ^ 16 }
{
    match *fact {
        Fact::Hold { task, class, right } => {
            (3 * task as usize + number(right), class.0 as usize)
        }
        Fact::Carry {
            destination,
            class,
            right,
        } => (
            FIRST_ROW_OF_CARRIES + 3 * destination.0 as usize + number(right),
            class.0 as usize,
        ),
        Fact::Backup { class, notify } => (
            FIRST_ROW_OF_BACKUPS + class.0 as usize,
            notify.0 as usize,
        ),
    }
}

/// Makes so many rows at least.
fn make_rows(alloc: Global, rows: &mut Vec<Vec<Rank>>, count: usize) -> Result<(), AllocError> {
    for _ in rows.len()..count {
        rows.push(Vec::new(alloc))?;
    }
    Ok(())
}

impl Ranks {
    /// The rank of the fact, if a round finds it.
    pub(crate) fn get(&self, fact: &Fact) -> Option<Rank> {
        let (row, place) = place_of(fact);
        let rank = *self.rows.get(row)?.get(place)?;
        if rank.round == 0 { None } else { Some(rank) }
    }

    /// Keeps the round that finds the fact.
    fn put_round(&mut self, alloc: Global, fact: &Fact, round: u32) -> Result<(), AllocError> {
        let (row, place) = place_of(fact);
        if self.rows.len() <= row {
            make_rows(alloc, &mut self.rows, row + 1)?;
        }
        if let Some(ranks) = self.rows.get_mut(row) {
            if ranks.len() <= place {
                ranks.resize(place + 1, NONE)?;
            }
            if let Some(rank) = ranks.get_mut(place) {
                rank.round = round;
            }
        }
        Ok(())
    }

    /// Keeps how many steps the fact takes.
    pub(crate) fn put_steps(&mut self, fact: &Fact, steps: u32) {
        let (row, place) = place_of(fact);
        if let Some(ranks) = self.rows.get_mut(row) {
            if let Some(rank) = ranks.get_mut(place) {
                rank.steps = steps;
            }
        }
    }
}

/// The rounds that find the facts. No steps are known yet.
pub(crate) fn ranks_of(alloc: Global, rounds: &Rounds) -> Result<Ranks, AllocError> {
    let mut ranks = Ranks {
        rows: Vec::new(alloc),
    };
    let mut ends = rounds.ends().iter();
    let mut end = ends.next();
    let mut round = 1u32;
    for (place, fact) in rounds.order().iter().enumerate() {
        if end.copied() == Some(place) {
            round = round.saturating_add(1);
            end = ends.next();
        }
        ranks.put_round(alloc, fact, round)?;
    }
    Ok(ranks)
}
