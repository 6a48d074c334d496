//! The lines of a wiring that make its first state, and what each gives.

ghost use Rattle.std.specs.Prelude.{◌≡◌, ◌++◌, ◌∷◌, [], map, slice_get, IsTrue, OnOk, IfOk};
ghost use Rattle.std.specs.Option.{option_map};
ghost use Rattle.mrc_model.specs.FirstHoldings.{given_holdings};
ghost use Rattle.mrc_wiring.specs.Table.{wiring_of};
ghost use Rattle.mrc_why.specs.Lines.{is_first, first_numbers, holding_of, Gives};

use mrc_base::{ClassId, Fact, PortRight};
use mrc_classes::same_right;
use mrc_model::FirstLine;
use mrc_wiring::Wired;
use mrc_wiring_text::{WiringLine, WiringSays};
use std::alloc::{AllocError, Global};
use std::collections::BTreeMap;
use std::marker::Model;

/// What a line gives: a right of a task on the port of this birth number.
#[derive(Clone, Copy, Debug)]
pub(crate) struct Given {
    pub(crate) task: u16,
    pub(crate) port: usize,
    pub(crate) right: PortRight,
}

/// Whether the line makes something of the first state.
fn is_first(says: &WiringSays) -> bool
    ensures { result ≡ is_first says.now }
{
    match says {
        WiringSays::Task(_)
        | WiringSays::Port { .. }
        | WiringSays::HoldPort { .. }
        | WiringSays::HoldTask { .. } => true,
        WiringSays::Births { .. }
        | WiringSays::Admit { .. }
        | WiringSays::Trust { .. }
        | WiringSays::RepliesFit => false,
    }
}

/// The numbers of those of the lines that make the first state.
pub(crate) fn first_numbers(alloc: Global, lines: &[WiringLine]) -> Result<Vec<u32>, AllocError>
    ensures { IfOk result (λ numbers. numbers.items ≡ first_numbers lines.now) }
{
    let mut numbers = Vec::new(alloc);
    for line in lines {
        if is_first(&line.says) {
            numbers.push(line.number)?;
        }
    }
    Ok(numbers)
}

/// Puts what a line gives at the end of the list.
fn give(given: &mut Vec<Given>, task: u16, port: usize, right: PortRight) -> Result<(), AllocError>
    ensures { OnOk result (map holding_of given.new.items ≡ map holding_of given.old.items
        ++ record { task = task; port = port; right = right } ∷ []) }
{
    given.push(Given { task, port, right })?;
    Ok(())
}

/// What each line gives, in the order of the lines that make the first state.
pub(crate) fn given_of(alloc: Global, wired: &Wired) -> Result<Vec<Given>, AllocError>
    ensures { IfOk result (λ given. map holding_of given.items
        ≡ given_holdings (wiring_of wired.now)) }
{
    let _kept = wired.tasks();
    let mut given = Vec::new(alloc);
    let mut tasks = 0u16;
    let mut births = 0usize;
    for line in wired.first_lines() {
        match line {
            FirstLine::Task => {
                give(&mut given, tasks, births, PortRight::Send)?;
                tasks += 1;
                births += 1;
            }
            FirstLine::Port { receiver } => {
                give(&mut given, receiver.0 as u16, births, PortRight::Receive)?;
                births += 1;
            }
            FirstLine::Hold { task, port, right } => {
                give(&mut given, task.0 as u16, port.0 as usize, *right)?;
            }
        }
    }
    Ok(given)
}

/// What the line of this place gives.
pub(crate) fn given_at(given: &[Given], place: usize) -> Option<&Given>
    ensures { option_map (λ given. given.now) result ≡ slice_get given.now place }
{
    given.get(place)
}

/// The class of the port of this birth number.
fn class_at(classes: &[ClassId], port: usize) -> Option<ClassId>
    ensures { result ≡ slice_get classes.now port }
{
    classes.get(port).copied()
}

/// The number of the line of this place.
pub(crate) fn number_at(numbers: &[u32], place: usize) -> Option<u32>
    ensures { result ≡ slice_get numbers.now place }
{
    numbers.get(place).copied()
}

/// Whether the line gives the task the right on a port of the class.
pub(crate) fn gives(
    given: &Given,
    classes: &[ClassId],
    task: u16,
    class: ClassId,
    right: PortRight,
) -> bool
    ensures { IsTrue result → Gives classes.now task class right given.now }
{
    match class_at(classes, given.port) {
        Some(known) => given.task == task && known == class && same_right(given.right, right),
        None => false,
    }
}

/// Where each hold is given first.
pub(crate) fn places_of(
    alloc: Global,
    given: &[Given],
    classes: &[ClassId],
) -> Result<BTreeMap<Fact, usize>, AllocError> {
    let mut places = BTreeMap::new(alloc);
    for (place, gives) in given.iter().enumerate() {
        if let Some(class) = classes.get(gives.port).copied() {
            let fact = Fact::Hold {
                task: gives.task,
                class,
                right: gives.right,
            };
            if places.get(&fact).is_none() {
                let _ = places.insert(fact, place)?;
            }
        }
    }
    Ok(places)
}
