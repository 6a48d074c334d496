//! What classes take, as rows of bits.

ghost use Rattle.std.specs.Prelude.{◌≡◌, ◌+◌, ◌*◌, ◌/◌, ◌<◌, ◌≤◌, ◌==◌, ◌&&◌, ◌||◌, ℕ, IfOk};
ghost use Rattle.std.specs.Prelude.{◌%◌, length, replicate, vec_len, IfSome, OnOk};
ghost use Rattle.mrc_facts.specs.Order.{right_number};
ghost use Rattle.mrc_rows.specs.Limits.{limit_of_classes};
ghost use Rattle.mrc_bits.specs.Bits.{is_set};
ghost use Rattle.mrc_rows.specs.Rows.{words_of};
ghost use Rattle.mrc_model.specs.Wiring.{classes, accepts_destroyed, label};
ghost use Rattle.mrc_wiring.specs.Table.{wiring_of};
ghost use Rattle.mrc_wiring.specs.Admitting.{class_words};
ghost use Rattle.mrc_wiring.specs.Slots.{takes};
ghost use Rattle.mrc_slots.specs.Passing.{passes};
ghost use Rattle.mrc_slots.specs.Masks.{IsMask, AreMasks, AreFirstRows, is_any, is_taken};
ghost use Rattle.mrc_slots.specs.Masks.{right_at, row_number};

use crate::alike::alike_before;
use mrc_base::{ClassId, Disp, PortRight};
use mrc_bits::set_bit;
use mrc_rows::limits::CLASSES;
use mrc_wiring::Wired;
use std::alloc::{AllocError, Global};

/// A row of zeros, with a bit for each place.
pub(crate) fn zeros(alloc: Global, places: u16) -> Result<Vec<u64>, AllocError>
    ensures { IfOk result (λ row. row.items ≡ replicate ((places + 63) / 64) 0) }
{
    vec![in alloc; 0u64; (places as usize + 63) / 64]
}

/// Sets the bit of the place, where the test passed.
pub(crate) fn mark(row: &mut Vec<u64>, place: usize, test: bool)
    requires { place < 64 * vec_len row.old }
    ensures bits { (p : ℕ) →
        is_set row.new.items p ≡ ((p == place && test) || is_set row.old.items p) }
    ensures len { vec_len row.new ≡ vec_len row.old }
{
    if test {
        set_bit(row.as_mut_slice(), place);
    }
}

/// The words of a row.
pub(crate) fn row_at(rows: &[Vec<u64>], number: usize) -> &[u64]
    ensures { result.now ≡ words_of rows.now number }
{
    match rows.get(number) {
        Some(row) => row.as_slice(),
        None => &[],
    }
}

/// Every place.
pub(crate) fn all_places(alloc: Global, places: u16) -> Result<Vec<u64>, AllocError>
    requires { places ≤ limit_of_classes }
    ensures { IfOk result (λ row. IsMask is_any places row.items) }
{
    let mut row = zeros(alloc, places)?;
    for place in 0..places {
        mark(&mut row, place as usize, true);
    }
    Ok(row)
}

/// The classes that accept port-destroyed notices.
pub(crate) fn notified_row(alloc: Global, wired: &Wired) -> Result<Vec<u64>, AllocError>
    ensures { IfOk result (λ row. IsMask (accepts_destroyed (wiring_of wired.now))
        (classes (wiring_of wired.now)) row.items) }
{
    let count = wired.classes();
    let mut row = zeros(alloc, count)?;
    for class in 0..count {
        let test = wired.accepts_destroyed(ClassId(class));
        mark(&mut row, class as usize, test);
    }
    Ok(row)
}

/// The right of a number that is divided by three.
fn right_at(number: u16) -> PortRight
    ensures { result ≡ right_at number }
{
    match number % 3 {
        0 => PortRight::Send,
        1 => PortRight::Receive,
        _ => PortRight::SendOnce,
    }
}

/// The number of the row of what class `to` takes of rights `held` as rights `give`.
pub(crate) fn row_number(to: u16, held: PortRight, give: PortRight) -> usize
    ensures { result ≡ row_number to held give }
{
    9 * to as usize + 3 * held as usize + give as usize
}

/// Adds the classes that class `to` takes by slots of the disposition.
fn join(wired: &Wired, row: &mut Vec<u64>, to: u16, disp: Disp)
    requires { vec_len row.old ≡ class_words }
    ensures bits { (c : ℕ) → is_set row.new.items c
        ≡ (is_set row.old.items c || takes (wiring_of wired.now) to disp c) }
    ensures len { vec_len row.new ≡ vec_len row.old }
{
    wired.join_taken(row.as_mut_slice(), ClassId(to), disp);
}

/// The classes that class `to` takes by slots of the disposition.
fn slot_row(alloc: Global, wired: &Wired, to: u16, disp: Disp) -> Result<Vec<u64>, AllocError>
    ensures { IfOk result (λ row. IsMask (takes (wiring_of wired.now) to disp)
        (classes (wiring_of wired.now)) row.items) }
{
    let mut row = zeros(alloc, CLASSES as u16)?;
    join(wired, &mut row, to, disp);
    Ok(row)
}

/// The same of either of two dispositions.
fn either_row(
    alloc: Global,
    wired: &Wired,
    to: u16,
    one: Disp,
    other: Disp,
) -> Result<Vec<u64>, AllocError>
    ensures { IfOk result (λ row. IsMask
        (λ c. takes (wiring_of wired.now) to one c || takes (wiring_of wired.now) to other c)
        (classes (wiring_of wired.now)) row.items) }
{
    let mut row = zeros(alloc, CLASSES as u16)?;
    join(wired, &mut row, to, one);
    join(wired, &mut row, to, other);
    Ok(row)
}

/// The classes of which class `to` takes rights `held` that come as rights `give`: by a slot of one
/// of the forms that it accepts.
fn taken_row(
    alloc: Global,
    wired: &Wired,
    to: u16,
    held: PortRight,
    give: PortRight,
) -> Result<Vec<u64>, AllocError>
    ensures { IfOk result (λ row. IsMask (λ c. passes (wiring_of wired.now) to c held give)
        (classes (wiring_of wired.now)) row.items) }
{
    match (held, give) {
        (PortRight::Send, PortRight::Send) => {
            either_row(alloc, wired, to, Disp::MoveSend, Disp::CopySend)
        }
        (PortRight::Receive, PortRight::Send) => slot_row(alloc, wired, to, Disp::MakeSend),
        (PortRight::Receive, PortRight::Receive) => slot_row(alloc, wired, to, Disp::MoveReceive),
        (PortRight::Receive, PortRight::SendOnce) => slot_row(alloc, wired, to, Disp::MakeSendOnce),
        (PortRight::SendOnce, PortRight::SendOnce) => {
            slot_row(alloc, wired, to, Disp::MoveSendOnce)
        }
        _ => zeros(alloc, 0),
    }
}

/// The row of a class and two rights, where those before it are made: a copy of the row of the
/// class `like`, which accepts the same, or a new one.
fn next_row(
    alloc: Global,
    wired: &Wired,
    rows: &[Vec<u64>],
    like: Option<u16>,
    number: u16,
) -> Result<Vec<u64>, AllocError>
    requires made { AreFirstRows (wiring_of wired.now) number rows.now }
    requires below { IfSome like (λ d. d < number / 9) }
    requires alike { IfSome like
        (λ d. label (wiring_of wired.now) d ≡ label (wiring_of wired.now) (number / 9)) }
    ensures { IfOk result (λ row. IsMask (is_taken (wiring_of wired.now) number)
        (classes (wiring_of wired.now)) row.items) }
{
    let held = right_at(number / 3);
    let give = right_at(number);
    match like {
        Some(class) => row_at(rows, row_number(class, held, give)).to_vec(alloc),
        None => taken_row(alloc, wired, number / 9, held, give),
    }
}

/// Adds the rows of a class, one for each two rights.
fn add_rows(
    alloc: Global,
    wired: &Wired,
    rows: &mut Vec<Vec<u64>>,
    class: u16,
) -> Result<(), AllocError>
    requires few { class < limit_of_classes }
    requires made { AreFirstRows (wiring_of wired.now) (9 * class) rows.old.items }
    ensures { OnOk result (AreFirstRows (wiring_of wired.now) (9 * (class + 1)) rows.new.items) }
{
    let like = alike_before(wired, class);
    for number in 9 * class..9 * (class + 1) {
        let row = next_row(alloc, wired, rows.as_slice(), like, number)?;
        rows.push(row)?;
    }
    Ok(())
}

/// What each class takes of each right.
pub(crate) fn taken_rows(alloc: Global, wired: &Wired) -> Result<Vec<Vec<u64>>, AllocError>
    ensures { IfOk result (λ rows. AreMasks (is_taken (wiring_of wired.now))
        (9 * classes (wiring_of wired.now)) (classes (wiring_of wired.now)) rows.items) }
{
    let mut rows = Vec::new(alloc);
    for class in 0..wired.classes() {
        add_rows(alloc, wired, &mut rows, class)?;
    }
    Ok(rows)
}
