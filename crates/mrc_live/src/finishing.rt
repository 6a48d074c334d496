//! Whether the seats' lists are what the journal has of them.

ghost use Rattle.std.specs.Prelude.{◌≡◌, ◌≢◌, ◌↔◌, ◌<◌, ◌≤◌, ◌+◌, ◌^◌, ℕ, List, [], ◌∷◌, ◌++◌};
ghost use Rattle.std.specs.Prelude.{Some, IfNone, IfSome, IsFalse, IsTrue, length, slice_get};
ghost use Rattle.std.specs.Prelude.{slice_index};
ghost use Rattle.mrc_base.specs.Limits.{limit_of_seats};
ghost use Rattle.mrc_live.specs.declared.event.Event.{Event};
ghost use Rattle.mrc_live.specs.Desks.{SeatState};
ghost use Rattle.mrc_live.specs.Parts.{AllAreSeated, AreApart, ArePlaced, Continues, EachIsItsPart};
ghost use Rattle.mrc_live.specs.Parts.{Follows, HavePlaces, IsFinishFault, IsFirstDifference};
ghost use Rattle.mrc_live.specs.Parts.{IsNext, IsSeated, IsThere, made_of};

use crate::desk::Desk;
use crate::event::{Event, Made};
use crate::seat::Seat;
use mrc_base::limits::SEATS;
use mrc_check::Confined;
use std::sync::ledger::Ledger;

/// A place for each number of a seat.
pub(crate) const PLACES: usize = SEATS as usize;

/// Why a server was not finished.
#[derive(Clone, Copy, Debug, PartialEq, Eq)]
pub enum FinishFault {
    /// A seat that was made is absent, or two have one number.
    SeatsMissing,
    /// This event is the first that is not the next one of its seat's list; or the number of
    /// events, if a list goes on.
    Differs(usize),
    /// The machine's system is not the one that the server shows.
    Swapped,
}

/// Why these seats do not finish this desk: the first reason, or `None` if they do.
pub(crate) fn judge<L: Ledger>(
    desk: &Desk<L>,
    confined: &Confined,
    seats: &[Seat<L>],
) -> Option<FinishFault>
    ensures parts { IfNone result (EachIsItsPart seats.now desk.now.events) }
    ensures owners { IfNone result (AllAreSeated seats.now desk.now.events) }
    ensures apart { IfNone result (AreApart seats.now) }
    ensures confined { IfNone result (desk.now.confined ≡ confined.now) }
    ensures fault { IfSome result (IsFinishFault desk.now confined.now seats.now) }
{
    let events = desk.events();
    let places = places_of(seats);
    if !are_placed(seats, &places) || !are_all_there(seats, &places, desk.made()) {
        return Some(FinishFault::SeatsMissing);
    }
    if let Some(at) = first_difference(events, seats, &places) {
        return Some(FinishFault::Differs(at));
    }
    if !desk.confined().same(confined) {
        return Some(FinishFault::Swapped);
    }
    None
}

/// The place of each seat's number.
pub(crate) fn places_of<L: Ledger>(seats: &[Seat<L>]) -> [usize; PLACES]
    ensures { HavePlaces seats.now result }
{
    let mut places = [0usize; PLACES];
    for i in 0..seats.len() {
        places[seats[i].number() as usize] = i;
    }
    places
}

/// Whether each seat is at its place, so that no two have one number.
pub(crate) fn are_placed<L: Ledger>(seats: &[Seat<L>], places: &[usize; PLACES]) -> bool
    requires { HavePlaces seats.now places.now }
    ensures placed { IsTrue result → ArePlaced seats.now places.now }
    ensures twice { IsFalse result → AreApart seats.now → ⊥ }
{
    for i in 0..seats.len() {
        if places[seats[i].number() as usize] != i {
            return false;
        }
    }
    true
}

/// Whether there is a seat of each number below this one.
pub(crate) fn are_all_there<L: Ledger>(
    seats: &[Seat<L>],
    places: &[usize; PLACES],
    made: u32,
) -> bool
    requires few { made ≤ limit_of_seats }
    requires placed { ArePlaced seats.now places.now }
    ensures there { IsTrue result → ((number : ℕ) → number < made → IsThere seats.now number) }
    ensures absent { IsFalse result
        → ((number : ℕ) → number < made → IsThere seats.now number) → ⊥ }
{
    for number in 0..made {
        let place = places[number as usize];
        if place >= seats.len() || seats[place].number() != number {
            return false;
        }
    }
    true
}

/// Whether the event is the next one of the seat's list.
fn is_next<L: Ledger>(event: &Event, seat: &Seat<L>, at: usize) -> bool
    ensures next { IsTrue result ↔ IsNext event.now seat.now at }
    ensures fits { IsTrue result → at + 1 < 2 ^ 64 }
{
    seat.number() == event.seat && seat.task() == event.task && is_made(event, seat.calls(), at)
}

/// Whether the list has the event's call and reply at this place.
fn is_made(event: &Event, calls: &[Made], at: usize) -> bool
    ensures made { IsTrue result ↔ (slice_get calls.now at ≡ Some (made_of event.now)) }
    ensures fits { IsTrue result → at + 1 < 2 ^ 64 }
{
    if at >= calls.len() {
        return false;
    }
    let made = &calls[at];
    made.call.same(&event.call) && made.reply.same(&event.reply)
}

/// The places from which the lists begin.
fn beginnings() -> [usize; PLACES]
    ensures { (number : ℕ) → slice_index result number ≡ 0 }
{
    [0; PLACES]
}

/// Goes on by one event in the list of its seat, and returns whether the event is there.
fn goes_on<L: Ledger>(
    event: &Event,
    seats: &[Seat<L>],
    places: &[usize; PLACES],
    next: &mut [usize; PLACES],
) -> bool
    requires { ArePlaced seats.now places.now }
    ensures seated { IsTrue result → IsSeated seats.now event.now }
    ensures continues { (events : List Event) → Follows seats.now next.old events
        → IsTrue result ↔ Continues seats.now events event.now }
    ensures follows { IsTrue result → ((events : List Event) → Follows seats.now next.old events
        → Follows seats.now next.new (events ++ event.now ∷ [])) }
{
    let number = event.seat as usize;
    if number >= PLACES {
        return false;
    }
    let place = places[number];
    if place >= seats.len() {
        return false;
    }
    let seat = &seats[place];
    if !is_next(event, seat, next[number]) {
        return false;
    }
    next[number] += 1;
    true
}

/// The first event that is not the next one of its seat's list, or the number of events if a list
/// goes on.
pub(crate) fn first_difference<L: Ledger>(
    events: &[Event],
    seats: &[Seat<L>],
    places: &[usize; PLACES],
) -> Option<usize>
    requires { ArePlaced seats.now places.now }
    ensures parts { IfNone result (EachIsItsPart seats.now events.now) }
    ensures owners { IfNone result (AllAreSeated seats.now events.now) }
    ensures first { IfSome result (λ at. IsFirstDifference seats.now events.now at) }
{
    let mut next = beginnings();
    for k in 0..events.len() {
        if !goes_on(&events[k], seats, places, &mut next) {
            return Some(k);
        }
    }
    if all_end(seats, &next) {
        return None;
    }
    Some(events.len())
}

/// Whether no list goes on.
fn all_end<L: Ledger>(seats: &[Seat<L>], next: &[usize; PLACES]) -> bool
    requires { (i : ℕ) (s : SeatState) → slice_get seats.now i ≡ Some s
        → s.number < limit_of_seats }
    ensures goes_on { IsFalse result → ((i : ℕ) × ((s : SeatState)
        × (slice_get seats.now i ≡ Some s) × (slice_index next.now s.number ≢ length s.calls))) }
    ensures end { IsTrue result → ((i : ℕ) (s : SeatState) → slice_get seats.now i ≡ Some s
        → slice_index next.now s.number ≡ length s.calls) }
{
    for i in 0..seats.len() {
        let seat = &seats[i];
        if next[seat.number() as usize] != seat.calls().len() {
            return false;
        }
    }
    true
}
