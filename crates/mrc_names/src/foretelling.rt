//! Whether a right can be put under a name, told beforehand. Nothing changes, and no memory is
//! taken.

ghost use Rattle.std.specs.Prelude.{◌≡◌, ◌==◌, ℕ, Ok, Some, option_map};
ghost use Rattle.std.specs.Prelude.{is_some, ◌&&◌, if◌then◌else◌};
ghost use Rattle.mrc_base.specs.declared.PortRight.{PortRight as TRight};
ghost use Rattle.mrc_model.specs.Map.{get};
ghost use Rattle.mrc_model.specs.World.{Space as TSpace};
ghost use Rattle.mrc_model.specs.Space.{entry_of, is_full, insert_at, insert_new, insert_joined};
ghost use Rattle.mrc_names.specs.Refusals.{Foretells};
ghost use Rattle.mrc_names.specs.Takes.{take_right, move_right};

use crate::entry;
use crate::space::{Space, is_other};
use mrc_base::{Disp, PortId, PortRight, give};
use mrc_index::entry::is_entry_of;
use mrc_model::{Code, Entry};

/// Whether a new entry can stand where this one does, if one does.
fn foretell_new(held: Option<Entry>, full: bool) -> Result<(), Code>
    ensures { (x : TSpace) (name port : ℕ) (right : TRight) → is_full x ≡ full
        → Foretells result (insert_new x name port right held) }
{
    if held.is_some() {
        return Err(Code::KernNameExists);
    }
    if full {
        return Err(Code::KernNoSpace);
    }
    Ok(())
}

/// Whether a right can join this entry.
fn foretell_join(held: &Entry, full: bool, port: PortId, right: PortRight) -> Result<(), Code>
    ensures { (x : TSpace) (name : ℕ) → is_full x ≡ full
        → Foretells result (insert_joined x name port right (Some held.now)) }
{
    if !is_entry_of(port, held) {
        return Err(Code::KernNameExists);
    }
    if entry::overflows(held, right) {
        return Err(Code::KernUrefsOverflow);
    }
    if full {
        return Err(Code::KernNoSpace);
    }
    Ok(())
}

/// Whether a right can be put where this entry is, if one is.
fn foretell_joined(
    held: Option<Entry>,
    full: bool,
    port: PortId,
    right: PortRight,
) -> Result<(), Code>
    ensures { (x : TSpace) (name : ℕ) → is_full x ≡ full
        → Foretells result (insert_joined x name port right held) }
{
    match held {
        None => foretell_new(None, full),
        Some(entry) => foretell_join(&entry, full, port, right),
    }
}

/// Whether a right can be put under a name of a space, by the entry that the port has there, the
/// entry of the name, and whether the space is full.
fn foretell(
    known: Option<u32>,
    held: Option<Entry>,
    full: bool,
    name: u32,
    port: PortId,
    right: PortRight,
) -> Result<(), Code>
    ensures { (x : TSpace) → option_map (λ held. held.0) (entry_of x port) ≡ known
        → get x name ≡ held → is_full x ≡ full
        → Foretells result (insert_at x name port right) }
{
    if let PortRight::SendOnce = right {
        return foretell_new(held, full);
    }
    if is_other(name, known) {
        return Err(Code::KernRightExists);
    }
    foretell_joined(held, full, port, right)
}

impl Space {
    /// The entry of a name, once another one has no more than the rest.
    pub(crate) fn held_left(&self, from: u32, rest: Option<Entry>, to: u32) -> Option<Entry>
        ensures { result ≡ (if to == from then rest else get self.now to) }
    {
        if to == from { rest } else { self.get(to) }
    }

    /// Whether the space has 4,096 entries, once a name that it has has no more than the rest.
    pub(crate) fn is_full_left(&self, rest: Option<Entry>) -> bool
        ensures { result ≡ (is_some rest && is_full self.now) }
    {
        rest.is_some() && self.is_full()
    }

    /// What is answered where a right is taken from a name, and then put under another one of the
    /// same space, as far as memory lasts.
    pub fn foretell_move(&self, from: u32, disp: Disp, to: u32) -> Result<(), Code>
        ensures { Foretells result (move_right self.now from disp to) }
    {
        let taken = self.parting(from, disp)?;
        let held = self.held_left(from, taken.1, to);
        let full = self.is_full_left(taken.1);
        let known = self.entries.name_left(from, taken.1, taken.0);
        foretell(known, held, full, to, taken.0, give(disp))
    }

    /// Whether the space has 4,096 entries after a right was taken from a name.
    pub fn is_full_after(&self, name: u32, disp: Disp) -> bool
        ensures { (y : TSpace) (port : ℕ) → take_right self.now name disp ≡ Ok (y, port)
            → result ≡ is_full y }
    {
        match self.parting(name, disp) {
            Ok(taken) => self.is_full_left(taken.1),
            Err(_) => false,
        }
    }
}
