//! What a task that sends gives: rights from names of its space.

ghost use Rattle.std.specs.Prelude.{◌≡◌, ◌<◌, ℕ, Ok, Err, IfOk, OnErr, length};
ghost use Rattle.mrc_model.specs.World.{Store as TStore};
ghost use Rattle.mrc_model.specs.Reply.{Reply};
ghost use Rattle.mrc_model.specs.Space.{take};
ghost use Rattle.mrc_model.specs.CallSend.{take_item, take_reply_by};
ghost use Rattle.mrc_names.specs.Leaving.{AreRests};
ghost use Rattle.mrc_transit.specs.Staging.{staged, taken_of, moved_by, limit_of_taken};
ghost use Rattle.mrc_transit.specs.Staging.{HasRoom, Spends};

use crate::scratch::Scratch;
use mrc_base::{Disp, PortId, PortRight, give};
use mrc_model::Item;
use mrc_names::Space;

/// A name gives no such right.
#[derive(Clone, Copy, Debug, PartialEq, Eq)]
pub(crate) struct NotHeld;

impl Scratch {
    /// Notes the port of a right that is given, if it is the receive right.
    fn note(&mut self, right: PortRight, port: PortId)
        requires { length self.old.moved < limit_of_taken }
        ensures { self.new ≡ record self.old { moved = moved_by right self.old.moved port } }
    {
        if let PortRight::Receive = right {
            self.move_port(port);
        }
    }

    /// Takes a right from a name of the space: its port. Refused if the name has no entry, or its
    /// entry lacks the right.
    pub(crate) fn take(&mut self, space: &Space, name: u32, disp: Disp) -> Result<PortId, NotHeld>
        requires { HasRoom 1 self.old }
        ensures taken { IfOk result (λ port. (s : TStore) (t : ℕ) (e : Reply)
            → take (staged s t (taken_of space.now self.old)) t name disp e e
            ≡ Ok (staged s t (taken_of space.now self.new), port)) }
        ensures refused { OnErr result ((s : TStore) (t : ℕ) (e : Reply)
            → take (staged s t (taken_of space.now self.old)) t name disp e e ≡ Err e) }
        ensures rests { AreRests space.now self.old.rests → AreRests space.now self.new.rests }
        ensures room { Spends 1 self.old self.new }
        ensures items { self.new.items ≡ self.old.items }
    {
        let (port, rest) = match self.rests.parting(space, name, disp) {
            Ok(taken) => taken,
            Err(_code) => return Err(NotHeld),
        };
        self.note(give(disp), port);
        self.leave(name, rest);
        Ok(port)
    }

    /// What a message carries for a name: nothing for MACH_PORT_NULL, a dead right for
    /// MACH_PORT_DEAD and for a dead name of which a right is moved or copied, else the right that
    /// is taken from it.
    pub(crate) fn take_item(
        &mut self,
        space: &Space,
        name: u32,
        disp: Disp,
    ) -> Result<Item, NotHeld>
        requires { HasRoom 1 self.old }
        ensures taken { IfOk result (λ item. (s : TStore) (t : ℕ) (e : Reply)
            → take_item (staged s t (taken_of space.now self.old)) t name disp e
            ≡ Ok (staged s t (taken_of space.now self.new), item)) }
        ensures refused { OnErr result ((s : TStore) (t : ℕ) (e : Reply)
            → take_item (staged s t (taken_of space.now self.old)) t name disp e ≡ Err e) }
        ensures rests { AreRests space.now self.old.rests → AreRests space.now self.new.rests }
        ensures room { Spends 1 self.old self.new }
        ensures items { self.new.items ≡ self.old.items }
    {
        if name == 0 {
            return Ok(Item::Null);
        }
        if name == 0xffff_ffff {
            return Ok(Item::Dead);
        }
        if let Some(rest) = self.rests.dead_parting(space, name, disp) {
            self.leave(name, rest);
            return Ok(Item::Dead);
        }
        let port = self.take(space, name, disp)?;
        Ok(Item::Right {
            port,
            right: give(disp),
        })
    }

    /// What a message carries for its reply port. Without a disposition it carries nothing, or a
    /// dead right, and any other name is refused.
    pub(crate) fn take_reply(
        &mut self,
        space: &Space,
        name: u32,
        disp: Option<Disp>,
    ) -> Result<Item, NotHeld>
        requires { HasRoom 1 self.old }
        ensures taken { IfOk result (λ item. (s : TStore) (t : ℕ) (e : Reply)
            → take_reply_by (staged s t (taken_of space.now self.old)) t name disp e
            ≡ Ok (staged s t (taken_of space.now self.new), item)) }
        ensures refused { OnErr result ((s : TStore) (t : ℕ) (e : Reply)
            → take_reply_by (staged s t (taken_of space.now self.old)) t name disp e ≡ Err e) }
        ensures rests { AreRests space.now self.old.rests → AreRests space.now self.new.rests }
        ensures room { Spends 1 self.old self.new }
        ensures items { self.new.items ≡ self.old.items }
    {
        match disp {
            Some(disp) => self.take_item(space, name, disp),
            None => {
                if name == 0 {
                    return Ok(Item::Null);
                }
                if name == 0xffff_ffff {
                    return Ok(Item::Dead);
                }
                Err(NotHeld)
            }
        }
    }
}
