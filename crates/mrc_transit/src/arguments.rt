//! The names and the arguments of a message, one after the other.

ghost use Rattle.std.specs.Prelude.{◌≡◌, ◌<◌, ◌^◌, ◌++◌, ℕ, List, Ok, Err, IfOk, IfErr, OnOk};
ghost use Rattle.std.specs.Prelude.{length, flat_map};
ghost use Rattle.mrc_model.specs.declared.Item.{Item as TItem};
ghost use Rattle.mrc_model.specs.World.{QueuedArg};
ghost use Rattle.mrc_model.specs.CallSend.{take_items, take_arg, take_args};
ghost use Rattle.mrc_wiring.specs.Table.{wiring_of};
ghost use Rattle.mrc_model.specs.Wiring.{form_shapes};
ghost use Rattle.mrc_desc.specs.View.{argument_of, arguments_of};
ghost use Rattle.mrc_names.specs.Leaving.{AreRests};
ghost use Rattle.mrc_transit.specs.Room.{carried_by};
ghost use Rattle.mrc_transit.specs.Staging.{staged, taken_of, HasRoom, Spends};
ghost use Rattle.mrc_transit.specs.Sending.{take_admitted, fault_reply};
ghost use Rattle.mrc_transit.specs.Queueing.{names_in, names_of};

use crate::scratch::Scratch;
use crate::sending::{SendFault, SlotPlace, admit};
use mrc_base::{Disp, TaskId};
use mrc_desc::Argument;
use mrc_filter::AcceptedForm;
use mrc_model::{Code, Item};
use mrc_names::Space;
use mrc_ports::Store;
use mrc_wiring::Wired;

impl Scratch {
    /// What a message carries for one name of an argument, if the slot's type admits it and the
    /// sender is trusted to send it.
    pub(crate) fn take_admitted(
        &mut self,
        wired: &Wired,
        store: &Store,
        space: &Space,
        slot: &SlotPlace,
        disp: Disp,
        name: u32,
    ) -> Result<Item, SendFault>
        requires { HasRoom 1 self.old }
        ensures taken { IfOk result (λ item. (t : ℕ)
            → take_admitted (wiring_of wired.now) slot.now.own t disp slot.now.sort
            slot.now.argument (staged store.now t (taken_of space.now self.old)) name
            ≡ Ok (staged store.now t (taken_of space.now self.new), item)) }
        ensures refused { IfErr result (λ fault. (t : ℕ)
            → take_admitted (wiring_of wired.now) slot.now.own t disp slot.now.sort
            slot.now.argument (staged store.now t (taken_of space.now self.old)) name
            ≡ Err (fault_reply fault)) }
        ensures rests { AreRests space.now self.old.rests → AreRests space.now self.new.rests }
        ensures room { Spends 1 self.old self.new }
        ensures items { self.new.items ≡ self.old.items }
    {
        let Ok(item) = self.take_item(space, name, disp) else {
            return Err(SendFault::Refused(Code::MachSendInvalidRight));
        };
        match admit(wired, store, slot, &item) {
            Ok(()) => Ok(item),
            Err(fault) => Err(fault),
        }
    }

    /// Takes what a message carries for the names of one argument, in order.
    pub(crate) fn take_items(
        &mut self,
        wired: &Wired,
        store: &Store,
        space: &Space,
        slot: &SlotPlace,
        disp: Disp,
        names: &[u32],
    ) -> Result<(), SendFault>
        requires { HasRoom (length names.now) self.old }
        ensures taken { OnOk result ((items : List TItem)
            × (self.new.items ≡ self.old.items ++ items)
            × ((t : ℕ) → take_items (wiring_of wired.now) slot.now.own t disp slot.now.sort
            slot.now.argument (staged store.now t (taken_of space.now self.old)) names.now
            ≡ Ok (staged store.now t (taken_of space.now self.new), items))) }
        ensures refused { IfErr result (λ fault. (t : ℕ)
            → take_items (wiring_of wired.now) slot.now.own t disp slot.now.sort
            slot.now.argument (staged store.now t (taken_of space.now self.old)) names.now
            ≡ Err (fault_reply fault)) }
        ensures rests { AreRests space.now self.old.rests → AreRests space.now self.new.rests }
        ensures room { OnOk result (Spends (length names.now) self.old self.new) }
    {
        for name in names {
            let item = self.take_admitted(wired, store, space, slot, disp, *name)?;
            self.carry(item);
        }
        Ok(())
    }

    /// Takes what a message carries for one argument: nothing for data, or the rights of its names.
    pub(crate) fn take_arg(
        &mut self,
        wired: &Wired,
        store: &Store,
        space: &Space,
        slot: &SlotPlace,
        argument: &Argument,
    ) -> Result<(), SendFault>
        requires { HasRoom (names_in (argument_of argument.now)) self.old }
        ensures taken { OnOk result ((queued : QueuedArg)
            × (self.new.items ≡ self.old.items ++ carried_by queued)
            × ((t : ℕ) → take_arg (wiring_of wired.now) slot.now.own t slot.now.sort
            slot.now.argument (staged store.now t (taken_of space.now self.old))
            (argument_of argument.now)
            ≡ Ok (staged store.now t (taken_of space.now self.new), queued))) }
        ensures refused { IfErr result (λ fault. (t : ℕ)
            → take_arg (wiring_of wired.now) slot.now.own t slot.now.sort slot.now.argument
            (staged store.now t (taken_of space.now self.old)) (argument_of argument.now)
            ≡ Err (fault_reply fault)) }
        ensures rests { AreRests space.now self.old.rests → AreRests space.now self.new.rests }
        ensures room { OnOk result
            (Spends (names_in (argument_of argument.now)) self.old self.new) }
    {
        match argument {
            Argument::Data { .. } => Ok(()),
            Argument::Ports { disp, names } => {
                self.take_items(wired, store, space, slot, *disp, names.as_slice())
            }
        }
    }

    /// Takes what a message carries for its arguments, in order. The types of their slots are those
    /// of the form that the message meets.
    pub(crate) fn take_args(
        &mut self,
        wired: &Wired,
        store: &Store,
        space: &Space,
        own: TaskId,
        form: &AcceptedForm<'_>,
        arguments: &[Argument],
    ) -> Result<(), SendFault>
        requires few { length arguments.now < 2 ^ 32 }
        requires room { HasRoom (names_of (arguments_of arguments.now)) self.old }
        ensures taken { OnOk result ((queued : List QueuedArg)
            × (self.new.items ≡ self.old.items ++ flat_map carried_by queued)
            × ((t : ℕ) → take_args (wiring_of wired.now) own t 0 (form_shapes form.now.found.now)
            (staged store.now t (taken_of space.now self.old)) (arguments_of arguments.now)
            ≡ Ok (staged store.now t (taken_of space.now self.new), queued))) }
        ensures refused { IfErr result (λ fault. (t : ℕ)
            → take_args (wiring_of wired.now) own t 0 (form_shapes form.now.found.now)
            (staged store.now t (taken_of space.now self.old)) (arguments_of arguments.now)
            ≡ Err (fault_reply fault)) }
        ensures rests { AreRests space.now self.old.rests → AreRests space.now self.new.rests }
    {
        for (i, argument) in arguments.iter().enumerate() {
            let slot = SlotPlace {
                own,
                sort: form.found.sort(i),
                argument: i as u32,
            };
            self.take_arg(wired, store, space, &slot, argument)?;
        }
        Ok(())
    }
}
