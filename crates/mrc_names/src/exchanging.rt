//! Giving a right for one that is taken, in place: what can fail comes first.

ghost use Rattle.std.specs.Prelude.{◌≡◌, Ok, None, true, false, IfOk, IfErr, OnOk, OnErr, IsSome};
ghost use Rattle.mrc_base.specs.declared.PortRight.TheVariants.{SendOnce};
ghost use Rattle.mrc_model.specs.Map.{get, insert};
ghost use Rattle.mrc_model.specs.Space.{entry_of, is_full, put_entry};
ghost use Rattle.mrc_index.specs.Undo.{CanPut};
ghost use Rattle.mrc_names.specs.Refusals.{IsRefusal};
ghost use Rattle.mrc_names.specs.Takes.{give_right, give_new};

use crate::space::Space;
use mrc_base::{OrMemory, PortId, PortRight};
use mrc_index::entry::{joined, new_entry};
use mrc_model::{Code, Entry};
use std::alloc::AllocError;

impl Space {
    /// Whether a right joins an entry, once a name has no more than the rest.
    fn joins_left(&self, name: u32, rest: &Option<Entry>, port: PortId, right: PortRight) -> bool
        requires { CanPut self.now name rest.now }
        ensures other { result ≡ true → right ≡ SendOnce → ⊥ }
        ensures found { result ≡ true → IsSome (entry_of (put_entry self.now name rest.now) port) }
        ensures new { result ≡ false → give_right (put_entry self.now name rest.now) port right
            ≡ give_new (put_entry self.now name rest.now) port right }
    {
        if let PortRight::SendOnce = right {
            return false;
        }
        self.entries.name_left(name, *rest, port).is_some()
    }

    /// A right joins its port's entry, once a name has no more than the rest: the entry's name.
    fn join_left(&mut self, name: u32, rest: &Option<Entry>, port: PortId, right: PortRight) -> u32
        requires left { CanPut self.old name rest.now }
        requires other { right ≡ SendOnce → ⊥ }
        requires found { IsSome (entry_of (put_entry self.old name rest.now) port) }
        ensures { give_right (put_entry self.old name rest.now) port right ≡ Ok (self.new, result) }
    {
        self.leave(name, *rest);
        self.bounds();
        let Some(held) = self.find_entry(port) else {
            unreachable!();
        };
        self.leave(held.0, Some(joined(held.1, right)));
        held.0
    }

    /// Puts an entry under a name that has none, once a name that has one, which may be the same,
    /// has no more than the rest.
    fn put_over(
        &mut self,
        from: u32,
        rest: Option<Entry>,
        to: u32,
        entry: Entry,
    ) -> Result<(), AllocError>
        requires there { IsSome (get self.old from) }
        requires left { CanPut self.old from rest }
        requires unused { get (put_entry self.old from rest) to ≡ None }
        requires room { is_full (put_entry self.old from rest) ≡ false }
        ensures ok { OnOk result (self.new ≡ insert (put_entry self.old from rest) to entry) }
        ensures err { OnErr result (self.new ≡ self.old) }
    {
        if to == from {
            self.entries.replace(from, entry)?;
            return Ok(());
        }
        self.entries.move_new(from, rest, to, entry)?;
        Ok(())
    }

    /// Gives a right the least unused name, once a name has no more than the rest.
    fn give_new_left(
        &mut self,
        name: u32,
        rest: &Option<Entry>,
        port: PortId,
        right: PortRight,
    ) -> Result<u32, OrMemory<Code>>
        requires there { IsSome (get self.old name) }
        requires left { CanPut self.old name rest.now }
        ensures ok { IfOk result (λ given.
            give_new (put_entry self.old name rest.now) port right ≡ Ok (self.new, given)) }
        ensures refused { IfErr result
            (λ e. IsRefusal e (give_new (put_entry self.old name rest.now) port right)) }
        ensures err { OnErr result (self.new ≡ self.old) }
    {
        if self.is_full_left(*rest) {
            return Err(OrMemory::Fault(Code::KernNoSpace));
        }
        let given = self.entries.unused_left(name, *rest);
        self.put_over(name, *rest, given, new_entry(port, right))?;
        Ok(given)
    }

    /// Gives a right, as `copyout` does, once a name has no more than the rest that `parting`
    /// tells: its name, which may be the one that the taking frees. Refused where the space would
    /// have more than 4,096 entries (KERN_NO_SPACE).
    pub fn exchange(
        &mut self,
        name: u32,
        rest: Option<Entry>,
        port: PortId,
        right: PortRight,
    ) -> Result<u32, OrMemory<Code>>
        requires there { IsSome (get self.old name) }
        requires left { CanPut self.old name rest }
        ensures ok { IfOk result (λ given.
            give_right (put_entry self.old name rest) port right ≡ Ok (self.new, given)) }
        ensures refused { IfErr result
            (λ e. IsRefusal e (give_right (put_entry self.old name rest) port right)) }
        ensures err { OnErr result (self.new ≡ self.old) }
    {
        if self.joins_left(name, &rest, port, right) {
            return Ok(self.join_left(name, &rest, port, right));
        }
        self.give_new_left(name, &rest, port, right)
    }
}
