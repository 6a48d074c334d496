//! Names of ports that die. Nothing of it takes memory.

ghost use Rattle.std.specs.Prelude.{◌≡◌, ◌∷◌, ◌+◌, ℕ, [], true, false, Some, IfSome, IfNone};
ghost use Rattle.mrc_model.specs.Map.{get, alter_all, total};
ghost use Rattle.mrc_model.specs.Death.{perished_entry};
ghost use Rattle.mrc_model.specs.Space.{put_entry};
ghost use Rattle.mrc_model.specs.declared.Entry.{Entry as TEntry};
ghost use Rattle.mrc_index.specs.Names.{is_on, count_on};

use crate::entry::is_dead;
use crate::names::Names;
use mrc_base::PortId;
use mrc_map::Ports;
use mrc_model::Entry;

impl Names {
    /// A name of the port, if it has one.
    fn name_of(&self, port: PortId) -> Option<u32>
        ensures some { IfSome result (λ n. (e : TEntry)
            × (get self.now n ≡ Some e) × (is_on port e ≡ true)) }
        ensures none { IfNone result ((n : ℕ) (e : TEntry)
            → get self.now n ≡ Some e → is_on port e ≡ false) }
    {
        match self.held.least(port.0, 0) {
            Some(name) => Some(name),
            None => match self.once.least(port.0, 0) {
                Some(name) => Some(name),
                None => None,
            },
        }
    }

    /// What is under a name of the port turns dead.
    fn turn(&mut self, name: u32, port: PortId)
        requires { (e : TEntry) × (get self.old name ≡ Some e) × (is_on port e ≡ true) }
        ensures same { alter_all (λ n e. perished_entry (port ∷ []) e) self.new
            ≡ alter_all (λ n e. perished_entry (port ∷ []) e) self.old }
        ensures less { total (count_on port) self.new + 1 ≡ total (count_on port) self.old }
    {
        let Some(entry) = self.get(name) else {
            unreachable!();
        };
        self.fade(name, &entry);
    }

    /// The names of a port that dies turn dead: as many references as there were send references,
    /// one for a send-once right. The port's names alone are looked at.
    fn perish(&mut self, port: PortId)
        ensures { self.new ≡ alter_all (λ n e. perished_entry (port ∷ []) e) self.old }
    {
        while let Some(name) = self.name_of(port) {
            self.turn(name, port);
        }
    }

    /// What is under a name turns dead, if its port is one of these.
    fn turn_dead(&mut self, name: u32, entry: &Entry, dead: &Ports)
        requires { get self.old name ≡ Some entry.now }
        ensures { self.new ≡ put_entry self.old name (perished_entry dead.now entry.now) }
    {
        if is_dead(entry, dead) {
            self.fade(name, entry);
        }
    }

    /// The same for the ports of a set. The names of each are looked up.
    fn perish_ports(&mut self, dead: &Ports)
        ensures { self.new ≡ alter_all (λ n e. perished_entry dead.now e) self.old }
    {
        for number in dead.iter() {
            self.perish(PortId(*number));
        }
    }

    /// The same where all names are looked at.
    fn perish_through(&mut self, dead: &Ports)
        ensures { self.new ≡ alter_all (λ n e. perished_entry dead.now e) self.old }
    {
        let mut from = 0u64;
        while let Some(held) = self.next(from) {
            self.turn_dead(held.0, &held.1, dead);
            from = u64::from(held.0) + 1;
        }
    }

    /// The same for all ports of a set. Where there are fewer of them than names, the names of
    /// each are looked up, else all names are looked at.
    pub fn perish_all(&mut self, dead: &Ports)
        ensures { self.new ≡ alter_all (λ n e. perished_entry dead.now e) self.old }
    {
        if dead.len() < self.len() {
            self.perish_ports(dead);
        } else {
            self.perish_through(dead);
        }
    }
}
