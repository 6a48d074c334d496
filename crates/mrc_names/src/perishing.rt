//! Names of ports that die. Nothing of it takes memory.

ghost use Rattle.std.specs.Prelude.{◌≡◌};
ghost use Rattle.mrc_model.specs.Map.{alter_all};
ghost use Rattle.mrc_model.specs.Death.{perished_entry};

use crate::space::Space;
use mrc_map::Ports;

impl Space {
    /// The names of all ports of a set turn dead: as many references as there were send references,
    /// one for a send-once right.
    pub fn perish_all(&mut self, dead: &Ports)
        ensures { self.new ≡ alter_all (λ n e. perished_entry dead.now e) self.old }
    {
        self.entries.perish_all(dead);
    }
}
