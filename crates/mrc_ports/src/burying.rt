//! Ports that leave, and what is left in the others. Nothing of it takes memory.

ghost use Rattle.std.specs.Prelude.{◌≡◌, Some, true};
ghost use Rattle.mrc_model.specs.Map.{alter_all};
ghost use Rattle.mrc_model.specs.Death.{perished_port};
ghost use Rattle.mrc_ports.specs.Burials.{left_names, without};

use crate::port::Port;
use crate::slots::PortSlots;
use mrc_map::{Map, Ports};
use mrc_names::Space;

/// The names of dead ports turn dead in each space.
pub(crate) fn bury_spaces(spaces: &mut Map<Space>, dead: &Ports)
    ensures { spaces.new ≡ alter_all (λ t x. Some (left_names dead.now x)) spaces.old }
{
    spaces.change(
        |held: &mut (u64, Space)| -> bool
            ensures stays { result ≡ true }
            ensures turned { held.new ≡ (held.old.0, left_names dead.entry.now held.old.1) }
        {
            held.1.perish_all(dead);
            true
        },
    );
}

/// The dead ports leave.
fn drop_ports(ports: &mut PortSlots, dead: &Ports)
    ensures { ports.new ≡ alter_all (without dead.now) ports.old }
{
    let mut last = None;
    while let Some(port) = dead.after(last) {
        let _ = ports.remove(port.0);
        last = Some(port);
    }
}

/// Dead ports leave with their queues, and what named them in the others is dead.
pub(crate) fn bury_ports(ports: &mut PortSlots, dead: &Ports)
    ensures { ports.new ≡ alter_all (perished_port dead.now) ports.old }
{
    drop_ports(ports, dead);
    ports.turn(dead);
}
