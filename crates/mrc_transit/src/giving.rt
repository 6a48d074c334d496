//! What a task that receives is given: rights under names of its space.

ghost use Rattle.std.specs.Prelude.{◌≡◌, ℕ, IfOk, IfErr, OnErr};
ghost use Rattle.mrc_model.specs.World.{Store, set_space};
ghost use Rattle.mrc_model.specs.Space.{give_item};
ghost use Rattle.mrc_transit.specs.Giving.{IsNotGiven};

use mrc_base::OrMemory;
use mrc_model::{Code, Item};
use mrc_names::Giving;

/// Gives a space what a message carries, under the name that is answered: MACH_PORT_NULL for
/// nothing, and MACH_PORT_DEAD for a dead right. Refused with KERN_NO_SPACE if the space would have
/// more than 4,096 entries; out of memory is returned only if it would not.
pub fn give_item(giving: &mut Giving, item: Item) -> Result<u32, OrMemory<Code>>
    ensures given { IfOk result (λ name. (s : Store) (t : ℕ)
        → give_item (set_space s t giving.old.space) t item
        ≡ (set_space s t giving.new.space, name)) }
    ensures refused { IfErr result (λ e. (s : Store) (t : ℕ)
        → IsNotGiven e t (give_item (set_space s t giving.old.space) t item).0) }
    ensures base { giving.new.base ≡ giving.old.base }
    ensures err { OnErr result (giving.new ≡ giving.old) }
{
    match item {
        Item::Null => Ok(0),
        Item::Dead => Ok(0xffff_ffff),
        Item::Right { port, right } => giving.give(port, right),
    }
}
