//! Which ports a slot may carry.

ghost use Rattle.std.specs.Prelude.{◌≡◌};
ghost use Rattle.mrc_model.specs.Wiring.{form_shapes};
ghost use Rattle.mrc_wiring.specs.Table.{wiring_of};
ghost use Rattle.mrc_filter.specs.Places.{admitted};

use crate::form::AcceptedForm;
use mrc_base::ClassId;
use mrc_model::Denied;
use mrc_wiring::Wired;

/// Whether the slot of a form may carry a port of the class: `NotAdmitted` exactly where the slot's
/// type does not admit it. The slot is the number of its argument.
pub fn admit_port(
    wired: &Wired,
    form: &AcceptedForm<'_>,
    slot: u32,
    class: ClassId,
) -> Result<(), Denied>
    ensures exact { result ≡ admitted (wiring_of wired.now) (form_shapes form.now.found.now)
        slot class }
{
    if wired.admits(form.found.sort(slot as usize), class) {
        Ok(())
    } else {
        Err(Denied::NotAdmitted(slot))
    }
}
