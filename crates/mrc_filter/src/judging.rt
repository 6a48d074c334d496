//! Judging messages.

ghost use Rattle.mrc_wiring.specs.Table.{wiring_of};
ghost use Rattle.mrc_filter.specs.Places.{IsJudged};

use crate::form::AcceptedForm;
use crate::meeting::meet;
use mrc_base::ClassId;
use mrc_desc::Message;
use mrc_model::Denied;
use mrc_wiring::Wired;

/// The form that the message meets, of those that the class accepts; or why there is none: no form
/// of the class has the message's id (`NoSuchId`), an argument is the first that differs from the
/// form that has it (`WrongShape`, `WrongDisposition`), or all arguments fit and the disposition of
/// the reply port does not (`ReplySlot`). Which ports the form's slots admit is not asked here.
pub fn judge<'w>(
    wired: &'w Wired,
    class: ClassId,
    message: &Message,
) -> Result<AcceptedForm<'w>, Denied>
    ensures exact { IsJudged (wiring_of wired.entry.now) class message.now result }
{
    let id = message.header().id;
    let Some((item, found)) = wired.form_of(class, id) else {
        return Err(Denied::NoSuchId);
    };
    meet(found, message)?;
    Ok(AcceptedForm { item, id, found })
}
