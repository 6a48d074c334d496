//! Messages that carry a right: all else is zeros and nulls.

use crate::carriers::{Carrier, carried_at, desc_of};
use mrc_base::Disp;
use mrc_desc::{Argument, Arguments, Bytes, Header, Message, Names};
use mrc_forms::Items;
use mrc_wiring::{TypedForm, Wired};
use std::alloc::{AllocError, Global};

/// A name with the disposition by which its right is carried.
#[derive(Clone, Copy)]
pub(crate) struct By {
    pub(crate) name: u32,
    pub(crate) disp: Disp,
}

/// An argument of zeros and nulls, of which the first name carries a right, if it has to.
fn filled(
    alloc: Global,
    items: Items,
    carried: Option<Disp>,
    name: u32,
) -> Result<Argument, AllocError> {
    let desc = desc_of(items, carried);
    let count = desc.number as usize;
    if let Some(disp) = Disp::of_number(desc.name) {
        let mut names = vec![in alloc; 0u32; count]?;
        if let (Some(first), Some(_)) = (names.first_mut(), carried) {
            *first = name;
        }
        let names = Names::from(names);
        return Ok(Argument::Ports { disp, names });
    }
    let len = count.saturating_mul(usize::from(desc.size)) / 8;
    let bytes = Bytes::from(vec![in alloc; 0u8; len]?);
    Ok(Argument::Data { desc, bytes })
}

/// The arguments of a form, of which one may carry the right of a name.
fn filled_all(
    alloc: Global,
    form: &TypedForm,
    slot: Option<(usize, Disp)>,
    name: u32,
) -> Result<Vec<Argument>, AllocError> {
    let mut arguments = Vec::new(alloc);
    for (number, typed) in form.arguments().iter().enumerate() {
        let carried = carried_at(slot, number);
        arguments.push(filled(alloc, typed.items, carried, name)?)?;
    }
    Ok(arguments)
}

/// A disposition as a header has it.
fn disp_byte(disp: Disp) -> u8 {
    (disp.number() & 0xff) as u8
}

/// The header of a message through `to`, which carries the right in a slot or as its reply port.
fn header_of(carrier: &Carrier, to: By, carried: By) -> Header {
    let (local_disp, local_port) = match carrier.slot {
        Some(_) => (0, 0),
        None => (disp_byte(carried.disp), carried.name),
    };
    Header {
        remote_disp: disp_byte(to.disp),
        local_disp,
        remote_port: to.name,
        local_port,
        seqno: 0,
        id: carrier.id,
    }
}

/// The message through `to` that carries the right.
pub(crate) fn message_of(
    alloc: Global,
    wired: &Wired,
    carrier: &Carrier,
    to: By,
    carried: By,
) -> Result<Option<Message>, AllocError> {
    let Some(form) = wired.item_form(carrier.item, carrier.id) else {
        return Ok(None);
    };
    let arguments = Arguments::from(filled_all(alloc, form, carrier.slot, carried.name)?);
    Ok(Message::new(header_of(carrier, to, carried), arguments).ok())
}
