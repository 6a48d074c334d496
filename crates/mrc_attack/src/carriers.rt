//! By which message a right is carried: the smallest form that has a slot for it, or that is
//! answered.

use mrc_base::{ClassId, Disp, PortRight, give, limits, need};
use mrc_desc::Desc;
use mrc_forms::{FormKind, ItemTypes, Items, MessageKind};
use mrc_model::LabelItem;
use mrc_wiring::{TypedForm, Wired};

/// The bytes of a header.
const HEADER: usize = 24;

/// The type number of bytes.
const INTEGER_8: u16 = 9;

/// The type number of numbers of 32 bits.
const INTEGER_32: u16 = 2;

/// A form that a class accepts, and which of its arguments carries the right: none if it is the
/// reply port.
#[derive(Clone, Copy)]
pub(crate) struct Carrier {
    pub(crate) item: LabelItem,
    pub(crate) id: u32,
    pub(crate) slot: Option<(usize, Disp)>,
}

/// What is carried where.
#[derive(Clone, Copy)]
pub(crate) struct Load {
    /// The class of the port that the message is sent to.
    pub(crate) to: ClassId,
    /// The class of the port that the right is on.
    pub(crate) class: ClassId,
    /// The right that the sender needs, and the one that is carried; none for a reply port.
    pub(crate) rights: Option<(PortRight, PortRight)>,
}

/// The best carrier so far, with whether it moves a send right, and its size.
type Best = Option<(bool, usize, Carrier)>;

impl Carrier {
    /// The right that is carried.
    pub(crate) fn right(&self) -> PortRight {
        match self.slot {
            Some((_, disp)) => give(disp),
            None => PortRight::SendOnce,
        }
    }
}

/// A type number that the items may have: that of the disposition, if they have to carry a right.
fn number_of(types: ItemTypes, carried: Option<Disp>) -> u16 {
    match (carried, types) {
        (Some(disp), _) => disp.number(),
        (None, ItemTypes::AnyData) => INTEGER_8,
        (None, ItemTypes::One(number)) => number,
        (None, ItemTypes::Send) => Disp::CopySend.number(),
        (None, ItemTypes::SendOnce) => Disp::MakeSendOnce.number(),
        (None, ItemTypes::Any) => INTEGER_32,
    }
}

/// How an argument is described: with as few items as it may have, but one if it has to carry a
/// right, by this disposition.
pub(crate) fn desc_of(items: Items, carried: Option<Disp>) -> Desc {
    let name = number_of(items.types, carried);
    let (size, number) = match items.types {
        ItemTypes::AnyData => (8, 0),
        _ if items.is_bound => (items.size, u32::from(carried.is_some())),
        _ => (items.size, items.number),
    };
    Desc { name, size, number }
}

/// By which disposition the argument of this number carries a right, if it is the slot.
pub(crate) fn carried_at(slot: Option<(usize, Disp)>, number: usize) -> Option<Disp> {
    slot.filter(|slot| slot.0 == number).map(|slot| slot.1)
}

/// How many bytes the message has if this slot carries a right.
fn size_of(form: &TypedForm, slot: Option<(usize, Disp)>) -> usize {
    let mut size = HEADER;
    for (number, argument) in form.arguments().iter().enumerate() {
        let desc = desc_of(argument.items, carried_at(slot, number));
        size = size.saturating_add(desc.argument_size());
    }
    size
}

/// Takes the carrier if it is better: a send right is moved only if it can't be copied, and else
/// the smaller message is better.
fn offer(best: &mut Best, form: &TypedForm, carrier: Carrier) {
    let is_moved = matches!(carrier.slot, Some((_, Disp::MoveSend)));
    let size = size_of(form, carrier.slot);
    let is_better = match *best {
        Some((was_moved, least, _)) => (is_moved, size) < (was_moved, least),
        None => true,
    };
    if size <= limits::MESSAGE && is_better {
        *best = Some((is_moved, size, carrier));
    }
}

/// Whether it is a request which may bring a reply right.
fn brings_reply(kind: FormKind) -> bool {
    match kind {
        FormKind::Request(kind) => kind.brings_reply(),
        FormKind::Reply => false,
    }
}

/// Whether the request is answered, to a port of the class that is carried.
fn is_answered(wired: &Wired, load: &Load, form: &TypedForm, item: LabelItem) -> bool {
    match item {
        LabelItem::Request(number) if brings_reply(form.kind()) => {
            !wired.replies_fit() || wired.label(load.class).contains(&LabelItem::Reply(number))
        }
        _ => false,
    }
}

/// Offers the slots of the form that fit, or the form itself if it is answered.
fn offer_form(wired: &Wired, load: &Load, form: &TypedForm, item: LabelItem, best: &mut Best) {
    let id = form.id();
    if load.rights.is_none() && is_answered(wired, load, form, item) {
        let slot = None;
        offer(best, form, Carrier { item, id, slot });
    }
    for (number, argument) in form.arguments().iter().enumerate() {
        for disp in argument.items.types.dispositions() {
            let fits = load.rights == Some((need(*disp), give(*disp)));
            if fits && wired.admits(argument.sort, load.class) {
                let slot = Some((number, *disp));
                offer(best, form, Carrier { item, id, slot });
            }
        }
    }
}

/// Offers the messages of an item.
fn offer_item(wired: &Wired, load: &Load, item: LabelItem, best: &mut Best) {
    let (number, kind) = match item {
        LabelItem::Request(number) => (number, MessageKind::Request),
        LabelItem::Reply(number) => (number, MessageKind::Reply),
        LabelItem::Destroyed => return,
    };
    let Some(interface) = wired.interface(number) else {
        return;
    };
    for row in interface.rows() {
        let id = row.form(kind).map(|form| form.id());
        if let Some(form) = id.and_then(|id| wired.item_form(item, id)) {
            offer_form(wired, load, form, item, best);
        }
    }
}

/// The best message that carries the right, if there is one of at most 8,192 bytes.
pub(crate) fn carrier_of(wired: &Wired, load: &Load) -> Option<Carrier> {
    let mut best = None;
    for item in wired.label(load.to) {
        offer_item(wired, load, *item, &mut best);
    }
    best.map(|best| best.2)
}
