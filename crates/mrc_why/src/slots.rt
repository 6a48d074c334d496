//! The slot of a form through which a right passes, and the subsystem whose requests bring reply
//! rights.

ghost use Rattle.std.specs.Prelude.{◌≡◌, true, IsTrue, IfSome, Some, find, slice_get};
ghost use Rattle.std.specs.Option.{option_map};
ghost use Rattle.mrc_model.specs.IsIn.{IsIn};
ghost use Rattle.mrc_model.specs.declared.LabelItem.TheVariants as label;
ghost use Rattle.mrc_model.specs.Wiring.{label as label_of};
ghost use Rattle.mrc_wiring.specs.ModelForms.{is_at};
ghost use Rattle.mrc_wiring.specs.Finding.{item_of};
ghost use Rattle.mrc_wiring.specs.Table.{wiring_of};
ghost use Rattle.mrc_base.specs.Disposition.{given, needed};
ghost use Rattle.mrc_why.specs.Sources.{BringsReply, IsPassing, IsItemSlot, IsSlot};
ghost use Rattle.mrc_why.specs.Sources.{HasRoutine, IsRoutineItem, AcceptsRoutine};
ghost use Rattle.mrc_why.specs.Slots.{IsFormPlace, IsRoutineForm};

use crate::origins::SlotNames;
use mrc_base::{ClassId, Disp, PortRight, give, need};
use mrc_classes::same_right;
use mrc_forms::{Form, FormKind, Interface, MessageKind, Row, Slot};
use mrc_model::LabelItem;
use mrc_wiring::{TypedForm, Wired, item_of};

/// What is to pass through a slot: what its sender holds, on a port of which class, and what its
/// receiver gets.
#[derive(Clone, Copy, Debug)]
pub(crate) struct Passing {
    pub(crate) class: ClassId,
    pub(crate) held: PortRight,
    pub(crate) right: PortRight,
}

/// The slot that is the argument of this number.
fn slot_at(form: &Form, argument: usize) -> Option<&Slot>
    ensures { option_map (λ slot. slot.now) result ≡ find (is_at argument) form.now.slots }
{
    form.slots().iter().find(|slot| slot.argument == argument)
}

/// Whether the right is handed over by the disposition.
fn hands_over(disp: Disp, passing: &Passing) -> bool
    ensures { IsTrue result → (needed disp ≡ passing.now.held) × (given disp ≡ passing.now.right) }
{
    same_right(need(disp), passing.held) && same_right(give(disp), passing.right)
}

/// Whether the slot, of a type of this number, lets the right pass.
fn passes(wired: &Wired, slot: &Slot, sort: usize, passing: &Passing) -> bool
    ensures { IsTrue result → IsPassing (wiring_of wired.now) passing.now.class passing.now.held
        passing.now.right slot.now sort }
{
    for disp in slot.dispositions() {
        if hands_over(*disp, passing) {
            return wired.admits(sort, passing.class);
        }
    }
    false
}

/// The first argument of the form that is a slot and lets the right pass.
fn slot_of_form<'a>(
    wired: &Wired,
    interface: &'a Interface,
    form: &'a Form,
    typed: &TypedForm,
    passing: &Passing,
) -> Option<SlotNames<'a>>
    ensures { IfSome result (IsFormPlace (wiring_of wired.now) interface.now form.now typed.now
        passing.now) }
{
    for (place, argument) in form.arguments().iter().enumerate() {
        if let Some(slot) = slot_at(form, place) {
            if passes(wired, slot, typed.sort(place), passing) {
                return Some(SlotNames {
                    subsystem: interface.name(),
                    routine: form.name(),
                    argument: argument.name.as_str(),
                    type_name: slot.type_name.as_str(),
                });
            }
        }
    }
    None
}

/// The same of the form of this message in a row of the interface of this number.
fn slot_of_row<'a>(
    wired: &Wired,
    kind: MessageKind,
    number: usize,
    interface: &'a Interface,
    row: &'a Row,
    passing: &Passing,
) -> Option<SlotNames<'a>>
    requires there { slice_get wired.now.interfaces number ≡ Some interface.now }
    requires row { IsIn row.now interface.now.rows }
    ensures { IfSome result (IsItemSlot wired.now (item_of kind number) passing.now.class
        passing.now.held passing.now.right) }
{
    let _ids = interface.ids();
    let form = row.form(kind)?;
    let typed = wired.item_form(item_of(kind, number), form.id())?;
    slot_of_form(wired, interface, form, typed, passing)
}

/// The first slot of these messages of the interface of this number that lets the right pass.
fn slot_of_messages<'a>(
    wired: &'a Wired,
    kind: MessageKind,
    number: usize,
    passing: &Passing,
) -> Option<SlotNames<'a>>
    ensures { IfSome result (IsItemSlot wired.now (item_of kind number) passing.now.class
        passing.now.held passing.now.right) }
{
    let interface = wired.interface(number)?;
    for row in interface.rows() {
        if let Some(names) = slot_of_row(wired, kind, number, interface, row, passing) {
            return Some(names);
        }
    }
    None
}

/// The first slot of the forms of the item that lets the right pass.
fn slot_of_item<'a>(wired: &'a Wired, item: LabelItem, passing: &Passing) -> Option<SlotNames<'a>>
    ensures { IfSome result (IsItemSlot wired.now item passing.now.class passing.now.held
        passing.now.right) }
{
    match item {
        LabelItem::Request(number) => {
            slot_of_messages(wired, MessageKind::Request, number, passing)
        }
        LabelItem::Reply(number) => slot_of_messages(wired, MessageKind::Reply, number, passing),
        LabelItem::Destroyed => None,
    }
}

/// The first slot of the forms that the class accepts that lets the right pass.
pub(crate) fn slot_of<'a>(wired: &'a Wired, to: ClassId, passing: &Passing) -> Option<SlotNames<'a>>
    ensures { IfSome result (IsSlot wired.now to passing.now.class passing.now.held
        passing.now.right) }
{
    for item in wired.label(to) {
        if let Some(names) = slot_of_item(wired, *item, passing) {
            return Some(names);
        }
    }
    None
}

/// Whether a form of the kind is that of a request which may bring a reply right.
fn brings_reply(kind: FormKind) -> bool
    ensures { IsTrue result → BringsReply kind }
{
    match kind {
        FormKind::Request(kind) => kind.brings_reply(),
        FormKind::Reply => false,
    }
}

/// Whether it is the form of a request which may bring a reply right.
fn is_routine(form: Option<&Form>) -> bool
    ensures { IsTrue result → IsRoutineForm (option_map (λ form. form.now) form.entry) }
{
    match form {
        Some(form) => brings_reply(form.kind()),
        None => false,
    }
}

/// Whether the interface has a request which may bring a reply right.
fn has_routine(interface: &Interface) -> bool
    ensures { IsTrue result → HasRoutine interface.now }
{
    for row in interface.rows() {
        if is_routine(row.form(MessageKind::Request)) {
            return true;
        }
    }
    false
}

/// Whether the item stands for the replies of the interface of this number.
fn is_reply(item: &LabelItem, number: usize) -> bool
    ensures { IsTrue result → item.now ≡ label.Reply number }
{
    match item {
        LabelItem::Reply(other) => *other == number,
        LabelItem::Request(_) | LabelItem::Destroyed => false,
    }
}

/// Whether one of the items does so.
fn has_reply(items: &[LabelItem], number: usize) -> bool
    ensures { IsTrue result → IsIn (label.Reply number) items.now }
{
    for item in items {
        if is_reply(item, number) {
            return true;
        }
    }
    false
}

/// Whether the class accepts the replies of the interface of this number, or reply ports need not
/// fit.
fn fits(wired: &Wired, class: ClassId, number: usize) -> bool
    ensures { IsTrue result → (wiring_of wired.now).replies_fit ≡ true
        → IsIn (label.Reply number) (label_of (wiring_of wired.now) class) }
{
    !wired.replies_fit() || has_reply(wired.label(class), number)
}

/// The name of the interface of this number, if it has a routine whose replies the class may
/// accept.
fn routine_of_interface(wired: &Wired, class: ClassId, number: usize) -> Option<&str>
    ensures { IfSome result (λ name.
        IsRoutineItem wired.now (label.Request number) class name.now) }
{
    let interface = wired.interface(number)?;
    if has_routine(interface) && fits(wired, class, number) {
        Some(interface.name())
    } else {
        None
    }
}

/// The name of the subsystem whose requests the item stands for, if it has a routine whose replies
/// the class may accept.
fn routine_of_item(wired: &Wired, class: ClassId, item: LabelItem) -> Option<&str>
    ensures { IfSome result (λ name. IsRoutineItem wired.now item class name.now) }
{
    match item {
        LabelItem::Request(number) => routine_of_interface(wired, class, number),
        LabelItem::Reply(_) | LabelItem::Destroyed => None,
    }
}

/// The first subsystem with a routine whose requests the class `to` accepts. If reply ports have to
/// fit, `class` accepts the replies of the subsystem.
pub(crate) fn routine_of(wired: &Wired, to: ClassId, class: ClassId) -> Option<&str>
    ensures { IfSome result (λ name. AcceptsRoutine wired.now to class name.now) }
{
    for item in wired.label(to) {
        if let Some(name) = routine_of_item(wired, class, *item) {
            return Some(name);
        }
    }
    None
}
