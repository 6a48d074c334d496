//! What a class accepts, by the numbers of interfaces.

ghost use Rattle.std.specs.Prelude.{◌≡◌, [], IfOk};
ghost use Rattle.std.specs.Option.{option_map};
ghost use Rattle.std.specs.List.{list_any};
ghost use Rattle.mrc_base.specs.Reading.{Gives};
ghost use Rattle.mrc_wiring.specs.Labels.{interface_number, item_said, label_said, is_known};
ghost use Rattle.mrc_wiring.specs.Labels.{ids_by, ids_of, clash_among};

use crate::faults::ResolveFault;
use mrc_base::{Copies, OrMemory, copy_all, same_all};
use mrc_forms::{Interface, MessageKind};
use mrc_model::LabelItem;
use mrc_wiring_text::{Item, Items};
use std::alloc::{AllocError, Global};
use std::marker::Model;

/// What a class accepts: a list of items.
#[derive(Debug, Drop)]
pub(crate) struct Label {
    items: Vec<LabelItem>,
}

impl Model for Label {
    ghost use Rattle.std.specs.Prelude.{List};
    ghost use Rattle.mrc_model.specs.declared.LabelItem.{LabelItem};

    ghost Value = { List LabelItem };

    ghost view = { λ label. label.items.items };
}

impl Label {
    /// The items, in order.
    pub(crate) fn as_slice(&self) -> &[LabelItem]
        ensures { result.now ≡ self.now }
    {
        self.items.as_slice()
    }
}

impl Copies for Label {
    fn copy(&self, alloc: Global) -> Result<Label, AllocError> {
        Ok(Label {
            items: copy_all(alloc, &self.items)?,
        })
    }

    fn same(&self, other: &Label) -> bool {
        same_all(&self.items, &other.items)
    }
}

/// The number of the interface of a name.
pub(crate) fn interface_number(interfaces: &[Interface], name: &str) -> Option<usize>
    ensures { result ≡ interface_number interfaces.now name.now }
{
    interfaces
        .iter()
        .position(|interface| name == interface.name())
}

/// An item, if it names an interface that is there.
fn item_said(interfaces: &[Interface], item: &Item) -> Option<LabelItem>
    ensures { result ≡ item_said interfaces.now item.now }
{
    match item {
        Item::Request(name) => {
            let number = interface_number(interfaces, name.as_str())?;
            Some(LabelItem::Request(number))
        }
        Item::Reply(name) => {
            let number = interface_number(interfaces, name.as_str())?;
            Some(LabelItem::Reply(number))
        }
        Item::Destroyed => Some(LabelItem::Destroyed),
    }
}

/// The items of a line.
pub(crate) fn label_said(
    alloc: Global,
    interfaces: &[Interface],
    line: u32,
    accepts: &Items,
) -> Result<Label, OrMemory<ResolveFault>>
    ensures { Gives (λ label. label) result
        (label_said interfaces.now line accepts.now) }
{
    let mut items = Vec::new(alloc);
    for item in accepts.as_slice() {
        let next = item_said(interfaces, item).ok_or(OrMemory::Fault(ResolveFault::UnknownName(
            line,
        )))?;
        items.push(next)?;
    }
    Ok(Label { items })
}

/// The ids of this message of an interface.
fn ids_by(
    alloc: Global,
    kind: MessageKind,
    interface: Option<&Interface>,
) -> Result<Vec<u32>, AllocError>
    ensures { IfOk result (λ ids. ids.items
        ≡ ids_by kind (option_map (λ interface. interface.now) interface.entry)) }
{
    let mut ids = Vec::new(alloc);
    let Some(interface) = interface else {
        return Ok(ids);
    };
    for row in interface.rows() {
        if let Some(form) = row.form(kind) {
            ids.push(form.id())?;
        }
    }
    Ok(ids)
}

/// The ids of an item's forms.
fn item_ids(
    alloc: Global,
    interfaces: &[Interface],
    item: LabelItem,
) -> Result<Vec<u32>, AllocError>
    ensures { IfOk result (λ ids. ids.items ≡ ids_of interfaces.now item) }
{
    match item {
        LabelItem::Request(number) => ids_by(alloc, MessageKind::Request, interfaces.get(number)),
        LabelItem::Reply(number) => ids_by(alloc, MessageKind::Reply, interfaces.get(number)),
        LabelItem::Destroyed => Ok(Vec::new(alloc)),
    }
}

/// Whether an id is among these.
fn is_known(known: &[u32], id: u32) -> bool
    ensures { result ≡ is_known known.now id }
{
    known.iter().any(|other| *other == id)
}

/// Whether one of the ids is among these.
fn is_one_known(known: &[u32], ids: &[u32]) -> bool
    ensures { result ≡ list_any (is_known known.now) ids.now }
{
    ids.iter().any(|id| is_known(known, *id))
}

/// Whether two of the items have a form with the same id.
pub(crate) fn has_clash(
    alloc: Global,
    interfaces: &[Interface],
    items: &[LabelItem],
) -> Result<bool, AllocError>
    ensures { IfOk result (λ clash. clash ≡ clash_among interfaces.now [] items.now) }
{
    let mut known = Vec::new(alloc);
    for item in items {
        let ids = item_ids(alloc, interfaces, *item)?;
        if is_one_known(known.as_slice(), ids.as_slice()) {
            return Ok(true);
        }
        known.extend_from_slice(ids.as_slice())?;
    }
    Ok(false)
}
