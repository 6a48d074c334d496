//! Lists of things, in which nothing has to be twice.

ghost use Rattle.std.specs.Prelude.{◌≡◌, ◌++◌, ◌∷◌, [], OnOk, IfOk, bytes_eq, nat_eq, fold};
ghost use Rattle.std.specs.List.{list_any};
ghost use Rattle.mrc_stand_for.specs.Once.{with_once, with_each, same_class, same_place};
ghost use Rattle.mrc_stand_for.specs.Once.{same_slot, same_verb, same_right};

use crate::wide::{PlaceName, SlotName};
use mrc_base::PortRight;
use mrc_wiring_text::{ClassName, Item, Items, Kind, Name, TrustVerb};
use std::alloc::{AllocError, Global};
use std::marker::Model;

/// Things in their order.
#[derive(Drop)]
pub struct Several<T> {
    items: Vec<T>,
}

impl<T> Model for Several<T> {
    ghost use Rattle.std.specs.Prelude.{List};

    ghost Value = { List T };

    ghost view = { λ a. a.items.items };
}

impl<T> Several<T> {
    /// Nothing.
    pub fn empty(alloc: Global) -> Several<T>
        ensures { result ≡ [] }
    {
        Several {
            items: Vec::new(alloc),
        }
    }

    /// These things.
    pub fn new(items: Vec<T>) -> Several<T>
        ensures { result ≡ items.items }
    {
        Several { items }
    }

    /// The things in order.
    pub fn as_slice(&self) -> &[T]
        ensures { result.now ≡ self.now }
    {
        self.items.as_slice()
    }

    /// The things as a vector.
    pub fn into_vec(self) -> Vec<T>
        ensures { result.items ≡ self }
    {
        self.items
    }

    /// One more, at the end.
    pub fn push(&mut self, item: T) -> Result<(), AllocError>
    where
        T: Drop,
        ensures { OnOk result (self.new ≡ self.old ++ item ∷ []) }
    {
        self.items.push(item)?;
        Ok(())
    }
}

/// What is copied.
pub(crate) trait Copied: Drop {
    /// An equal one.
    fn copy(&self, alloc: Global) -> Result<Self, AllocError>
        ensures { IfOk result (λ copy. copy ≡ self.now) };
}

/// Equal things in their order.
pub(crate) fn copies<T: Copied>(alloc: Global, items: &[T]) -> Result<Several<T>, AllocError>
    ensures { IfOk result (λ copies. copies ≡ items.now) }
{
    let mut copies = Several::empty(alloc);
    for item in items {
        copies.push(item.copy(alloc)?)?;
    }
    Ok(copies)
}

/// What is copied, and compared by a test of the definitions.
pub(crate) trait Alike: Copied {
    ghost use Rattle.std.specs.Prelude.{Bool};

    /// Whether two are the same.
    ghost is_same: { Self → Self → Bool };

    /// Whether they are the same.
    fn is_alike(&self, other: &Self) -> bool
        ensures { result ≡ is_same self.now other.now };
}

/// Whether it is there.
fn has<T: Alike>(items: &[T], item: &T) -> bool
    ensures { result ≡ list_any (T.is_same item.now) items.now }
{
    items.iter().any(|other| item.is_alike(other))
}

/// Adds what is not there yet.
pub(crate) fn add_once<T: Alike>(list: &mut Several<T>, item: T) -> Result<(), AllocError>
    ensures { OnOk result (list.new ≡ with_once T.is_same list.old item) }
{
    if has(list.as_slice(), &item) {
        return Ok(());
    }
    list.push(item)?;
    Ok(())
}

/// Adds a copy of each that is not there yet.
pub(crate) fn add_each<T: Alike>(
    alloc: Global,
    list: &mut Several<T>,
    items: &[T],
) -> Result<(), AllocError>
    ensures { OnOk result (list.new ≡ with_each T.is_same list.old items.now) }
{
    for item in items {
        add_once(list, item.copy(alloc)?)?;
    }
    Ok(())
}

/// A copy of each once.
pub(crate) fn once<T: Alike>(alloc: Global, items: &[T]) -> Result<Several<T>, AllocError>
    ensures { IfOk result (λ list. list ≡ with_each T.is_same [] items.now) }
{
    let mut list = Several::empty(alloc);
    add_each(alloc, &mut list, items)?;
    Ok(list)
}

impl Copied for Name {
    fn copy(&self, alloc: Global) -> Result<Name, AllocError> {
        Name::copy(self, alloc)
    }
}

impl Alike for Name {
    ghost is_same = { bytes_eq };

    fn is_alike(&self, other: &Name) -> bool {
        self.as_str() == other.as_str()
    }
}

/// An equal kind.
pub(crate) fn copy_kind(kind: &Kind) -> Kind
    ensures { result ≡ kind.now }
{
    Kind::new(kind.number()).unwrap()
}

fn copy_item(alloc: Global, item: &Item) -> Result<Item, AllocError>
    ensures { IfOk result (λ copy. copy ≡ item.now) }
{
    match item {
        Item::Request(name) => Ok(Item::Request(name.copy(alloc)?)),
        Item::Reply(name) => Ok(Item::Reply(name.copy(alloc)?)),
        Item::Destroyed => Ok(Item::Destroyed),
    }
}

/// Equal items.
pub(crate) fn copy_items(alloc: Global, items: &Items) -> Result<Items, AllocError>
    ensures { IfOk result (λ copy. copy ≡ items.now) }
{
    let mut copies = Vec::new(alloc);
    for item in items.as_slice() {
        copies.push(copy_item(alloc, item)?)?;
    }
    Ok(Items::new(copies))
}

impl Copied for ClassName {
    fn copy(&self, alloc: Global) -> Result<ClassName, AllocError> {
        match self {
            ClassName::Port(port) => Ok(ClassName::Port(port.copy(alloc)?)),
            ClassName::Task(task) => Ok(ClassName::Task(task.copy(alloc)?)),
            ClassName::Births { task, kind } => {
                Ok(ClassName::Births {
                    task: task.copy(alloc)?,
                    kind: copy_kind(kind),
                })
            }
        }
    }
}

impl Alike for ClassName {
    ghost is_same = { same_class };

    fn is_alike(&self, other: &ClassName) -> bool {
        match (self, other) {
            (ClassName::Port(port), ClassName::Port(other)) => port.is_alike(other),
            (ClassName::Task(task), ClassName::Task(other)) => task.is_alike(other),
            (
                ClassName::Births { task, kind },
                ClassName::Births {
                    task: other,
                    kind: number,
                },
            ) => task.is_alike(other) && kind.number() == number.number(),
            _ => false,
        }
    }
}

impl Copied for PlaceName {
    fn copy(&self, alloc: Global) -> Result<PlaceName, AllocError> {
        match self {
            PlaceName::Port(port) => Ok(PlaceName::Port(port.copy(alloc)?)),
            PlaceName::Task(task) => Ok(PlaceName::Task(task.copy(alloc)?)),
        }
    }
}

impl Alike for PlaceName {
    ghost is_same = { same_place };

    fn is_alike(&self, other: &PlaceName) -> bool {
        match (self, other) {
            (PlaceName::Port(port), PlaceName::Port(other)) => port.is_alike(other),
            (PlaceName::Task(task), PlaceName::Task(other)) => task.is_alike(other),
            _ => false,
        }
    }
}

impl Copied for SlotName {
    fn copy(&self, alloc: Global) -> Result<SlotName, AllocError> {
        let subsystem = self.subsystem.copy(alloc)?;
        let type_name = self.type_name.copy(alloc)?;
        Ok(SlotName {
            subsystem,
            type_name,
        })
    }
}

impl Alike for SlotName {
    ghost is_same = { same_slot };

    fn is_alike(&self, other: &SlotName) -> bool {
        self.subsystem.is_alike(&other.subsystem) && self.type_name.is_alike(&other.type_name)
    }
}

impl Copied for TrustVerb {
    fn copy(&self, alloc: Global) -> Result<TrustVerb, AllocError> {
        Ok(*self)
    }
}

impl Alike for TrustVerb {
    ghost is_same = { same_verb };

    fn is_alike(&self, other: &TrustVerb) -> bool {
        matches!(
            (*self, *other),
            (TrustVerb::Takes, TrustVerb::Takes)
                | (TrustVerb::Gives, TrustVerb::Gives)
                | (TrustVerb::Sends, TrustVerb::Sends)
                | (TrustVerb::Replies, TrustVerb::Replies)
        )
    }
}

impl Copied for PortRight {
    fn copy(&self, alloc: Global) -> Result<PortRight, AllocError> {
        Ok(*self)
    }
}

impl Alike for PortRight {
    ghost is_same = { same_right };

    fn is_alike(&self, other: &PortRight) -> bool {
        matches!(
            (*self, *other),
            (PortRight::Send, PortRight::Send)
                | (PortRight::Receive, PortRight::Receive)
                | (PortRight::SendOnce, PortRight::SendOnce)
        )
    }
}
