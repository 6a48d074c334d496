//! What the body of a message looks like.

ghost use Rattle.std.specs.Prelude.{◌≡◌, ◌≤◌, ◌+◌, length, slice_get, IfOk, OnOk, IsTrue};
ghost use Rattle.std.specs.List.{list_all};
ghost use Rattle.std.specs.Option.{option_map};
ghost use Rattle.mrc_base.specs.Limits.{limit_of_arguments};
ghost use Rattle.mrc_forms.specs.Shapes.{items_fit};
ghost use Rattle.mrc_forms.specs.Forms.{argument_fits, empty_form, has_name, slot_named};
ghost use Rattle.mrc_forms.specs.Forms.{with_argument};
ghost use Rattle.mrc_forms.specs.Types.{dispositions_of};

use crate::shape::Items;
use crate::types::ItemTypes;
use mrc_base::{Copies, Disp, copy_all, same_all};
use mrc_model::RequestKind;
use std::alloc::{AllocError, Global};
use std::marker::Model;

/// Which of the two messages of a routine.
#[derive(Clone, Copy, Debug, PartialEq, Eq)]
pub enum MessageKind {
    /// The request.
    Request,
    /// The reply.
    Reply,
}

/// Which message of a routine a form is of.
#[derive(Clone, Copy, Debug, PartialEq, Eq)]
pub enum FormKind {
    /// The request, which has a reply or none.
    Request(RequestKind),
    /// The reply.
    Reply,
}

/// An argument of the body of a message.
#[derive(Debug, Drop)]
pub struct Argument {
    /// Its name in the routine; that of a return code is `RetCode`.
    pub name: String,
    /// What its data look like.
    pub items: Items,
}

impl Model for Argument {
    ghost use Rattle.std.specs.Prelude.{string_bytes};
    ghost use Rattle.mrc_forms.specs.Forms as forms;

    ghost Value = { forms.Argument };

    ghost view = { λ a. record { name = string_bytes a.name; items = a.items } };
}

/// An argument that can carry port rights. Where the argument is an array, each of its items is
/// such a right.
#[derive(Debug, Drop)]
pub struct Slot {
    /// Its number among the arguments of the body, from 0.
    pub argument: usize,
    /// What its items may be.
    pub types: ItemTypes,
    /// The name of its type: that which stands behind the argument's colon.
    pub type_name: String,
}

impl Slot {
    /// The dispositions by which a sender may hand the rights over, in the order of their numbers.
    pub fn dispositions(&self) -> &'static [Disp]
        ensures { result.now ≡ dispositions_of self.now.types }
    {
        self.types.dispositions()
    }
}

impl Model for Slot {
    ghost use Rattle.std.specs.Prelude.{string_bytes};
    ghost use Rattle.mrc_forms.specs.Forms as forms;

    ghost Value = { forms.Slot };

    ghost view = { λ s. record {
      argument = s.argument;
      types = s.types;
      type_name = string_bytes s.type_name;
    } };
}

/// What the body of a message looks like: its arguments, in order, and which of them carry port
/// rights. There are 32 at most and the return code, of sizes and counts that types can have.
#[derive(Debug, Drop)]
pub struct Form {
    name: String,
    id: u32,
    kind: FormKind,
    arguments: Vec<Argument>,
    slots: Vec<Slot>,
}

impl Model for Form {
    ghost use Rattle.std.specs.Prelude.{◌≡◌, ◌≤◌, ◌+◌, length, string_bytes, true};
    ghost use Rattle.std.specs.List.{list_all};
    ghost use Rattle.mrc_base.specs.Limits.{limit_of_arguments};
    ghost use Rattle.mrc_forms.specs.Forms as forms;
    ghost use Rattle.mrc_forms.specs.Forms.{argument_fits};

    ghost Value = { forms.Form };

    ghost view = { λ f. record {
      name = string_bytes f.name;
      id = f.id;
      kind = f.kind;
      arguments = f.arguments.items;
      slots = f.slots.items;
    } };

    ghost invariant = { λ f. (length f.arguments.items ≤ limit_of_arguments + 1)
        × (list_all argument_fits f.arguments.items ≡ true) };
}

/// The name of the return code.
const RETURN_CODE: &str = "RetCode";

/// What the return code's data look like: one INTEGER_32.
const CODE: Items = Items {
    types: ItemTypes::One(2),
    size: 32,
    number: 1,
    is_bound: false,
};

impl Form {
    /// The name of its routine.
    pub fn name(&self) -> &str
        ensures { result.now ≡ self.now.name }
    {
        self.name.as_str()
    }

    /// The number that the message has as its msgh_id.
    pub fn id(&self) -> u32
        ensures { result ≡ self.now.id }
    {
        self.id
    }

    /// Which message it is.
    pub fn kind(&self) -> FormKind
        ensures { result ≡ self.now.kind }
    {
        self.kind
    }

    /// The arguments of the body, in order. In a reply the return code is the first.
    pub fn arguments(&self) -> &[Argument]
        ensures shown { result.now ≡ self.now.arguments }
        ensures few { length result.now ≤ limit_of_arguments + 1 }
        ensures kept { IsTrue (list_all argument_fits result.now) }
    {
        self.arguments.as_slice()
    }

    /// The arguments that carry port rights, in order.
    pub fn slots(&self) -> &[Slot]
        ensures { result.now ≡ self.now.slots }
    {
        self.slots.as_slice()
    }

    /// Whether the argument of this number is there, and has this name.
    fn has_name(&self, argument: usize, name: &str) -> bool
        ensures { result ≡ has_name name.now (slice_get self.now.arguments argument) }
    {
        match self.arguments.get(argument) {
            Some(argument) => name == argument.name.as_str(),
            None => false,
        }
    }

    /// The slot that is the argument of this name.
    pub fn slot_named(&self, name: &str) -> Option<&Slot>
        ensures { option_map (λ slot. slot.now) result ≡ slot_named self.now name.now }
    {
        self.slots
            .iter()
            .find(|slot| self.has_name(slot.argument, name))
    }

    /// A form of a routine of this name, with no arguments but those that stand in front.
    pub fn empty(alloc: Global, name: &str, id: u32, kind: FormKind) -> Result<Form, AllocError>
        ensures { IfOk result (λ form. form ≡ empty_form name.now id kind) }
    {
        let mut arguments = Vec::new(alloc);
        if kind == FormKind::Reply {
            arguments.push(Argument {
                name: String::from_str(alloc, RETURN_CODE)?,
                items: CODE,
            })?;
        }
        Ok(Form {
            name: String::from_str(alloc, name)?,
            id,
            kind,
            arguments,
            slots: Vec::new(alloc),
        })
    }

    /// Puts an argument behind the others. Where it can carry port rights it is a slot, of the type
    /// of this name.
    pub fn push(
        &mut self,
        alloc: Global,
        name: &str,
        items: Items,
        type_name: &str,
    ) -> Result<(), AllocError>
        requires room { length self.old.arguments ≤ limit_of_arguments }
        requires fits { IsTrue (items_fit items) }
        ensures { OnOk result (self.new ≡ with_argument self.old name.now items type_name.now) }
    {
        if items.types.has_rights() {
            self.slots.push(Slot {
                argument: self.arguments.len(),
                types: items.types,
                type_name: String::from_str(alloc, type_name)?,
            })?;
        }
        self.arguments.push(Argument {
            name: String::from_str(alloc, name)?,
            items,
        })?;
        Ok(())
    }
}

impl Copies for Argument {
    fn copy(&self, alloc: Global) -> Result<Argument, AllocError> {
        Ok(Argument {
            name: String::from_str(alloc, self.name.as_str())?,
            items: self.items,
        })
    }

    fn same(&self, other: &Argument) -> bool {
        self.name == other.name && self.items == other.items
    }
}

impl Copies for Slot {
    fn copy(&self, alloc: Global) -> Result<Slot, AllocError> {
        Ok(Slot {
            argument: self.argument,
            types: self.types,
            type_name: String::from_str(alloc, self.type_name.as_str())?,
        })
    }

    fn same(&self, other: &Slot) -> bool {
        self.argument == other.argument
            && self.types == other.types
            && self.type_name == other.type_name
    }
}

impl Copies for Form {
    fn copy(&self, alloc: Global) -> Result<Form, AllocError> {
        Ok(Form {
            name: String::from_str(alloc, self.name())?,
            id: self.id,
            kind: self.kind,
            arguments: copy_all(alloc, &self.arguments)?,
            slots: copy_all(alloc, &self.slots)?,
        })
    }

    fn same(&self, other: &Form) -> bool {
        self.name == other.name
            && self.id == other.id
            && self.kind == other.kind
            && same_all(&self.arguments, &other.arguments)
            && same_all(&self.slots, &other.slots)
    }
}
