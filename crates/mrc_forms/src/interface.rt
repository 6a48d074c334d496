//! The forms of a subsystem's messages by their ids.

ghost use Rattle.std.specs.Prelude.{◌≡◌, ◌≤◌, ◌↔◌, length, string_bytes, IfOk, IsTrue};
ghost use Rattle.std.specs.Option.{option_map};
ghost use Rattle.mrc_base.specs.Limits.{limit_of_ids};
ghost use Rattle.mrc_forms.specs.declared.form.MessageKind.TheVariants as messages;
ghost use Rattle.mrc_forms.specs.Tables.{AreForms, form_in, form_named, form_of, place_of};

use crate::form::{Form, MessageKind};
use mrc_base::{Copies, copy_all, same_all};
use std::alloc::{AllocError, Global};
use std::marker::Model;

/// How far the id of a reply is above that of its request, by MIG's rule.
pub const REPLY: u32 = 100;

/// What stands at an id: a skip has neither form, a simpleroutine has no reply.
#[derive(Debug, Drop)]
pub struct Row {
    /// The form of the request.
    pub request: Option<Form>,
    /// The form of the reply.
    pub reply: Option<Form>,
}

impl Model for Row {
    ghost use Rattle.mrc_forms.specs.Tables as tables;

    ghost Value = { tables.Row };

    ghost view = { λ r. record { request = r.request; reply = r.reply } };
}

impl Row {
    /// The form of this message.
    pub fn form(&self, kind: MessageKind) -> Option<&Form>
        ensures { option_map (λ form. form.now) result ≡ form_in kind self.now }
    {
        match kind {
            MessageKind::Request => self.request.as_ref(),
            MessageKind::Reply => self.reply.as_ref(),
        }
    }
}

impl Copies for Row {
    fn copy(&self, alloc: Global) -> Result<Row, AllocError> {
        Ok(Row {
            request: self.request.copy(alloc)?,
            reply: self.reply.copy(alloc)?,
        })
    }

    fn same(&self, other: &Row) -> bool {
        self.request.same(&other.request) && self.reply.same(&other.reply)
    }
}

/// The forms of a subsystem's messages by their ids.
#[derive(Debug, Drop)]
pub struct Interface {
    name: String,
    base: u32,
    rows: Vec<Row>,
}

impl Model for Interface {
    ghost use Rattle.std.specs.Prelude.{◌≤◌, length, string_bytes};
    ghost use Rattle.mrc_base.specs.Limits.{limit_of_ids};
    ghost use Rattle.mrc_forms.specs.Tables.{AreForms, Table};

    ghost Value = { Table };

    ghost view = { λ i. record {
      name = string_bytes i.name;
      base = i.base;
      rows = i.rows.items;
    } };

    ghost invariant = { λ i. (length i.rows.items ≤ limit_of_ids)
        × AreForms record { name = string_bytes i.name; base = i.base; rows = i.rows.items } };
}

impl Interface {
    /// The table of these rows, 1,000 at most, of which the first stands at this id. In each row
    /// the request is a form of a request with the id of the row's place, the reply one of a reply
    /// with an id 100 above it.
    pub fn new(name: String, base: u32, rows: Vec<Row>) -> Interface
        requires few { length rows.items ≤ limit_of_ids }
        requires formed { AreForms record {
          name = string_bytes name;
          base = base;
          rows = rows.items;
        } }
        ensures { result ≡ record { name = string_bytes name; base = base; rows = rows.items } }
    {
        Interface { name, base, rows }
    }

    /// The subsystem's name.
    pub fn name(&self) -> &str
        ensures { result.now ≡ self.now.name }
    {
        self.name.as_str()
    }

    /// The first id, and how many ids there are, 1,000 at most. Those of skips count, those of
    /// replies do not.
    pub fn ids(&self) -> (u32, usize)
        ensures first { result.0 ≡ self.now.base }
        ensures count { result.1 ≡ length self.now.rows }
        ensures within { result.1 ≤ limit_of_ids }
        ensures formed { AreForms self.now }
    {
        (self.base, self.rows.len())
    }

    /// What stands at each id, in the order of the ids.
    pub fn rows(&self) -> &[Row]
        ensures { result.now ≡ self.now.rows }
    {
        self.rows.as_slice()
    }

    /// The place among the ids, counted from 0, of the one whose message of this kind has the id;
    /// none where the id is below that of all such messages.
    pub fn place_of(&self, kind: MessageKind, id: u32) -> Option<usize>
        ensures { result ≡ place_of kind self.now id }
    {
        let id = match kind {
            MessageKind::Request => id,
            MessageKind::Reply => id.checked_sub(REPLY)?,
        };
        Some(id.checked_sub(self.base)? as usize)
    }

    /// The form of this message that has the id.
    pub fn form_of(&self, kind: MessageKind, id: u32) -> Option<&Form>
        ensures { option_map (λ form. form.now) result ≡ form_of kind self.now id }
    {
        let row = self.rows.get(self.place_of(kind, id)?)?;
        row.form(kind)
    }

    /// The form of the request that has this id.
    pub fn request_form(&self, id: u32) -> Option<&Form>
        ensures { option_map (λ form. form.now) result ≡ form_of messages.Request self.now id }
    {
        self.form_of(MessageKind::Request, id)
    }

    /// The form of the reply that has this id, which is 100 above that of its request.
    pub fn reply_form(&self, id: u32) -> Option<&Form>
        ensures { option_map (λ form. form.now) result ≡ form_of messages.Reply self.now id }
    {
        self.form_of(MessageKind::Reply, id)
    }

    /// The form of this message of the routine of this name.
    pub fn form_named(&self, kind: MessageKind, name: &str) -> Option<&Form>
        ensures { option_map (λ form. form.now) result ≡ form_named kind self.now name.now }
    {
        for row in &self.rows {
            if let Some(form) = row.form(kind) {
                if name == form.name() {
                    return Some(form);
                }
            }
        }
        None
    }

    /// An equal interface.
    pub fn copy(&self, alloc: Global) -> Result<Interface, AllocError>
        ensures { IfOk result (λ copy. copy ≡ self.now) }
    {
        Ok(Interface {
            name: String::from_str(alloc, self.name())?,
            base: self.base,
            rows: copy_all(alloc, &self.rows)?,
        })
    }

    /// Whether the interfaces are equal.
    pub fn same(&self, other: &Interface) -> bool
        ensures { IsTrue result ↔ (self.now ≡ other.now) }
    {
        self.name == other.name && self.base == other.base && same_all(&self.rows, &other.rows)
    }
}

impl Copies for Interface {
    fn copy(&self, alloc: Global) -> Result<Interface, AllocError> {
        Interface::copy(self, alloc)
    }

    fn same(&self, other: &Interface) -> bool {
        Interface::same(self, other)
    }
}
