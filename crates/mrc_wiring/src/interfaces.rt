//! Interfaces, and their forms by the numbers of types.

ghost use Rattle.std.specs.Prelude.{◌≡◌, position, IfOk, IfErr};
ghost use Rattle.mrc_wiring.specs.Kept.{AreTyped};
ghost use Rattle.mrc_wiring.specs.ModelForms.{typed_from};
ghost use Rattle.mrc_wiring.specs.Sorts.{is_sort, sorts_of};

use crate::sorts::{Sorts, sorts_of};
use crate::typed::{TypedForms, typed_of};
use mrc_base::{Copies, copy_all, same_all};
use mrc_forms::{Interface, MessageKind};
use std::alloc::{AllocError, Global};
use std::marker::Model;

/// Interfaces in the order of their numbers, and what wirings over them need: the types of their
/// port arguments, and their forms with the numbers of types. It is computed once, for any number
/// of wirings.
#[derive(Debug, Drop)]
pub struct Interfaces {
    interfaces: Vec<Interface>,
    sorts: Sorts,
    requests: Vec<TypedForms>,
    replies: Vec<TypedForms>,
}

impl Model for Interfaces {
    ghost use Rattle.std.specs.Prelude.{List};
    ghost use Rattle.mrc_forms.specs.Tables.{Table};
    ghost use Rattle.mrc_wiring.specs.Kept.{AreTyped};

    ghost Value = { List Table };

    ghost view = { λ i. i.interfaces.items };

    ghost invariant = { λ i.
        AreTyped i.interfaces.items i.sorts i.requests.items i.replies.items };
}

/// The types of the port arguments, and the forms of requests and of replies.
fn typed(
    alloc: Global,
    interfaces: &[Interface],
) -> Result<(Sorts, Vec<TypedForms>, Vec<TypedForms>), AllocError>
    ensures { IfOk result (λ typed.
        AreTyped interfaces.now typed.0 typed.1.items typed.2.items) }
{
    let sorts = sorts_of(alloc, interfaces)?;
    let requests = typed_of(alloc, MessageKind::Request, &sorts, interfaces)?;
    let replies = typed_of(alloc, MessageKind::Reply, &sorts, interfaces)?;
    Ok((sorts, requests, replies))
}

impl Interfaces {
    /// The interfaces with the numbers of types. If memory runs out, they come back unchanged.
    pub fn new(
        alloc: Global,
        interfaces: Vec<Interface>,
    ) -> Result<Interfaces, (Vec<Interface>, AllocError)>
        ensures exact { IfOk result (λ typed. typed ≡ interfaces.items) }
        ensures returned { IfErr result (λ refused. refused.0.items ≡ interfaces.items) }
    {
        match typed(alloc, interfaces.as_slice()) {
            Ok((sorts, requests, replies)) => Ok(Interfaces {
                interfaces,
                sorts,
                requests,
                replies,
            }),
            Err(error) => Err((interfaces, error)),
        }
    }

    /// The interfaces, in the order of their numbers.
    pub fn as_slice(&self) -> &[Interface]
        ensures { result.now ≡ self.now }
    {
        self.interfaces.as_slice()
    }

    /// The interfaces by themselves.
    pub fn into_vec(self) -> Vec<Interface>
        ensures { result.items ≡ self }
    {
        let Interfaces { interfaces, .. } = self;
        interfaces
    }

    /// The number of a type, if a port argument of the interface of this number has the type.
    pub(crate) fn sort(&self, interface: usize, type_name: &str) -> Option<usize>
        ensures { result ≡ position (is_sort interface type_name.now) (sorts_of self.now) }
    {
        self.sorts.place(interface, type_name)
    }

    /// The forms of this message, by the numbers of the interfaces.
    pub(crate) fn typed(&self, kind: MessageKind) -> &[TypedForms]
        ensures { result.now ≡ typed_from kind (sorts_of self.now) 0 self.now }
    {
        match kind {
            MessageKind::Request => self.requests.as_slice(),
            MessageKind::Reply => self.replies.as_slice(),
        }
    }
}

impl Copies for Interfaces {
    fn copy(&self, alloc: Global) -> Result<Interfaces, AllocError> {
        Ok(Interfaces {
            interfaces: copy_all(alloc, &self.interfaces)?,
            sorts: sorts_of(alloc, &self.interfaces)?,
            requests: copy_all(alloc, &self.requests)?,
            replies: copy_all(alloc, &self.replies)?,
        })
    }

    fn same(&self, other: &Interfaces) -> bool {
        same_all(&self.interfaces, &other.interfaces)
    }
}
