//! Forms whose arguments have the numbers of their types.

ghost use Rattle.std.specs.Prelude.{◌≡◌, [], find, slice_get, unwrap_or, IfOk};
ghost use Rattle.mrc_model.specs.Wiring.{form_id, form_shapes};
ghost use Rattle.mrc_wiring.specs.Finding.{form_by, is_of_routine, sort_at};
ghost use Rattle.mrc_wiring.specs.ModelForms.{slot_number, is_at, shapes_of, model_form};
ghost use Rattle.mrc_wiring.specs.ModelForms.{request_kind, typed_forms, typed_from};

use crate::sorts::Sorts;
use mrc_base::{Copies, copy_all, same_all};
use mrc_forms::{Form, FormKind, Interface, Items, MessageKind, RequestKind, Slot};
use std::alloc::{AllocError, Global};
use std::marker::Model;

/// An argument of a form, with the number of its type.
#[derive(Debug, Drop)]
pub struct TypedArgument {
    /// What its data look like.
    pub items: Items,
    /// The number of its type, which `Wired::admits` asks for; if it can carry no port rights, a
    /// number that no type has.
    pub sort: usize,
}

impl Model for TypedArgument {
    ghost use Rattle.mrc_forms.specs.Types.{types_of};
    ghost use Rattle.mrc_model.specs.Wiring as model;

    ghost Value = { model.Shape };

    ghost view = { λ a. record {
      types = types_of a.items.types;
      size = a.items.size;
      number = a.items.number;
      is_bound = a.items.is_bound;
      sort = a.sort;
    } };
}

impl Copies for TypedArgument {
    fn copy(&self, _: Global) -> Result<TypedArgument, AllocError> {
        Ok(TypedArgument {
            items: self.items,
            sort: self.sort,
        })
    }

    fn same(&self, other: &TypedArgument) -> bool {
        self.items == other.items && self.sort == other.sort
    }
}

/// A form of an interface of a wiring, whose arguments have the numbers of their types.
#[derive(Debug, Drop)]
pub struct TypedForm {
    kind: FormKind,
    id: u32,
    arguments: Vec<TypedArgument>,
}

impl Model for TypedForm {
    ghost use Rattle.mrc_model.specs.Wiring as model;
    ghost use Rattle.mrc_wiring.specs.Finding.{form_by};

    ghost Value = { model.Form };

    ghost view = { λ f. form_by f.kind f.id f.arguments.items };
}

/// The number of the type of the slot that is this argument, or a number that no type has.
fn slot_number(sorts: &Sorts, interface: usize, slots: &[Slot], argument: usize) -> usize
    ensures { result ≡ slot_number sorts.now interface (find (is_at argument) slots.now) }
{
    for slot in slots {
        if slot.argument == argument {
            let place = sorts.place(interface, slot.type_name.as_str());
            return place.unwrap_or(sorts.len());
        }
    }
    sorts.len()
}

/// The arguments of a form of the interface of this number.
fn typed_arguments(
    alloc: Global,
    sorts: &Sorts,
    interface: usize,
    form: &Form,
) -> Result<Vec<TypedArgument>, AllocError>
    ensures { IfOk result (λ typed. typed.items ≡ shapes_of sorts.now interface form.now) }
{
    let mut typed = Vec::new(alloc);
    for (number, argument) in form.arguments().iter().enumerate() {
        typed.push(TypedArgument {
            items: argument.items,
            sort: slot_number(sorts, interface, form.slots(), number),
        })?;
    }
    Ok(typed)
}

/// What a request wants.
fn request_kind(kind: FormKind) -> RequestKind
    ensures { result ≡ request_kind kind }
{
    match kind {
        FormKind::Request(kind) => kind,
        FormKind::Reply => RequestKind::Simple,
    }
}

impl TypedForm {
    /// The form, as this message of the interface of this number.
    fn of(
        alloc: Global,
        kind: MessageKind,
        sorts: &Sorts,
        interface: usize,
        form: &Form,
    ) -> Result<TypedForm, AllocError>
        ensures { IfOk result (λ typed. typed ≡ model_form kind sorts.now interface form.now) }
    {
        let kind = match kind {
            MessageKind::Request => FormKind::Request(request_kind(form.kind())),
            MessageKind::Reply => FormKind::Reply,
        };
        Ok(TypedForm {
            kind,
            id: form.id(),
            arguments: typed_arguments(alloc, sorts, interface, form)?,
        })
    }

    /// Which message it is.
    pub fn kind(&self) -> FormKind
        ensures { self.now ≡ form_by result (form_id self.now) (form_shapes self.now) }
    {
        self.kind
    }

    /// The number that the message has as its msgh_id.
    pub fn id(&self) -> u32
        ensures { result ≡ form_id self.now }
    {
        self.id
    }

    /// The arguments of the body, in order. In a reply the return code is the first.
    pub fn arguments(&self) -> &[TypedArgument]
        ensures { result.now ≡ form_shapes self.now }
    {
        self.arguments.as_slice()
    }

    /// The number of the type of an argument, which `Wired::admits` asks for; 0 if there is no
    /// such argument.
    pub fn sort(&self, argument: usize) -> usize
        ensures { result ≡ sort_at (form_shapes self.now) argument }
    {
        match self.arguments.get(argument) {
            Some(argument) => argument.sort,
            None => 0,
        }
    }

    /// Whether it is that of a request which may bring a reply right.
    pub(crate) fn is_of_routine(&self) -> bool
        ensures { result ≡ is_of_routine self.now }
    {
        match self.kind {
            FormKind::Request(kind) => kind.brings_reply(),
            FormKind::Reply => false,
        }
    }
}

impl Copies for TypedForm {
    fn copy(&self, alloc: Global) -> Result<TypedForm, AllocError> {
        Ok(TypedForm {
            kind: self.kind,
            id: self.id,
            arguments: copy_all(alloc, &self.arguments)?,
        })
    }

    fn same(&self, other: &TypedForm) -> bool {
        self.kind == other.kind
            && self.id == other.id
            && same_all(&self.arguments, &other.arguments)
    }
}

/// The form of one of the two messages at each id of an interface.
#[derive(Debug, Drop)]
pub(crate) struct TypedForms {
    by_place: Vec<Option<TypedForm>>,
}

impl Model for TypedForms {
    ghost use Rattle.std.specs.Prelude.{List, Option};
    ghost use Rattle.mrc_model.specs.Wiring as model;

    ghost Value = { List (Option model.Form) };

    ghost view = { λ f. f.by_place.items };
}

impl TypedForms {
    /// The forms of this message of the interface of this number.
    fn of(
        alloc: Global,
        kind: MessageKind,
        sorts: &Sorts,
        number: usize,
        interface: &Interface,
    ) -> Result<TypedForms, AllocError>
        ensures { IfOk result (λ typed. typed ≡ typed_forms kind sorts.now number interface.now) }
    {
        let mut by_place = Vec::new(alloc);
        for row in interface.rows() {
            let typed = match row.form(kind) {
                Some(form) => Some(TypedForm::of(alloc, kind, sorts, number, form)?),
                None => None,
            };
            by_place.push(typed)?;
        }
        Ok(TypedForms { by_place })
    }

    /// The form at each id, in the order of the ids.
    pub(crate) fn as_slice(&self) -> &[Option<TypedForm>]
        ensures { result.now ≡ self.now }
    {
        self.by_place.as_slice()
    }
}

impl Copies for TypedForms {
    fn copy(&self, alloc: Global) -> Result<TypedForms, AllocError> {
        Ok(TypedForms {
            by_place: copy_all(alloc, &self.by_place)?,
        })
    }

    fn same(&self, other: &TypedForms) -> bool {
        same_all(&self.by_place, &other.by_place)
    }
}

/// The form at each id of the interface of this number; none if there is no such interface.
pub(crate) fn forms_at(typed: &[TypedForms], number: usize) -> &[Option<TypedForm>]
    ensures { result.now ≡ unwrap_or (slice_get typed.now number) [] }
{
    match typed.get(number) {
        Some(forms) => forms.as_slice(),
        None => &[],
    }
}

/// The forms of this message of each interface.
pub(crate) fn typed_of(
    alloc: Global,
    kind: MessageKind,
    sorts: &Sorts,
    interfaces: &[Interface],
) -> Result<Vec<TypedForms>, AllocError>
    ensures { IfOk result (λ typed. typed.items ≡ typed_from kind sorts.now 0 interfaces.now) }
{
    let mut typed = Vec::new(alloc);
    for (number, interface) in interfaces.iter().enumerate() {
        typed.push(TypedForms::of(alloc, kind, sorts, number, interface)?)?;
    }
    Ok(typed)
}
