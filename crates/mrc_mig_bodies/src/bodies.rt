//! What the bodies of a request and a reply have.

ghost use Rattle.std.specs.Prelude.{◌≡◌, ◌++◌, map, IfOk, OnOk};
ghost use Rattle.std.specs.List.{flat_map};
ghost use Rattle.mrc_mig_types.specs.Shapes.{form_of};
ghost use Rattle.mrc_mig_bodies.specs.Bodies.{form_by, form_of_item, has_count, is_in_reply};
ghost use Rattle.mrc_mig_bodies.specs.Bodies.{is_in_request, is_out, item_of, may_vary, varies};
ghost use Rattle.mrc_mig_bodies.specs.Bodies.{argument_item, reply_begins, reply_body, reply_items};
ghost use Rattle.mrc_mig_bodies.specs.Bodies.{request_body, request_items};
ghost use Rattle.mrc_mig_bodies.specs.Parameters.{parameter_of};

use crate::kinds::RoutineKind;
use crate::roles::settled;
use mrc_mig_arguments::{Argument, Role};
use mrc_mig_types::{By, Count, Meaning, Shape, shape_of};
use std::alloc::{AllocError, Global};

/// An item of a body.
#[derive(Clone, Copy, Debug)]
pub enum Entry<'t> {
    /// An argument.
    Argument {
        /// Its name.
        name: &'t str,
        /// The name of its type.
        type_name: &'t str,
        /// What it is.
        shape: Shape,
    },
    /// How many items an argument may have, at most, in the reply.
    Count {
        /// The argument's name.
        name: &'t str,
    },
    /// What the routine returns.
    ReturnCode,
}

impl Entry<'_> {
    /// What the item is in a message: a count and a return code are numbers of 32 bits.
    pub fn shape(self) -> Shape
        ensures { form_of result ≡ form_of_item (item_of self.entry) }
    {
        match self {
            Entry::Argument {
                name: _,
                type_name: _,
                shape,
            } => shape,
            Entry::Count { name: _ } | Entry::ReturnCode => Shape::Data {
                number: 2,
                bits: 32,
                count: 1,
                is_bound: false,
            },
        }
    }
}

/// What the messages of a routine have.
#[derive(Debug, Drop)]
pub struct Messages<'t> {
    /// The request.
    pub request: Vec<Entry<'t>>,
    /// The reply, which begins with what the routine returns. A simpleroutine has nothing here.
    pub reply: Vec<Entry<'t>>,
}

/// Whether an argument with this word is in the request.
pub(crate) fn is_in_request(role: Role) -> bool
    ensures { result ≡ is_in_request role }
{
    matches!(role, Role::In | Role::Unmarked | Role::InOut)
}

/// Whether an argument with this word is in the reply.
pub(crate) fn is_in_reply(kind: RoutineKind, role: Role) -> bool
    ensures { result ≡ is_in_reply kind role }
{
    match (kind, role) {
        (RoutineKind::Routine, Role::Out | Role::InOut) => true,
        _ => false,
    }
}

/// Whether the receiver may be told to send fewer items.
fn may_vary(count: Count) -> bool
    ensures { result ≡ may_vary count }
{
    match count {
        Count::AtMost(_) | Count::Either => true,
        Count::Exactly(_) | Count::Away => false,
    }
}

/// The same of a type, if it is known.
fn varies(meaning: Option<Meaning>) -> bool
    ensures { result ≡ varies meaning }
{
    match meaning {
        Some(meaning) => may_vary(meaning.count),
        None => false,
    }
}

/// Whether an argument with this word comes back alone.
fn is_out(kind: RoutineKind, role: Role) -> bool
    ensures { result ≡ is_out kind role }
{
    match (kind, role) {
        (RoutineKind::Routine, Role::Out) => true,
        _ => false,
    }
}

/// Whether the request has the argument's count.
pub(crate) fn has_count(kind: RoutineKind, argument: &Argument<'_>) -> bool
    ensures { result ≡ has_count kind (parameter_of argument.now) }
{
    is_out(kind, argument.role) && argument.counts && varies(argument.meaning)
}

/// What an argument is in a message. Of a type that is unknown nothing is known.
fn form_by(meaning: Option<Meaning>, by: By) -> Shape
    ensures { form_of result ≡ form_by meaning by }
{
    match meaning {
        Some(meaning) => shape_of(meaning, by),
        None => Shape::AnyData,
    }
}

/// The item of an argument.
fn argument_entry<'t>(argument: &Argument<'t>, by: By) -> Entry<'t>
    ensures { item_of result ≡ argument_item by (parameter_of argument.now) }
{
    Entry::Argument {
        name: argument.name,
        type_name: argument.type_name,
        shape: form_by(argument.meaning, by),
    }
}

/// Puts what the request has for an argument behind other items.
fn push_request<'t>(
    kind: RoutineKind,
    by: By,
    body: &mut Vec<Entry<'t>>,
    argument: &Argument<'t>,
) -> Result<(), AllocError>
    ensures { OnOk result (map item_of body.new.items ≡
        map item_of body.old.items ++ request_items kind by (parameter_of argument.now)) }
{
    if is_in_request(argument.role) {
        body.push(argument_entry(argument, by))?;
    } else if has_count(kind, argument) {
        body.push(Entry::Count {
            name: argument.name,
        })?;
    }
    Ok(())
}

/// Puts what the reply has for an argument behind other items.
fn push_reply<'t>(
    kind: RoutineKind,
    by: By,
    body: &mut Vec<Entry<'t>>,
    argument: &Argument<'t>,
) -> Result<(), AllocError>
    ensures { OnOk result (map item_of body.new.items ≡
        map item_of body.old.items ++ reply_items kind by (parameter_of argument.now)) }
{
    if is_in_reply(kind, argument.role) {
        body.push(argument_entry(argument, by))?;
    }
    Ok(())
}

/// The body of the request, of arguments that are settled.
fn request_body<'t>(
    alloc: Global,
    kind: RoutineKind,
    by: By,
    settled: &[Argument<'t>],
) -> Result<Vec<Entry<'t>>, AllocError>
    ensures { IfOk result (λ v. map item_of v.items ≡
        flat_map (request_items kind by) (map parameter_of settled.now)) }
{
    let mut body = Vec::new(alloc);
    for argument in settled {
        push_request(kind, by, &mut body, argument)?;
    }
    Ok(body)
}

/// What a reply begins with.
fn reply_begins<'t>(alloc: Global, kind: RoutineKind) -> Result<Vec<Entry<'t>>, AllocError>
    ensures { IfOk result (λ v. map item_of v.items ≡ reply_begins kind) }
{
    let mut body = Vec::new(alloc);
    match kind {
        RoutineKind::Routine => body.push(Entry::ReturnCode)?,
        RoutineKind::Simple => {}
    }
    Ok(body)
}

/// The body of the reply, of arguments that are settled.
fn reply_body<'t>(
    alloc: Global,
    kind: RoutineKind,
    by: By,
    settled: &[Argument<'t>],
) -> Result<Vec<Entry<'t>>, AllocError>
    ensures { IfOk result (λ v. map item_of v.items ≡ reply_begins kind ++
        flat_map (reply_items kind by) (map parameter_of settled.now)) }
{
    let mut body = reply_begins(alloc, kind)?;
    for argument in settled {
        push_reply(kind, by, &mut body, argument)?;
    }
    Ok(body)
}

/// The messages of a routine, by how the request and the reply are judged: each argument
/// that is in them, in the order of the text. An argument of an unknown type is data of any kind:
/// what [`first_objection`](crate::first_objection) says of it comes before.
pub fn messages_of<'t>(
    alloc: Global,
    kind: RoutineKind,
    by_request: By,
    by_reply: By,
    arguments: &[Argument<'t>],
) -> Result<Messages<'t>, AllocError>
    ensures request { IfOk result (λ b. map item_of b.request.items ≡
        request_body kind by_request (map parameter_of arguments.now)) }
    ensures reply { IfOk result (λ b. map item_of b.reply.items ≡
        reply_body kind by_reply (map parameter_of arguments.now)) }
{
    let settled = settled(alloc, arguments)?;
    let request = request_body(alloc, kind, by_request, &settled)?;
    let reply = reply_body(alloc, kind, by_reply, &settled)?;
    Ok(Messages { request, reply })
}
