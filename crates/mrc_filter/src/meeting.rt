//! How a message meets a form.

ghost use Rattle.std.specs.Prelude.{◌≡◌, ◌<◌, ◌==◌, ◌+◌, ◌^◌, ℕ, List, ◌∷◌, length, Some, Ok, Err};
ghost use Rattle.std.specs.Prelude.{MatchResult};
ghost use Rattle.std.specs.List.{list_all};
ghost use Rattle.mrc_model.specs.Wiring as model;
ghost use Rattle.mrc_model.specs.Filter.{has_size, difference, first_difference, is_zero_data};
ghost use Rattle.mrc_model.specs.Filter.{expected};
ghost use Rattle.mrc_model.specs.Message.{is_port_arg};
ghost use Rattle.mrc_model.specs.Filter.{fits_once, fits_reply, judge_found};
ghost use Rattle.mrc_desc.specs.View.{argument_of, arguments_of};
ghost use Rattle.mrc_wiring.specs.Finding.{form_by};

use mrc_base::{Disp, is_port_number};
use mrc_desc::{Argument, Message};
use mrc_forms::{FormKind, RequestKind};
use mrc_model::Denied;
use mrc_wiring::{TypedArgument, TypedForm};

/// Whether the items are as large and as many as the form says.
fn has_size(says: &TypedArgument, argument: &Argument) -> bool
    ensures { result ≡ has_size says.now (argument_of argument.now) }
{
    let items = says.items;
    let number = items.number as usize;
    items.size == argument.size()
        && if items.is_bound {
            argument.number() <= number
        } else {
            argument.number() == number
        }
}

/// Whether the argument has port rights.
fn is_ports(argument: &Argument) -> bool
    ensures { result ≡ is_port_arg (argument_of argument.now) }
{
    match argument {
        Argument::Data { .. } => false,
        Argument::Ports { .. } => true,
    }
}

/// How the argument, which has this number, differs from what the form says of it.
fn difference(number: u32, says: &TypedArgument, argument: &Argument) -> Option<Denied>
    ensures { result ≡ difference number says.now.types says.now (argument_of argument.now) }
{
    let types = says.items.types;
    if types.is_any_data() {
        return if is_ports(argument) {
            Some(Denied::WrongShape(number))
        } else {
            None
        };
    }
    if !has_size(says, argument) {
        Some(Denied::WrongShape(number))
    } else if types.has(argument.name()) {
        None
    } else if types.has_rights() && is_port_number(argument.name()) {
        Some(Denied::WrongDisposition(number))
    } else {
        Some(Denied::WrongShape(number))
    }
}

/// The first difference between arguments and what a form says of them, a missing or an extra one
/// included.
fn first_difference(shapes: &[TypedArgument], args: &[Argument]) -> Option<Denied>
    requires { length args.now < 2 ^ 32 }
    ensures { result ≡ first_difference 0 shapes.now (arguments_of args.now) }
{
    for (i, argument) in args.iter().enumerate() {
        let number = i as u32;
        let Some(says) = shapes.get(i) else {
            return Some(Denied::WrongShape(number));
        };
        if let Some(denied) = difference(number, says, argument) {
            return Some(denied);
        }
    }
    if args.len() < shapes.len() {
        Some(Denied::WrongShape(args.len() as u32))
    } else {
        None
    }
}

/// Whether each byte is 0.
fn are_zero(bytes: &[u8]) -> bool
    ensures { result ≡ list_all (λ byte. byte == 0) bytes.now }
{
    bytes.iter().all(|byte| *byte == 0)
}

/// Whether the return code is 0, as far as the first argument has one.
fn is_zero_data(args: &[Argument]) -> bool
    ensures { result ≡ is_zero_data (arguments_of args.now) }
{
    match args.first() {
        Some(Argument::Data { desc: _, bytes }) => are_zero(bytes.as_slice()),
        Some(Argument::Ports { .. }) => true,
        None => true,
    }
}

/// What the form wants of these arguments: a reply whose code is not 0 has the code alone.
fn expected<'a>(form: &'a TypedForm, args: &[Argument]) -> &'a [TypedArgument]
    ensures { result.now ≡ expected form.entry.now (arguments_of args.now) }
{
    let shapes = form.arguments();
    match form.kind() {
        FormKind::Request(_) => shapes,
        FormKind::Reply => {
            if is_zero_data(args) || shapes.is_empty() {
                shapes
            } else {
                &shapes[..1]
            }
        }
    }
}

/// Whether a request that may bring a reply right goes with the disposition of the reply port.
fn fits_once(disp: u8) -> bool
    ensures { result ≡ fits_once disp }
{
    let number = u16::from(disp);
    number == 0 || number == Disp::MoveSendOnce.number() || number == Disp::MakeSendOnce.number()
}

/// Whether the form goes with the disposition of the reply port.
fn fits_reply(kind: FormKind, disp: u8) -> bool
    ensures { (id : ℕ) (shapes : List model.Shape)
        → result ≡ fits_reply (form_by kind id shapes) disp }
{
    match kind {
        FormKind::Request(RequestKind::Routine) => fits_once(disp),
        FormKind::Request(RequestKind::Simple) => disp == 0,
        FormKind::Request(RequestKind::Replied) => fits_once(disp),
        FormKind::Reply => disp == 0,
    }
}

/// Whether the message, which has the form's id, meets the form, or why it does not.
pub(crate) fn meet(form: &TypedForm, message: &Message) -> Result<(), Denied>
    ensures { MatchResult result
        (λ _. judge_found message.now (Some form.now) ≡ Ok form.now)
        (λ denied. judge_found message.now (Some form.now) ≡ Err denied) }
{
    let args = message.args();
    if let Some(denied) = first_difference(expected(form, args), args) {
        return Err(denied);
    }
    if fits_reply(form.kind(), message.header().local_disp) {
        Ok(())
    } else {
        Err(Denied::ReplySlot)
    }
}
