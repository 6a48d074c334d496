//! What is said of a message.

ghost use Rattle.std.specs.Prelude.{◌≡◌, ◌<◌, All, IfOk, IfSome, List, MatchOption, IsTrue, ◌↔◌};
ghost use Rattle.std.specs.Prelude.{Some};
ghost use Rattle.mrc_model.specs.Message.{Message};
ghost use Rattle.mrc_desc.specs.Lawful.{IsLawfulArg, is_admitted};
ghost use Rattle.mrc_desc.specs.View.{HasHeader, argument_of, arguments_of};
ghost use Rattle.mrc_message_words.specs.declared.value.Value.{Value};
ghost use Rattle.mrc_message_words.specs.Fitting.{IsHeard};
ghost use Rattle.mrc_message_words.specs.Spoken.{IsFirstSpoken, IsSaidOver, IsSpoken, Said};
ghost use Rattle.mrc_message_words.specs.Spoken.{table_named};
ghost use Rattle.mrc_message_words.specs.Values.{AreValues};

use crate::arguments::value_of;
use crate::naming::form_by;
use crate::port::{NamedPort, port_of, reply_port_of};
use crate::spoken::Spoken;
use crate::value::Value;
use mrc_desc::{Argument, Header, Message};
use mrc_forms::{Argument as FormArgument, Form, Interface, MessageKind};
use std::alloc::{AllocError, Global};

/// What is said of each argument; none where there are more or fewer than those of the form, or one
/// is not what the form says.
fn values_of(
    alloc: Global,
    arguments: &[FormArgument],
    args: &[Argument],
) -> Result<Option<Vec<Value>>, AllocError>
    requires { All (λ argument. IsLawfulArg (argument_of argument)) args.now }
    ensures { IfOk result (λ said. MatchOption said
        ((values : List Value) → ¬ AreValues arguments.now values (arguments_of args.now))
        (λ values. AreValues arguments.now values.items (arguments_of args.now))) }
{
    if args.len() != arguments.len() {
        return Ok(None);
    }
    let mut values = Vec::with_capacity(alloc, args.len())?;
    for (i, argument) in arguments.iter().enumerate() {
        let Some(value) = value_of(alloc, argument.items, &args[i])? else {
            return Ok(None);
        };
        values.push(value)?;
    }
    Ok(Some(values))
}

/// Whether a message of this header can be sent: it has no seqno, and reading admits its
/// dispositions.
fn is_sendable(header: Header) -> bool
    ensures { IsTrue result ↔ (header.seqno ≡ 0) × IsTrue
        (is_admitted header.remote_disp header.local_disp header.local_port) }
{
    let without_reply = header.local_disp == 0 && header.local_port == 0;
    header.seqno == 0
        && (17..=21).contains(&header.remote_disp)
        && (without_reply || (17..=21).contains(&header.local_disp))
}

/// What is said over a form of these names, if the message can be sent and its ports and arguments
/// are what the form says.
fn said_over(
    alloc: Global,
    kind: MessageKind,
    interface: &str,
    routine: &str,
    form: &Form,
    message: &Message,
) -> Result<Option<Spoken>, AllocError>
    requires { message.now.id ≡ form.now.id }
    ensures { IfOk result (λ said. MatchOption said
        ((said : Said) → said.kind ≡ kind → ¬ IsSaidOver form.now said message.now)
        (λ said. IsHeard kind interface.now routine.now said
        × IsSaidOver form.now said message.now)) }
{
    let header = message.header();
    if !is_sendable(header) {
        return Ok(None);
    }
    let Some(to) = port_of(header.remote_port, header.remote_disp) else {
        return Ok(None);
    };
    let Some(reply) = reply_port_of(kind, header.local_port, header.local_disp) else {
        return Ok(None);
    };
    let Some(values) = values_of(alloc, form.arguments(), message.args())? else {
        return Ok(None);
    };
    Ok(Some(Spoken {
        kind,
        interface: String::from_str(alloc, interface)?,
        routine: String::from_str(alloc, routine)?,
        to,
        reply,
        values,
    }))
}

/// What is said of the message by the name of this interface, if a form that is found by names is
/// one of this message's id.
fn said_by(
    alloc: Global,
    interfaces: &[Interface],
    kind: MessageKind,
    interface: &Interface,
    message: &Message,
) -> Result<Option<Spoken>, AllocError>
    ensures { IfOk result (λ said. MatchOption said
        ((said : Said) → said.kind ≡ kind
        → table_named interfaces.now said.interface ≡ Some interface.now
        → ¬ IsSpoken interfaces.now said message.now)
        (λ said. (said.interface ≡ interface.now.name)
        × IsSpoken interfaces.now said message.now)) }
{
    let (_first, _count) = interface.ids();
    let id = message.header().id;
    let Some(routine) = interface.form_of(kind, id) else {
        return Ok(None);
    };
    let Some(form) = form_by(interfaces, kind, interface.name(), routine.name()) else {
        return Ok(None);
    };
    if form.id() != id {
        return Ok(None);
    }
    said_over(alloc, kind, interface.name(), routine.name(), form, message)
}

/// What is said of the message, of either kind.
fn said_in(
    alloc: Global,
    interfaces: &[Interface],
    interface: &Interface,
    message: &Message,
) -> Result<Option<Spoken>, AllocError>
    ensures { IfOk result (λ said. MatchOption said
        ((said : Said) → table_named interfaces.now said.interface ≡ Some interface.now
        → ¬ IsSpoken interfaces.now said message.now)
        (λ said. (said.interface ≡ interface.now.name)
        × IsSpoken interfaces.now said message.now)) }
{
    let request = said_by(alloc, interfaces, MessageKind::Request, interface, message)?;
    match request {
        Some(said) => Ok(Some(said)),
        None => said_by(alloc, interfaces, MessageKind::Reply, interface, message),
    }
}

/// What words say of the message over the forms of these interfaces: of the first one that has such
/// a form, and of a request before a reply. None where the message has no words: it cannot be sent,
/// or no form that is found by names has its id, its ports and its arguments.
pub fn spoken_of(
    alloc: Global,
    interfaces: &[Interface],
    message: &Message,
) -> Result<Option<Spoken>, AllocError>
    ensures words { IfOk result (λ said. MatchOption said
        ((said : Said) → ¬ IsSpoken interfaces.now said message.now)
        (λ said. IsSpoken interfaces.now said message.now)) }
    ensures first { IfOk result (λ said. IfSome said
        (λ said. IsFirstSpoken interfaces.now said message.now)) }
{
    for interface in interfaces {
        if let Some(said) = said_in(alloc, interfaces, interface, message)? {
            return Ok(Some(said));
        }
    }
    Ok(None)
}
