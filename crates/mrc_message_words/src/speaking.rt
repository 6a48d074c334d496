//! The message that is said.

ghost use Rattle.std.specs.Prelude.{◌≡◌, IfErr, IfOk, IsTrue, List, MatchResult, Ok, Some};
ghost use Rattle.std.specs.List.{AllByRecursion, list_all};
ghost use Rattle.mrc_base.specs.Reading.{Gives, UnlessMemory};
ghost use Rattle.mrc_model.specs.Message.{Message};
ghost use Rattle.mrc_forms.specs.Forms.{argument_fits};
ghost use Rattle.mrc_desc.specs.Lawful.{IsLawfulArg};
ghost use Rattle.mrc_desc.specs.View.{arguments_of, message_of};
ghost use Rattle.mrc_message_words.specs.Spoken.{ArePorts, IsFirstUnfit, IsRefused, IsSpoken};
ghost use Rattle.mrc_message_words.specs.Spoken.{IsSaidOver, IsUnsaid};
ghost use Rattle.mrc_message_words.specs.Fitting.{HasPorts};
ghost use Rattle.mrc_message_words.specs.Values.{AreValues};

use crate::arguments::argument_of;
use crate::fault::SpokenFault;
use crate::naming::form_by;
use crate::port::are_ports;
use crate::spoken::Spoken;
use crate::value::Value;
use mrc_base::OrMemory;
use mrc_desc::{Argument, Arguments, Header, Message};
use mrc_forms::{Argument as FormArgument, Form, Interface};
use std::alloc::Global;

/// The arguments that values are, or the place of the first value that does not fit its argument,
/// that is missing, or that is one too many.
fn arguments_of(
    alloc: Global,
    arguments: &[FormArgument],
    values: &[Value],
) -> Result<Vec<Argument>, OrMemory<usize>>
    requires { IsTrue (list_all argument_fits arguments.now) }
    ensures found { IfOk result (λ args.
        AreValues arguments.now values.now (arguments_of args.items)) }
    ensures lawful { IfOk result (λ args.
        AllByRecursion IsLawfulArg (arguments_of args.items)) }
    ensures fault { IfErr result (UnlessMemory (IsFirstUnfit arguments.now values.now)) }
{
    let mut args = Vec::with_capacity(alloc, arguments.len())?;
    for (i, argument) in arguments.iter().enumerate() {
        let Some(value) = values.get(i) else {
            return Err(OrMemory::Fault(i));
        };
        let Some(made) = argument_of(alloc, argument.items, value)? else {
            return Err(OrMemory::Fault(i));
        };
        args.push(made)?;
    }
    if values.len() > arguments.len() {
        return Err(OrMemory::Fault(arguments.len()));
    }
    Ok(args)
}

/// The header of what is said over a form.
fn header_of(form: &Form, said: &Spoken) -> Header
    requires { ArePorts said.now.kind said.now.to said.now.reply }
    ensures { HasPorts form.now said.now result }
{
    let (local_port, local_disp) = match said.reply {
        Some(port) => (port.name, port.disp.number() as u8),
        None => (0, 0),
    };
    Header {
        remote_disp: said.to.disp.number() as u8,
        local_disp,
        remote_port: said.to.name,
        local_port,
        seqno: 0,
        id: form.id(),
    }
}

/// The message that is said over a form.
fn message_over(alloc: Global, form: &Form, said: &Spoken) -> Result<Message, OrMemory<SpokenFault>>
    ensures found { IfOk result (λ m. IsSaidOver form.now said.now m) }
    ensures fault { IfErr result (UnlessMemory (IsUnsaid form.now said.now)) }
{
    if !are_ports(said.kind, said.to, said.reply) {
        return Err(OrMemory::Fault(SpokenFault::BadPort));
    }
    let args = match arguments_of(alloc, form.arguments(), said.values.as_slice()) {
        Ok(args) => args,
        Err(OrMemory::Fault(place)) => {
            return Err(OrMemory::Fault(SpokenFault::BadValue(place)));
        }
        Err(OrMemory::Memory) => return Err(OrMemory::Memory),
    };
    match Message::new(header_of(form, said), Arguments::from(args)) {
        Ok(message) => Ok(message),
        Err(unlawful) => {
            drop(unlawful);
            Err(OrMemory::Fault(SpokenFault::TooLong))
        }
    }
}

/// The message that is said over the forms of these interfaces, or the first reason why there is
/// none. What is said can be sent: it reads as that message.
pub fn message_of(
    alloc: Global,
    interfaces: &[Interface],
    said: &Spoken,
) -> Result<Message, OrMemory<SpokenFault>>
    ensures found { IfOk result (λ m. IsSpoken interfaces.now said.now m) }
    ensures only { (m : Message) → IsSpoken interfaces.now said.now m
        → Gives (λ m. m) result (Ok m) }
    ensures fault { IfErr result (UnlessMemory (IsRefused interfaces.now said.now)) }
{
    let interface = said.interface.as_str();
    let Some(form) = form_by(interfaces, said.kind, interface, said.routine.as_str()) else {
        return Err(OrMemory::Fault(SpokenFault::UnknownMessage));
    };
    message_over(alloc, form, said)
}
