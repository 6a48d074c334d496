//! Messages.

ghost use Rattle.std.specs.Prelude.{◌≡◌, All, ◌↔◌, IfOk, IfErr, IsOk, IsTrue};
ghost use Rattle.mrc_model.specs.Message.{any_port_arg};
ghost use Rattle.mrc_desc.specs.Lawful.{AreLawful, IsLawful, IsLawfulArg};
ghost use Rattle.mrc_desc.specs.View.{HasHeader, argument_of, arguments_of, message_of};

use crate::argument::Argument;
use mrc_base::limits;
use std::alloc::{AllocError, Global};
use std::marker::Model;

/// The bytes of a header.
pub(crate) const HEADER_SIZE: usize = 24;

/// The header of a message, without its size. The dispositions are any bytes: those that a sent
/// message may have are tested where it is read. A received message has the two ports exchanged:
/// the remote one is what a reply to it is sent to.
#[derive(Clone, Copy, Debug, PartialEq, Eq)]
pub struct Header {
    /// Sent: how the right to `remote_port` is carried. Received: 18 where there is a reply port,
    /// a dead one included, else 0.
    pub remote_disp: u8,
    /// Sent: how the right to `local_port` is carried; 0 for none. Received: 17 or 18, by whether
    /// the message was sent through a send or a send-once right.
    pub local_disp: u8,
    /// Sent: the sender's name for the destination. Received: the receiver's name for the reply
    /// port; 0 for none.
    pub remote_port: u32,
    /// Sent: the sender's name for the reply port; 0 for none. Received: the receiver's name for
    /// the port that the message was sent to.
    pub local_port: u32,
    /// Sent: ignored, and read as 0. Received: how many messages were received from the port before
    /// this one, modulo 2^32.
    pub seqno: u32,
    /// What the message asks for, msgh_id. Received as it was sent.
    pub id: u32,
}

/// The arguments of a message, in order.
#[derive(Debug, Drop)]
pub struct Arguments {
    items: Vec<Argument>,
}

impl Model for Arguments {
    ghost use Rattle.std.specs.Prelude.{List};
    ghost use Rattle.mrc_desc.specs.declared.argument.Argument.{Argument};

    ghost Value = { List Argument };

    ghost view = { λ a. a.items.items };
}

impl From<Vec<Argument>> for Arguments {
    ghost from_gives = { λ v a. a ≡ v.items };

    fn from(items: Vec<Argument>) -> Arguments {
        Arguments { items }
    }
}

impl Arguments {
    /// The arguments in order.
    pub fn as_slice(&self) -> &[Argument]
        ensures { result.now ≡ self.now }
    {
        self.items.as_slice()
    }

    /// The arguments by themselves.
    pub fn into_vec(self) -> Vec<Argument>
        ensures { result.items ≡ self }
    {
        let Arguments { items } = self;
        items
    }

    /// The same arguments once more.
    pub fn copy(&self, alloc: Global) -> Result<Arguments, AllocError>
        ensures { IfOk result (λ copy. arguments_of copy ≡ arguments_of self.now) }
    {
        let args = self.as_slice();
        let mut items = Vec::with_capacity(alloc, args.len())?;
        for argument in args {
            items.push(argument.copy(alloc)?)?;
        }
        Ok(Arguments { items })
    }
}

/// Whether some argument has port rights.
pub(crate) fn any_ports(args: &[Argument]) -> bool
    ensures { result ≡ any_port_arg (arguments_of args.now) }
{
    for argument in args {
        if argument.is_ports() {
            return true;
        }
    }
    false
}

/// Whether the arguments are lawful and fit a message.
fn are_lawful(args: &[Argument]) -> bool
    ensures { IsTrue result ↔ AreLawful (arguments_of args.now) }
{
    let mut room = limits::MESSAGE - HEADER_SIZE;
    for argument in args {
        if !argument.is_lawful() {
            return false;
        }
        let size = argument.written_size();
        if size > room {
            return false;
        }
        room -= size;
    }
    true
}

/// A message whose descriptors and data are lawful and whose written size is at most 8,192 bytes.
#[derive(Debug, Drop)]
pub struct Message {
    pub(crate) header: Header,
    pub(crate) args: Arguments,
}

impl Model for Message {
    ghost use Rattle.mrc_model.specs.Message as model;

    ghost Value = { model.Message };

    ghost use Rattle.mrc_desc.specs.Lawful.{IsLawful};
    ghost use Rattle.mrc_desc.specs.View.{message_of};

    ghost view = { λ a. message_of a.header a.args };

    ghost invariant = { λ a. IsLawful (message_of a.header a.args) };
}

/// A header and arguments that make no lawful message.
#[derive(Debug, Drop)]
pub struct Unlawful {
    pub header: Header,
    pub args: Arguments,
}

impl Message {
    /// The message of a header and arguments, or both back where they make no lawful message.
    pub fn new(header: Header, args: Arguments) -> Result<Message, Unlawful>
        ensures lawful { IsOk result ↔ IsLawful (message_of header args) }
        ensures made { IfOk result (λ m. m ≡ message_of header args) }
        ensures returned { IfErr result (λ u. (u.header ≡ header) × (u.args ≡ args)) }
    {
        if are_lawful(args.as_slice()) {
            Ok(Message { header, args })
        } else {
            Err(Unlawful { header, args })
        }
    }

    /// The header.
    pub fn header(&self) -> Header
        ensures { HasHeader self.now result }
    {
        let Message { header, args: _ } = self;
        *header
    }

    /// The arguments, in order.
    pub fn args(&self) -> &[Argument]
        ensures exact { arguments_of result.now ≡ self.now.args }
        ensures each { All (λ argument. IsLawfulArg (argument_of argument)) result.now }
        ensures lawful { IsLawful self.now }
    {
        self.args.as_slice()
    }

    /// The header and the arguments.
    pub fn into_parts(self) -> (Header, Arguments)
        ensures { self ≡ message_of result.0 result.1 }
    {
        let Message { header, args } = self;
        (header, args)
    }

    /// The same message once more.
    pub fn copy(&self, alloc: Global) -> Result<Message, AllocError>
        ensures { IfOk result (λ copy. copy ≡ self.now) }
    {
        Ok(Message {
            header: self.header,
            args: self.args.copy(alloc)?,
        })
    }

    /// Whether the messages are the same.
    pub fn same(&self, other: &Message) -> bool
        ensures { IsTrue result ↔ (self.now ≡ other.now) }
    {
        self.header == other.header && same_arguments(self.args(), other.args())
    }
}

/// Whether the arguments are the same, in order.
fn same_arguments(args: &[Argument], others: &[Argument]) -> bool
    ensures { IsTrue result ↔ (arguments_of args.now ≡ arguments_of others.now) }
{
    if args.len() != others.len() {
        return false;
    }
    for (i, argument) in args.iter().enumerate() {
        if !argument.same(&others[i]) {
            return false;
        }
    }
    true
}
