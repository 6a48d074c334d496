//! What words say, apart from how they are written.

use crate::port::NamedPort;
use crate::value::Value;
use mrc_forms::MessageKind;
use std::marker::Model;

/// A message as words say it, over the forms of interfaces.
#[derive(Debug, Drop)]
pub struct Spoken {
    /// Which of the routine's messages.
    pub kind: MessageKind,
    /// The name of the interface.
    pub interface: String,
    /// The name of the routine.
    pub routine: String,
    /// The destination.
    pub to: NamedPort,
    /// The reply port, if there is one. A reply has none.
    pub reply: Option<NamedPort>,
    /// A value for each argument, in the order of the form. The first of a reply is the return code.
    pub values: Vec<Value>,
}

impl Model for Spoken {
    ghost use Rattle.std.specs.Prelude.{string_bytes};
    ghost use Rattle.mrc_message_words.specs.Spoken as spoken;

    ghost Value = { spoken.Said };

    ghost view = { λ s. record {
      kind = s.kind;
      interface = string_bytes s.interface;
      routine = string_bytes s.routine;
      to = s.to;
      reply = s.reply;
      values = s.values.items;
    } };
}
