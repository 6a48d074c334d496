//! The bytes of a received message.

ghost use Rattle.std.specs.Prelude.{◌≡◌, ◌≤◌, ◌↔◌, length, IfOk, IsTrue};
ghost use Rattle.mrc_base.specs.Limits.{limit_of_message};
ghost use Rattle.mrc_model.specs.Message.{written};

use mrc_desc::{Message, write_message, written_size};
use std::alloc::{AllocError, Global};
use std::marker::Model;

/// The bytes of a message as it is received: 8,192 at most.
#[derive(Debug, Drop)]
pub struct Written {
    bytes: Vec<u8>,
}

impl Model for Written {
    ghost use Rattle.std.specs.Prelude.{List, ℕ, ◌≤◌, length};
    ghost use Rattle.mrc_base.specs.Limits.{limit_of_message};

    ghost Value = { List ℕ };

    ghost view = { λ a. a.bytes.items };

    ghost invariant = { λ a. length a.bytes.items ≤ limit_of_message };
}

impl Written {
    /// The bytes that a message is written as.
    pub(crate) fn of(alloc: Global, message: &Message) -> Result<Written, AllocError>
        ensures { IfOk result (λ bytes. bytes ≡ written message.now) }
    {
        let _size = written_size(message);
        Ok(Written {
            bytes: write_message(alloc, message)?,
        })
    }

    /// The bytes in order.
    pub fn as_slice(&self) -> &[u8]
        ensures exact { result.now ≡ self.now }
        ensures within { length result.now ≤ limit_of_message }
    {
        &self.bytes
    }

    /// Equal bytes, in a room that was made for them. It takes no memory.
    pub fn fill(&self, room: WrittenRoom) -> Written
        requires { length self.now ≤ room }
        ensures { result ≡ self.now }
    {
        let WrittenRoom { bytes: mut copy } = room;
        for byte in &self.bytes {
            copy.push_reserved(*byte);
        }
        Written { bytes: copy }
    }

    /// Whether the bytes are equal.
    pub fn same(&self, other: &Written) -> bool
        ensures { IsTrue result ↔ (self.now ≡ other.now) }
    {
        self.bytes.as_slice() == other.bytes.as_slice()
    }
}

/// Room for a number of bytes.
#[derive(Debug, Drop)]
pub struct WrittenRoom {
    bytes: Vec<u8>,
}

impl Model for WrittenRoom {
    ghost use Rattle.std.specs.Prelude.{ℕ, ◌≡◌, [], vec_capacity};

    ghost Value = { ℕ };

    ghost view = { λ a. vec_capacity a.bytes };

    ghost invariant = { λ a. a.bytes.items ≡ [] };
}

impl WrittenRoom {
    /// Makes room for so many bytes.
    pub fn new(alloc: Global, bytes: usize) -> Result<WrittenRoom, AllocError>
        ensures { IfOk result (λ room. room ≡ bytes) }
    {
        let bytes = Vec::with_capacity(alloc, bytes)?;
        Ok(WrittenRoom { bytes })
    }
}
