//! What `encode` and `decode` answer of a message.

ghost use Rattle.std.specs.Prelude.{map, IfOk};
ghost use Rattle.mrc_answer.specs.Messages.{IsEncoded, IsDecoded, IsTurned};

use crate::answers::Answer;
use crate::faults::{Fault, MessageFault};
use mrc_base::OrMemory;
use mrc_check::CaseFault;
use mrc_command::Turning;
use mrc_desc::{read_message, write_message};
use mrc_forms::Interface;
use mrc_interface::read_interfaces;
use mrc_message_words::{decode, encode};
use std::alloc::{AllocError, Global};

/// The bytes of a message in words, over the forms of these interfaces.
fn encoded<'a>(
    alloc: Global,
    interfaces: &[Interface],
    text: &str,
) -> Result<Answer<'a>, AllocError>
    ensures { IfOk result (IsEncoded interfaces.now) }
{
    match encode(alloc, interfaces, text.as_bytes()) {
        Ok(message) => Ok(Answer::Encoded(write_message(alloc, &message)?)),
        Err(OrMemory::Fault(fault)) => {
            Ok(Answer::Fault(Fault::Message(MessageFault::Words(fault))))
        }
        Err(OrMemory::Memory) => Err(AllocError),
    }
}

/// The value of a hex digit.
fn digit_of(byte: u8) -> Option<u8> {
    match byte {
        b'0'..=b'9' => Some(byte - b'0'),
        b'a'..=b'f' => Some(byte - b'a' + 10),
        b'A'..=b'F' => Some(byte - b'A' + 10),
        _ => None,
    }
}

/// The bytes that pairs of hex digits encode, with blanks anywhere: none, if they are no such.
fn bytes_of_hex(alloc: Global, text: &[u8]) -> Result<Option<Vec<u8>>, AllocError> {
    let mut bytes = Vec::new(alloc);
    let mut high = None;
    for byte in text {
        if *byte == b' ' || *byte == b'\t' {
            continue;
        }
        let Some(digit) = digit_of(*byte) else {
            return Ok(None);
        };
        match high {
            None => high = Some(digit),
            Some(first) => {
                bytes.push(u8::wrapping_mul(first, 16) | digit)?;
                high = None;
            }
        }
    }
    if high.is_some() {
        return Ok(None);
    }
    Ok(Some(bytes))
}

/// The words of a message by its bytes, over the forms of these interfaces.
fn decoded<'a>(
    alloc: Global,
    interfaces: &[Interface],
    text: &str,
) -> Result<Answer<'a>, AllocError>
    ensures { IfOk result (IsDecoded interfaces.now) }
{
    let Some(bytes) = bytes_of_hex(alloc, text.as_bytes())? else {
        return Ok(Answer::Fault(Fault::Message(MessageFault::BadHex)));
    };
    match read_message(alloc, &bytes) {
        Ok(message) => match decode(alloc, interfaces, &message)? {
            Some(words) => Ok(Answer::Decoded(words)),
            None => Ok(Answer::Fault(Fault::Message(MessageFault::NoWords))),
        },
        Err(OrMemory::Fault(fault)) => {
            Ok(Answer::Fault(Fault::Message(MessageFault::Bytes(fault))))
        }
        Err(OrMemory::Memory) => Err(AllocError),
    }
}

/// What is answered of a message, in words or as HEX, over MIG files of these bytes.
pub fn turned<'a>(
    alloc: Global,
    turning: Turning,
    text: &str,
    defs: &[Vec<u8>],
) -> Result<Answer<'a>, AllocError>
    ensures right { IfOk result (IsTurned (map (λ bytes. bytes.items) defs.now)) }
{
    match read_interfaces(alloc, defs) {
        Ok(interfaces) => match turning {
            Turning::Encode => encoded(alloc, interfaces.as_slice(), text),
            Turning::Decode => decoded(alloc, interfaces.as_slice(), text),
        },
        Err(OrMemory::Fault(fault)) => { Ok(Answer::Fault(Fault::Meaning(CaseFault::Defs(fault)))) }
        Err(OrMemory::Memory) => Err(AllocError),
    }
}
