//! The hexadecimal digits of a message that is sent.

use crate::bytes::byte_at;
use mrc_base::OrMemory;
use mrc_base::limits::MESSAGE;
use mrc_desc::{ReadFault, read_message};
use mrc_report::{bytes_of_digits, digit_value};
use std::alloc::{AllocError, Global};

/// What is wrong in the digits of a message.
#[derive(Clone, Copy, Debug, PartialEq, Eq)]
pub(crate) enum HexFault {
    /// There is none.
    Missing,
    /// A character is no digit.
    NoDigit,
    /// The last digit is one half of a byte.
    HalfByte,
    /// The bytes are no message.
    OfMessage {
        /// The fault of the message.
        fault: ReadFault,
        /// The byte that it is at.
        byte: usize,
        /// Whether it is of a descriptor in the long form.
        long: bool,
    },
    /// Nothing.
    NoFault,
}

/// What is wrong in the digits of a message, and where.
#[derive(Clone, Copy, Debug, PartialEq, Eq)]
pub(crate) struct HexSeen {
    /// How many digits are before it.
    pub digit: usize,
    /// What is wrong.
    pub fault: HexFault,
}

/// Where a digit is in words.
#[derive(Clone, Copy, Debug, PartialEq, Eq)]
pub(crate) struct DigitPlace {
    /// The number of the word, from 0.
    pub word: usize,
    /// How many digits are before it in the word.
    pub offset: usize,
}

fn is_no_digit(digit: u8) -> bool {
    !digit_value(digit).is_some()
}

/// How many digits are before the first character that is none.
fn first_no_digit(digits: &[u8]) -> usize {
    digits
        .iter()
        .position(|digit| is_no_digit(*digit))
        .unwrap_or(digits.len())
}

/// The byte of a header that has the wrong one of its two dispositions.
fn bad_disp_byte(remote: u8) -> usize {
    if 17 <= remote && remote <= 21 { 1 } else { 0 }
}

/// The byte of a message that its fault is at.
fn fault_byte(bytes: &[u8], fault: ReadFault) -> usize {
    match fault {
        ReadFault::TooShort => bytes.len(),
        ReadFault::TooLong => MESSAGE,
        ReadFault::BadHeaderDisp => bad_disp_byte(byte_at(bytes, 0)),
        ReadFault::BadDesc(at) | ReadFault::OutOfLine(at) | ReadFault::Truncated(at) => {
            at.min(bytes.len())
        }
        ReadFault::ComplexDiffers => 3,
    }
}

/// Whether it is a fault of a descriptor that may have the long form.
fn is_of_desc(fault: ReadFault) -> bool {
    matches!(fault, ReadFault::BadDesc(_) | ReadFault::Truncated(_))
}

/// Whether the descriptor that begins at a byte has the long form.
fn is_long_at(bytes: &[u8], byte: usize) -> bool {
    byte_at(bytes, byte.saturating_add(3)) / 32 % 2 == 1
}

/// The fault of a message, and where it is.
fn fault_seen(bytes: &[u8], fault: ReadFault) -> HexSeen {
    let byte = fault_byte(bytes, fault);
    let long = is_of_desc(fault) && is_long_at(bytes, byte);
    HexSeen {
        digit: byte.saturating_mul(2),
        fault: HexFault::OfMessage { fault, byte, long },
    }
}

fn no_fault(count: usize) -> HexSeen {
    HexSeen {
        digit: count,
        fault: HexFault::NoFault,
    }
}

/// What is wrong in the bytes of so many digits.
fn bytes_seen(alloc: Global, count: usize, bytes: &[u8]) -> Result<HexSeen, AllocError> {
    match read_message(alloc, bytes) {
        Ok(_) => Ok(no_fault(count)),
        Err(OrMemory::Fault(fault)) => Ok(fault_seen(bytes, fault)),
        Err(OrMemory::Memory) => Err(AllocError),
    }
}

/// What is wrong in hexadecimal digits, two for each byte.
fn pairs_seen(alloc: Global, digits: &[u8]) -> Result<HexSeen, AllocError> {
    match bytes_of_digits(alloc, digits)? {
        Some(bytes) => bytes_seen(alloc, digits.len(), &bytes),
        None => Ok(no_fault(digits.len())),
    }
}

/// What is wrong in the digits of a message.
pub(crate) fn hex_seen(alloc: Global, digits: &[u8]) -> Result<HexSeen, AllocError> {
    let first = first_no_digit(digits);
    let (digit, fault) = if digits.is_empty() {
        (0, HexFault::Missing)
    } else if first < digits.len() {
        (first, HexFault::NoDigit)
    } else if digits.len() % 2 == 1 {
        (digits.len() - 1, HexFault::HalfByte)
    } else {
        return pairs_seen(alloc, digits);
    };
    Ok(HexSeen { digit, fault })
}

/// The word that has the digit behind so many others.
pub(crate) fn digit_place(digit: usize, words: &[&[u8]]) -> DigitPlace {
    let mut offset = digit;
    for (word, digits) in words.iter().enumerate() {
        if offset < digits.len() {
            return DigitPlace { word, offset };
        }
        offset -= digits.len();
    }
    DigitPlace {
        word: words.len(),
        offset: 0,
    }
}
