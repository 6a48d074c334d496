//! The parameters of a call as words of a script.

ghost use Rattle.std.specs.Prelude.{◌≡◌, ◌<◌, map, flat_map, option_map, IfOk, IfSome};
ghost use Rattle.mrc_report.specs.Parameters.{right_of_word, disp_of_word};
ghost use Rattle.mrc_report.specs.Parameters.{digit_value, byte_of, bytes_of_digits};
ghost use Rattle.mrc_report.specs.Parameters.{message_of_words};
ghost use Rattle.mrc_report.specs.Parameters.{value_of, values_of, value_at, number_in, number_at};
ghost use Rattle.mrc_report.specs.Parameters.{right_in, right_at, disp_in, disp_at, delta_in};
ghost use Rattle.mrc_report.specs.Parameters.{delta_at};

use mrc_base::{Disp, OrMemory, Right};
use mrc_desc::{Message, read_message};
use mrc_wiring_text::is_word;
use mrc_words::{delta_of_word, number_of_word};
use std::alloc::{AllocError, Global};

/// The kind of a parameter.
#[derive(Clone, Copy, Debug, PartialEq, Eq)]
pub enum Parameter {
    /// A number without a sign.
    Number,
    /// The word of a right.
    HeldRight,
    /// The number of a disposition.
    Disposition,
    /// A number with or without a sign.
    Delta,
}

/// What the word of a parameter means.
#[derive(Clone, Copy, Debug, PartialEq, Eq)]
pub enum Value {
    /// A number without a sign.
    Number(u32),
    /// A right.
    HeldRight(Right),
    /// A disposition.
    Disposition(Disp),
    /// A number with or without a sign.
    Delta(i32),
}

/// The right of a word: `send`, `receive`, `once`, `set` or `dead`.
#[tactic(auto, unfolding(crate::specs::Parameters::right_of_word))]
fn right_of_word(word: &[u8]) -> Option<Right>
    ensures { result ≡ right_of_word word.now }
{
    if is_word(word, "send") {
        Some(Right::Send)
    } else if is_word(word, "receive") {
        Some(Right::Receive)
    } else if is_word(word, "once") {
        Some(Right::SendOnce)
    } else if is_word(word, "set") {
        Some(Right::PortSet)
    } else if is_word(word, "dead") {
        Some(Right::DeadName)
    } else {
        None
    }
}

/// The disposition of a word, by its number: 16 to 21.
fn disp_of_word(word: &[u8]) -> Option<Disp>
    ensures { result ≡ disp_of_word word.now }
{
    match number_of_word(word)? {
        16 => Some(Disp::MoveReceive),
        17 => Some(Disp::MoveSend),
        18 => Some(Disp::MoveSendOnce),
        19 => Some(Disp::CopySend),
        20 => Some(Disp::MakeSend),
        21 => Some(Disp::MakeSendOnce),
        _ => None,
    }
}

impl Parameter {
    /// What a word means as a parameter of the kind, if it is one.
    pub fn value_of(self, word: &[u8]) -> Option<Value>
        ensures { result ≡ value_of self word.now }
    {
        match self {
            Parameter::Number => Some(Value::Number(number_of_word(word)?)),
            Parameter::HeldRight => Some(Value::HeldRight(right_of_word(word)?)),
            Parameter::Disposition => Some(Value::Disposition(disp_of_word(word)?)),
            Parameter::Delta => Some(Value::Delta(delta_of_word(word)?)),
        }
    }
}

/// What words mean as the first parameters of these kinds, one after the other: `None` if one is
/// none of its kind, or if there are more words than kinds.
pub(crate) fn values_of(
    alloc: Global,
    kinds: &[Parameter],
    words: &[&[u8]],
) -> Result<Option<Vec<Value>>, AllocError>
    ensures { IfOk result (λ found. option_map (λ values. values.items) found
        ≡ values_of kinds.now (map (λ word. word.now) words.now)) }
{
    let mut values = Vec::new(alloc);
    let mut left = kinds;
    let mut rest = words;
    while let [word, behind @ ..] = rest {
        let [kind, others @ ..] = left else {
            return Ok(None);
        };
        let Some(value) = kind.value_of(word) else {
            return Ok(None);
        };
        values.push(value)?;
        left = others;
        rest = behind;
    }
    Ok(Some(values))
}

fn value_at(values: &[Value], place: usize) -> Value
    ensures { result ≡ value_at values.now place }
{
    match values.get(place) {
        Some(value) => *value,
        None => Value::Number(0),
    }
}

/// The number of this place: 0 if there is none.
pub(crate) fn number_at(values: &[Value], place: usize) -> u32
    ensures { result ≡ number_at values.now place }
{
    match value_at(values, place) {
        Value::Number(number) => number,
        _ => 0,
    }
}

/// The right of this place.
pub(crate) fn right_at(values: &[Value], place: usize) -> Right
    ensures { result ≡ right_at values.now place }
{
    match value_at(values, place) {
        Value::HeldRight(right) => right,
        _ => Right::Send,
    }
}

/// The disposition of this place.
pub(crate) fn disp_at(values: &[Value], place: usize) -> Disp
    ensures { result ≡ disp_at values.now place }
{
    match value_at(values, place) {
        Value::Disposition(disp) => disp,
        _ => Disp::MoveReceive,
    }
}

/// The change of this place.
pub(crate) fn delta_at(values: &[Value], place: usize) -> i32
    ensures { result ≡ delta_at values.now place }
{
    match value_at(values, place) {
        Value::Delta(delta) => delta,
        _ => 0,
    }
}

/// The value of a hexadecimal digit, of either case.
pub fn digit_value(digit: u8) -> Option<u8>
    ensures exact { result ≡ digit_value digit }
    ensures within { IfSome result (λ value. value < 16) }
{
    match digit {
        b'0'..=b'9' => Some(digit - b'0'),
        b'a'..=b'f' => Some(digit - b'a' + 10),
        b'A'..=b'F' => Some(digit - b'A' + 10),
        _ => None,
    }
}

/// The byte that two hexadecimal digits encode.
#[tactic(auto, unfolding(crate::specs::Parameters::byte_of))]
fn byte_of(high: u8, low: u8) -> Option<u8>
    ensures { result ≡ byte_of high low }
{
    let high = digit_value(high)?;
    let low = digit_value(low)?;
    Some(high * 16 + low)
}

/// The bytes that hexadecimal digits encode, two digits a byte: `None` if a character is no digit,
/// or if one digit is left.
pub fn bytes_of_digits(alloc: Global, digits: &[u8]) -> Result<Option<Vec<u8>>, AllocError>
    ensures { IfOk result (λ found.
        option_map (λ bytes. bytes.items) found ≡ bytes_of_digits digits.now) }
{
    let mut bytes = Vec::new(alloc);
    let mut rest = digits;
    while let [high, low, after @ ..] = rest {
        let Some(byte) = byte_of(*high, *low) else {
            return Ok(None);
        };
        bytes.push(byte)?;
        rest = after;
    }
    if rest.is_empty() {
        Ok(Some(bytes))
    } else {
        Ok(None)
    }
}

/// Words one after the other, as one.
pub fn joined(alloc: Global, words: &[&[u8]]) -> Result<Vec<u8>, AllocError>
    ensures { IfOk result (λ text.
        text.items ≡ flat_map (λ word. word) (map (λ word. word.now) words.now)) }
{
    let mut text = Vec::new(alloc);
    for word in words {
        text.extend_from_slice(word)?;
    }
    Ok(text)
}

/// The message whose bytes the hexadecimal digits of these words encode, one word after the other.
#[tactic(auto, unfolding(crate::specs::Parameters::message_of_words))]
pub(crate) fn message_of_words(
    alloc: Global,
    words: &[&[u8]],
) -> Result<Option<Message>, AllocError>
    ensures { IfOk result
        (λ message. message ≡ message_of_words (map (λ word. word.now) words.now)) }
{
    let digits = joined(alloc, words)?;
    let Some(bytes) = bytes_of_digits(alloc, digits.as_slice())? else {
        return Ok(None);
    };
    match read_message(alloc, bytes.as_slice()) {
        Ok(message) => Ok(Some(message)),
        Err(OrMemory::Fault(_)) => Ok(None),
        Err(OrMemory::Memory) => Err(AllocError),
    }
}
