//! The value of an argument, as words say it.

use crate::arguments::{do_bytes_fit, is_count};
use crate::lexis::{Cursor, Mark, Token, byte_of, number_of};
use crate::numbers::has_bits;
use crate::place::{Place, WordsFault, WordsFaultKind};
use crate::terms::{disp_of, port_name};
use crate::value::{Numbers, Value};
use mrc_base::{Disp, OrMemory};
use mrc_desc::{Bytes, Names};
use mrc_forms::{ItemTypes, Items};
use std::alloc::{AllocError, Global};

/// A value, and what comes behind it.
pub(crate) type Read<'t> = Result<(Value, Cursor<'t>), OrMemory<WordsFault>>;

/// The type number of a C string.
const C_STRING: u16 = 12;

/// The type number and the bits of data that are only said as bytes.
const BYTE: u16 = 9;

const BYTE_SIZE: u16 = 8;

/// A fault of this kind.
pub(crate) fn fault<T>(kind: WordsFaultKind, place: Place) -> Result<T, OrMemory<WordsFault>> {
    Err(OrMemory::Fault(WordsFault { kind, place }))
}

/// The place is no part of a message in words.
pub(crate) fn not_words<T>(place: Place) -> Result<T, OrMemory<WordsFault>> {
    fault(WordsFaultKind::NotWords, place)
}

/// The value does not fit.
pub(crate) fn not_a_value<T>(place: Place) -> Result<T, OrMemory<WordsFault>> {
    fault(WordsFaultKind::NotAValue, place)
}

/// A part that is no word where a value stands: a text is a value of another kind.
fn no_word<T>(token: Token<'_>) -> Result<T, OrMemory<WordsFault>> {
    match token.mark {
        Mark::Text | Mark::Left => not_a_value(token.place),
        _ => not_words(token.place),
    }
}

/// From one part to where another begins.
fn from_to(start: Place, after: Cursor<'_>) -> Place {
    let end = after.place(0);
    Place {
        first: start.first,
        len: end.first.saturating_sub(start.first),
    }
}

/// Whether the items are exactly one.
pub(crate) fn is_single(items: Items) -> bool {
    !items.is_bound && items.number == 1
}

/// The number that a part is, of so many bits.
fn number_at(size: u16, token: Token<'_>) -> Result<u64, OrMemory<WordsFault>> {
    if token.mark != Mark::Word {
        return no_word(token);
    }
    match number_of(token.bytes) {
        Some(number) if has_bits(size, number) => Ok(number),
        _ => not_a_value(token.place),
    }
}

/// The name of a port that a part is.
fn name_at(token: Token<'_>) -> Result<u32, OrMemory<WordsFault>> {
    if token.mark != Mark::Word {
        return no_word(token);
    }
    match port_name(token.bytes) {
        Some(name) => Ok(name),
        None => not_a_value(token.place),
    }
}

/// The numbers between brackets, each of so many bits, and what comes behind them.
fn numbers_in<'t>(
    alloc: Global,
    size: u16,
    cursor: Cursor<'t>,
) -> Result<(Vec<u64>, Cursor<'t>), OrMemory<WordsFault>> {
    let mut numbers = Vec::new(alloc);
    let mut behind = cursor;
    for _ in 0..=cursor.rest.len() {
        let token = behind.token();
        behind = token.after;
        if token.mark == Mark::Right {
            return Ok((numbers, behind));
        }
        let number = number_at(size, token)?;
        numbers.push(number)?;
    }
    not_words(behind.place(0))
}

/// The names of ports between brackets, and what comes behind them.
fn names_in<'t>(
    alloc: Global,
    cursor: Cursor<'t>,
) -> Result<(Vec<u32>, Cursor<'t>), OrMemory<WordsFault>> {
    let mut names = Vec::new(alloc);
    let mut behind = cursor;
    for _ in 0..=cursor.rest.len() {
        let token = behind.token();
        behind = token.after;
        if token.mark == Mark::Right {
            return Ok((names, behind));
        }
        let name = name_at(token)?;
        names.push(name)?;
    }
    not_words(behind.place(0))
}

/// The bytes that a text in quotes has, where each of its characters can be there.
fn text_bytes(alloc: Global, text: &[u8]) -> Result<Option<Vec<u64>>, AllocError> {
    let mut bytes = Vec::new(alloc);
    let mut is_escaped = false;
    for byte in text {
        let can_be = if is_escaped {
            *byte == b'"' || *byte == b'\\'
        } else {
            *byte >= b' ' && *byte <= b'~'
        };
        if !can_be {
            return Ok(None);
        }
        is_escaped = *byte == b'\\' && !is_escaped;
        if !is_escaped {
            bytes.push(u64::from(*byte))?;
        }
    }
    Ok(Some(bytes))
}

/// What stands between the quotes of a text.
fn inner(text: &[u8]) -> &[u8] {
    match text {
        [_, inner @ .., _] => inner,
        _ => &[],
    }
}

/// The items that a text is: behind a C string zeros, as many as are missing, or one.
fn text_items(
    alloc: Global,
    items: Items,
    name: u16,
    text: &[u8],
) -> Result<Option<Vec<u64>>, AllocError> {
    let Some(mut bytes) = text_bytes(alloc, inner(text))? else {
        return Ok(None);
    };
    if name == C_STRING {
        let number = items.number as usize;
        bytes.push(0)?;
        if !items.is_bound {
            for _ in bytes.len()..number {
                bytes.push(0)?;
            }
        }
    }
    Ok(Some(bytes))
}

/// Items of data of at most 64 bits, of the type of this number.
fn numbers_value<'t>(alloc: Global, items: Items, name: u16, first: Token<'t>) -> Read<'t> {
    let (numbers, after) = if is_single(items) {
        let mut numbers = Vec::new(alloc);
        let number = number_at(items.size, first)?;
        numbers.push(number)?;
        (numbers, first.after)
    } else if first.mark == Mark::Left {
        numbers_in(alloc, items.size, first.after)?
    } else if first.mark == Mark::Text && items.size == 8 {
        match text_items(alloc, items, name, first.bytes)? {
            Some(bytes) => (bytes, first.after),
            None => return not_words(first.place),
        }
    } else if first.mark == Mark::Word || first.mark == Mark::Text {
        return not_a_value(first.place);
    } else {
        return not_words(first.place);
    };
    if !is_count(items, numbers.len()) {
        drop(numbers);
        return not_a_value(from_to(first.place, after));
    }
    let numbers = Numbers::from(numbers);
    Ok((Value::Numbers { name, numbers }, after))
}

/// Port rights by one disposition.
fn ports_value<'t>(alloc: Global, items: Items, disp: Disp, first: Token<'t>) -> Read<'t> {
    let (names, after) = if is_single(items) {
        let mut names = Vec::new(alloc);
        let name = name_at(first)?;
        names.push(name)?;
        (names, first.after)
    } else if first.mark == Mark::Left {
        names_in(alloc, first.after)?
    } else if first.mark == Mark::Word || first.mark == Mark::Text {
        return not_a_value(first.place);
    } else {
        return not_words(first.place);
    };
    if !is_count(items, names.len()) {
        drop(names);
        return not_a_value(from_to(first.place, after));
    }
    let names = Names::from(names);
    Ok((Value::Ports { disp, names }, after))
}

/// The disposition that a part says, where the items may have it.
fn said_disp(types: ItemTypes, token: Token<'_>) -> Result<Option<Disp>, OrMemory<WordsFault>> {
    if token.mark != Mark::Word {
        return Ok(None);
    }
    match disp_of(token.bytes) {
        Some(disp) if types.has(disp.number()) => Ok(Some(disp)),
        Some(_) => not_a_value(token.place),
        None => Ok(None),
    }
}

/// Port rights of a disposition that is said, or of the only one that they may have.
fn rights_value<'t>(alloc: Global, items: Items, first: Token<'t>) -> Read<'t> {
    let said = said_disp(items.types, first)?;
    match (said, items.types.dispositions()) {
        (Some(disp), _) => ports_value(alloc, items, disp, first.after.token()),
        (None, [disp]) => ports_value(alloc, items, *disp, first),
        (None, _) => no_value(first),
    }
}

/// What stands where a value does, and is none.
fn no_value<T>(first: Token<'_>) -> Result<T, OrMemory<WordsFault>> {
    match first.mark {
        Mark::Word | Mark::Text | Mark::Left => not_a_value(first.place),
        _ => not_words(first.place),
    }
}

/// The number behind `type`, that of a type of data.
fn said_type(token: Token<'_>) -> Result<u16, OrMemory<WordsFault>> {
    let number = number_at(16, token)?;
    match u16::try_from(number) {
        Ok(name) if name < 16 => Ok(name),
        _ => not_a_value(token.place),
    }
}

/// Items of any type: data of a type that is said, or port rights of a disposition that is said.
fn any_value<'t>(alloc: Global, items: Items, first: Token<'t>) -> Read<'t> {
    if first.is(b"type") {
        let token = first.after.token();
        let name = said_type(token)?;
        return numbers_value(alloc, items, name, token.after.token());
    }
    rights_value(alloc, items, first)
}

/// The bytes that a word is, behind `0x`.
fn bytes_of(alloc: Global, word: &[u8]) -> Result<Option<Vec<u8>>, AllocError> {
    let [b'0', b'x', digits @ ..] = word else {
        return Ok(None);
    };
    let mut bytes = Vec::new(alloc);
    let mut rest = digits;
    while let [high, low, after @ ..] = rest {
        let Some(byte) = byte_of(*high, *low) else {
            return Ok(None);
        };
        bytes.push(byte)?;
        rest = after;
    }
    if rest.is_empty() {
        Ok(Some(bytes))
    } else {
        Ok(None)
    }
}

/// Data as bytes, of the type of this number and of so many bits an item.
fn raw_value<'t>(alloc: Global, items: Items, name: u16, size: u16, token: Token<'t>) -> Read<'t> {
    if token.mark != Mark::Word {
        return no_value(token);
    }
    let Some(bytes) = bytes_of(alloc, token.bytes)? else {
        return not_a_value(token.place);
    };
    if !do_bytes_fit(items, name, size, bytes.as_slice()) {
        drop(bytes);
        return not_a_value(token.place);
    }
    let bytes = Bytes::from(bytes);
    Ok((Value::Raw { name, size, bytes }, token.after))
}

/// Data of any kind: bytes, and before them their type and size where they are not single bytes.
fn any_data_value<'t>(alloc: Global, items: Items, first: Token<'t>) -> Read<'t> {
    if !first.is(b"type") {
        return raw_value(alloc, items, BYTE, BYTE_SIZE, first);
    }
    let token = first.after.token();
    let name = said_type(token)?;
    let word = token.after.token();
    if !word.is(b"size") {
        return not_words(word.place);
    }
    let bits = word.after.token();
    let number = number_at(16, bits)?;
    match u16::try_from(number) {
        Ok(size) => raw_value(alloc, items, name, size, bits.after.token()),
        Err(_) => not_a_value(bits.place),
    }
}

/// The value that begins with this part, for an argument of these items.
pub(crate) fn value_at<'t>(alloc: Global, items: Items, first: Token<'t>) -> Read<'t> {
    match items.types {
        ItemTypes::AnyData => any_data_value(alloc, items, first),
        ItemTypes::Any => any_value(alloc, items, first),
        ItemTypes::One(name) if name < 16 => {
            if items.size <= 64 {
                numbers_value(alloc, items, name, first)
            } else {
                raw_value(alloc, items, name, items.size, first)
            }
        }
        ItemTypes::One(_) | ItemTypes::Send | ItemTypes::SendOnce => {
            rights_value(alloc, items, first)
        }
    }
}
