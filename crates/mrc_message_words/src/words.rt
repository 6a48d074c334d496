//! Messages in words, as text.

ghost use Rattle.std.specs.Prelude.{◌≡◌, IfOk, MatchOption};
ghost use Rattle.mrc_message_words.specs.Spoken.{IsSpoken, Said};

use crate::fault::SpokenFault;
use crate::heading::{named_at, ports_at, split_at_byte};
use crate::hearing::spoken_of;
use crate::lexis::{Cursor, Mark, Token};
use crate::naming::form_by;
use crate::place::{Place, WordsFault, WordsFaultKind};
use crate::printing::words_of;
use crate::reading::{fault, not_words, value_at};
use crate::speaking::message_of;
use crate::spoken::Spoken;
use crate::value::{Numbers, Value};
use mrc_base::OrMemory;
use mrc_desc::Message;
use mrc_forms::{Argument, Form, FormKind, Interface, ItemTypes};
use std::alloc::{AllocError, Global};
use std::mem::replace;

/// The name of a reply's return code.
pub(crate) const RETURN_CODE: &str = "RetCode";

/// The word for it, unless an argument has that name.
pub(crate) const CODE: &str = "code";

/// The values that are said so far, by the numbers of their arguments.
#[derive(Debug, Drop)]
struct Values {
    said: Vec<Option<Value>>,
}

/// The place of the argument of this name.
fn place_of(arguments: &[Argument], name: &[u8]) -> Option<usize> {
    for (i, argument) in arguments.iter().enumerate() {
        if argument.name.as_bytes() == name {
            return Some(i);
        }
    }
    None
}

/// The place of the argument that a name says: `code` is also the return code of a reply.
fn argument_named(form: &Form, name: &[u8]) -> Option<usize> {
    let place = place_of(form.arguments(), name);
    if place.is_none() && name == CODE.as_bytes() && form.kind() == FormKind::Reply {
        return place_of(form.arguments(), RETURN_CODE.as_bytes());
    }
    place
}

/// The name and the value of an argument: the value begins right behind `=`.
#[derive(Clone, Copy, Debug)]
struct ArgumentWord<'t> {
    name: &'t [u8],
    place: Place,
    value: Token<'t>,
}

/// An argument's name, and where its value begins.
fn said_at<'t>(token: Token<'t>) -> Result<ArgumentWord<'t>, OrMemory<WordsFault>> {
    let Some((name, value)) = split_at_byte(token.bytes, b'=') else {
        return not_words(token.place);
    };
    let place = Place {
        first: token.place.first,
        len: name.len(),
    };
    if name.is_empty() {
        return not_words(token.place);
    }
    if value.is_empty() {
        let value = token.after.token();
        if !value.is_glued {
            return not_words(token.place);
        }
        return Ok(ArgumentWord { name, place, value });
    }
    let value = Token {
        mark: Mark::Word,
        bytes: value,
        place: Place {
            first: token
                .place
                .first
                .saturating_add(name.len())
                .saturating_add(1),
            len: value.len(),
        },
        is_glued: true,
        after: token.after,
    };
    Ok(ArgumentWord { name, place, value })
}

/// Reads one argument of the form, and keeps its value.
fn read_argument<'t>(
    alloc: Global,
    form: &Form,
    values: &mut Values,
    token: Token<'t>,
) -> Result<Cursor<'t>, OrMemory<WordsFault>> {
    if token.mark != Mark::Word {
        return not_words(token.place);
    }
    let said = said_at(token)?;
    let Some(i) = argument_named(form, said.name) else {
        return fault(WordsFaultKind::UnknownArgument, said.place);
    };
    let (Some(argument), Some(slot)) = (form.arguments().get(i), values.said.get_mut(i)) else {
        return fault(WordsFaultKind::UnknownArgument, said.place);
    };
    if slot.is_some() {
        return fault(WordsFaultKind::SaidTwice, said.place);
    }
    let (value, after) = value_at(alloc, argument.items, said.value)?;
    drop(replace(slot, Some(value)));
    Ok(after)
}

/// Reads arguments up to the closing brace, and answers its place and what comes behind it.
fn read_arguments<'t>(
    alloc: Global,
    form: &Form,
    values: &mut Values,
    cursor: Cursor<'t>,
) -> Result<Token<'t>, OrMemory<WordsFault>> {
    let mut behind = cursor;
    for _ in 0..=values.said.len() {
        let token = behind.token();
        if token.mark == Mark::Close {
            return Ok(token);
        }
        if token.is_glued {
            return not_words(token.place);
        }
        behind = read_argument(alloc, form, values, token)?;
    }
    not_words(behind.place(0))
}

/// The value of a return code that is not said: 0.
fn no_code(alloc: Global, argument: &Argument) -> Result<Value, AllocError> {
    let mut numbers = Vec::new(alloc);
    numbers.push(0)?;
    let name = match argument.items.types {
        ItemTypes::One(name) => name,
        _ => 2,
    };
    Ok(Value::Numbers {
        name,
        numbers: Numbers::from(numbers),
    })
}

/// No value for each argument.
fn no_values(alloc: Global, form: &Form) -> Result<Values, AllocError> {
    let mut said = Vec::new(alloc);
    for _ in form.arguments() {
        said.push(None)?;
    }
    Ok(Values { said })
}

/// The values in the form's order, or the number of the first argument that is not said. Where a
/// reply's return code is not said, it is 0.
fn in_order(alloc: Global, form: &Form, values: Values) -> Result<Vec<Value>, OrMemory<usize>> {
    let Values { said } = values;
    let mut ordered = Vec::new(alloc);
    let mut i = 0usize;
    for value in said {
        match (value, form.arguments().get(i)) {
            (Some(value), _) => ordered.push(value)?,
            (None, Some(argument))
                if form.kind() == FormKind::Reply && argument.name.as_str() == RETURN_CODE => {
                let value = no_code(alloc, argument)?;
                ordered.push(value)?;
            }
            (None, _) => return Err(OrMemory::Fault(i)),
        }
        i = i.saturating_add(1);
    }
    Ok(ordered)
}

/// What the text says, with the place of the whole message and of what it names.
#[derive(Debug, Drop)]
struct Parsed {
    said: Spoken,
    whole: Place,
    named: Place,
}

/// What is said by a message in words.
fn parse(
    alloc: Global,
    interfaces: &[Interface],
    text: &[u8],
) -> Result<Parsed, OrMemory<WordsFault>> {
    let cursor = Cursor::new(text);
    let named = named_at(interfaces, cursor)?;
    let ports = ports_at(named.kind, named.after)?;
    let mut values = no_values(alloc, named.form)?;
    let close = read_arguments(alloc, named.form, &mut values, ports.after)?;
    let end = close.after.token();
    if end.mark != Mark::End {
        return not_words(end.place);
    }
    let values = match in_order(alloc, named.form, values) {
        Ok(values) => values,
        Err(OrMemory::Fault(i)) => return fault(WordsFaultKind::Missing(i), close.place),
        Err(OrMemory::Memory) => return Err(OrMemory::Memory),
    };
    let open = cursor.token().place;
    let said = Spoken {
        kind: named.kind,
        interface: String::from_str(alloc, named.interface)?,
        routine: String::from_str(alloc, named.routine)?,
        to: ports.to,
        reply: ports.reply,
        values,
    };
    let whole = Place {
        first: open.first,
        len: close.after.place(0).first.saturating_sub(open.first),
    };
    Ok(Parsed {
        said,
        whole,
        named: named.place,
    })
}

/// The fault of a text whose parts fit, and say no message: it is too long.
fn words_fault(fault: SpokenFault, whole: Place, named: Place) -> WordsFault {
    let (kind, place) = match fault {
        SpokenFault::UnknownMessage => (WordsFaultKind::UnknownMessage, named),
        SpokenFault::TooLong => (WordsFaultKind::TooLong, whole),
        SpokenFault::BadPort | SpokenFault::BadValue(_) => (WordsFaultKind::NotAValue, whole),
    };
    WordsFault { kind, place }
}

/// The message that a text says over the forms of these interfaces, or the first fault. It is one
/// that can be sent: what is written of it is read as the same message.
pub fn encode(
    alloc: Global,
    interfaces: &[Interface],
    text: &[u8],
) -> Result<Message, OrMemory<WordsFault>>
    ensures { IfOk result (λ m. (said : Said) × IsSpoken interfaces.now said m) }
{
    let Parsed { said, whole, named } = parse(alloc, interfaces, text)?;
    match message_of(alloc, interfaces, &said) {
        Ok(message) => Ok(message),
        Err(OrMemory::Memory) => Err(OrMemory::Memory),
        Err(OrMemory::Fault(fault)) => Err(OrMemory::Fault(words_fault(fault, whole, named))),
    }
}

/// The message in words, over the first of these interfaces of which it has words: as it is
/// printed, on one line. None where it has no words.
pub fn decode(
    alloc: Global,
    interfaces: &[Interface],
    message: &Message,
) -> Result<Option<String>, AllocError>
    ensures { IfOk result (λ text. MatchOption text
        ((said : Said) → ¬ IsSpoken interfaces.now said message.now)
        (λ text. (said : Said) × IsSpoken interfaces.now said message.now)) }
{
    let Some(said) = spoken_of(alloc, interfaces, message)? else {
        return Ok(None);
    };
    let interface = said.interface.as_str();
    match form_by(interfaces, said.kind, interface, said.routine.as_str()) {
        Some(form) => Ok(Some(words_of(alloc, form, &said)?)),
        None => unreachable!(),
    }
}
