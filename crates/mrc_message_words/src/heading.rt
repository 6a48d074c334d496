//! What a message in words begins with: its routine and its ports.

use crate::lexis::{Cursor, Mark, Token};
use crate::naming::form_by;
use crate::place::{Place, WordsFault, WordsFaultKind};
use crate::port::NamedPort;
use crate::reading::{fault, not_a_value, not_words};
use crate::terms::{disp_of, port_name};
use mrc_base::{Disp, OrMemory};
use mrc_forms::{Form, Interface, MessageKind};

/// The routine that is named.
#[derive(Clone, Copy, Debug)]
pub(crate) struct Named<'i, 't> {
    pub kind: MessageKind,
    pub interface: &'t str,
    pub routine: &'t str,
    /// Where it is named.
    pub place: Place,
    pub form: &'i Form,
    pub after: Cursor<'t>,
}

/// The ports that are named.
#[derive(Clone, Copy, Debug)]
pub(crate) struct Ports<'t> {
    pub to: NamedPort,
    pub reply: Option<NamedPort>,
    pub after: Cursor<'t>,
}

/// The parts of a word before and behind the first byte that is this one.
pub(crate) fn split_at_byte(word: &[u8], byte: u8) -> Option<(&[u8], &[u8])> {
    for (i, found) in word.iter().enumerate() {
        if *found == byte {
            return Some((&word[..i], &word[i + 1..]));
        }
    }
    None
}

/// The interface and the routine that a word names.
fn names_of(word: &[u8]) -> Option<(&str, &str)> {
    let (interface, routine) = split_at_byte(word, b'.')?;
    match (std::str::from_utf8(interface), std::str::from_utf8(routine)) {
        (Ok(interface), Ok(routine)) => Some((interface, routine)),
        _ => None,
    }
}

/// The routine that the text begins with, behind its brace.
pub(crate) fn named_at<'i, 't>(
    interfaces: &'i [Interface],
    cursor: Cursor<'t>,
) -> Result<Named<'i, 't>, OrMemory<WordsFault>> {
    let open = cursor.token();
    if open.mark != Mark::Open {
        return not_words(open.place);
    }
    let first = open.after.token();
    let (kind, token) = if first.is(b"reply") {
        (MessageKind::Reply, first.after.token())
    } else {
        (MessageKind::Request, first)
    };
    if token.mark != Mark::Word {
        return not_words(token.place);
    }
    let Some((interface, routine)) = names_of(token.bytes) else {
        return not_words(token.place);
    };
    let Some(form) = form_by(interfaces, kind, interface, routine) else {
        return fault(WordsFaultKind::UnknownMessage, token.place);
    };
    Ok(Named {
        kind,
        interface,
        routine,
        place: token.place,
        form,
        after: token.after,
    })
}

/// A disposition of a header, behind `as`: any but that of a receive right.
fn header_disp(token: Token<'_>) -> Result<Disp, OrMemory<WordsFault>> {
    if token.mark != Mark::Word {
        return not_words(token.place);
    }
    match disp_of(token.bytes) {
        None | Some(Disp::MoveReceive) => not_a_value(token.place),
        Some(disp) => Ok(disp),
    }
}

/// A port of the header, and its disposition if that is not the usual one.
fn header_port<'t>(
    usual: Disp,
    cursor: Cursor<'t>,
) -> Result<(NamedPort, Cursor<'t>), OrMemory<WordsFault>> {
    let token = cursor.token();
    if token.mark != Mark::Word {
        return not_words(token.place);
    }
    let Some(name) = port_name(token.bytes) else {
        return not_a_value(token.place);
    };
    let word = token.after.token();
    if !word.is(b"as") {
        return Ok((NamedPort { name, disp: usual }, token.after));
    }
    let said = word.after.token();
    let disp = header_disp(said)?;
    Ok((NamedPort { name, disp }, said.after))
}

/// The disposition of the destination, if none is said.
pub(crate) fn usual_disp(kind: MessageKind) -> Disp {
    match kind {
        MessageKind::Request => Disp::CopySend,
        MessageKind::Reply => Disp::MoveSendOnce,
    }
}

/// The ports that follow the routine.
pub(crate) fn ports_at<'t>(
    kind: MessageKind,
    cursor: Cursor<'t>,
) -> Result<Ports<'t>, OrMemory<WordsFault>> {
    let word = cursor.token();
    if !word.is(b"to") {
        return not_words(word.place);
    }
    let (to, after) = header_port(usual_disp(kind), word.after)?;
    let next = after.token();
    if kind == MessageKind::Reply || !next.is(b"reply") {
        return Ok(Ports {
            to,
            reply: None,
            after,
        });
    }
    let (reply, after) = header_port(Disp::MakeSendOnce, next.after)?;
    Ok(Ports {
        to,
        reply: Some(reply),
        after,
    })
}
