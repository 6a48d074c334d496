//! Words for ports and dispositions.

use crate::lexis::number_of;
use mrc_base::Disp;

/// The name of a dead port.
pub(crate) const DEAD: u32 = u32::MAX;

/// A port as a word says it.
#[derive(Clone, Copy, Debug, PartialEq, Eq)]
pub(crate) enum PortWord {
    /// `null`: no port.
    Null,
    /// `dead`: a port that has died.
    Dead,
    /// The sender's name, a number.
    Name(u32),
}

impl PortWord {
    /// What a word says.
    pub(crate) fn of(word: &[u8]) -> Option<PortWord> {
        match word {
            b"null" => Some(PortWord::Null),
            b"dead" => Some(PortWord::Dead),
            _ => {
                let number = number_of(word)?;
                let name = u32::try_from(number).ok()?;
                Some(PortWord::Name(name))
            }
        }
    }

    /// What is printed of a name.
    pub(crate) fn of_name(name: u32) -> PortWord {
        match name {
            0 => PortWord::Null,
            DEAD => PortWord::Dead,
            _ => PortWord::Name(name),
        }
    }

    /// The name that it stands for.
    pub(crate) fn name(self) -> u32 {
        match self {
            PortWord::Null => 0,
            PortWord::Dead => DEAD,
            PortWord::Name(name) => name,
        }
    }
}

/// The name that a word stands for.
pub(crate) fn port_name(word: &[u8]) -> Option<u32> {
    let port = PortWord::of(word)?;
    Some(port.name())
}

/// The word for a disposition.
pub(crate) fn disp_word(disp: Disp) -> &'static str {
    match disp {
        Disp::MoveReceive => "move-receive",
        Disp::MoveSend => "move-send",
        Disp::MoveSendOnce => "move-send-once",
        Disp::CopySend => "copy-send",
        Disp::MakeSend => "make-send",
        Disp::MakeSendOnce => "make-send-once",
    }
}

/// The disposition that a word stands for.
pub(crate) fn disp_of(word: &[u8]) -> Option<Disp> {
    match word {
        b"move-receive" => Some(Disp::MoveReceive),
        b"move-send" => Some(Disp::MoveSend),
        b"move-send-once" => Some(Disp::MoveSendOnce),
        b"copy-send" => Some(Disp::CopySend),
        b"make-send" => Some(Disp::MakeSend),
        b"make-send-once" => Some(Disp::MakeSendOnce),
        _ => None,
    }
}
