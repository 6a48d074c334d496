//! Ports as a header names them.

ghost use Rattle.std.specs.Prelude.{◌≡◌, ◌↔◌, ℕ, Option, MatchOption, IsTrue, Some};
ghost use Rattle.mrc_message_words.specs.declared.port.NamedPort.{NamedPort};
ghost use Rattle.mrc_message_words.specs.Spoken.{ArePorts, IsCarried, IsPort, IsReplyPort};

use mrc_base::Disp;
use mrc_forms::MessageKind;

/// A port, and how a right to it is carried.
#[derive(Clone, Copy, Debug, PartialEq, Eq)]
pub struct NamedPort {
    /// The sender's name for it.
    pub name: u32,
    /// The disposition of the right.
    pub disp: Disp,
}

/// Whether a header can carry a right to the port so.
fn is_carried(port: NamedPort) -> bool
    ensures { IsTrue result ↔ IsCarried port }
{
    port.disp != Disp::MoveReceive
}

/// Whether a header can name these ports.
pub(crate) fn are_ports(kind: MessageKind, to: NamedPort, reply: Option<NamedPort>) -> bool
    ensures { IsTrue result ↔ ArePorts kind to reply }
{
    match (kind, reply) {
        (_, None) => is_carried(to),
        (MessageKind::Request, Some(reply)) => is_carried(to) && is_carried(reply),
        (MessageKind::Reply, Some(_)) => false,
    }
}

/// The port that a header names so.
pub(crate) fn port_of(name: u32, disp: u8) -> Option<NamedPort>
    ensures { MatchOption result ((port : NamedPort) → ¬ IsPort port name disp)
        (λ port. IsPort port name disp) }
{
    let disp = Disp::of_number(u16::from(disp))?;
    Some(NamedPort { name, disp })
}

/// The reply port that a header names so, which is none if it has neither a name nor a disposition.
pub(crate) fn reply_port_of(kind: MessageKind, name: u32, disp: u8) -> Option<Option<NamedPort>>
    ensures { MatchOption result
        ((reply : Option NamedPort) → ¬ IsReplyPort kind reply name disp)
        (λ reply. IsReplyPort kind reply name disp) }
{
    if name == 0 && disp == 0 {
        return Some(None);
    }
    match kind {
        MessageKind::Reply => None,
        MessageKind::Request => {
            let port = port_of(name, disp)?;
            Some(Some(port))
        }
    }
}
