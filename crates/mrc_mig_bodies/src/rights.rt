//! The rights by which an argument is judged.

ghost use Rattle.std.specs.Prelude.{◌≡◌};
ghost use Rattle.mrc_mig_types.specs.Shapes.{numbers_of};
ghost use Rattle.mrc_mig_bodies.specs.Rights.{numbers_by, is_slot, are_send_once, is_port_tag};
ghost use Rattle.mrc_mig_bodies.specs.Rights.{is_no_port, is_no_send_once};

use mrc_mig_types::{By, Meaning, Rights, Tag, rights_of};

/// The rights of an argument of a type.
fn rights_by(meaning: Meaning, by: By) -> Rights
    ensures { numbers_of result ≡ numbers_by meaning by }
{
    match by {
        By::Sent => rights_of(meaning.sent, meaning.received),
        By::Received => rights_of(meaning.received, meaning.received),
        By::Picked | By::PickedReceived => rights_of(Tag::Picked, meaning.received),
    }
}

/// Whether an argument of a type carries rights.
pub(crate) fn is_slot(meaning: Meaning, by: By) -> bool
    ensures { result ≡ is_slot meaning by }
{
    match rights_by(meaning, by) {
        Rights::Nothing => false,
        Rights::Only(_) | Rights::Send | Rights::SendOnce | Rights::Any => true,
    }
}

/// Whether they are a send-once right, in whatever way that is given.
fn are_send_once(rights: Rights) -> bool
    ensures { result ≡ are_send_once (numbers_of rights) }
{
    match rights {
        Rights::Only(number) => number == 18 || number == 21,
        Rights::SendOnce => true,
        Rights::Nothing | Rights::Send | Rights::Any => false,
    }
}

/// Whether a tag may be a port's.
fn is_port_tag(tag: Tag) -> bool
    ensures { result ≡ is_port_tag tag }
{
    match tag {
        Tag::Picked => true,
        Tag::Fixed(number) => 16 <= number && number <= 21,
    }
}

/// Whether a type is known, and is no port as it is sent.
pub(crate) fn is_no_port(meaning: Option<Meaning>) -> bool
    ensures { result ≡ is_no_port meaning }
{
    match meaning {
        None => false,
        Some(meaning) => !is_port_tag(meaning.sent),
    }
}

/// Whether a type is known, and may be more than a send-once right, or something else.
pub(crate) fn is_no_send_once(meaning: Option<Meaning>, by: By) -> bool
    ensures { result ≡ is_no_send_once by meaning }
{
    match meaning {
        None => false,
        Some(meaning) => !are_send_once(rights_by(meaning, by)),
    }
}
