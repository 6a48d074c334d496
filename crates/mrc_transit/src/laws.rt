//! What holds of sending and receiving together.

ghost use Rattle.mrc_transit.specs.Carrying.{TakenIsCarried};

/// What is taken for a lawful message is carried: a message has room for it, whatever names the
/// receiver has for its rights. So it can be queued.
pub fn taken_is_carried()
    ensures { TakenIsCarried }
{}
