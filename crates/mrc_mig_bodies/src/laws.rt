//! What holds of a routine to which nothing objects, and of its request port.

ghost use Rattle.mrc_mig_bodies.specs.Laws.{PortIsMarked, HasPort, AreKnown};

/// The request port is the last argument that is marked, or else the first without a word.
pub fn port_by_words()
    ensures { PortIsMarked }
{}

/// A routine to which nothing objects has a request port that is a port, and knows the type of
/// each argument of its bodies.
pub fn unobjected_are_known()
    ensures port { HasPort }
    ensures known { AreKnown }
{}
