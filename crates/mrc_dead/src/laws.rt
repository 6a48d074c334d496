//! What is called quiet is quiet, and what is called dead is dead.

ghost use Rattle.mrc_dead.specs.Laws.{DeadIsDead, QuietIsQuiet};

/// If a set of facts covers two worlds, and a task holds in one of them a right by which it can
/// send to a port of a class, while a task of another class holds in the other the receive right of
/// such a port, the class is not quiet. So no message goes from a task to one of another class
/// through a port of a quiet class.
pub fn quiet_is_quiet()
    ensures quiet { QuietIsQuiet }
{}

/// If the class also accepts a message, and the sender holds a right for a slot of it, which the
/// slot's type admits and the sender may send, the slot is not dead. So no message that goes from a
/// task to one of another class has a right in a dead slot.
pub fn dead_is_dead()
    ensures dead { DeadIsDead }
{}
