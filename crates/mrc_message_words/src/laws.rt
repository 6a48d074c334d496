//! What holds of messages and of what is said.

ghost use Rattle.mrc_message_words.specs.Laws.{IsSaidInOneWay, SaysOneMessage, SpokenIsRead};

use mrc_desc::written_is_read;

/// What is said is one message at most.
pub fn says_one_message()
    ensures { SaysOneMessage }
{}

/// A message is said in one way at most of a routine. So what `spoken_of` makes of a message gives
/// that message back, and what `message_of` makes of something said is said so and not otherwise.
pub fn is_said_in_one_way()
    ensures { IsSaidInOneWay }
{}

/// What is written of a message that is said is read as that message.
pub fn spoken_is_read()
    ensures { SpokenIsRead }
{
    written_is_read();
}
