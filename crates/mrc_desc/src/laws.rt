//! What holds of reading and writing together, and of messages that are built from others.

ghost use Rattle.mrc_desc.specs.Laws.{WrittenIsRead, WrittenIsSpelled, SpelledIsOne};
ghost use Rattle.mrc_desc.specs.Laws.{ReadIsSpelled, OthersAreLawful, OthersAreAsLarge};

/// What is written of a lawful message is read as that message, where its `seqno` is 0 and reading
/// admits its header: the bytes spell it.
pub fn written_is_read()
    ensures read { WrittenIsRead }
    ensures spelled { WrittenIsSpelled }
{}

/// Bytes spell one message at most.
pub fn spells_one_message()
    ensures { SpelledIsOne }
{}

/// Bytes spell exactly the message that they are read as: what is read is spelled so, and what is
/// spelled so is read.
pub fn reading_is_by_spelling()
    ensures { ReadIsSpelled }
{}

/// A message with another header, and with other port rights in the place of as many, is lawful
/// where the first one is, and as large. So a message that was queued can be received under other
/// names.
pub fn other_ports_fit()
    ensures lawful { OthersAreLawful }
    ensures size { OthersAreAsLarge }
{}
