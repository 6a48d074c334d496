//! Where a fault is in a text, and words that help to mend it: parts of lines, the nearest of the
//! known names, and lists of words.
#![tactic(auto)]

mod distance;
mod hints;
mod lines;
mod lists;
mod spots;
mod words;

pub use distance::nearest;
pub use hints::{Hint, did_you_mean, expected, one_note};
pub use lines::{Line, line_of};
pub use lists::{alternatives, listed};
pub use spots::{SourceLine, Spot, byte_spot, line_spot, word_spot};
pub use words::{has_words, words_of};
