//! What lines say of trusted tasks: verbs, and rights on classes.

ghost use Rattle.std.specs.Prelude.{◌≡◌, map, IfOk};
ghost use Rattle.mrc_wiring_text.specs.Wiring.{verb_of, right_on, trusted_right, once_on, trusted};

use crate::lexis::is_word;
use crate::policy::{ClassName, class_of, right_of};
use crate::reading::Edition;
use crate::wiring::admitted;
use mrc_base::PortRight;
use std::alloc::{AllocError, Global};

/// What a line about a trusted task limits.
#[derive(Clone, Copy, Debug, PartialEq, Eq)]
pub enum TrustVerb {
    /// `takes`: what it takes from tasks of other classes.
    Takes,
    /// `gives`: what it gives to tasks of other classes.
    Gives,
    /// `sends`: what it puts into slots of messages.
    Sends,
    /// `replies`: of which ports the reply rights of its requests are.
    Replies,
}

/// A right on a class, as a line names it.
#[derive(Debug, Drop)]
pub struct TrustedRight {
    /// The right.
    pub right: PortRight,
    /// The class of ports.
    pub class: ClassName,
}

/// The verb that a word names; `None` where it names none.
#[tactic(auto, unfolding(crate::specs::Wiring::verb_of))]
pub fn verb_of(word: &[u8]) -> Option<TrustVerb>
    ensures { result ≡ verb_of word.now }
{
    if is_word(word, "takes") {
        Some(TrustVerb::Takes)
    } else if is_word(word, "gives") {
        Some(TrustVerb::Gives)
    } else if is_word(word, "sends") {
        Some(TrustVerb::Sends)
    } else if is_word(word, "replies") {
        Some(TrustVerb::Replies)
    } else {
        None
    }
}

fn right_on(right: Option<PortRight>, class: Option<ClassName>) -> Option<Option<TrustedRight>>
    ensures { result ≡ right_on right class }
{
    match (right, class) {
        (Some(right), Some(class)) => Some(Some(TrustedRight { right, class })),
        _ => None,
    }
}

/// `RIGHT CLASS`, or `none`.
#[tactic(auto, unfolding(crate::specs::Wiring::trusted_right))]
fn trusted_right(
    alloc: Global,
    edition: Edition,
    words: &[&[u8]],
) -> Result<Option<Option<TrustedRight>>, AllocError>
    ensures { IfOk result (λ right. right ≡ trusted_right edition
        (map (λ word. word.now) words.now)) }
{
    match words {
        [word] => {
            if is_word(word, "none") {
                Ok(Some(None))
            } else {
                Ok(None)
            }
        }
        [right, class @ ..] => {
            let class = class_of(alloc, edition, class)?;
            Ok(right_on(right_of(right), class))
        }
        [] => Ok(None),
    }
}

/// The send-once right on a class, or none.
fn once_on(class: Option<ClassName>) -> Option<TrustedRight>
    ensures { result ≡ once_on class }
{
    match class {
        Some(class) => {
            Some(TrustedRight {
                right: PortRight::SendOnce,
                class,
            })
        }
        None => None,
    }
}

/// What words after a verb name: `RIGHT CLASS` or `none`; after `replies`, a class or `none`.
pub(crate) fn trusted(
    alloc: Global,
    edition: Edition,
    verb: TrustVerb,
    words: &[&[u8]],
) -> Result<Option<Option<TrustedRight>>, AllocError>
    ensures { IfOk result (λ right. right ≡ trusted edition verb
        (map (λ word. word.now) words.now)) }
{
    match verb {
        TrustVerb::Takes | TrustVerb::Gives | TrustVerb::Sends => {
            trusted_right(alloc, edition, words)
        }
        TrustVerb::Replies => match admitted(alloc, edition, words)? {
            Some(class) => Ok(Some(once_on(class))),
            None => Ok(None),
        },
    }
}
