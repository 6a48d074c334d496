//! The words of arguments.

ghost use Rattle.std.specs.Prelude.{◌≡◌, take};
ghost use Rattle.std.specs.Str.{bytes_eq, str_to_ascii_lowercase};
ghost use Rattle.mrc_mig_symbols.specs.Tables.{plain, entry_of, AreLowercase};
ghost use Rattle.mrc_mig_tokens.specs.Reading.{first_of, text_of, left};
ghost use Rattle.mrc_mig_arguments.specs.Words.{is_payload, counts_by, asks_count};
ghost use Rattle.mrc_mig_arguments.specs.Reading.{role_of, role_at};

use crate::argument::Role;
use mrc_mig_symbols::Word;
use mrc_mig_tokens::{Rest, Symbol};

/// The words in front of arguments, in lower case.
const ROLES: [(&str, Role); 10] = [
    ("in", Role::In),
    ("out", Role::Out),
    ("inout", Role::InOut),
    ("requestport", Role::RequestPort),
    ("replyport", Role::ReplyPort),
    ("ureplyport", Role::UserReplyPort),
    ("sreplyport", Role::ServerReplyPort),
    ("waittime", Role::WaitTime),
    ("msgoption", Role::MessageOption),
    ("msgseqno", Role::SequenceNumber),
];

/// What a table has under a word in any case.
fn role_in(table: &[(&str, Role)], text: &str) -> Option<Role>
    requires { AreLowercase table.now }
    ensures { result ≡ entry_of (plain table.now) (str_to_ascii_lowercase text.now) }
{
    for (word, role) in table {
        if text.eq_ignore_ascii_case(word) {
            return Some(*role);
        }
    }
    None
}

/// What the first token is in front of an argument, where it is a word that stands there.
#[tactic(auto, unfolding(crate::specs::Words::role_of_word))]
fn role_of(rest: Rest<'_>) -> Option<Role>
    ensures { result ≡ role_of (left rest.entry) }
{
    match rest.first() {
        Symbol::Word(_) => role_in(&ROLES, rest.text()),
        _ => None,
    }
}

/// Passes the word in front of an argument, where there is one.
#[tactic(auto, unfolding(crate::specs::Reading::role_at))]
pub(crate) fn role(rest: Rest<'_>) -> (Role, Rest<'_>)
    ensures { (result.0, left result.1) ≡ role_at (left rest.entry) }
{
    match role_of(rest) {
        Some(role) => (role, rest.next()),
        None => (Role::Unmarked, rest),
    }
}

/// Whether a name is spelled so, in any case.
fn is_spelled(name: &str, word: &str) -> bool
    requires { str_to_ascii_lowercase word.now ≡ word.now }
    ensures { result ≡ bytes_eq (str_to_ascii_lowercase name.now) word.now }
{
    name.eq_ignore_ascii_case(word)
}

/// Whether a name is the word of an option.
pub(crate) fn is_payload(name: &str) -> bool
    ensures { result ≡ is_payload name.now }
{
    is_spelled(name, "intranpayload")
}

/// Whether the flag `countinout` comes next.
fn is_count(rest: Rest<'_>) -> bool
    ensures { result ≡ counts_by (first_of (left rest.entry)) (text_of (left rest.entry)) }
{
    match rest.first() {
        Symbol::Word(Word::Flag) => is_spelled(rest.text(), "countinout"),
        _ => false,
    }
}

/// Whether the flag `countinout` is among so many tokens.
#[tactic(auto, using(crate::proofs::CountLemmas::count_found, crate::proofs::CountLemmas::count_passed, crate::proofs::CountLemmas::count_done))]
pub(crate) fn asks_count(rest: Rest<'_>, count: usize) -> bool
    ensures { result ≡ asks_count (take count (left rest.entry)) }
{
    let mut rest = rest;
    for _ in 0..count {
        if is_count(rest) {
            return true;
        }
        rest = rest.next();
    }
    false
}
