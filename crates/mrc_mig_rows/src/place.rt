//! Where a place is in the text.

use mrc_mig_tokens::Tokens;

/// Where the last token ends.
fn last_end(tokens: &Tokens<'_>) -> usize {
    let last = tokens.len().saturating_sub(1);
    tokens.at(last).saturating_add(tokens.text(last).len())
}

/// Where the first of so many tokens that are left begins, or the end of the last one where none
/// is left: an offset in bytes.
pub fn place_of(tokens: &Tokens<'_>, count: usize) -> usize {
    if count == 0 {
        last_end(tokens)
    } else {
        tokens.at(tokens.len().saturating_sub(count))
    }
}
