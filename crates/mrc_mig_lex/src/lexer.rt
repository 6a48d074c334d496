//! The tokens of a text, one after the other.

ghost use Rattle.std.specs.Prelude.{◌<◌, ◌≤◌, length, IfOk, IfSome};
ghost use Rattle.mrc_mig_lex.specs.Tokens.{end_of};
ghost use Rattle.mrc_mig_lex.specs.Lexing.{tokens_behind, BeginsWith};

use crate::fault::LexFault;
use crate::piece::piece_at;
use crate::token::Token;

/// The first token of a text from this place on, or none, or the first fault. `fresh` says that
/// only blanks stand before the place on its line: it holds at 0, and not where a token ends.
pub fn next_token(text: &str, at: usize, fresh: bool) -> Result<Option<Token<'_>>, LexFault>
    // The tokens from there on begin with this one; or there is none, or their first fault is this.
    ensures exact { BeginsWith text.now result (tokens_behind fresh at text.now) }
    ensures within { IfOk result (λ found. IfSome found (λ token.
        (at < end_of token) × (end_of token ≤ length text.now))) }
{
    let bytes = text.as_bytes();
    if at > bytes.len() {
        return Ok(None);
    }
    let mut place = at;
    let mut fresh = fresh;
    while let Some((first, rest)) = bytes[place..].split_first() {
        let piece = piece_at(place, fresh, *first, rest)?;
        let end = place + 1 + piece.more;
        if let Some(kind) = piece.kind {
            return Ok(Some(Token::new(kind, place, &text[place..end])));
        }
        fresh = piece.fresh;
        place = end;
    }
    Ok(None)
}
