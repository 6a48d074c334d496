//! Lines of a text.

ghost use Rattle.std.specs.Prelude.{◌≡◌, ◌<◌, ◌∷◌, length, IfSome};
ghost use Rattle.std.specs.List.{before_first, after_last};
ghost use Rattle.mrc_wiring_text.specs.Lexis.{lines};
ghost use Rattle.mrc_place.specs.Spots.{HasLine, is_feed, line_after};

use memchr::memchr;

/// The first line of a text, without its line feed, and the text after it.
fn cut_line(text: &str) -> (&str, &str)
    requires { 0 < length text.now }
    ensures cut { lines text.now ≡ result.0.now ∷ lines result.1.now }
    ensures shorter { length result.1.now < length text.now }
{
    match memchr(b'\n', text.as_bytes()) {
        Some(at) => {
            let (line, _) = text.split_at(at);
            let (_, behind) = text.split_at(at + 1);
            (line, behind)
        }
        None => (text, ""),
    }
}

/// A line of a text, and the lines around it.
#[derive(Clone, Copy, Debug)]
pub struct Line<'a> {
    /// Its number, from 1.
    pub number: u32,
    /// The lines above.
    pub above: &'a str,
    /// The line, without its line feed.
    pub text: &'a str,
    /// The lines below.
    pub below: &'a str,
}

/// The line of this number, from 1, if the text has it.
pub fn line_of(text: &str, number: u32) -> Option<Line<'_>>
    // It is that line.
    ensures { IfSome result (λ line. HasLine text.now line.number line.text.now) }
{
    if number == 0 {
        return None;
    }
    let mut rest = text;
    let mut left = number - 1;
    while !rest.is_empty() {
        let (line, below) = cut_line(rest);
        if left == 0 {
            let start = text.len().saturating_sub(rest.len());
            let (above, _) = text.split_at(text.floor_char_boundary(start));
            return Some(Line {
                number,
                above,
                text: line,
                below,
            });
        }
        left -= 1;
        rest = below;
    }
    None
}

/// A text up to its first line feed.
pub(crate) fn before_feed(text: &str) -> &str
    ensures { result.now ≡ before_first is_feed text.now }
{
    match text.split_once('\n') {
        Some((line, _)) => line,
        None => text,
    }
}

/// A text from its last line feed on.
pub(crate) fn after_feed(text: &str) -> &str
    ensures { result.now ≡ after_last is_feed text.now }
{
    match text.rsplit_once('\n') {
        Some((_, line)) => line,
        None => text,
    }
}

/// The number of the line that begins behind a part of a text.
pub(crate) fn line_after(front: &str) -> u32
    ensures { result ≡ line_after front.now }
{
    let feeds = front.bytes().filter(|byte| *byte == b'\n').count();
    (feeds.min(4_294_967_294) + 1) as u32
}
