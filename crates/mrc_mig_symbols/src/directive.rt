//! Lines of the preprocessor.
ghost use Rattle.std.specs.Prelude.{◌≡◌, Some};
ghost use Rattle.std.specs.Option.{option_copied};
ghost use Rattle.mrc_mig_symbols.specs.Directives.{without_blanks, without_digits, after_bytes};
ghost use Rattle.mrc_mig_symbols.specs.Directives.{after_digits, next_place, is_empty_from};
ghost use Rattle.mrc_mig_symbols.specs.Directives.{included, marked, directive_of};
ghost use Rattle.mrc_mig_symbols.specs.declared.directive.Place.TheVariants.{Outside};

/// What a line that begins with `#` is.
#[derive(Clone, Copy, Debug, PartialEq, Eq)]
pub enum Directive {
    /// `#include <mach/std_types.defs>`
    Include,
    /// `# 3 ..` or `#line ..`, which says where the text came from.
    Marker,
    /// Any other line: left out.
    Other,
}

const HASH: &[u8; 1] = b"#";

const INCLUDE: &[u8; 7] = b"include";

const TABLE: &[u8; 21] = b"<mach/std_types.defs>";

const LINE: &[u8; 4] = b"line";

/// What a line is.
#[tactic(auto, unfolding(crate::specs::Directives::directive_of))]
pub fn directive_of(text: &str) -> Directive
    ensures { result ≡ directive_of text.now }
{
    let Some(line) = after_bytes(text.as_bytes(), HASH) else {
        return Directive::Other;
    };
    let line = without_blanks(line);
    if let Some(after) = after_bytes(line, INCLUDE) {
        return included(after_bytes(without_blanks(after), TABLE));
    }
    if let Some(after) = after_bytes(line, LINE) {
        return marked(Some(after));
    }
    marked(after_digits(line))
}

/// What an include is, with this behind the name.
fn included(after: Option<&[u8]>) -> Directive
    ensures { result ≡ included (option_copied after.entry) }
{
    match after {
        Some(after) if is_empty_line(after) => Directive::Include,
        _ => Directive::Other,
    }
}

/// What a line is with this behind a number or `line`.
fn marked(after: Option<&[u8]>) -> Directive
    ensures { result ≡ marked (option_copied after.entry) }
{
    match after {
        None => Directive::Other,
        Some([]) => Directive::Marker,
        Some([first, ..]) => {
            if *first == b' ' || *first == b'\t' || *first == b'\r' {
                Directive::Marker
            } else {
                Directive::Other
            }
        }
    }
}

#[tactic(auto, unfolding(crate::specs::Directives::after_bytes))]
fn after_bytes<'l>(line: &'l [u8], bytes: &[u8]) -> Option<&'l [u8]>
    ensures { option_copied result ≡ after_bytes bytes.now line.now }
{
    line.strip_prefix(bytes)
}

/// What follows the blanks at the front of a line.
#[tactic(auto, unfolding(crate::specs::Directives::without_blanks))]
pub fn without_blanks(line: &[u8]) -> &[u8]
    ensures { result.now ≡ without_blanks line.now }
{
    let mut rest = line;
    while let [b' ' | b'\t', after @ ..] = rest {
        rest = after;
    }
    rest
}

#[tactic(auto, unfolding(crate::specs::Directives::without_digits))]
fn without_digits(line: &[u8]) -> &[u8]
    ensures { result.now ≡ without_digits line.now }
{
    let mut rest = line;
    while let [b'0'..=b'9', after @ ..] = rest {
        rest = after;
    }
    rest
}

/// What follows the digits, where there is one at least.
#[tactic(auto, unfolding(crate::specs::Directives::after_digits))]
fn after_digits(line: &[u8]) -> Option<&[u8]>
    ensures { option_copied result ≡ after_digits line.now }
{
    match line {
        [b'0'..=b'9', after @ ..] => Some(without_digits(after)),
        _ => None,
    }
}

/// Where a reader of blanks and comments stands.
#[derive(Clone, Copy, Debug, PartialEq, Eq)]
enum Place {
    /// Outside of comments.
    Outside,
    /// After the `/` that may open a comment.
    Opening,
    /// Inside a comment.
    Inside,
    /// After a `*` inside a comment.
    Closing,
}

/// Whether blanks and whole comments are all that there is.
#[tactic(auto, unfolding(crate::specs::Directives::is_empty_from))]
pub fn is_empty_line(line: &[u8]) -> bool
    ensures { result ≡ is_empty_from (Some Outside) line.now }
{
    let mut place = Place::Outside;
    let mut rest = line;
    while let [byte, after @ ..] = rest {
        match next_place(place, *byte) {
            Some(next) => place = next,
            None => return false,
        }
        rest = after;
    }
    match place {
        Place::Outside => true,
        Place::Opening | Place::Inside | Place::Closing => false,
    }
}

fn next_place(place: Place, byte: u8) -> Option<Place>
    ensures { result ≡ next_place place byte }
{
    match (place, byte) {
        (Place::Outside, b' ' | b'\t' | b'\r') => Some(Place::Outside),
        (Place::Outside, b'/') => Some(Place::Opening),
        (Place::Outside, _) => None,
        (Place::Opening, b'*') => Some(Place::Inside),
        (Place::Opening, _) => None,
        (Place::Inside, b'*') => Some(Place::Closing),
        (Place::Inside, _) => Some(Place::Inside),
        (Place::Closing, b'*') => Some(Place::Closing),
        (Place::Closing, b'/') => Some(Place::Outside),
        (Place::Closing, _) => Some(Place::Inside),
    }
}
