//! What the program prints.

ghost use Rattle.std.specs.Prelude.{◌≡◌, ◌<◌, ◌≤◌, ◌+◌, [], ◌++◌, IfOk, IsOk, OnOk, length};
ghost use Rattle.std.specs.Prelude.{◌/◌, ◌%◌, codes, encode_utf8_all};
ghost use Rattle.std.specs.Char.{digit_char};
ghost use Rattle.std.specs.Prelude.{string_bytes, string_capacity, string_len};
ghost use Rattle.mrc_command.specs.Lines.{memory_line, fault_line, hex_digits, shown, shown_char};
ghost use Rattle.mrc_command.specs.Lines.{NamesAreShownPlain, NamesAreToldApart};

use std::alloc::{AllocError, Global};

/// The two texts that the program writes, and the status that it exits with once they are written.
#[derive(Drop)]
pub struct Told {
    /// The text for standard output.
    pub out: String,
    /// The text for standard error.
    pub err: String,
    /// The exit status, 0 to 2.
    pub status: u8,
}

/// A text for standard output, and none for standard error.
pub fn said(alloc: Global, out: String, status: u8) -> Told
    ensures status { result.status ≡ status }
    ensures out { string_bytes result.out ≡ string_bytes out }
    ensures err { string_bytes result.err ≡ [] }
{
    Told {
        out,
        err: String::new(alloc),
        status,
    }
}

/// A digit to the base 16.
fn hex_digit(digit: u32) -> char
    requires { digit < 16 }
    ensures exact { result ≡ digit_char digit }
    ensures small { result < 128 }
{
    char::from_digit(digit, 16).unwrap()
}

/// Adds the escape of a control character.
fn push_hex(text: &mut String, c: char) -> Result<(), AllocError>
    requires { c < 256 }
    ensures ok { OnOk result (string_bytes text.new
        ≡ string_bytes text.old ++ encode_utf8_all (codes "\\x" ++ hex_digits c)) }
    ensures len { OnOk result (string_len text.new ≡ string_len text.old + 4) }
    ensures room { string_capacity text.old ≤ string_capacity text.new }
    ensures succeeds { string_len text.old + 4 ≤ string_capacity text.old → IsOk result }
{
    let number = c as u32;
    let high = hex_digit(number / 16);
    let low = hex_digit(number % 16);
    text.push_str("\\x")?;
    text.push(high)?;
    text.push(low)
}

/// Adds a character as it is shown. If there is room it takes no memory.
fn push_char(text: &mut String, c: char) -> Result<(), AllocError>
    ensures ok { OnOk result (string_bytes text.new
        ≡ string_bytes text.old ++ encode_utf8_all (shown_char c)) }
    ensures len { OnOk result (string_len text.new
        ≡ string_len text.old + length (encode_utf8_all (shown_char c))) }
    ensures room { string_capacity text.old ≤ string_capacity text.new }
    ensures succeeds { string_len text.old + length (encode_utf8_all (shown_char c))
        ≤ string_capacity text.old → IsOk result }
{
    match c {
        '\\' => text.push_str("\\\\"),
        '\n' => text.push_str("\\n"),
        '\t' => text.push_str("\\t"),
        '\r' => text.push_str("\\r"),
        c if c.is_control() => push_hex(text, c),
        c => text.push(c),
    }
}

/// Adds a name as it is shown. If there is room it takes no memory, and is not refused.
pub fn push_shown(text: &mut String, name: &str) -> Result<(), AllocError>
    ensures ok { OnOk result (string_bytes text.new ≡ string_bytes text.old ++ shown name.now) }
    ensures len { OnOk result
        (string_len text.new ≡ string_len text.old + length (shown name.now)) }
    ensures room { string_capacity text.old ≤ string_capacity text.new }
    ensures succeeds { string_len text.old + length (shown name.now) ≤ string_capacity text.old
        → IsOk result }
{
    for c in name.chars() {
        push_char(text, c)?;
    }
    Ok(())
}

/// A name as it is shown: its control characters escaped, and its backslashes doubled.
pub fn shown(alloc: Global, name: &str) -> Result<String, AllocError>
    ensures { IfOk result (λ text. string_bytes text ≡ shown name.now) }
{
    let mut text = String::with_capacity(alloc, name.len())?;
    push_shown(&mut text, name)?;
    Ok(text)
}

/// A fault of a file, by the file's name as it is shown and the fault's.
pub fn fault_of(alloc: Global, file: &str, fault: &str) -> Result<Told, AllocError>
    ensures status { IfOk result (λ told. told.status ≡ 2) }
    ensures out { IfOk result (λ told. string_bytes told.out ≡ []) }
    ensures err { IfOk result (λ told. string_bytes told.err ≡ fault_line file.now fault.now) }
{
    let file = shown(alloc, file)?;
    Ok(Told {
        out: String::new(alloc),
        err: format!(in alloc; "machcheck: {file}: {fault}\n")?,
        status: 2,
    })
}

/// Memory ran out.
pub fn memory(alloc: Global) -> Result<Told, AllocError>
    ensures status { IfOk result (λ told. told.status ≡ 2) }
    ensures out { IfOk result (λ told. string_bytes told.out ≡ []) }
    ensures err { IfOk result (λ told. string_bytes told.err ≡ memory_line) }
{
    Ok(Told {
        out: String::new(alloc),
        err: String::from_str(alloc, "machcheck: Memory\n")?,
        status: 2,
    })
}

/// A name that is shown can't split or colour its line, and no two names are shown alike.
pub fn names_are_shown_safely()
    ensures plain { NamesAreShownPlain }
    ensures apart { NamesAreToldApart }
{}
