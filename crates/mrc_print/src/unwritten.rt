//! A file that did not take all its bytes, printed without memory.

use mrc_answer::{Answer, Fault, MigEnd, Unwritten};
use mrc_base::OrMemory;
use mrc_files::{Sink, WriteFault, write_text};

/// The file that did not take all its bytes, if that is what is answered, or what became of MIG
/// files.
pub fn unwritten_of<'a>(answer: &'a Answer<'_>) -> Option<&'a Unwritten> {
    match answer {
        Answer::Fault(Fault::Unwritten(unwritten)) => Some(unwritten),
        Answer::Mig(mig_texts) => match &mig_texts.end {
            MigEnd::Refused(unwritten) => Some(unwritten),
            MigEnd::Written | MigEnd::Little => None,
        },
        _ => None,
    }
}

/// The last digit of a number to the base 16.
fn last_digit(number: u32) -> u8 {
    let digit = (number % 16) as u8;
    if digit < 10 { 48 + digit } else { 87 + digit }
}

/// Prints the escape of a control character: its number, which is below 256, has two digits.
fn print_escape<S: Sink>(sink: &mut S, c: char) -> Result<(), WriteFault> {
    let number = c as u32;
    let escape = [92, 120, last_digit(number / 16), last_digit(number)];
    write_text(sink, &escape)
}

/// Prints a character as it is shown.
fn print_char<S: Sink>(sink: &mut S, c: char) -> Result<(), WriteFault> {
    match c {
        '\\' => write_text(sink, b"\\\\"),
        '\n' => write_text(sink, b"\\n"),
        '\t' => write_text(sink, b"\\t"),
        '\r' => write_text(sink, b"\\r"),
        c if c.is_control() => print_escape(sink, c),
        c => {
            let mut bytes = [0u8; 4];
            write_text(sink, c.encode_utf8(&mut bytes).as_bytes())
        }
    }
}

/// Prints a name as it is shown.
fn print_shown<S: Sink>(sink: &mut S, name: &str) -> Result<(), WriteFault> {
    for c in name.chars() {
        print_char(sink, c)?;
    }
    Ok(())
}

/// Prints the line of a file that did not take all its bytes. No memory is needed, so it is printed
/// what files were left with.
pub fn print_unwritten<S: Sink>(sink: &mut S, unwritten: &Unwritten) -> Result<(), WriteFault> {
    let OrMemory::Fault(WriteFault { written }) = &unwritten.refusal else {
        return write_text(sink, b"machcheck: Memory\n");
    };
    let mut digits = itoa::Buffer::new();
    write_text(sink, b"machcheck: ")?;
    print_shown(sink, unwritten.file.as_str())?;
    write_text(sink, b": WriteFailed ")?;
    write_text(sink, digits.format(*written).as_bytes())?;
    write_text(sink, b"\n")
}
