//! How far a search for mends or calls has come, for who looks on and for `--verbose`.

use mrc_files::write_text;
use std::io::Write;

/// How many wirings are judged, or chains played, before the first line.
const FIRST: usize = 16;

/// Prints how many wirings were judged, or how many chains were played for all lines of a policy:
/// after the first 16, and then each time their number has doubled. Prints each mend as it is found.
#[derive(Drop)]
pub(crate) struct Counter<'a, E: Write> {
    /// Standard error.
    pub(crate) err: &'a mut E,
    /// How many chains were played.
    pub(crate) played: usize,
}

impl<'a, E: Write> Counter<'a, E> {
    /// A line of these words and the number, if a line is due.
    fn count(&mut self, words: &[u8], number: usize) {
        if number >= FIRST && number.is_power_of_two() {
            let mut digits = itoa::Buffer::new();
            let _ = write_text(self.err, words);
            let _ = write_text(self.err, digits.format(number).as_bytes());
            let _ = write_text(self.err, b"\n");
        }
    }

    /// A line of these words and a text.
    fn tell(&mut self, words: &str, text: &str) {
        let _ = write_text(self.err, words.as_bytes());
        let _ = write_text(self.err, text.as_bytes());
        let _ = write_text(self.err, b"\n");
    }
}

impl<'a, E: Write> mrc_mend::Progress for Counter<'a, E> {
    fn tried(&mut self, tries: usize) {
        self.count(b"machcheck: mend: wirings tried: ", tries);
    }

    fn found(&mut self, lines: &[String]) {
        let mut words = "machcheck: mend: found: ";
        for line in lines {
            self.tell(words, line.as_str());
            words = "machcheck: mend: with: ";
        }
    }
}

impl<'a, E: Write> mrc_attack::Progress for Counter<'a, E> {
    fn played(&mut self, _chains: usize) {
        self.played = self.played.saturating_add(1);
        self.count(b"machcheck: attack: chains played: ", self.played);
    }
}

/// Prints nothing, since nobody looks on or asks for it.
#[derive(Drop)]
pub(crate) struct Nobody;

impl mrc_mend::Progress for Nobody {
    fn tried(&mut self, _tries: usize) {}

    fn found(&mut self, _lines: &[String]) {}
}

impl mrc_attack::Progress for Nobody {
    fn played(&mut self, _chains: usize) {}
}
