// The lines, as they are written.
use std::io;
use std::io::Write;

// How many digits a full line has.
const FULL: u64 = 64;

/// Where the lines go, and how many digits the last line has, if it is one of digits.
#[derive(Drop)]
pub struct Lines<W> {
    pub output: W,
    digits: u64,
}

impl<W: Write> Lines<W> {
    /// No lines yet.
    pub fn new(output: W) -> Lines<W> {
        Lines { output, digits: 0 }
    }

    /// Writes some text.
    pub fn text(&mut self, text: &[u8]) -> io::Result<()> {
        self.output.write_all(text)
    }

    /// Writes a verdict as a digit. A full line is ended.
    pub fn digit(&mut self, verdict: bool) -> io::Result<()> {
        self.text(if verdict { b"1" } else { b"0" })?;
        if self.digits < FULL - 1 {
            self.digits += 1;
            return Ok(());
        }
        self.digits = 0;
        self.text(b"\n")
    }

    /// Ends the line of digits, if there is one.
    pub fn end_digits(&mut self) -> io::Result<()> {
        if self.digits == 0 {
            return Ok(());
        }
        self.digits = 0;
        self.text(b"\n")
    }
}
