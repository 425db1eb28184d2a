// The printed lines, by a buffer.
ghost use Rattle.std.specs.Prelude.{◌≡◌, ◌+◌, ◌≤◌, ◌++◌, List, ℕ, [], length, take, IfOk, IfErr, OnOk, OnErr};
ghost use Rattle.std.specs.Io.KnownBytes.{Appends, Keeps};
ghost use Rattle.journal.specs.Lines.{line_text};
ghost use Rattle.replay.specs.Printed.{AppendsPart, Sends, first_line};
ghost use Rattle.replay.specs.Failure.{IsInput};

use crate::BUFFER;
use crate::failure::Failure;
use journal::{LINE, Line};
use std::io;
use std::io::Write;
use std::marker::Model;

/// What waits to be written: the first bytes of a buffer.
#[derive(Drop)]
pub struct Waiting {
    text: [u8; BUFFER],
    full: usize,
}

impl Model for Waiting {
    ghost Value = { List ℕ };

    ghost view = { λ waiting. take waiting.full waiting.text };

    ghost invariant = { λ waiting. waiting.full ≤ 4096 };
}

impl Waiting {
    /// Nothing waits.
    pub fn new() -> Self
        ensures { result ≡ [] }
    {
        Waiting {
            text: [0; BUFFER],
            full: 0,
        }
    }

    /// Writes what waits. Then nothing waits, also where it fails.
    pub fn flush<W: Write>(&mut self, output: &mut W) -> Result<(), Failure>
        ensures empty { self.new ≡ [] }
        ensures own { IfErr result (λ failure. IsInput failure → ⊥) }
        ensures ok { OnOk result
            (Sends (W.contents output.old) (W.contents output.new) self.old []) }
        ensures err { OnErr result
            (AppendsPart (W.contents output.old) (W.contents output.new) self.old) }
    {
        let full = self.full;
        self.full = 0;
        write_whole(output, &self.text[..full])
    }

    // Writes what waits where there is no room for another line behind it.
    fn make_room<W: Write>(&mut self, output: &mut W) -> Result<(), Failure>
        ensures room { OnOk result (length self.new + LINE ≤ BUFFER) }
        ensures ok { OnOk result
            (Sends (W.contents output.old) (W.contents output.new) self.old self.new) }
        ensures err { OnErr result
            (AppendsPart (W.contents output.old) (W.contents output.new) self.old) }
    {
        if BUFFER - LINE < self.full {
            return self.flush(output);
        }
        Ok(())
    }

    /// Puts the line of an entry behind what waits, which is written first where there is no room for another.
    #[tactic(auto, using(crate::proofs::Written::sends_put))]
    pub fn print<W: Write>(
        &mut self,
        output: &mut W,
        number: u64,
        line: Line,
    ) -> Result<(), Failure>
        ensures ok { OnOk result (Sends (W.contents output.old) (W.contents output.new)
            (self.old ++ line_text number line) self.new) }
        ensures err { OnErr result
            (AppendsPart (W.contents output.old) (W.contents output.new) self.old) }
    {
        self.make_room(output)?;
        self.full = journal::line_text(number, line, &mut self.text, self.full);
        Ok(())
    }
}

// Writes some bytes, and tries again where a signal interrupts it before any is written. The library's `write_all` says nothing
// of the bytes that were written before it failed.
#[tactic(auto, using(crate::proofs::Written::keeping))]
fn write_some<W: Write>(output: &mut W, bytes: &[u8]) -> io::Result<usize>
    ensures bound { IfOk result (λ taken. taken ≤ length bytes.now) }
    ensures ok { IfOk result (λ taken.
        Appends (W.contents output.old) (W.contents output.new) (take taken bytes.now)) }
    ensures err { OnErr result (Keeps (W.contents output.old) (W.contents output.new)) }
{
    for _ in 0..u64::MAX {
        match output.write(bytes) {
            Ok(taken) => return Ok(taken),
            Err(error) => {
                if error.kind() != io::ErrorKind::Interrupted {
                    return Err(error);
                }
            }
        }
    }
    Err(io::Error::from(io::ErrorKind::Interrupted))
}

/// Writes bytes. Where it fails, the first of them may be written.
#[tactic(auto, using(crate::proofs::Written::parts))]
pub fn write_whole<W: Write>(output: &mut W, bytes: &[u8]) -> Result<(), Failure>
    ensures own { IfErr result (λ failure. IsInput failure → ⊥) }
    ensures ok { OnOk result (Appends (W.contents output.old) (W.contents output.new) bytes.now) }
    ensures err { OnErr result
        (AppendsPart (W.contents output.old) (W.contents output.new) bytes.now) }
{
    let mut written = 0;
    while written < bytes.len() {
        match write_some(output, &bytes[written..]) {
            Ok(0) => return Err(Failure::Output(io::Error::from(io::ErrorKind::WriteZero))),
            Ok(taken) => written += taken,
            Err(error) => return Err(Failure::Output(error)),
        }
    }
    Ok(())
}

/// Writes the first line, in three writes: who takes the output a write at a time, or lets only a part of it in, has its parts.
pub fn write_first_line<W: Write>(output: &mut W) -> Result<(), Failure>
    ensures own { IfErr result (λ failure. IsInput failure → ⊥) }
    ensures ok { OnOk result (Appends (W.contents output.old) (W.contents output.new) first_line) }
    ensures err { OnErr result
        (AppendsPart (W.contents output.old) (W.contents output.new) first_line) }
{
    write_whole(output, b"pool ")?;
    write_whole(output, b"16384")?;
    write_whole(output, b"\n")
}
