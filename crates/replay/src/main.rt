// Replays a journal from standard input on a new store, and prints a line for each entry (document 01, 'Journal').
// `journal` reads and serves the entries; here are the reader, the writer and the numbers of the lines.
#![tactic(auto)]

mod failure;
mod input;
mod output;

ghost use Rattle.std.specs.Prelude.{◌≡◌, List, ℕ, [], IfSome, OnOk, OnErr};
ghost use Rattle.std.specs.Io.KnownBytes.{Appends};
ghost use Rattle.pages.specs.Calls.{store};
ghost use Rattle.replay.specs.Source.{left};
ghost use Rattle.replay.specs.Printed.{new_store, printed, after_first, AppendsPart, Sends, IsOutput, is_last};
ghost use Rattle.replay.specs.Failure.{IsInput};

use failure::Failure;
use input::{ENTRY, Source};
use journal::Line;
use output::Waiting;
use pages::State;
use std::io;
use std::io::{Read, Write};
use std::process::ExitCode;

// How many words the pool has.
const POOL: usize = 16384;

// How many bytes each buffer has, that of the input and that of the lines.
const BUFFER: usize = 4096;

// Whether a line ends the run.
fn ends(line: Line) -> bool
    ensures { result ≡ is_last line }
{
    matches!(line, Line::Bad(_) | Line::End)
}

// Why the replay stops where a read fails: what waits is written all the same, and only where that fails too it is that failure.
fn stopped<W: Write>(output: &mut W, waiting: &mut Waiting, error: io::Error) -> Failure
    ensures written { IsInput result →
        Sends (W.contents output.old) (W.contents output.new) waiting.old [] }
    ensures part { AppendsPart (W.contents output.old) (W.contents output.new) waiting.old }
{
    match waiting.flush(output) {
        Ok(()) => Failure::Input(error),
        Err(failure) => failure,
    }
}

// Serves the entries one after the other, from the first number on, and prints their lines. Lines wait until no other has room
// behind them, a read fails, or the replay ends.
fn replay<R: Read, W: Write>(
    input: &mut Source<R>,
    output: &mut W,
    state: State,
    pool: &mut [u32],
) -> Result<(), Failure>
    requires { store state pool.old ≡ new_store }
    ensures ok { OnOk result (IfSome (left R.remaining input.old) (λ journal.
        Appends (W.contents output.old) (W.contents output.new) (after_first journal))) }
    ensures err { OnErr result (IfSome (left R.remaining input.old) (λ journal.
        AppendsPart (W.contents output.old) (W.contents output.new) (after_first journal))) }
{
    let mut now = state;
    let mut entry = [0u8; ENTRY];
    let mut waiting = Waiting::new();
    for number in 1..u64::MAX {
        let size = match input.read_entry(&mut entry) {
            Ok(size) => size,
            Err(error) => return Err(stopped(output, &mut waiting, error)),
        };
        let step = journal::step(now, pool, &entry[..size], 0);
        now = step.state;
        waiting.print(output, number, step.line)?;
        if ends(step.line) {
            return waiting.flush(output);
        }
    }
    waiting.flush(output)?;
    Err(Failure::TooLong)
}

// Writes the first line, and replays the journal on a new store.
//
// THE PROMISE OF THE PROGRAM, of a reader whose bytes are a journal: all of its output is written, or where it fails the first
// bytes of it.
#[tactic(auto, using(crate::proofs::Replayed::printed_replayed))]
fn run<R: Read, W: Write>(input: &mut R, output: &mut W) -> Result<(), Failure>
    ensures ok { OnOk result (IfSome (R.remaining input.old) (λ journal.
        Appends (W.contents output.old) (W.contents output.new) (printed journal))) }
    ensures err { OnErr result (IfSome (R.remaining input.old) (λ journal.
        AppendsPart (W.contents output.old) (W.contents output.new) (printed journal))) }
    ensures replayed { (journal : List ℕ) → IsOutput journal (printed journal) }
{
    output::write_first_line(output)?;
    let mut pool = [0u32; POOL];
    let state = pages::fresh(&mut pool).unwrap();
    replay(&mut Source::new(input), output, state, &mut pool)
}

fn main(rt: HostRuntime) -> ExitCode {
    match run(&mut rt.reader(), &mut io::writer(&rt)) {
        Ok(()) => ExitCode::SUCCESS,
        Err(failure) => {
            // Where standard error cannot be written either, the status says it.
            let _ = eprintln!(rt; "replay: {failure}");
            ExitCode::FAILURE
        }
    }
}

#[cfg(test)]
mod tests {
    use super::*;
    use std::test::Fail;

    // Gives the bytes of a journal, so many at a time, and then fails, or ends.
    #[derive(Drop)]
    struct Source<'a> {
        left: &'a [u8],
        step: usize,
        fails: bool,
    }

    impl Read for Source<'_> {
        fn read(&mut self, buf: &mut [u8]) -> io::Result<usize> {
            let left = self.left;
            if left.len() == 0 {
                if self.fails {
                    return Err(io::Error::from_raw_os_error(5));
                }
                return Ok(0);
            }
            let most = left.len().min(buf.len()).min(self.step);
            buf[..most].copy_from_slice(&left[..most]);
            self.left = &left[most..];
            Ok(most)
        }
    }

    // Takes so many bytes, and then fails. Counts the writes.
    #[derive(Drop)]
    struct Sink {
        taken: Vec<u8>,
        room: usize,
        writes: u64,
    }

    impl Write for Sink {
        fn write(&mut self, buf: &[u8]) -> io::Result<usize> {
            let most = buf.len().min(self.room);
            if most == 0 {
                return Err(io::Error::from_raw_os_error(28));
            }
            self.taken.extend_from_slice(&buf[..most])?;
            self.room -= most;
            self.writes = self.writes.wrapping_add(1);
            Ok(most)
        }

        fn flush(&mut self) -> io::Result<()> {
            Ok(())
        }
    }

    const JOURNAL: &[u8] = &[
        1, 0, 0, 0, 128, 0, 0, 0, 0, 0, 96, 0, 128, 0, 0, 0, 0, 2, 1, 4,
    ];

    #[test]
    fn a_byte_at_a_time(rt: HostRuntime) -> Result<(), Fail> {
        let mut input = Source {
            left: JOURNAL,
            step: 1,
            fails: false,
        };
        let mut output = Sink {
            taken: Vec::new(rt.alloc()),
            room: 10000,
            writes: 0,
        };
        let ended = run(&mut input, &mut output);
        assert!(rt; ended.is_ok());
        let _ = ended;
        let wanted =
            b"pool 16384\n1 seed 0\n2 acquire 0 2147483648 7\n3 report 0 24576 20480 1 1423\n";
        assert!(rt; output.taken.as_slice() == wanted.as_slice());
        assert!(rt; output.writes == 4);
        Ok(())
    }

    #[test]
    fn a_read_fails(rt: HostRuntime) -> Result<(), Fail> {
        let mut input = Source {
            left: &JOURNAL[..18],
            step: 5,
            fails: true,
        };
        let mut output = Sink {
            taken: Vec::new(rt.alloc()),
            room: 10000,
            writes: 0,
        };
        let failed = matches!(run(&mut input, &mut output), Err(Failure::Input(_)));
        assert!(rt; failed);
        assert!(rt; output.taken.as_slice() == b"pool 16384\n1 seed 0\n".as_slice());
        Ok(())
    }

    #[test]
    fn a_write_fails(rt: HostRuntime) -> Result<(), Fail> {
        let mut input = Source {
            left: JOURNAL,
            step: 5,
            fails: false,
        };
        let mut output = Sink {
            taken: Vec::new(rt.alloc()),
            room: 15,
            writes: 0,
        };
        let failed = matches!(run(&mut input, &mut output), Err(Failure::Output(_)));
        assert!(rt; failed);
        assert!(rt; output.taken.as_slice() == b"pool 16384\n1 se".as_slice());
        Ok(())
    }
}
