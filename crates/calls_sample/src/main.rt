// Reads a list of stores, damaged stores and journals of calls from standard input, makes all calls, and prints verdicts, answers and digests.
// The expected lines are the reference's (`oracle calls-answers`).
#![tactic(auto)]

mod answer;
mod bench;
mod call;
mod digest;
mod lines;
mod list;
mod memory;
mod run;
mod stop;
mod store;

use bench::Bench;
use memory::{CAPACITY, Memory, SPARE};
use std::io;

fn main(rt: HostRuntime) -> io::Result<()> {
    let mut words = [0; CAPACITY];
    let mut spare = [0; SPARE];
    let memory = Memory {
        words: &mut words,
        spare: &mut spare,
    };
    Bench::new(rt.reader(), io::writer(&rt), memory).serve()
}

#[cfg(test)]
mod tests {
    use super::*;
    use std::io::{Read, Write};
    use std::test::Fail;

    // Gives the bytes that are left, and then ends, or fails.
    #[derive(Drop)]
    struct Source<'a> {
        left: &'a [u8],
        fails: bool,
    }

    impl Read for Source<'_> {
        fn read(&mut self, buf: &mut [u8]) -> io::Result<usize> {
            let left = self.left;
            if left.len() == 0 && self.fails {
                return Err(io::Error::from_raw_os_error(5));
            }
            let most = left.len().min(buf.len());
            buf[..most].copy_from_slice(&left[..most]);
            self.left = &left[most..];
            Ok(most)
        }
    }

    // Takes so many bytes, and then fails.
    #[derive(Drop)]
    struct Sink {
        taken: Vec<u8>,
        room: usize,
    }

    impl Write for Sink {
        fn write(&mut self, buf: &[u8]) -> io::Result<usize> {
            let most = buf.len().min(self.room);
            if most == 0 {
                return Err(io::Error::from_raw_os_error(28));
            }
            self.taken.extend_from_slice(&buf[..most])?;
            self.room -= most;
            Ok(most)
        }

        fn flush(&mut self) -> io::Result<()> {
            Ok(())
        }
    }

    // Serves the list, and answers whether all went well.
    fn serves(left: &[u8], fails: bool, output: &mut Sink) -> bool {
        let mut words = [0; CAPACITY];
        let mut spare = [0; SPARE];
        let memory = Memory {
            words: &mut words,
            spare: &mut spare,
        };
        let input = Source { left, fails };
        Bench::new(input, output, memory).serve().is_ok()
    }

    // A journal with a line for each call: a pool of eight words, a fresh store, a report, a repetition, and half a seed.
    const LIST: &[u8] = &[6, 1, 97, 1, 8, 0, 0, 10, 14, 4, 1, 11, 0];

    const LINES: &[u8] = b"a\n1 fresh 0\n2 report 0 0 0 0 1\n1\nbad list\n";

    #[test]
    fn a_list_is_cut_short(rt: HostRuntime) -> Result<(), Fail> {
        let mut output = Sink {
            taken: Vec::new(rt.alloc()),
            room: 1000,
        };
        assert!(rt; serves(LIST, false, &mut output));
        assert!(rt; output.taken.as_slice() == LINES);
        Ok(())
    }

    #[test]
    fn a_read_fails(rt: HostRuntime) -> Result<(), Fail> {
        let mut output = Sink {
            taken: Vec::new(rt.alloc()),
            room: 1000,
        };
        assert!(rt; !serves(LIST, true, &mut output));
        assert!(rt; output.taken.as_slice() == &LINES[..LINES.len() - 10]);
        Ok(())
    }

    #[test]
    fn a_write_fails(rt: HostRuntime) -> Result<(), Fail> {
        let mut output = Sink {
            taken: Vec::new(rt.alloc()),
            room: 20,
        };
        assert!(rt; !serves(LIST, false, &mut output));
        assert!(rt; output.taken.as_slice() == &LINES[..20]);
        Ok(())
    }
}
