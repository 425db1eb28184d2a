// The records of a list: base stores, damaged ones, and journals of calls.
use crate::answer::Answer;
use crate::call::Call;
use crate::lines::Lines;
use crate::list::List;
use crate::memory::Memory;
use crate::run::Run;
use crate::stop::Stop;
use crate::store::Store;
use pages::State;
use std::io;
use std::io::{Read, Write};

// How long a name may be.
const NAME: u64 = 64;

// The low 32 bits of a number.
fn word(number: u64) -> u32 {
    (number & u64::from(u32::MAX)) as u32
}

/// Where the list comes from and the lines go, and the store under test, in the words of the memory.
#[derive(Drop)]
pub struct Bench<'a, R, W> {
    list: List<R>,
    lines: Lines<W>,
    memory: Memory<'a>,
    run: Run,
    // Whether each call gets a line.
    loud: bool,
    // The calls that each damaged store is asked.
    questions: Option<[Call; 5]>,
}

impl<'a, R: Read, W: Write> Bench<'a, R, W> {
    /// A bench with no store yet.
    pub fn new(input: R, output: W, memory: Memory<'a>) -> Bench<'a, R, W> {
        Bench {
            list: List { input },
            lines: Lines::new(output),
            memory,
            run: Run::new(Store::blank(0)),
            loud: false,
            questions: None,
        }
    }

    /// Reads the whole list, makes its calls and writes the lines; a list that is wrong ends with a line that says so.
    pub fn serve(&mut self) -> io::Result<()> {
        match self.records() {
            Ok(()) => self.lines.end_digits(),
            Err(Stop::BadList) => {
                self.lines.end_digits()?;
                self.lines.text(b"bad list\n")
            }
            Err(Stop::Io(error)) => Err(error),
        }
    }

    // Reads all records up to the end of the list, and makes their calls.
    fn records(&mut self) -> Result<(), Stop> {
        // No list is so long: the loop ends on any input.
        for _ in 0..u64::MAX {
            let Some(kind) = self.list.byte()? else {
                break;
            };
            self.record(kind)?;
        }
        Ok(())
    }

    // Reads one record, whose kind its first byte says, and makes its calls. The kinds from 10 on are the calls.
    fn record(&mut self, kind: u8) -> Result<(), Stop> {
        match kind {
            1 => self.base(),
            2 => self.damaged(),
            3 => self.sweep(),
            4 => self.repetition(),
            5 => self.set_questions(),
            6 => self.journal(),
            7 => self.set_field(),
            8 => self.set_word(),
            9 => self.sum(),
            _ => {
                let call = Call::read(&mut self.list, kind)?;
                self.make(call)?;
                Ok(())
            }
        }
    }

    // Ends the line of digits, reads a name, its length before it, and writes it.
    fn name(&mut self) -> Result<(), Stop> {
        self.lines.end_digits()?;
        let length = self.list.number()?;
        if length > NAME {
            return Err(Stop::BadList);
        }
        for _ in 0..length {
            let byte = self.list.next_byte()?;
            self.lines.text(&[byte])?;
        }
        Ok(())
    }

    // Reads so many runs, a count and a word each, and writes their words, which must be those of the pool.
    fn read_runs(&mut self, runs: u64, words: usize) -> Result<(), Stop> {
        let mut at = 0;
        for _ in 0..runs {
            let [count, number] = self.list.numbers::<2>()?;
            at = self.memory.write_run(at, count, word(number));
        }
        if at != words {
            return Err(Stop::BadList);
        }
        self.memory.keep();
        Ok(())
    }

    // Begins with a store and no calls.
    fn begin(&mut self, store: Store, loud: bool) {
        self.run = Run::new(store);
        self.loud = loud;
        self.questions = None;
    }

    // Reads a base store, writes its name on a line of its own, and adds its verdict.
    fn base(&mut self) -> Result<(), Stop> {
        self.name()?;
        self.lines.text(b"\n")?;
        let [words, used] = self.list.numbers::<2>()?;
        let words = words as usize;
        let used = used as usize;
        let starts = self.list.numbers()?;
        let ends = self.list.numbers()?;
        let runs = self.list.number()?;
        self.read_runs(runs, words)?;
        let state = State { used, starts, ends };
        let store = Store { state, words };
        self.begin(store, false);
        self.judge(store)
    }

    // Reads a damaged store, changes of words and of fields, and adds its verdict.
    fn damaged(&mut self) -> Result<(), Stop> {
        let [words, fields] = self.list.numbers::<2>()?;
        for _ in 0..words {
            let [place, mask] = self.list.numbers::<2>()?;
            self.memory.change(place, word(mask))?;
        }
        let mut store = self.run.store;
        for _ in 0..fields {
            let [field, mask] = self.list.numbers::<2>()?;
            store.change(field, mask)?;
        }
        self.judge(store)
    }

    // Reads a sweep, a mask, the first place and how many there are, and adds the verdict on each store that has one of
    // these words changed.
    fn sweep(&mut self) -> Result<(), Stop> {
        let [mask, first, count] = self.list.numbers::<3>()?;
        for i in 0..count {
            self.memory.change(first.wrapping_add(i), word(mask))?;
            self.judge(self.run.store)?;
        }
        Ok(())
    }

    // Reads how often the check is asked of the store, and adds one verdict: whether it says yes each time. The time that
    // it takes is that of the checks alone.
    fn repetition(&mut self) -> Result<(), Stop> {
        let times = self.list.number()?;
        let pool = self.memory.pool(self.run.store.words)?;
        let verdict = self.run.store.always_sound(pool, times);
        self.lines.digit(verdict)?;
        Ok(())
    }

    // Reads the calls that each damaged store is asked from here on: whether it is asked any, a seed's start and end, an
    // acquire's code, a release's base and code.
    fn set_questions(&mut self) -> Result<(), Stop> {
        let [asked, start, end, code, base, base_code] = self.list.numbers::<6>()?;
        let calls = [
            Call::seed(start, end),
            Call::Acquire { code },
            Call::release(base, base_code),
            Call::Report,
            Call::Fresh,
        ];
        self.questions = (asked == 1).then_some(calls);
        Ok(())
    }

    // Adds the verdict on a store, makes the other calls where they are asked, and puts the base store back.
    fn judge(&mut self, store: Store) -> Result<(), Stop> {
        let base = self.run.store;
        self.run.store = store;
        let sound = matches!(self.make(Call::Check)?, Answer::Sound(true));
        self.lines.digit(sound)?;
        if let Some(calls) = self.questions {
            for call in calls {
                self.make(call)?;
            }
        }
        self.memory.restore();
        self.run.store = base;
        Ok(())
    }

    // Reads the beginning of a journal: its name, whether each call gets a line, how many words its pool has, the first of
    // them and by how much each next one is larger. The state is of zeros.
    fn journal(&mut self) -> Result<(), Stop> {
        self.name()?;
        let [loud, words, first, step] = self.list.numbers::<4>()?;
        let loud = loud == 1;
        self.lines.text(if loud { b"\n" } else { b": " })?;
        let words = words as usize;
        self.memory.grow(words, word(first), word(step))?;
        self.begin(Store::blank(words), loud);
        Ok(())
    }

    // Reads a field and a mask, and changes the field.
    fn set_field(&mut self) -> Result<(), Stop> {
        let [field, mask] = self.list.numbers::<2>()?;
        self.run.store.change(field, mask)
    }

    // Reads a place and a word, and writes it.
    fn set_word(&mut self) -> Result<(), Stop> {
        let [place, number] = self.list.numbers::<2>()?;
        self.memory.set(place, word(number))
    }

    // Makes a call on the store, and writes its line where lines are wanted.
    fn make(&mut self, call: Call) -> Result<Answer, Stop> {
        let pool = self.memory.pool(self.run.store.words)?;
        let answer = self.run.make(pool, call);
        if self.loud {
            writeln!(self.lines.output, "{} {call} {answer}", self.run.calls)?;
        }
        Ok(answer)
    }

    // Ends a store: adds its whole pool to the digest, and writes how many calls there were and the digest.
    fn sum(&mut self) -> Result<(), Stop> {
        let pool = self.memory.pool(self.run.store.words)?;
        self.run.digest = self.run.digest.with_words(pool);
        self.lines.end_digits()?;
        let Run { calls, digest, .. } = self.run;
        writeln!(self.lines.output, "{calls} calls, digest {digest}")?;
        Ok(())
    }
}
