// The store under test: any numbers and words, as the list has them.
use crate::answer::Answer;
use crate::call::Call;
use crate::stop::Stop;
use pages::{Dealt, PLACES, Refusal, State};

// A state of zeros.
const BLANK: State = State {
    used: 0,
    starts: [0; PLACES],
    ends: [0; PLACES],
};

/// A store: its state, and how many words its pool has.
#[derive(Clone, Copy)]
pub struct Store {
    pub state: State,
    pub words: usize,
}

impl Store {
    /// A store of zeros with so many words.
    pub fn blank(words: usize) -> Store {
        Store {
            state: BLANK,
            words,
        }
    }

    /// Changes bits of a field: used, then the starts, then the ends, then the pool's length. The list is wrong where there
    /// is no such field.
    pub fn change(&mut self, field: u64, mask: u64) -> Result<(), Stop> {
        let field = field as usize;
        match field {
            0 => self.state.used ^= mask as usize,
            1..=8 => self.state.starts[field - 1] ^= mask,
            9..=16 => self.state.ends[field - 9] ^= mask,
            17 => self.words ^= mask as usize,
            _ => return Err(Stop::BadList),
        }
        Ok(())
    }

    /// Makes a call, and answers what it answers. The pool is the whole of the store's pool.
    pub fn make(&mut self, pool: &mut [u32], call: Call) -> Answer {
        let state = self.state;
        match call {
            Call::Fresh => {
                self.state = BLANK;
                self.done(pages::fresh(pool))
            }
            Call::Seed { start, end } => self.done(pages::seed(state, pool, start, end)),
            Call::Acquire { code } => Answer::Dealt(self.acquire(pool, code)),
            Call::Release { base, code } => self.done(pages::release(state, pool, base, code)),
            Call::Report => Answer::Told(pages::report(state, pool)),
            Call::Check => Answer::Sound(pages::check(state, pool)),
        }
    }

    // Takes over the state that a call makes; a refusal changes nothing.
    fn done(&mut self, made: Result<State, Refusal>) -> Answer {
        Answer::Done(made.map(|state| self.state = state))
    }

    // Deals a page, and takes over the state; a refusal changes nothing.
    fn acquire(&mut self, pool: &mut [u32], code: u64) -> Result<Dealt, Refusal> {
        let (state, dealt) = pages::acquire(self.state, pool, code)?;
        self.state = state;
        Ok(dealt)
    }

    /// Whether the check says yes so many times.
    pub fn always_sound(&self, pool: &[u32], times: u64) -> bool {
        (0..times).all(|_| pages::check(self.state, pool))
    }
}
