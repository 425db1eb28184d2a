// A running digest of numbers. Each step is one to one in the digest and in the number, so that one wrong number always shows.
use pages::State;
use std::fmt;

/// The digest of the numbers so far.
#[derive(Clone, Copy)]
pub struct Digest(u64);

impl Digest {
    /// The digest of nothing.
    pub const NONE: Digest = Digest(14695981039346656037);

    /// The digest with a number added.
    pub fn with(self, number: u64) -> Digest {
        let mixed = self.0 ^ number;
        let spread = mixed.wrapping_add(mixed << 21);
        Digest(spread ^ (spread >> 29))
    }

    /// The digest with some numbers added.
    pub fn with_all(self, numbers: &[u64]) -> Digest {
        numbers
            .iter()
            .fold(self, |digest, &number| digest.with(number))
    }

    /// The digest with words of a pool added.
    pub fn with_words(self, words: &[u32]) -> Digest {
        words
            .iter()
            .fold(self, |digest, &word| digest.with(u64::from(word)))
    }

    /// The digest with every field of a state added.
    pub fn with_state(self, state: State) -> Digest {
        self.with(state.used as u64)
            .with_all(&state.starts)
            .with_all(&state.ends)
    }
}

impl fmt::Display for Digest {
    fn fmt<W: fmt::Write>(&self, f: &mut fmt::Formatter<W>) -> fmt::Result {
        write!(f, "{}", self.0)
    }
}
