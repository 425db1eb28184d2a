// The words that pools lie in.
use crate::stop::Stop;

/// How many words there are: one more than a pool may have.
pub const CAPACITY: usize = 1048577;

/// How many of the first words are put back behind each damaged store.
pub const SPARE: usize = 8192;

/// The words that pools lie in, and the first of them as the base store has them.
#[derive(Drop)]
pub struct Memory<'a> {
    pub words: &'a mut [u32; CAPACITY],
    pub spare: &'a mut [u32; SPARE],
}

impl Memory<'_> {
    /// The pool of the first words; the list is wrong where there are not so many.
    pub fn pool(&mut self, words: usize) -> Result<&mut [u32], Stop> {
        // A part is lent of the array itself, not of the field that holds it.
        let all = &mut *self.words;
        all.get_mut(..words).ok_or(Stop::BadList)
    }

    /// Writes one word so many times from a place on, up to the last place, and answers the place behind.
    pub fn write_run(&mut self, at: usize, count: u64, word: u32) -> usize {
        let to = at.saturating_add(count as usize).min(CAPACITY);
        if let Some(run) = self.words.get_mut(at..to) {
            run.fill(word);
        }
        to
    }

    /// Writes words that grow by a step to the first places; the list is wrong where there are not so many.
    pub fn grow(&mut self, words: usize, first: u32, step: u32) -> Result<(), Stop> {
        let mut next = first;
        for word in self.pool(words)? {
            *word = next;
            next = next.wrapping_add(step);
        }
        Ok(())
    }

    /// Writes a word; the list is wrong where there is no such place.
    pub fn set(&mut self, place: u64, word: u32) -> Result<(), Stop> {
        let place = self.words.get_mut(place as usize).ok_or(Stop::BadList)?;
        *place = word;
        Ok(())
    }

    /// Changes bits of a word; the list is wrong where there is no such place, or its word is not put back.
    pub fn change(&mut self, place: u64, mask: u32) -> Result<(), Stop> {
        let place = place as usize;
        if place >= SPARE {
            return Err(Stop::BadList);
        }
        self.words[place] ^= mask;
        Ok(())
    }

    /// Keeps the first words.
    pub fn keep(&mut self) {
        // Each array is lent by itself, the one that is written first.
        let spare = &mut *self.spare;
        let words = &*self.words;
        spare.copy_from_slice(&words[..SPARE]);
    }

    /// Puts the first words back.
    pub fn restore(&mut self) {
        let words = &mut *self.words;
        let spare = &*self.spare;
        let (first, _) = words.split_at_mut(SPARE);
        first.copy_from_slice(spare);
    }
}
