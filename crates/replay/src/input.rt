// The journal's bytes, an entry at a time, by a buffer of its own: nothing is allocated.
ghost use Rattle.std.specs.Prelude.{◌≡◌, ◌+◌, ◌-◌, ◌≤◌, ◌<◌, ◌++◌, List, ℕ, length, min, take, drop, [], IfSome, IfNone, IfOk, OnOk, OnErr};
ghost use Rattle.std.specs.declared.option.Option.{Option};
ghost use Rattle.std.specs.Io.KnownBytes.{Consumes, Keeps, IsAtEnd};
ghost use Rattle.replay.specs.Printed.{kind_size, ReadsEntry};

use crate::BUFFER;
use std::io;
use std::io::Read;

/// How many bytes the longest entry has.
pub const ENTRY: usize = 17;

// How many bytes an entry of a kind has. It must be known before they are read; `journal` reads entries from bytes that are there.
fn entry_size(kind: u8) -> usize
    ensures { result ≡ kind_size kind }
{
    match kind {
        1 => 17,
        2 => 2,
        3 => 10,
        _ => 1,
    }
}

// Reads once, behind the bytes up to an index, and answers how many bytes came.
fn read_behind<R: Read>(reader: &mut R, bytes: &mut [u8], to: usize) -> io::Result<usize>
    requires { to ≤ length bytes.old }
    ensures same_length { length bytes.new ≡ length bytes.old }
    ensures bound { IfOk result (λ count. to + count ≤ length bytes.new) }
    ensures reads { IfOk result (λ count.
        Consumes (R.remaining reader.old) (R.remaining reader.new)
        (take count (drop to bytes.new))) }
    ensures end { IfOk result (λ count. count ≡ 0 → to < length bytes.new →
        IsAtEnd (R.remaining reader.new)) }
    ensures err { OnErr result (Keeps (R.remaining reader.old) (R.remaining reader.new)) }
{
    reader.read(&mut bytes[to..])
}

/// A reader behind a buffer. What was read and is not yet taken stands in the buffer from an index up to another.
#[derive(Drop)]
pub struct Source<R> {
    reader: R,
    bytes: [u8; BUFFER],
    start: usize,
    end: usize,
    ghost ordered: { start ≤ end },
    ghost within: { end ≤ 4096 },
}

impl<R: Read> Source<R> {
    ghost use Rattle.replay.specs.Source.{ahead, left};

    /// Nothing is read yet.
    pub fn new(reader: R) -> Source<R>
        ensures { left R.remaining result ≡ R.remaining reader }
    {
        Source {
            reader,
            bytes: [0; BUFFER],
            start: 0,
            end: 0,
        }
    }

    // Where nothing is ahead, reads once. With the bytes of the entry that are taken already, no more comes than the buffer holds.
    fn read_ahead(&mut self, taken: usize) -> io::Result<()>
        requires { taken < BUFFER }
        ensures keeps { Keeps (left R.remaining self.old) (left R.remaining self.new) }
        ensures end { OnOk result (ahead self.new ≡ [] → IsAtEnd (left R.remaining self.new)) }
    {
        if self.start < self.end {
            return Ok(());
        }
        self.start = 0;
        self.end = taken;
        self.start = taken;
        let count = read_behind(&mut self.reader, &mut self.bytes, taken)?;
        self.end = taken + count;
        Ok(())
    }

    // Takes what is ahead, as many bytes as there is room for.
    fn take_ahead(&mut self, into: &mut [u8]) -> usize
        ensures count { result ≡ min (self.old.end - self.old.start) (length into.old) }
        ensures bytes { ahead self.old ≡ take result into.new ++ ahead self.new }
        ensures reader { self.new.reader ≡ self.old.reader }
    {
        let count = into.len().min(self.end - self.start);
        let next = self.start + count;
        into[..count].copy_from_slice(&self.bytes[self.start..next]);
        self.start = next;
        count
    }

    // Takes bytes of an entry behind those that are taken already: what is ahead, or else what comes by one read.
    fn read_some(&mut self, bytes: &mut [u8], taken: usize) -> io::Result<usize>
        requires { taken < BUFFER }
        ensures bound { IfOk result (λ count. count ≤ length bytes.new) }
        ensures reads { IfOk result (λ count.
            Consumes (left R.remaining self.old) (left R.remaining self.new)
            (take count bytes.new)) }
        ensures end { IfOk result (λ count. count ≡ 0 → 0 < length bytes.new →
            IsAtEnd (left R.remaining self.new)) }
    {
        self.read_ahead(taken)?;
        Ok(self.take_ahead(bytes))
    }

    // Reads behind the first bytes of an entry, up to an index or the end of the input, and answers the index reached.
    fn fill(&mut self, bytes: &mut [u8], from: usize, to: usize) -> io::Result<usize>
        requires order { from ≤ to }
        requires room { to ≤ length bytes.old }
        requires short { to ≤ ENTRY }
        ensures bound { IfOk result (λ reached. (from ≤ reached) × (reached ≤ to)) }
        ensures keeps { take from bytes.new ≡ take from bytes.old }

        // Whatever was consumed to read the first bytes, all of them are consumed now.
        ensures reads { IfOk result (λ reached. (first : Option (List ℕ)) →
            Consumes first (left R.remaining self.old) (take from bytes.old) →
            Consumes first (left R.remaining self.new) (take reached bytes.new)) }
        ensures end { IfOk result (λ reached. reached < to →
            IsAtEnd (left R.remaining self.new)) }
    {
        let mut at = from;
        while at < to {
            let count = self.read_some(&mut bytes[at..to], at)?;
            if count == 0 {
                return Ok(at);
            }
            at += count;
        }
        Ok(at)
    }

    // Takes the next entry's bytes where they are all ahead and do not lie at the buffer's end, and answers how many there are. As many
    // as the longest entry has are copied: so many are a few moves, where a length that varies is a call.
    fn take_entry(&mut self, entry: &mut [u8]) -> Option<usize>
        requires { ENTRY ≤ length entry.old }
        ensures bound { IfSome result (λ size. size ≤ length entry.new) }
        ensures reads { IfSome result (λ size.
            ReadsEntry (left R.remaining self.old) (left R.remaining self.new)
            (take size entry.new)) }
        ensures none { IfNone result (self.new ≡ self.old) }
    {
        if self.start == self.end {
            return None;
        }
        let size = entry_size(self.bytes[self.start]);
        if self.end - self.start < size || BUFFER - self.start < ENTRY {
            return None;
        }
        entry[..ENTRY].copy_from_slice(&self.bytes[self.start..self.start + ENTRY]);
        self.start += size;
        Some(size)
    }

    // Reads the next entry's bytes where they are not all ahead, or lie at the buffer's end. Kept apart: where it is inlined, room for
    // an error is cleared for each entry.
    #[cold]
    #[inline(never)]
    fn fill_entry(&mut self, entry: &mut [u8]) -> io::Result<usize>
        requires { ENTRY ≤ length entry.old }
        ensures bound { IfOk result (λ size. size ≤ length entry.new) }
        ensures reads { IfOk result (λ size.
            ReadsEntry (left R.remaining self.old) (left R.remaining self.new)
            (take size entry.new)) }
    {
        let kind = self.fill(entry, 0, 1)?;
        if kind == 0 {
            return Ok(0);
        }
        let size = entry_size(entry[0]);
        self.fill(entry, 1, size)
    }

    /// Reads the next entry's bytes: as many as it has, or all that are left. Answers how many there are. The error is that of the
    /// read that fails; the bytes of the entry that were read before it are lost.
    #[inline(always)]
    pub fn read_entry(&mut self, entry: &mut [u8]) -> io::Result<usize>
        requires { ENTRY ≤ length entry.old }
        ensures bound { IfOk result (λ size. size ≤ length entry.new) }
        ensures reads { IfOk result (λ size.
            ReadsEntry (left R.remaining self.old) (left R.remaining self.new)
            (take size entry.new)) }
    {
        match self.take_entry(entry) {
            Some(size) => Ok(size),
            None => self.fill_entry(entry),
        }
    }
}
