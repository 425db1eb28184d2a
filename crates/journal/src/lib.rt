// The journal of document 01: an entry is read from lent bytes, and one step makes its call on a state and a lent pool.
#![tactic(auto)]

mod bad_entry;
mod text;

ghost use Rattle.std.specs.Prelude.{◌≡◌, ◌+◌, ◌≤◌, ◌<◌, length, take, drop, IfOk, IfErr, OnErr};
ghost use Rattle.pages.specs.Calls.{store};
ghost use Rattle.journal.specs.Steps.{Serves, Steps};
ghost use Rattle.journal.specs.declared.Entry.TheVariants.{Seed, Acquire, Release, Report, Bad};
ghost use Rattle.journal.specs.declared.bad_entry.BadEntry.TheVariants.{CutShort};
ghost use Rattle.journal.specs.Entries.{number as number_of, bad_number, seed_of, acquire_of, release_of, entry_of, behind, read_at};

pub use bad_entry::BadEntry;
use pages::State;
use sizes::{Address, PageSize};
pub use text::{LINE, line_text};

// The kinds of entries.
const SEED: u8 = 1;

const ACQUIRE: u8 = 2;

const RELEASE: u8 = 3;

const REPORT: u8 = 4;

/// An entry: a call with its numbers (start and end; code; base and code), the refusal of bytes that are none, or nothing left.
#[derive(Clone, Copy, Debug, PartialEq, Eq)]
pub enum Entry {
    Seed(Address, Address),
    Acquire(u8),
    Release(Address, u8),
    Report,
    Bad(u32),
    End,
}

/// An entry, and the index behind it. Behind what is none nothing is left: the index is the journal's length.
#[derive(Clone, Copy, Debug, PartialEq, Eq)]
pub struct Reading {
    pub entry: Entry,
    pub next: usize,
}

/// The numbers of an entry's line: the refusal, then the results (base and probes; seeded bytes, free bytes, largest and used words).
#[derive(Clone, Copy, Debug, PartialEq, Eq)]
pub enum Line {
    Seed(u32),
    Acquire(u32, Address, usize),
    Release(u32),
    Report(u32, u64, u64, usize, usize),
    Bad(u32),
    End,
}

/// What a step gives: the state, the numbers of the line, and the index of the next entry.
#[derive(Clone, Copy, Debug, PartialEq, Eq)]
pub struct Stepped {
    pub state: State,
    pub line: Line,
    pub next: usize,
}

/// The state and the line that an entry gives.
#[derive(Clone, Copy, Debug, PartialEq, Eq)]
pub struct Served {
    pub state: State,
    pub line: Line,
}

// Takes the byte at the front of a body, and hands on what follows it.
#[tactic(auto, unfolding(crate::specs::Entries::number))]
fn byte(body: &[u8]) -> Result<(u8, &[u8]), BadEntry>
    ensures byte { IfOk result (λ read. read.0 ≡ number_of (take 1 body.now)) }
    ensures rest { IfOk result (λ read. read.1.now ≡ drop 1 body.now) }
    ensures whole { IfOk result (λ read. length body.now ≡ 1 + length read.1.now) }
    ensures cut_short { IfErr result (λ bad. bad ≡ CutShort) }
    ensures short { OnErr result (length body.now < 1) }
{
    let (byte, rest) = body.split_first().ok_or(BadEntry::CutShort)?;
    Ok((*byte, rest))
}

// Takes the number of the eight bytes at the front of a body, the lowest first, and hands on what follows them.
#[tactic(auto, using(crate::proofs::Entries::number_first))]
fn number(body: &[u8]) -> Result<(u64, &[u8]), BadEntry>
    ensures number { IfOk result (λ read. read.0 ≡ number_of (take 8 body.now)) }
    ensures rest { IfOk result (λ read. read.1.now ≡ drop 8 body.now) }
    ensures whole { IfOk result (λ read. length body.now ≡ 8 + length read.1.now) }
    ensures cut_short { IfErr result (λ bad. bad ≡ CutShort) }
    ensures short { OnErr result (length body.now < 8) }
{
    let (bytes, rest) = body.split_first_chunk::<8>().ok_or(BadEntry::CutShort)?;
    Ok((u64::from_le_bytes(*bytes), rest))
}

// Reads the body of a seed: start, end.
fn read_seed(body: &[u8]) -> Result<(Entry, &[u8]), BadEntry>
    ensures entry { IfOk result (λ read. seed_of body.now ≡ read.0) }
    ensures rest { IfOk result (λ read. read.1.now ≡ drop 16 body.now) }
    ensures whole { IfOk result (λ read. length body.now ≡ 16 + length read.1.now) }
    ensures bad { IfErr result (λ bad. seed_of body.now ≡ Bad (bad_number bad)) }
{
    let (start, rest) = number(body)?;
    let (end, rest) = number(rest)?;
    Ok((Entry::Seed(Address(start), Address(end)), rest))
}

// Reads the body of an acquire: code.
fn read_acquire(body: &[u8]) -> Result<(Entry, &[u8]), BadEntry>
    ensures entry { IfOk result (λ read. acquire_of body.now ≡ read.0) }
    ensures rest { IfOk result (λ read. read.1.now ≡ drop 1 body.now) }
    ensures whole { IfOk result (λ read. length body.now ≡ 1 + length read.1.now) }
    ensures bad { IfErr result (λ bad. acquire_of body.now ≡ Bad (bad_number bad)) }
{
    let (code, rest) = byte(body)?;
    Ok((Entry::Acquire(code), rest))
}

// Reads the body of a release: base, code.
fn read_release(body: &[u8]) -> Result<(Entry, &[u8]), BadEntry>
    ensures entry { IfOk result (λ read. release_of body.now ≡ read.0) }
    ensures rest { IfOk result (λ read. read.1.now ≡ drop 9 body.now) }
    ensures whole { IfOk result (λ read. length body.now ≡ 9 + length read.1.now) }
    ensures bad { IfErr result (λ bad. release_of body.now ≡ Bad (bad_number bad)) }
{
    let (base, rest) = number(body)?;
    let (code, rest) = byte(rest)?;
    Ok((Entry::Release(Address(base), code), rest))
}

/// Reads the entry at the front of some bytes, and hands on those behind it. Where there are no bytes it is the end.
#[tactic(auto, unfolding(crate::specs::Entries::entry_of))]
pub fn first_entry(bytes: &[u8]) -> Result<(Entry, &[u8]), BadEntry>
    ensures entry { IfOk result (λ read. entry_of bytes.now ≡ read.0) }
    ensures rest { IfOk result (λ read.
        read.1.now ≡ drop (behind read.0 1 (length bytes.now)) bytes.now) }
    ensures whole { IfOk result (λ read.
        length bytes.now ≡ behind read.0 1 (length bytes.now) + length read.1.now) }
    ensures bad { IfErr result (λ bad. entry_of bytes.now ≡ Bad (bad_number bad)) }
{
    let Some((kind, body)) = bytes.split_first() else {
        return Ok((Entry::End, bytes));
    };
    match *kind {
        SEED => read_seed(body),
        ACQUIRE => read_acquire(body),
        RELEASE => read_release(body),
        REPORT => Ok((Entry::Report, body)),
        _ => Err(BadEntry::UnknownKind),
    }
}

/// Reads the entry that starts at an index of the journal.
pub fn read_entry(journal: &[u8], at: usize) -> Reading
    ensures { result ≡ read_at journal.now at }
{
    let bytes = journal.get(at..).unwrap_or(&[]);
    match first_entry(bytes) {
        Ok((entry, rest)) => Reading {
            entry,
            next: journal.len() - rest.len(),
        },
        Err(bad) => Reading {
            entry: Entry::Bad(bad.number()),
            next: journal.len(),
        },
    }
}

// Makes a seed, and answers its line.
fn seed(state: &mut State, pool: &mut [u32], start: Address, end: Address) -> Line
    ensures { Serves (store state.old pool.old) (Seed start end) result
        (store state.new pool.new) }
{
    match pages::seed(*state, pool, start, end) {
        Ok(seeded) => {
            *state = seeded;
            Line::Seed(0)
        }
        Err(refusal) => Line::Seed(refusal.number()),
    }
}

// Makes an acquire, and answers its line.
fn acquire(state: &mut State, pool: &mut [u32], code: u8) -> Line
    ensures { Serves (store state.old pool.old) (Acquire code) result
        (store state.new pool.new) }
{
    match pages::acquire(*state, pool, u64::from(code)) {
        Ok((dealt, page)) => {
            *state = dealt;
            Line::Acquire(0, page.base, page.probes)
        }
        Err(refusal) => Line::Acquire(refusal.number(), Address(0), 0),
    }
}

// Makes a release, and answers its line.
fn release(state: &mut State, pool: &mut [u32], base: Address, code: u8) -> Line
    ensures { Serves (store state.old pool.old) (Release base code) result
        (store state.new pool.new) }
{
    match pages::release(*state, pool, base, u64::from(code)) {
        Ok(released) => {
            *state = released;
            Line::Release(0)
        }
        Err(refusal) => Line::Release(refusal.number()),
    }
}

// Makes a report, and answers its line.
fn report(state: &State, pool: &[u32]) -> Line
    ensures { Serves (store state.now pool.now) Report result (store state.now pool.now) }
{
    match pages::report(*state, pool) {
        Ok(told) => {
            let largest = told.largest.map_or(0, PageSize::code);
            Line::Report(0, told.seeded, told.free, largest, told.used)
        }
        Err(refusal) => Line::Report(refusal.number(), 0, 0, 0, 0),
    }
}

// Makes the call that an entry asks for, and answers its line; where it asks for none, nothing changes.
fn answer(state: &mut State, pool: &mut [u32], entry: Entry) -> Line
    ensures { Serves (store state.old pool.old) entry result (store state.new pool.new) }
{
    match entry {
        Entry::Seed(start, end) => seed(state, pool, start, end),
        Entry::Acquire(code) => acquire(state, pool, code),
        Entry::Release(base, code) => release(state, pool, base, code),
        Entry::Report => report(state, pool),
        Entry::Bad(refusal) => Line::Bad(refusal),
        Entry::End => Line::End,
    }
}

/// Makes the call that an entry asks for; where it asks for none, nothing changes.
pub fn serve(state: State, pool: &mut [u32], entry: Entry) -> Served
    ensures { Serves (store state pool.old) entry result.line (store result.state pool.new) }
{
    let mut state = state;
    let line = answer(&mut state, pool, entry);
    Served { state, line }
}

/// Serves the entry that starts at an index of the journal.
pub fn step(state: State, pool: &mut [u32], journal: &[u8], at: usize) -> Stepped
    ensures { let before = store state pool.old in
        Steps before journal.now at result.line (store result.state pool.new) result.next }
{
    let mut state = state;
    let Reading { entry, next } = read_entry(journal, at);
    let line = answer(&mut state, pool, entry);
    Stepped { state, line, next }
}
