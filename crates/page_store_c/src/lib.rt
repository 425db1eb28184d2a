// The page store for C: each call of pages, with structs of numbers that C can declare.
#![tactic(auto)]

ghost use Rattle.std.specs.Prelude.{◌≡◌, List, ℕ};
ghost use Rattle.sizes.specs.Six.{six};
ghost use Rattle.model.specs.Calls.{seed as seeds, acquire as acquires, release as releases, report as reports};
ghost use Rattle.pool.specs.Limits.{places, pool_limit};
ghost use Rattle.pages.specs.Calls.{store, deal, tell, plain, SoundStore, Replies, fresh_reply};
ghost use Rattle.pages.specs.Answers.{done};
ghost use Rattle.pages.specs.Room.{Plans};
ghost use Rattle.page_store_c.specs.Boundary.{Tells};

use pages::{PLACES, Refusal, State};
use sizes::{Address, PageSize};

/// The answer of a seed, a release and fresh: the refusal number, 0 for none. Every field of these structs is 8 bytes wide, so there is no padding.
#[repr(C)]
#[derive(Clone, Copy, Debug, PartialEq, Eq)]
pub struct StoreDone {
    pub refusal: u64,
    pub state: State,
}

/// The answer of an acquire: the page's base in bytes, and how many children were looked at.
#[repr(C)]
#[derive(Clone, Copy, Debug, PartialEq, Eq)]
pub struct StoreDealt {
    pub refusal: u64,
    pub state: State,
    pub base: u64,
    pub probes: usize,
}

/// The answer of a report: seeded bytes, free bytes, the code of the largest free page, used words.
#[repr(C)]
#[derive(Clone, Copy, Debug, PartialEq, Eq)]
pub struct StoreReported {
    pub refusal: u64,
    pub state: State,
    pub seeded: u64,
    pub free: u64,
    pub largest: usize,
    pub used: usize,
}

/// The answer of room_for: the refusal number, 0 for none, and the most pool words that the regions can take.
#[repr(C)]
#[derive(Clone, Copy, Debug, PartialEq, Eq)]
pub struct StoreRoom {
    pub refusal: u64,
    pub words: u64,
}

// The state, copied field by field: as a whole it is so large that copying it is a call of `memcpy`, and the archive needs no other
// library.
fn by_fields(state: State) -> State
    ensures { result ≡ state }
{
    State {
        used: state.used,
        ..state
    }
}

// What goes out of a seed, a release or fresh: a refusal hands back the state that came in.
fn done_out(came: State, made: Result<State, Refusal>) -> StoreDone
    ensures { (pool : List ℕ)
        → plain result.refusal (store result.state pool) ≡ done came pool made }
{
    match made {
        Ok(state) => StoreDone {
            refusal: 0,
            state: by_fields(state),
        },
        Err(refusal) => StoreDone {
            refusal: refusal.number() as u64,
            state: by_fields(came),
        },
    }
}

/// A new store in the pool. Refused, it hands back a state of zeros.
#[unsafe(no_mangle)]
pub extern "C" fn page_store_fresh(pool: &mut [u32]) -> StoreDone
    ensures { plain result.refusal (store result.state pool.new)
        ≡ fresh_reply six places pool_limit pool.old }
{
    let zeros = State {
        used: 0,
        starts: [0; PLACES],
        ends: [0; PLACES],
    };
    done_out(zeros, pages::fresh(pool))
}

/// Gives the store the memory from start to end, end not included.
#[unsafe(no_mangle)]
pub extern "C" fn page_store_seed(state: State, pool: &mut [u32], start: u64, end: u64) -> StoreDone
    ensures { let before = store state pool.old in
        Replies six places pool_limit before (seeds start end)
        (plain result.refusal (store result.state pool.new)) }
{
    done_out(
        state,
        pages::seed(by_fields(state), pool, Address(start), Address(end)),
    )
}

/// Deals the lowest free page of a size.
#[unsafe(no_mangle)]
pub extern "C" fn page_store_acquire(state: State, pool: &mut [u32], code: u64) -> StoreDealt
    ensures { let before = store state pool.old in
        Replies six places pool_limit before (acquires code)
        (deal result.refusal (store result.state pool.new) result.base result.probes) }
{
    match pages::acquire(state, pool, code) {
        Ok((after, page)) => StoreDealt {
            refusal: 0,
            state: after,
            base: page.base.0,
            probes: page.probes,
        },
        Err(refusal) => StoreDealt {
            refusal: refusal.number() as u64,
            state,
            base: 0,
            probes: 0,
        },
    }
}

/// Takes a page back: one that was dealt, a part of one, or several joined.
#[unsafe(no_mangle)]
pub extern "C" fn page_store_release(
    state: State,
    pool: &mut [u32],
    base: u64,
    code: u64,
) -> StoreDone
    ensures { let before = store state pool.old in
        Replies six places pool_limit before (releases base code)
        (plain result.refusal (store result.state pool.new)) }
{
    done_out(state, pages::release(state, pool, Address(base), code))
}

/// Tells how much memory there is and how much of it is free. Nothing is written.
#[unsafe(no_mangle)]
pub extern "C" fn page_store_report(state: State, pool: &[u32]) -> StoreReported
    ensures { let now = store state pool.now in
        Replies six places pool_limit now reports
        (tell result.refusal (store result.state pool.now)
        result.seeded result.free result.largest result.used) }
{
    match pages::report(by_fields(state), pool) {
        Ok(told) => StoreReported {
            refusal: 0,
            state: by_fields(state),
            seeded: told.seeded,
            free: told.free,
            largest: told.largest.map_or(0, PageSize::code),
            used: told.used,
        },
        Err(refusal) => StoreReported {
            refusal: refusal.number() as u64,
            state: by_fields(state),
            seeded: 0,
            free: 0,
            largest: 0,
            used: 0,
        },
    }
}

/// Whether state and pool are sound, on any numbers and words: 1 or 0. Nothing is written.
#[unsafe(no_mangle)]
pub extern "C" fn page_store_check(state: State, pool: &[u32]) -> u64
    ensures { Tells (SoundStore six places pool_limit (store state pool.now)) result }
{
    if pages::check(by_fields(state), pool) {
        return 1;
    }
    0
}

/// How many pool words a state's regions and one more can ever take.
#[unsafe(no_mangle)]
pub extern "C" fn page_store_room_for(state: State, start: u64, end: u64) -> StoreRoom
    ensures { Plans six places pool_limit state start end result.refusal result.words }
{
    match pages::room_for(by_fields(state), Address(start), Address(end)) {
        Ok(words) => StoreRoom { refusal: 0, words },
        Err(refusal) => StoreRoom {
            refusal: refusal.number() as u64,
            words: 0,
        },
    }
}
