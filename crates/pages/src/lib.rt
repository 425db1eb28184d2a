// The page store: six calls on a state by value and a lent pool, and `room_for` on a state alone. Each takes any numbers and words: what is
// not as it should be is refused, and then state and pool stay as they are.
#![tactic(auto)]

mod answer;
mod checked;
mod children;
mod ladder;
mod node;
mod plan;
mod read;
mod refusal;
mod room;
mod seeding;
mod sound;
mod span;
mod state;
mod word;

ghost use Rattle.std.specs.Prelude.{◌≡◌, IsTrue};
ghost use Rattle.sizes.specs.Six.{six};
ghost use Rattle.model.specs.Calls.{seed as seeds, acquire as acquires, release as releases, report as reports};
ghost use Rattle.pool.specs.Limits.{places, pool_limit};
ghost use Rattle.pages.specs.Calls.{store, SoundStore, no_regions, Replies, fresh_reply};
ghost use Rattle.pages.specs.Answers.{done, dealt, told, refusal_in, room};
ghost use Rattle.pages.specs.Room.{Plans};

pub use answer::{Dealt, Report};
use checked::{Checked, ROOT};
pub use refusal::Refusal;
use sizes::{Address, Frame, PageSize};
pub use state::{PLACES, State};
use word::Node;

/// A new store: a root in word 0 of the pool, and no regions. Refused is a pool of no words, or of too many.
#[tactic(auto, unfolding(crate::specs::Calls::fresh_reply, pool::specs::Words::pack, sizes::specs::Ladder::largest))]
pub fn fresh(pool: &mut [u32]) -> Result<State, Refusal>
    ensures { done (no_regions places 0) pool.new result
        ≡ fresh_reply six places pool_limit pool.old }
{
    let words = pool.len();
    if words == 0 || words > sound::POOL_LIMIT {
        return Err(Refusal::BadPool);
    }
    pool[0] = Node::new(PageSize::LARGEST).0;
    Ok(State::without_regions(1))
}

/// Gives the store the memory from start to end, end not included.
pub fn seed(state: State, pool: &mut [u32], start: Address, end: Address) -> Result<State, Refusal>
    ensures { let before = store state pool.old in
        Replies six places pool_limit before (seeds start.0 end.0) (done state pool.new result) }
{
    let span = Checked::of(&state, pool)?.seedable(start, end)?;
    let used = seeding::store_span(pool, state.used, span);
    Ok(state.with_region(used, start, end))
}

/// Deals the lowest free page of a size, by its code.
pub fn acquire(state: State, pool: &mut [u32], code: u64) -> Result<(State, Dealt), Refusal>
    ensures { let before = store state pool.old in
        Replies six places pool_limit before (acquires code) (dealt state pool.new result) }
{
    let size = Checked::of(&state, pool)?.acquirable(code)?;
    let taken = node::acquire_page_token(pool, state.used, ROOT, PageSize::LARGEST, size);
    let page = Dealt {
        base: Address::from(taken.base),
        probes: taken.probes,
    };
    Ok((
        State {
            used: taken.used,
            ..state
        },
        page,
    ))
}

/// Takes a page back: one that was dealt, a part of one, or several joined.
pub fn release(state: State, pool: &mut [u32], base: Address, code: u64) -> Result<State, Refusal>
    ensures { let before = store state pool.old in
        Replies six places pool_limit before (releases base.0 code) (done state pool.new result) }
{
    let size = Checked::of(&state, pool)?.releasable(base, code)?;
    let frame = Frame::from(base);
    let used = node::store_page_token(pool, state.used, ROOT, PageSize::LARGEST, frame, size);
    Ok(State { used, ..state })
}

/// Tells how much memory there is and how much of it is free. Nothing is written.
pub fn report(state: State, pool: &[u32]) -> Result<Report, Refusal>
    ensures { let now = store state pool.now in
        Replies six places pool_limit now reports (told state pool.now result) }
{
    let checked = Checked::of(&state, pool)?;
    Ok(checked.report())
}

/// Whether state and pool are sound, on any numbers and words. Nothing is written.
pub fn check(state: State, pool: &[u32]) -> bool
    ensures only { IsTrue result → SoundStore six places pool_limit (store state pool.now) }
    ensures all { SoundStore six places pool_limit (store state pool.now) → IsTrue result }
{
    sound::sound(&state, pool)
}

/// How many pool words a state's regions and one more can ever take; `used` is not looked at.
pub fn room_for(state: State, start: Address, end: Address) -> Result<u64, Refusal>
    ensures { Plans six places pool_limit state start.0 end.0 (refusal_in result) (room result) }
{
    if !state.regions_pass() {
        return Err(Refusal::Unsound);
    }
    let span = state.joinable(start, end)?;
    Ok(plan::room_of(&state, span))
}
