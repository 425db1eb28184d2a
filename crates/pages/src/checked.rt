// A store that was found sound: what it refuses, in document 01's order, and what it reports.
ghost use Rattle.std.specs.Prelude.{◌≡◌, ◌-◌, ◌≤◌, ◌<◌, length, IfOk, IfErr, ltb};
ghost use Rattle.sizes.specs.Ladder.{code, address_frame};
ghost use Rattle.sizes.specs.Size.{code_of};
ghost use Rattle.sizes.specs.Six.{six};
ghost use Rattle.model.specs.Calls.{seed as seeds, acquire as acquires, release as releases, report as reports};
ghost use Rattle.pool.specs.Limits.{places, pool_limit};
ghost use Rattle.pages.specs.Calls.{store, Places, SoundStore, refusal_of, served};
ghost use Rattle.pages.specs.Answers.{refusal_in, told_of};
ghost use Rattle.pages.specs.PassesCheck.{PassesCheck};

use crate::ladder::frames_in;
use crate::read::{any_frame_free, free_bytes, largest};
use crate::room::{first_base, seed_room, words_needed};
use crate::span::Span;
use crate::state::State;
use crate::{Refusal, Report, sound};
use sizes::{Address, Frame, PageSize, Place};

/// The place of the root.
pub const ROOT: Place = Place(0);

/// A state and the pool words lent with it, which are sound: whoever has one need not check again.
#[derive(Clone, Copy)]
pub struct Checked<'a> {
    state: &'a State,
    pool: &'a [u32],
    ghost placed: { Places six places pool_limit (store state.now pool.now) },
    ghost passed: { PassesCheck six ltb pool_limit state.now.used state.now.starts state.now.ends
        pool.now },
}

impl<'a> Checked<'a> {
    /// The state and the pool, if they are sound.
    pub fn of(state: &'a State, pool: &'a [u32]) -> Result<Checked<'a>, Refusal>
        ensures state { IfOk result (λ checked. checked.state.now ≡ state.now) }
        ensures pool { IfOk result (λ checked. checked.pool.now ≡ pool.now) }
        ensures unsound { IfErr result (λ refusal. refusal ≡ Refusal.Unsound) }
        ensures not_sound { IfErr result
            (λ _. SoundStore six places pool_limit (store state.now pool.now) → ⊥) }
    {
        if sound::sound(state, pool) {
            return Ok(Checked { state, pool });
        }
        Err(Refusal::Unsound)
    }

    // Refuses what would open so many words, where the pool has fewer left.
    fn has_room(&self, words: usize) -> Result<(), Refusal>
        ensures fits { IfOk result
            (λ _. words ≤ length self.now.pool.now - self.now.state.now.used) }
        ensures lacks { IfErr result
            (λ _. length self.now.pool.now - self.now.state.now.used < words) }
        ensures refusal { IfErr result (λ refusal. refusal ≡ Refusal.OutOfRoom) }
    {
        if words > self.pool.len() - self.state.used {
            return Err(Refusal::OutOfRoom);
        }
        Ok(())
    }

    /// The frames of a seed from start to end that is not refused.
    pub fn seedable(&self, start: Address, end: Address) -> Result<Span, Refusal>
        ensures refusal { refusal_in result ≡ refusal_of six places pool_limit
            (store self.now.state.now self.now.pool.now) (seeds start.0 end.0) }
        ensures first { IfOk result (λ span. span.start.0 ≡ address_frame six start.0) }
        ensures last { IfOk result (λ span. span.end.0 ≡ address_frame six end.0) }
    {
        let span = self.state.joinable(start, end)?;
        self.has_room(seed_room(self.pool, span.start, span.end))?;
        Ok(span)
    }

    /// The size of an acquire by code that is not refused.
    pub fn acquirable(&self, number: u64) -> Result<PageSize, Refusal>
        ensures refusal { refusal_in result ≡ refusal_of six places pool_limit
            (store self.now.state.now self.now.pool.now) (acquires number) }
        ensures size { IfOk result (λ size. code_of size ≡ code six number) }
    {
        let size = PageSize::try_from(number)?;
        let Some(most) = largest(self.pool) else {
            return Err(Refusal::OutOfPages);
        };
        if most.code() < size.code() {
            return Err(Refusal::OutOfPages);
        }
        let base = first_base(self.pool, ROOT, PageSize::LARGEST, size);
        let needed = words_needed(self.pool, ROOT, PageSize::LARGEST, base, size);
        self.has_room(needed)?;
        Ok(size)
    }

    /// The size of a release of the page at base by code that is not refused.
    pub fn releasable(&self, base: Address, number: u64) -> Result<PageSize, Refusal>
        ensures refusal { refusal_in result ≡ refusal_of six places pool_limit
            (store self.now.state.now self.now.pool.now) (releases base.0 number) }
        ensures size { IfOk result (λ size. code_of size ≡ code six number) }
    {
        let size = PageSize::try_from(number)?;
        let bytes = size.in_bytes();
        if base.0 % bytes != 0 {
            return Err(Refusal::BadAlignment);
        }
        // no sum of base and bytes is taken: it may not fit
        if base.0 > PageSize::LARGEST.in_bytes() - bytes {
            return Err(Refusal::PastTheEnd);
        }
        let frame = Frame::from(base);
        if !self.state.covers(Span::block(frame, frames_in(size))) {
            return Err(Refusal::NotSeeded);
        }
        if any_frame_free(self.pool, ROOT, PageSize::LARGEST, frame, size) {
            return Err(Refusal::AlreadyFree);
        }
        let needed = words_needed(self.pool, ROOT, PageSize::LARGEST, frame, size);
        self.has_room(needed)?;
        Ok(size)
    }

    /// What a report tells.
    pub fn report(&self) -> Report
        ensures { told_of self.now.state.now self.now.pool.now result
            ≡ served six places pool_limit (store self.now.state.now self.now.pool.now) reports }
    {
        Report {
            seeded: self.state.seeded_bytes(),
            free: free_bytes(self.pool, self.state.used),
            largest: largest(self.pool),
            used: self.state.used,
        }
    }
}
