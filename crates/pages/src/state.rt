// The state that a caller keeps, and its regions: a start and an end in bytes for each place, in seeding order.
ghost use Rattle.std.specs.Prelude.{◌≡◌, true, ◌+◌, ◌*◌, ◌-◌, ◌≤◌, ◌<◌, length, drop, set, get_or, IfSome, IfNone, IfOk};
ghost use Rattle.sizes.specs.Ladder.{smallest, bytes, address_frame};
ghost use Rattle.sizes.specs.Six.{six};
ghost use Rattle.model.specs.Lists.{sum};
ghost use Rattle.model.specs.TreeStore.{overlap, covered as covered_by, seeded_frames};
ghost use Rattle.pool.specs.Limits.{places, pool_limit};
ghost use Rattle.pool.specs.Regions.{regions_of};
ghost use Rattle.pool.specs.RegionTest.{zeros, regions_pass, region_at};
ghost use Rattle.pages.specs.Answers.{refusal_in};
ghost use Rattle.pages.specs.Calls.{no_regions};
ghost use Rattle.pages.specs.Room.{region_refusal};

use crate::Refusal;
use crate::ladder::frames_in;
use crate::span::Span;
use sizes::{Address, Frame, PageSize};

/// How many region places a state has.
pub const PLACES: usize = 8;

/// What a caller keeps of its store: the used count, and the regions in seeding order from the first place. Unused places are zero.
/// Any numbers may stand in it: a call that is given a state which is not sound refuses it.
#[repr(C)]
#[derive(Clone, Copy, Debug, PartialEq, Eq)]
pub struct State {
    /// How many of the pool's words are used.
    pub used: usize,
    /// Where the regions start, in bytes.
    pub starts: [u64; PLACES],
    /// Where they end, in bytes; the end is not included.
    pub ends: [u64; PLACES],
}

impl State {
    // A state without regions.
    pub(crate) fn without_regions(used: usize) -> State
        ensures { result ≡ no_regions places used }
    {
        State {
            used,
            starts: [0; PLACES],
            ends: [0; PLACES],
        }
    }

    // The frames from the start to the end of the region at a place, if the place is used.
    pub(crate) fn region(&self, place: usize) -> Option<(Frame, Frame)>
        requires { place < places }
        ensures used { IfSome result (λ _. (get_or self.now.ends place 0 ≡ 0) → ⊥) }
        ensures start { IfSome result
            (λ r. r.0.0 ≡ address_frame six (get_or self.now.starts place 0)) }
        ensures end { IfSome result
            (λ r. r.1.0 ≡ address_frame six (get_or self.now.ends place 0)) }
        ensures unused { IfNone result (get_or self.now.ends place 0 ≡ 0) }
    {
        if self.ends[place] == 0 {
            return None;
        }
        let start = Address(self.starts[place]);
        let end = Address(self.ends[place]);
        Some((Frame::from(start), Frame::from(end)))
    }

    // How many of the span's frames lie in the regions from the place `first` on, region by region.
    #[tactic(auto, using(crate::proofs::Turns::sums), unfolding(model::specs::TreeStore::overlap))]
    pub(crate) fn overlaps(&self, first: usize, span: Span) -> u64
        requires { first ≤ places }
        ensures { result ≡ sum (overlap span.start.0 (span.end.0 - span.start.0))
            (regions_of six (drop first self.now.starts) (drop first self.now.ends)) }
    {
        let mut total: u64 = 0;
        for i in first..PLACES {
            let Some((start, end)) = self.region(i) else {
                return total;
            };
            total += span.shared(start, end);
        }
        total
    }

    // Whether all of the span lies in regions, where these share no frame.
    pub(crate) fn covers(&self, span: Span) -> bool
        ensures { result ≡ covered_by (regions_of six self.now.starts self.now.ends)
            span.start.0 (span.end.0 - span.start.0) }
    {
        self.overlaps(0, span) == span.frames()
    }

    // The bytes of all regions: those of the frames that the whole memory shares with them.
    pub(crate) fn seeded_bytes(&self) -> u64
        requires { regions_pass six self.now.starts self.now.ends ≡ true }
        ensures { result ≡ seeded_frames (regions_of six self.now.starts self.now.ends)
            * bytes six smallest }
    {
        let memory = Span::block(Frame(0), frames_in(PageSize::LARGEST));
        self.overlaps(0, memory) * PageSize::SMALLEST.in_bytes()
    }

    // How many regions there are: the places before the first that is unused.
    #[tactic(auto, using(crate::proofs::Turns::counts))]
    pub(crate) fn region_count(&self) -> usize
        ensures exact { result ≡ length (regions_of six self.now.starts self.now.ends) }
        ensures most { result ≤ places }
    {
        for i in 0..PLACES {
            if self.ends[i] == 0 {
                return i;
            }
        }
        PLACES
    }

    // Whether all places from `first` on are zero.
    #[tactic(auto, using(crate::proofs::Turns::unused))]
    fn unused_from(&self, first: usize) -> bool
        requires { first ≤ places }
        ensures { result ≡ zeros (drop first self.now.starts) (drop first self.now.ends) }
    {
        for i in first..PLACES {
            if self.starts[i] != 0 || self.ends[i] != 0 {
                return false;
            }
        }
        true
    }

    // Whether the region at a place may stand before those behind it.
    fn place_passes(&self, place: usize) -> bool
        requires { place < places }
        ensures { result ≡ region_at six self.now.starts self.now.ends place }
    {
        let start = Address(self.starts[place]);
        let end = Address(self.ends[place]);
        match Span::between(start, end) {
            Ok(span) => self.overlaps(place + 1, span) == 0,
            Err(_) => false,
        }
    }

    // Whether the regions are sound, whatever numbers the places hold.
    #[tactic(auto, using(crate::proofs::Turns::pass))]
    pub(crate) fn regions_pass(&self) -> bool
        ensures { result ≡ regions_pass six self.now.starts self.now.ends }
    {
        for i in 0..PLACES {
            if self.ends[i] == 0 {
                return self.unused_from(i);
            }
            if !self.place_passes(i) {
                return false;
            }
        }
        true
    }

    // The frames from start to end, if they may join the regions, before the pool is looked at.
    pub(crate) fn joinable(&self, start: Address, end: Address) -> Result<Span, Refusal>
        requires { regions_pass six self.now.starts self.now.ends ≡ true }
        ensures refusal { refusal_in result
            ≡ region_refusal six places pool_limit self.now start.0 end.0 }
        ensures first { IfOk result (λ span. span.start.0 ≡ address_frame six start.0) }
        ensures last { IfOk result (λ span. span.end.0 ≡ address_frame six end.0) }
    {
        let span = Span::between(start, end)?;
        if self.region_count() == PLACES {
            return Err(Refusal::RegionsFull);
        }
        if self.overlaps(0, span) != 0 {
            return Err(Refusal::Overlap);
        }
        Ok(span)
    }

    // The state with one region more, and another used count.
    pub(crate) fn with_region(self, used: usize, start: Address, end: Address) -> State
        requires { length (regions_of six self.starts self.ends) < places }
        ensures used { result.used ≡ used }
        ensures starts { result.starts
            ≡ set self.starts (length (regions_of six self.starts self.ends)) start.0 }
        ensures ends { result.ends
            ≡ set self.ends (length (regions_of six self.starts self.ends)) end.0 }
    {
        let place = self.region_count();
        let mut state = State { used, ..self };
        state.starts[place] = start.0;
        state.ends[place] = end.0;
        state
    }
}
