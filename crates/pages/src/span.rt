// A region's frames, parsed once from its start and end in bytes.
ghost use Rattle.std.specs.Prelude.{◌≡◌, ◌+◌, ◌-◌, ◌≤◌, ◌<◌, min, max, IfOk};
ghost use Rattle.sizes.specs.Ladder.{address_frame};
ghost use Rattle.sizes.specs.Six.{six};
ghost use Rattle.pool.specs.Limits.{most_frames};
ghost use Rattle.pages.specs.Answers.{refusal_in};
ghost use Rattle.pages.specs.Span.{Spans, span_refusal};

use crate::Refusal;
use sizes::{Address, Frame, PageSize};

/// The frames from a start to an end, end not included: one at least, all within memory.
#[derive(Clone, Copy)]
pub struct Span {
    pub start: Frame,
    pub end: Frame,
    ghost some: { start.0 < end.0 },
    ghost within: { end.0 ≤ most_frames },
}

impl Span {
    /// The frames from an address to another. Refused is what is not page-aligned, empty, or ends past memory.
    #[tactic(auto, unfolding(crate::specs::Span::span_refusal))]
    pub fn between(start: Address, end: Address) -> Result<Span, Refusal>
        ensures refusal { refusal_in result ≡ span_refusal six start.0 end.0 }
        ensures spans { IfOk result (λ _. Spans six start.0 end.0) }
        ensures first { IfOk result (λ span. span.start.0 ≡ address_frame six start.0) }
        ensures last { IfOk result (λ span. span.end.0 ≡ address_frame six end.0) }
    {
        let page = PageSize::SMALLEST.in_bytes();
        if start.0 % page != 0 || end.0 % page != 0 || end.0 <= start.0 {
            return Err(Refusal::BadAlignment);
        }
        if end.0 > PageSize::LARGEST.in_bytes() {
            return Err(Refusal::PastTheEnd);
        }
        Ok(Span {
            start: Frame::from(start),
            end: Frame::from(end),
        })
    }

    /// The frames of a block: so many from a base on.
    pub fn block(base: Frame, frames: u64) -> Span
        requires some { 1 ≤ frames }
        requires within { base.0 + frames ≤ most_frames }
        ensures start { result.start.0 ≡ base.0 }
        ensures end { result.end.0 ≡ base.0 + frames }
    {
        Span {
            start: base,
            end: Frame(base.0 + frames),
        }
    }

    /// How many frames there are.
    pub fn frames(self) -> u64
        ensures exact { result ≡ self.end.0 - self.start.0 }
        ensures some { 1 ≤ result }
        ensures most { result ≤ most_frames }
    {
        self.end.0 - self.start.0
    }

    /// How many of them lie between two frames.
    pub fn shared(self, start: Frame, end: Frame) -> u64
        ensures exact { result ≡ min end.0 self.end.0 - max start.0 self.start.0 }
        ensures most { result ≤ self.end.0 - self.start.0 }
    {
        let first = self.start.0.max(start.0);
        let last = self.end.0.min(end.0);
        last.saturating_sub(first)
    }
}
