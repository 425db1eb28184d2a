// The pool words that regions can ever take: a child block for every node that a region touches, counted region by region.
ghost use Rattle.std.specs.Prelude.{◌≡◌, suc, true, ◌∷◌, ◌+◌, ◌*◌, ◌≤◌, ◌<◌, drop};
ghost use Rattle.sizes.specs.Six.{six};
ghost use Rattle.sizes.specs.Size.{code_of};
ghost use Rattle.model.specs.Frames.{bit};
ghost use Rattle.pool.specs.Limits.{places, most_frames};
ghost use Rattle.pool.specs.Regions.{regions_of};
ghost use Rattle.pool.specs.RegionTest.{regions_pass};
ghost use Rattle.pool.specs.Words.{frames_of};
ghost use Rattle.pool.specs.Planned.{meets, new_nodes, touched_by, room_by};

use crate::ladder::{children_in, frames_in};
use crate::span::Span;
use crate::state::{PLACES, State};
use sizes::{Frame, PageSize};

// 1 if the node of a number, all of the size, has a frame in a region from the place `first` on, else 0.
fn met(state: &State, first: usize, number: u64, size: PageSize) -> u64
    requires first { first ≤ places }
    requires within { suc number * frames_of six (code_of size) ≤ most_frames }
    ensures exact { result ≡ bit (meets
        (regions_of six (drop first state.now.starts) (drop first state.now.ends))
        (frames_of six (code_of size)) number) }
    ensures most { result ≤ 1 }
{
    let frames = frames_in(size);
    let node = Span::block(Frame(number * frames), frames);
    if state.overlaps(first, node) == 0 {
        return 0;
    }
    1
}

// How many nodes of the size the span touches and no region from the place `first` on does; only the first and the last can be shared.
fn new_nodes(state: &State, first: usize, span: Span, size: PageSize) -> u64
    requires { first ≤ places }
    ensures exact { result ≡ new_nodes
        (regions_of six (drop first state.now.starts) (drop first state.now.ends))
        span.start.0 span.end.0 (frames_of six (code_of size)) }
    ensures most { result ≤ most_frames }
{
    let frames = frames_in(size);
    let low = span.start.0 / frames;
    let high = (span.end.0 - 1) / frames;
    let nodes = high - low + 1 - met(state, first, low, size);
    if low == high {
        return nodes;
    }
    nodes - met(state, first, high, size)
}

// How many nodes of the size the span and the regions touch.
fn touched_nodes(state: &State, span: Span, size: PageSize) -> u64
    requires { regions_pass six state.now.starts state.now.ends ≡ true }
    ensures exact { result ≡ touched_by (record { start = span.start.0; end = span.end.0 }
        ∷ regions_of six state.now.starts state.now.ends) (frames_of six (code_of size)) }
    ensures most { result ≤ (places + 1) * most_frames }
{
    let mut total = new_nodes(state, 0, span, size);
    for i in 0..PLACES {
        let Some((start, end)) = state.region(i) else {
            return total;
        };
        total += new_nodes(state, i + 1, Span { start, end }, size);
    }
    total
}

// The pool words of the span and the regions: a child block for each node that they touch, size by size, and one for the root.
pub fn room_of(state: &State, span: Span) -> u64
    requires { regions_pass six state.now.starts state.now.ends ≡ true }
    ensures { result ≡ room_by six (record { start = span.start.0; end = span.end.0 }
        ∷ regions_of six state.now.starts state.now.ends) }
{
    let mut total: u64 = 1;
    for size in &PageSize::ALL[1..] {
        let block = children_in(*size) as u64 + 1;
        total += block * touched_nodes(state, span, *size);
    }
    total
}
