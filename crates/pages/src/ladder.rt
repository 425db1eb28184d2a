// The ladder as a node sees it: by its size, how many children it has, how many frames, and which child holds a frame.
ghost use Rattle.std.specs.Prelude.{◌≡◌, ℕ, suc, ◌+◌, ◌-◌, ◌/◌, ◌%◌, ◌≤◌, ◌<◌};
ghost use Rattle.sizes.specs.Six.{six, most_children};
ghost use Rattle.sizes.specs.Size.{code_of};
ghost use Rattle.model.specs.Ladder.{top};
ghost use Rattle.model.specs.TreeStore.{largest_fit};
ghost use Rattle.pool.specs.Limits.{link_limit, most_frames};
ghost use Rattle.pool.specs.Words.{fan_out_of, frames_of};

use sizes::{Address, Frame, PageSize, Place};

/// The child of a node that holds a frame: its place, and the frame counted from the child's first.
#[derive(Clone, Copy)]
pub struct Toward {
    pub child: Place,
    pub within: Frame,
}

/// How many children a node of the size has.
pub fn children_in(size: PageSize) -> usize
    requires { 2 ≤ code_of size }
    ensures exact { result ≡ fan_out_of six (code_of size) }
    ensures most { result ≤ most_children }
{
    size.number_of_smaller_pages()
}

/// How many frames a page of the size has.
pub fn frames_in(size: PageSize) -> u64
    ensures exact { result ≡ frames_of six (code_of size) }
    ensures some { 1 ≤ result }
    ensures most { result ≤ most_frames }
{
    size.in_bytes() / PageSize::SMALLEST.in_bytes()
}

/// The step down to a child of the size below: the node's first child stands at `first`, and the frame counts from the node's.
pub fn step_down(first: Place, below: PageSize, base: Frame) -> Toward
    requires frame { base.0 ≤ most_frames }
    requires place { first.0 ≤ link_limit }
    ensures child { result.child.0 ≡ first.0 + base.0 / frames_of six (code_of below) }
    ensures within { result.within.0 ≡ base.0 % frames_of six (code_of below) }
{
    let size = frames_in(below);
    Toward {
        child: Place(first.0 + (base.0 / size) as usize),
        within: Frame(base.0 % size),
    }
}

/// The size of the largest block that is aligned at the start and ends at or before the end.
pub fn largest_fit(start: Frame, end: Frame) -> PageSize
    requires some { start.0 < end.0 }
    requires within { end.0 ≤ most_frames }
    ensures exact { code_of result ≡ suc (largest_fit six (top six) start.0 end.0) }
    ensures fits { start.0 + frames_of six (code_of result) ≤ end.0 }
{
    let size = sizes::find_largest_page_size(Address::from(start), Address::from(end));
    size.unwrap_or(PageSize::SMALLEST)
}
