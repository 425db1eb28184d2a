// Read before a write: the block that an acquire takes, and the words that a store, an acquire or a
// seed would open.
ghost use Rattle.std.specs.Prelude.{◌≡◌, ℕ, suc, pred, ◌+◌, ◌-◌, ◌*◌, ◌≤◌, ◌<◌};
ghost use Rattle.sizes.specs.Six.{six, most_children};
ghost use Rattle.sizes.specs.Size.{code_of};
ghost use Rattle.pool.specs.Limits.{most_frames};
ghost use Rattle.pool.specs.Room.{openings_w, pick_w, path_after, seed_openings_w};
ghost use Rattle.pool.specs.Asks.{PickAsk, NeedAsk, SeedAsk};
ghost use Rattle.pages.specs.Before.{openings_by};

use crate::children::{children, first_child_with_room};
use crate::ladder::{children_in, frames_in, largest_fit, step_down};
use crate::word::Node;
use sizes::{Frame, PageSize, Place};

/// What is known of the frame before a block: it is as the pool has it, or was stored since.
#[derive(Clone, Copy)]
enum Before {
    AsItIs,
    Stored,
}

/// The first frame of the block that an acquire takes at or below the node, from the node's on.
#[tactic(auto, using(crate::proofs::Picks::picks))]
pub fn first_base(pool: &[u32], node: Place, size: PageSize, wanted: PageSize) -> Frame
    requires { PickAsk (code_of size) (code_of wanted) pool.now node.0 }
    ensures exact { result.0
        ≡ pick_w six (pred (code_of size)) (pred (code_of wanted)) pool.now node.0 }
    ensures within { result.0 < most_frames }
{
    let node = Node::at(pool, node);
    if node.has_token() {
        return Frame(0);
    }
    // The node offers the page, so without a token it has children.
    let Some(first) = node.children() else {
        return Frame(0);
    };
    let Some(below) = size.smaller() else {
        return Frame(0);
    };
    let block = children(pool, first, size);
    let number = first_child_with_room(block, wanted);
    let within = first_base(pool, Place(first.0 + number), below, wanted);
    Frame(number as u64 * frames_in(below) + within.0)
}

/// The words that opening the way from an unopened node down to the block at a frame of it takes.
/// The frame before the block is stored: a node that also holds it is open by then, none at frame 0.
#[tactic(auto, using(crate::proofs::Ways::paths))]
fn words_below(size: PageSize, base: Frame, wanted: PageSize) -> usize
    requires { code_of wanted ≤ code_of size }
    ensures exact { result ≡ path_after six (pred (code_of size)) (pred (code_of wanted)) base.0 }
    ensures most { result ≤ suc most_children * code_of size }
{
    if size == wanted {
        return 0;
    }
    let Some(below) = size.smaller() else {
        return 0;
    };
    if base.0 == 0 {
        return children_in(size) + 1 + words_below(below, Frame(0), wanted);
    }
    words_below(below, Frame(base.0 % frames_in(below)), wanted)
}

/// The words that storing or taking a block at a frame of the node opens.
#[tactic(auto, using(crate::proofs::Ways::opened))]
fn words_opened(
    pool: &[u32],
    node: Place,
    size: PageSize,
    base: Frame,
    wanted: PageSize,
    before: Before,
) -> usize
    requires { NeedAsk (code_of size) (code_of wanted) pool.now node.0 base.0 }
    ensures exact { result
        ≡ openings_by before (pred (code_of size)) (pred (code_of wanted)) pool.now node.0 base.0 }
    ensures most { result ≤ suc most_children * code_of size }
{
    if size == wanted {
        return 0;
    }
    let Some(below) = size.smaller() else {
        return 0;
    };
    let Some(first) = Node::at(pool, node).children() else {
        // As the pool is, no node below an unopened one is open: the whole way counts, as at frame 0.
        return match before {
            Before::AsItIs => words_below(size, Frame(0), wanted),
            Before::Stored => words_below(size, base, wanted),
        };
    };
    let to = step_down(first, below, base);
    words_opened(pool, to.child, below, to.within, wanted, before)
}

/// The words that storing or taking a block at a frame of the node would open, as the pool is.
pub fn words_needed(
    pool: &[u32],
    node: Place,
    size: PageSize,
    base: Frame,
    wanted: PageSize,
) -> usize
    requires { NeedAsk (code_of size) (code_of wanted) pool.now node.0 base.0 }
    ensures exact { result
        ≡ openings_w six (pred (code_of size)) (pred (code_of wanted)) pool.now node.0 base.0 }
    ensures most { result ≤ suc most_children * code_of size }
{
    words_opened(pool, node, size, base, wanted, Before::AsItIs)
}

/// The words that a seed of the frames from start to end would open, by its blocks one after the other.
#[tactic(auto, using(crate::proofs::Seeds::seeds))]
pub fn seed_room(pool: &[u32], start: Frame, end: Frame) -> usize
    requires { SeedAsk pool.now start.0 end.0 }
    ensures { result ≡ seed_openings_w six (end.0 - start.0) pool.now start.0 end.0 }
{
    let mut total = 0;
    let mut before = Before::AsItIs;
    let mut at = start;
    while at.0 < end.0 {
        let size = largest_fit(at, end);
        total += words_opened(pool, Place(0), PageSize::LARGEST, at, size, before);
        before = Before::Stored;
        at.0 += frames_in(size);
    }
    total
}
