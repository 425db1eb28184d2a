// Reading a sound pool: is some frame of a block free, and how many frames are.
ghost use Rattle.std.specs.Prelude.{◌≡◌, ℕ, pred, ◌+◌, ◌*◌, ◌≤◌, length};
ghost use Rattle.sizes.specs.Ladder.{smallest, bytes};
ghost use Rattle.sizes.specs.Six.{six, most_bytes, most_children};
ghost use Rattle.sizes.specs.Size.{code_of, code_or_none};
ghost use Rattle.model.specs.Ladder.{top};
ghost use Rattle.model.specs.Lists.{sum};
ghost use Rattle.model.specs.Tree.{free_frames, largest as largest_of};
ghost use Rattle.pool.specs.Limits.{most_frames};
ghost use Rattle.pool.specs.Words.{word as word_at, token_of};
ghost use Rattle.pool.specs.Room.{any_free_w};
ghost use Rattle.pool.specs.View.{view};
ghost use Rattle.pool.specs.Check.{SoundW};
ghost use Rattle.pool.specs.Asks.{NeedAsk, SoundAsk};

use crate::children::children;
use crate::ladder::{frames_in, step_down};
use crate::word::Node;
use sizes::{Frame, PageSize, Place};

/// Whether some frame of the wanted block at a frame of the node is free.
#[tactic(auto, using(crate::proofs::Ways::free))]
pub fn any_frame_free(
    pool: &[u32],
    node: Place,
    size: PageSize,
    base: Frame,
    wanted: PageSize,
) -> bool
    requires { NeedAsk (code_of size) (code_of wanted) pool.now node.0 base.0 }
    ensures { result
        ≡ any_free_w six (pred (code_of size)) (pred (code_of wanted)) pool.now node.0 base.0 }
{
    let node = Node::at(pool, node);
    if node.has_token() {
        return true;
    }
    if size == wanted {
        return 0 < node.max();
    }
    let Some(first) = node.children() else {
        return false;
    };
    let Some(below) = size.smaller() else {
        return false;
    };
    let to = step_down(first, below, base);
    any_frame_free(pool, to.child, below, to.within, wanted)
}

/// How many of the children have tokens, in the words' own type: the loop is then vectorised.
fn tokens_in(children: &[u32]) -> u32
    requires { length children.now ≤ most_children }
    ensures { result ≡ sum token_of children.now }
{
    children
        .iter()
        .map(|word| u32::from(Node(*word).has_token()))
        .sum()
}

/// How many frames are free: a sweep over the blocks counts the tokens in each.
/// That is quicker than a walk of the tree.
#[tactic(auto, using(crate::proofs::Sweeps::sweeps))]
fn free_frames(pool: &[u32], used: usize) -> u64
    requires { SoundW six (top six) pool.now used }
    ensures exact { result ≡ free_frames six (top six) (view six (top six) (word_at pool.now) 0) }
    ensures most { result ≤ most_frames }
{
    let mut total = if Node::at(pool, Place(0)).has_token() {
        frames_in(PageSize::LARGEST)
    } else {
        0
    };
    let mut header = 1;
    while header < used {
        // In a sound pool the header holds the place of a node above the smallest size.
        let node = Node::at(pool, Place(pool[header] as usize));
        let Ok(size) = PageSize::try_from(node.level() as u64) else {
            return total;
        };
        let Some(below) = size.smaller() else {
            return total;
        };
        let block = children(pool, Place(header + 1), size);
        total += tokens_in(block) as u64 * frames_in(below);
        header += 1 + block.len();
    }
    total
}

/// The sum of the tokens' bytes.
#[tactic(auto, using(crate::proofs::Counts::roots))]
pub fn free_bytes(pool: &[u32], used: usize) -> u64
    requires { SoundW six (top six) pool.now used }
    ensures exact { result
        ≡ free_frames six (top six) (view six (top six) (word_at pool.now) 0) * bytes six smallest }
    ensures most { result ≤ most_bytes }
{
    free_frames(pool, used) * PageSize::SMALLEST.in_bytes()
}

/// The size of the largest free block: the root's max.
#[tactic(auto, using(crate::proofs::Counts::roots))]
pub fn largest(pool: &[u32]) -> Option<PageSize>
    requires { SoundAsk pool.now }
    ensures { code_or_none result ≡ largest_of (top six) (view six (top six) (word_at pool.now) 0) }
{
    PageSize::try_from(Node::at(pool, Place(0)).max() as u64).ok()
}
