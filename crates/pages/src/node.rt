// Nodes in the pool: opened, marked, stored and taken, with the original's names.
ghost use Rattle.std.specs.Prelude.{◌≡◌, ℕ, suc, pred, ◌+◌, ◌*◌, ◌-◌, ◌≤◌, ◌<◌, length, set};
ghost use Rattle.sizes.specs.Six.{six, most_children};
ghost use Rattle.sizes.specs.Size.{code_of};
ghost use Rattle.pool.specs.Words.{word as word_at, link_of, fan_out_of};
ghost use Rattle.pool.specs.Nodes.{words, with_marks, map_run, open_with, open_w, hand_w, refresh_w, merge_w, store_w, take_w};
ghost use Rattle.pool.specs.Asks.{OpenAsk, RunAsk, StoreAsk, TakeAsk};

use crate::children::{all_have_tokens, children, first_child_with_room, largest_max, mark_all};
use crate::ladder::{children_in, frames_in, step_down};
use crate::word::Node;
use sizes::{Frame, PageSize, Place};

/// What an acquire leaves.
#[derive(Clone, Copy)]
pub struct Acquired {
    /// The used count.
    pub used: usize,
    /// The block's first frame, counted from the node's.
    pub base: Frame,
    /// How many children were looked at.
    pub probes: usize,
}

// Sets the marks of the node at a place.
fn set_marks(pool: &mut [u32], node: Place, marks: u32)
    requires place { node.0 < length pool.old }
    requires marks { marks < 16 }
    ensures { pool.new ≡ set pool.old node.0 (with_marks marks (word_at pool.old node.0)) }
{
    pool[node.0] = Node::at(pool, node).with_marks(marks).0;
}

// Gives the node a child block at the used count: a header that names the node, and new children.
fn open_node(pool: &mut [u32], used: usize, node: Place, size: PageSize, below: PageSize)
    requires node { OpenAsk (code_of size) pool.old used node.0 }
    requires below { code_of below ≡ code_of size - 1 }
    requires unopened { link_of (word_at pool.old node.0) ≡ 0 }
    ensures { pool.new ≡ open_with six pool.old used (pred (pred (code_of size))) node.0 }
{
    let first = used + 1;
    let opened = Node::at(pool, node).opened(Place(used));
    pool[used] = node.0 as u32;
    pool[first..first + children_in(size)].fill(Node::new(below).0);
    pool[node.0] = opened.0;
}

// Opens the node, if it is not; answers the used count.
fn initialize_children_if_needed(
    pool: &mut [u32],
    used: usize,
    node: Place,
    size: PageSize,
    below: PageSize,
) -> usize
    requires node { OpenAsk (code_of size) pool.old used node.0 }
    requires below { code_of below ≡ code_of size - 1 }
    ensures pool { pool.new ≡
        (open_w six (pred (pred (code_of size))) (words pool.old used) node.0).pool }
    ensures used { result ≡
        (open_w six (pred (pred (code_of size))) (words pool.old used) node.0).used }
{
    match Node::at(pool, node).children() {
        Some(_) => used,
        None => {
            open_node(pool, used, node, size, below);
            used + children_in(size) + 1
        }
    }
}

// The node's max becomes its children's.
fn refresh_max(pool: &mut [u32], node: Place, size: PageSize)
    requires { RunAsk (code_of size) pool.old node.0 }
    ensures { pool.new ≡ refresh_w six (pred (pred (code_of size))) pool.old node.0 }
{
    let first = Node::at(pool, node).first_child();
    let largest = largest_max(children(pool, first, size));
    set_marks(pool, node, largest);
}

// Where all children have tokens, theirs are cleared and the node gets one; otherwise its max
// becomes theirs.
fn try_to_merge_page_tokens(pool: &mut [u32], node: Place, size: PageSize)
    requires { RunAsk (code_of size) pool.old node.0 }
    ensures { pool.new ≡ merge_w six (pred (pred (code_of size))) pool.old node.0 }
{
    let word = Node::at(pool, node);
    let first = word.first_child();
    if !all_have_tokens(children(pool, first, size)) {
        refresh_max(pool, node, size);
        return;
    }
    mark_all(&mut pool[first.0..first.0 + children_in(size)], 0);
    pool[node.0] = word.with_marks(Node::token_marks(size)).0;
}

// A token of the node is handed on to all its children.
fn divide_page_token_if_necessary(pool: &mut [u32], node: Place, size: PageSize, below: PageSize)
    requires node { RunAsk (code_of size) pool.old node.0 }
    requires below { code_of below ≡ code_of size - 1 }
    ensures { pool.new ≡ hand_w six (pred (pred (code_of size))) pool.old node.0 }
{
    let word = Node::at(pool, node);
    if !word.has_token() {
        return;
    }
    let first = word.first_child();
    mark_all(
        &mut pool[first.0..first.0 + children_in(size)],
        Node::token_marks(below),
    );
    pool[node.0] = word.with_marks(0).0;
}

/// Stores the block of a size at a frame of the node; answers the used count.
pub fn store_page_token(
    pool: &mut [u32],
    used: usize,
    node: Place,
    size: PageSize,
    base: Frame,
    wanted: PageSize,
) -> usize
    requires { StoreAsk (code_of size) (code_of wanted) pool.old used node.0 base.0 }
    ensures pool { pool.new ≡ (store_w six (pred (code_of size)) (pred (code_of wanted))
        (words pool.old used) node.0 base.0).pool }
    ensures used { result ≡ (store_w six (pred (code_of size)) (pred (code_of wanted))
        (words pool.old used) node.0 base.0).used }
{
    if size == wanted {
        set_marks(pool, node, Node::token_marks(size));
        return used;
    }
    let Some(below) = size.smaller() else {
        return used;
    };
    let opened = initialize_children_if_needed(pool, used, node, size, below);
    let to = step_down(Node::at(pool, node).first_child(), below, base);
    let last = store_page_token(pool, opened, to.child, below, to.within, wanted);
    try_to_merge_page_tokens(pool, node, size);
    last
}

/// Takes the first block of a size at or below the node.
pub fn acquire_page_token(
    pool: &mut [u32],
    used: usize,
    node: Place,
    size: PageSize,
    wanted: PageSize,
) -> Acquired
    requires { TakeAsk (code_of size) (code_of wanted) pool.old used node.0 }
    ensures pool { pool.new ≡ (take_w six (pred (code_of size)) (pred (code_of wanted))
        (words pool.old used) node.0).words.pool }
    ensures used { result.used ≡ (take_w six (pred (code_of size)) (pred (code_of wanted))
        (words pool.old used) node.0).words.used }
    ensures base { result.base.0 ≡ (take_w six (pred (code_of size)) (pred (code_of wanted))
        (words pool.old used) node.0).base }
    ensures probes { result.probes ≡ (take_w six (pred (code_of size)) (pred (code_of wanted))
        (words pool.old used) node.0).probes }
    ensures few { result.probes ≤ suc most_children * code_of size }
{
    if size == wanted {
        set_marks(pool, node, 0);
        return Acquired {
            used,
            base: Frame(0),
            probes: 0,
        };
    }
    let Some(below) = size.smaller() else {
        return Acquired {
            used,
            base: Frame(0),
            probes: 0,
        };
    };
    let opened = initialize_children_if_needed(pool, used, node, size, below);
    divide_page_token_if_necessary(pool, node, size, below);
    let first = Node::at(pool, node).first_child();
    let number = first_child_with_room(children(pool, first, size), wanted);
    let child = Place(first.0 + number);
    let taken = acquire_page_token(pool, opened, child, below, wanted);
    refresh_max(pool, node, size);
    Acquired {
        used: taken.used,
        base: Frame(number as u64 * frames_in(below) + taken.base.0),
        probes: taken.probes + number + 1,
    }
}
