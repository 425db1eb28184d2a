// Are state and pool sound? A walk goes down from the root, tests each node and counts the words of
// the blocks that it enters; a sweep goes over the blocks. On any words and any numbers.
ghost use Rattle.std.specs.Prelude.{◌≡◌, ◌≢◌, ◌↔◌, ℕ, ◌+◌, ◌-◌, ◌≤◌, ◌<◌, length, ltb, unwrap_or, IfSome, IfNone, IsTrue};
ghost use Rattle.sizes.specs.Six.{six, most_code};
ghost use Rattle.sizes.specs.Size.{code_of};
ghost use Rattle.pool.specs.Limits.{places, pool_limit};
ghost use Rattle.pool.specs.Words.{word as word_at, level_of, link_of, fan_out_of, frames_of};
ghost use Rattle.pool.specs.Regions.{regions_of};
ghost use Rattle.pool.specs.Check.{sweep as sweep_of, marks_pass, in_regions};
ghost use Rattle.pages.specs.Sound.{Sound};

use crate::children::{all_have_tokens, children, largest_max};
use crate::ladder::{children_in, frames_in};
use crate::span::Span;
use crate::state::State;
use crate::word::Node;
use sizes::{Frame, PageSize, Place};

/// The most words of a pool.
pub const POOL_LIMIT: usize = 1048576;

/// What is checked: the pool, and the state that says how many of its words are in use.
#[derive(Clone, Copy)]
struct Walk<'a> {
    state: &'a State,
    pool: &'a [u32],
    ghost within: { state.now.used ≤ length pool.now },
}

/// Whether a node keeps the rules of max and token, by its children's largest max and whether they
/// all have tokens.
#[tactic(auto, using(crate::proofs::Walked::marks))]
fn marks_pass(node: Node, size: PageSize, largest: u32, all: bool) -> bool
    ensures { result ≡ marks_pass (code_of size) node.0 largest all }
{
    if node.has_token() {
        node.max() as usize == size.code() && largest == 0
    } else {
        node.max() == largest && !all
    }
}

impl Walk<'_> {
    ghost use Rattle.pages.specs.Walk.{InMemory, IsBlock, MayEnter, used_of, passes_at, grown_below, grown_below_children};

    /// How many words the block at a place has, its header among them; none, where no block begins
    /// there or it would not end within used.
    fn block_words(&self, block: Place) -> Option<usize>
        requires { block.0 < used_of self.now }
        ensures whole { IfSome result
            (IsBlock self.now.pool.now (used_of self.now) block.0) }
        ensures broken { IfNone result
            ((words : ℕ) → ¬ IsBlock self.now.pool.now (used_of self.now) block.0 words) }
    {
        let parent = self.pool[block.0] as usize;
        if parent >= block.0 {
            return None;
        }
        let node = Node::at(self.pool, Place(parent));
        let size = PageSize::try_from(node.level() as u64).ok()?;
        if node.link() != block.0 || size == PageSize::SMALLEST {
            return None;
        }
        let words = children_in(size) + 1;
        (words <= self.state.used - block.0).then_some(words)
    }

    /// Whether the words from place 1 up to used are whole blocks.
    #[tactic(auto, using(crate::proofs::Walked::sweeps))]
    fn sweep(&self) -> bool
        requires { 1 ≤ used_of self.now }
        ensures { result
            ≡ sweep_of (fan_out_of six) self.now.pool.now most_code (used_of self.now - 1) 1 0 }
    {
        let mut block: usize = 1;
        while block < self.state.used {
            let Some(words) = self.block_words(Place(block)) else {
                return false;
            };
            block += words;
        }
        true
    }

    /// Whether a token's block lies in the union of the regions. A node without a token has none.
    #[tactic(auto, using(crate::proofs::Walked::regions))]
    fn in_regions(&self, node: Node, size: PageSize, base: Frame) -> bool
        requires { InMemory size base.0 }
        ensures { result ≡ in_regions
            (regions_of six self.now.state.now.starts self.now.state.now.ends)
            node.0 base.0 (frames_of six (code_of size)) }
    {
        !node.has_token() || self.state.covers(Span::block(base, frames_in(size)))
    }

    /// Whether the node at a place keeps the rules of max and token.
    // Most nodes are unopened: where it is inlined, a few tests are left of it there.
    #[inline]
    #[tactic(auto, using(crate::proofs::Walked::node_rules))]
    fn passes(&self, place: Place, size: PageSize, base: Frame) -> bool
        requires placed { place.0 < used_of self.now }
        requires based { InMemory size base.0 }
        requires opened { link_of (word_at self.now.pool.now place.0) ≢ 0 → 2 ≤ code_of size }
        requires fits { link_of (word_at self.now.pool.now place.0) ≢ 0
            → link_of (word_at self.now.pool.now place.0) + fan_out_of six (code_of size)
            < used_of self.now }
        ensures { result ≡ passes_at self.now (code_of size) place.0 base.0 }
    {
        let node = Node::at(self.pool, place);
        if !self.in_regions(node, size, base) {
            return false;
        }
        match node.children() {
            None => marks_pass(node, size, 0, false),
            Some(first) => {
                let below = children(self.pool, first, size);
                marks_pass(node, size, largest_max(below), all_have_tokens(below))
            }
        }
    }

    /// Whether the child block of the node at a place may be entered with the count. The node has
    /// one, and its level is that of the size.
    fn may_enter(&self, place: Place, size: PageSize, count: usize) -> bool
        requires placed { place.0 < used_of self.now }
        requires counted { count < used_of self.now }
        requires level { level_of (word_at self.now.pool.now place.0) ≡ code_of size }
        requires opened { 1 ≤ link_of (word_at self.now.pool.now place.0) }
        ensures { IsTrue result ↔ MayEnter self.now (code_of size) place.0 count }
    {
        if size == PageSize::SMALLEST {
            return false;
        }
        let block = Node::at(self.pool, place).link();
        let children = children_in(size);
        place.0 < block
            && block + children < self.state.used
            && self.pool[block] as usize == place.0
            && count + children + 1 < self.state.used
    }

    /// The count, grown by the words of all blocks below the node at a place; none, where a rule is
    /// broken or the count would come to used.
    // Inlined into its block's loop: a call for each node costs more than its tests.
    #[inline(always)]
    #[cycle(check)]
    #[tactic(auto, using(crate::proofs::Walked::walks))]
    fn node_check(&self, place: Place, size: PageSize, base: Frame, count: usize) -> Option<usize>
        requires placed { place.0 < used_of self.now }
        requires based { InMemory size base.0 }
        requires counted { count < used_of self.now }
        ensures exact { unwrap_or result (used_of self.now)
            ≡ grown_below self.now (code_of size) place.0 base.0 count }
        ensures below { IfSome result (λ grown. grown < used_of self.now) }
    {
        let node = Node::at(self.pool, place);
        if node.level() != size.code() {
            return None;
        }
        let Some(first) = node.children() else {
            return self.passes(place, size, base).then_some(count);
        };
        if !self.may_enter(place, size, count) || !self.passes(place, size, base) {
            return None;
        }
        self.block_check(first, size, base, count + children_in(size) + 1)
    }

    /// The same for all children of a node of the size, from the first one's place and the node's
    /// first frame on.
    #[cycle(check)]
    #[tactic(auto, using(crate::proofs::Walked::block_walks))]
    fn block_check(&self, first: Place, size: PageSize, base: Frame, count: usize) -> Option<usize>
        requires opened { 2 ≤ code_of size }
        requires placed { first.0 + fan_out_of six (code_of size) ≤ used_of self.now }
        requires based { InMemory size base.0 }
        requires counted { count < used_of self.now }
        ensures exact { unwrap_or result (used_of self.now)
            ≡ grown_below_children self.now (code_of size) first.0 base.0 count }
        ensures below { IfSome result (λ grown. grown < used_of self.now) }
    {
        let below = size.smaller()?;
        let frames = frames_in(below);
        let mut grown = count;
        for number in 0..children_in(size) {
            let child = Place(first.0 + number);
            let start = Frame(base.0 + number as u64 * frames);
            grown = self.node_check(child, below, start, grown)?;
        }
        Some(grown)
    }
}

/// Whether state and pool are sound.
#[tactic(auto, using(crate::proofs::Decided::decides))]
pub fn sound(state: &State, pool: &[u32]) -> bool
    ensures { IsTrue result
        ↔ Sound six ltb places pool_limit state.now.used state.now.starts state.now.ends pool.now }
{
    if state.used == 0 || state.used > pool.len() || pool.len() > POOL_LIMIT {
        return false;
    }
    if !state.regions_pass() {
        return false;
    }
    let walk = Walk { state, pool };
    walk.node_check(Place(0), PageSize::LARGEST, Frame(0), 0) == Some(state.used - 1)
        && walk.sweep()
}
