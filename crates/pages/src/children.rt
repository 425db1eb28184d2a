// The children of a node: the part of the pool where they stand, a word each.
ghost use Rattle.std.specs.Prelude.{◌≡◌, ℕ, ◌+◌, ◌≤◌, ◌<◌, length, leb, map};
ghost use Rattle.sizes.specs.Six.{six};
ghost use Rattle.sizes.specs.Size.{code_of};
ghost use Rattle.model.specs.Lists.{maximum, all, first};
ghost use Rattle.pool.specs.Nodes.{with_marks};
ghost use Rattle.pool.specs.Words.{max_of, has_token, run, fan_out_of};

use crate::ladder::children_in;
use crate::word::Node;
use sizes::{PageSize, Place};

/// The children of a node of the size, from the first one's place on.
pub fn children(pool: &[u32], first: Place, size: PageSize) -> &[u32]
    requires opened { 2 ≤ code_of size }
    requires within { first.0 + fan_out_of six (code_of size) ≤ length pool.now }
    ensures { result.now ≡ run pool.now first.0 (fan_out_of six (code_of size)) }
{
    &pool[first.0..first.0 + children_in(size)]
}

/// The largest max of the children, kept in the words' own type: the loop is then vectorised.
#[tactic(auto, using(crate::proofs::Runs::looks))]
pub fn largest_max(children: &[u32]) -> u32
    ensures exact { result ≡ maximum max_of children.now }
    ensures below { result < 8 }
{
    let mut largest = 0;
    for word in children {
        largest = largest.max(Node(*word).max());
    }
    largest
}

/// Whether all children have tokens.
pub fn all_have_tokens(children: &[u32]) -> bool
    ensures { result ≡ all has_token children.now }
{
    children.iter().all(|word| Node(*word).has_token())
}

/// Sets the marks of all children.
#[tactic(auto, using(crate::proofs::Runs::rewrites))]
pub fn mark_all(children: &mut [u32], marks: u32)
    requires { marks < 16 }
    ensures { children.new ≡ map (with_marks marks) children.old }
{
    for word in children.iter_mut() {
        *word = Node(*word).with_marks(marks).0;
    }
}

/// The number of the first child whose max is at least the code of a size; there is one. The loop yields it by `break`, as
/// document 01 asks.
#[tactic(auto, using(crate::proofs::Runs::looks))]
pub fn first_child_with_room(children: &[u32], size: PageSize) -> usize
    requires { first (λ v. leb (code_of size) (max_of v)) children.now < length children.now }
    ensures { result ≡ first (λ v. leb (code_of size) (max_of v)) children.now }
{
    let mut number = 0;
    loop {
        if Node(children[number]).max() as usize >= size.code() {
            break number;
        }
        number += 1;
    }
}
