// Node words: the fields of a word, and a word with other ones.
ghost use Rattle.std.specs.Prelude.{◌≡◌, ℕ, ◌+◌, ◌*◌, ◌≤◌, ◌<◌, length, IfSome, IfNone};
ghost use Rattle.pool.specs.Limits.{link_limit};
ghost use Rattle.pool.specs.Words.{word as word_at, max_of, level_of, link_of, has_token};
ghost use Rattle.sizes.specs.Size.{code_of};
ghost use Rattle.pool.specs.Nodes.{with_marks};

use sizes::{PageSize, Place};

// What a token, a level and a link of 1 add to a word.
const TOKEN: u32 = 8;

const LEVEL: u32 = 16;

const LINK: u32 = 128;

/// A node word: max + 8·token + 16·level + 128·link.
#[derive(Clone, Copy, Debug, PartialEq, Eq)]
pub struct Node(pub u32);

impl Node {
    /// The node at a place.
    pub fn at(pool: &[u32], place: Place) -> Node
        requires { place.0 < length pool.now }
        ensures { result.0 ≡ word_at pool.now place.0 }
    {
        Node(pool[place.0])
    }

    /// A node of the size that is unopened and offers nothing.
    pub fn new(size: PageSize) -> Node
        ensures { result.0 ≡ 16 * code_of size }
    {
        Node(LEVEL * size.code() as u32)
    }

    /// The code of the largest free block at or below the node, 0 for none.
    pub fn max(self) -> u32
        ensures exact { result ≡ max_of self.0 }
        ensures below { result < 8 }
    {
        self.0 % TOKEN
    }

    /// Whether the node itself is offered whole.
    pub fn has_token(self) -> bool
        ensures { result ≡ has_token self.0 }
    {
        self.0 / TOKEN % 2 == 1
    }

    /// The code of the node's size, as the word has it: any number below 8.
    pub fn level(self) -> usize
        ensures exact { result ≡ level_of self.0 }
        ensures below { result < 8 }
    {
        (self.0 / LEVEL % 8) as usize
    }

    /// The place of the header of the node's child block, 0 if it has none.
    pub fn link(self) -> usize
        ensures exact { result ≡ link_of self.0 }
        ensures below { result < link_limit }
    {
        (self.0 / LINK) as usize
    }

    /// The place of its first child, none if it is not opened.
    pub fn children(self) -> Option<Place>
        ensures opened { IfSome result
            (λ first. (1 ≤ link_of self.0) × (first.0 ≡ link_of self.0 + 1)) }
        ensures unopened { IfNone result (link_of self.0 ≡ 0) }
    {
        match self.link() {
            0 => None,
            block => Some(Place(block + 1)),
        }
    }

    /// The place behind the header of its child block: the first child's, if it is opened.
    pub fn first_child(self) -> Place
        ensures { result.0 ≡ link_of self.0 + 1 }
    {
        Place(self.link() + 1)
    }

    /// The marks of a node of the size that is offered whole.
    pub fn token_marks(size: PageSize) -> u32
        ensures exact { result ≡ 8 + code_of size }
        ensures below { result < 16 }
    {
        TOKEN + size.code() as u32
    }

    /// The node with other marks: its max, and 8 more with a token.
    pub fn with_marks(self, marks: u32) -> Node
        requires { marks < 16 }
        ensures { result.0 ≡ with_marks marks self.0 }
    {
        Node(self.0 / LEVEL * LEVEL + marks)
    }

    /// The node, which is unopened, with a child block whose header stands at a place.
    pub fn opened(self, block: Place) -> Node
        requires { self.0 + 128 * block.0 < 4294967296 }
        ensures { result.0 ≡ self.0 + 128 * block.0 }
    {
        Node(self.0 + LINK * block.0 as u32)
    }
}
