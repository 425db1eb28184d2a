// The calls on a store since it was begun.
ghost use Rattle.std.specs.Prelude.{◌≡◌, ◌≤◌, length, take};

use crate::answer::Answer;
use crate::call::Call;
use crate::digest::Digest;
use crate::store::Store;

// How long a pool may be to be taken whole into the digest after each call.
const SMALL: usize = 4096;

// How many words behind those in use are taken of a longer one.
const BEHIND: usize = 3072;

/// A store, how many calls were made on it, and the digest of their answers.
#[derive(Clone, Copy)]
pub struct Run {
    pub store: Store,
    pub calls: u64,
    pub digest: Digest,
}

// The words of a pool that the digest takes after a call: all, or those in use and some behind them.
fn reach(pool: &[u32], used: usize) -> &[u32]
    ensures fits { length result.now ≤ length pool.now }
    ensures first { result.now ≡ take (length result.now) pool.now }
{
    if pool.len() <= SMALL {
        return pool;
    }
    let reach = used.saturating_add(BEHIND);
    pool.get(..reach).unwrap_or(pool)
}

impl Run {
    /// A store with no calls yet.
    pub fn new(store: Store) -> Run {
        Run {
            store,
            calls: 0,
            digest: Digest::NONE,
        }
    }

    /// Makes a call, and adds the answer to the digest: refusal, results, state, pool words.
    pub fn make(&mut self, pool: &mut [u32], call: Call) -> Answer {
        let answer = self.store.make(pool, call);
        let state = self.store.state;
        self.calls = self.calls.wrapping_add(1);
        self.digest = self
            .digest
            .with(answer.refusal())
            .with_all(&answer.results())
            .with_state(state)
            .with_words(reach(pool, state.used));
        answer
    }
}
