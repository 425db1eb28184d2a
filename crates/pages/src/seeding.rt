// A seed's blocks: the largest that fits at each frame, one after the other.
ghost use Rattle.std.specs.Prelude.{◌≡◌, ◌-◌};
ghost use Rattle.sizes.specs.Six.{six};
ghost use Rattle.pool.specs.Nodes.{words, seed_w};
ghost use Rattle.pool.specs.Asks.{SpanAsk};

use crate::checked::ROOT;
use crate::ladder::{frames_in, largest_fit};
use crate::node::store_page_token;
use crate::span::Span;
use sizes::{Frame, PageSize};

// Stores the frames of a span, and answers the used count.
pub fn store_span(pool: &mut [u32], used: usize, span: Span) -> usize
    requires { SpanAsk pool.old used span.start.0 span.end.0 }
    ensures pool { pool.new ≡ (seed_w six (span.end.0 - span.start.0) (words pool.old used)
        span.start.0 span.end.0).pool }
    ensures used { result ≡ (seed_w six (span.end.0 - span.start.0) (words pool.old used)
        span.start.0 span.end.0).used }
{
    let mut at = span.start.0;
    let mut last = used;
    while at < span.end.0 {
        let size = largest_fit(Frame(at), span.end);
        last = store_page_token(pool, last, ROOT, PageSize::LARGEST, Frame(at), size);
        at += frames_in(size);
    }
    last
}
