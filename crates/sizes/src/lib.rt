// Page sizes, as the original's `page_size.rs` has them; frames, addresses and pool places; and the small arithmetic of nodes and children.
// Every function answers on any numbers.
#![tactic(auto, unfolding(crate::specs::Ladder::largest, crate::specs::Ladder::bytes, crate::specs::Ladder::fan_out, crate::specs::Ladder::frames, crate::specs::Ladder::code, crate::specs::Ladder::smaller, crate::specs::Ladder::larger, crate::specs::Ladder::child_index, crate::specs::Ladder::is_child, crate::specs::Ladder::child_address, crate::specs::Ladder::child_size, crate::specs::Ladder::frame_address, crate::specs::Ladder::address_frame))]

mod codes;
mod node;
mod page_size;
mod units;

pub use codes::{code, in_bytes, larger, largest, number_of_smaller_pages, smaller, smallest};
pub use node::{Child, calculate_child_index, child_address_and_size, find_largest_page_size};
pub use page_size::{PageSize, UnknownSize};
pub use units::{Address, Frame, Place};
