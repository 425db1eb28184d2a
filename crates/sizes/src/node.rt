// Nodes and their children: which child holds an address, where a child lies, and which page a region's address starts.
ghost use Rattle.std.specs.Prelude.{◌≡◌};
ghost use Rattle.sizes.specs.Ladder.{child_index, child_address, child_size, largest_at, fits};
ghost use Rattle.sizes.specs.Six.{six};
ghost use Rattle.sizes.specs.Size.{code_of, code_or_none};
ghost use Rattle.sizes.specs.Child.{address_or_0, code_or_0};

use crate::codes;
use crate::page_size::PageSize;
use crate::units::Address;

/// A child of a node: its base address and its size.
#[derive(Clone, Copy, Debug, PartialEq, Eq)]
pub struct Child {
    pub address: Address,
    pub size: PageSize,
}

/// The number of the child that holds the address, of a node of the size at base; 0 where there is no child or the address lies below base.
pub fn calculate_child_index(base: Address, size: usize, address: Address) -> usize
    ensures { result ≡ child_index six base.0 size address.0 }
{
    let child = codes::in_bytes(codes::smaller(size));
    if child == 0 {
        return 0;
    }
    (address.0.saturating_sub(base.0) / child) as usize
}

/// The base address and the size of the child at the index, of a node of the size at base, where there is such a child.
pub fn child_address_and_size(base: Address, size: usize, index: usize) -> Option<Child>
    ensures address { address_or_0 result ≡ child_address six base.0 size index }
    ensures size { code_or_0 result ≡ child_size six base.0 size index }
{
    let node = PageSize::try_from(size as u64).ok()?;
    let below = node.smaller()?;
    let last = PageSize::LARGEST.in_bytes() - node.in_bytes();
    if index < node.number_of_smaller_pages() && base.0 <= last {
        return Some(Child {
            address: Address(base.0 + (index as u64) * below.in_bytes()),
            size: below,
        });
    }
    None
}

// Whether a page of the size is aligned at the address and ends at or before end. No sum is taken: it may not fit.
#[tactic(auto, unfolding(crate::specs::Ladder::fits))]
fn fits_at(size: PageSize, address: Address, end: Address) -> bool
    ensures { result ≡ fits six address.0 end.0 (code_of size) }
{
    let bytes = size.in_bytes();
    address.0 % bytes == 0 && bytes <= end.0.saturating_sub(address.0)
}

/// The largest size whose page is aligned at the address and ends at or before end, where there is one.
pub fn find_largest_page_size(address: Address, end: Address) -> Option<PageSize>
    ensures { code_or_none result ≡ largest_at six address.0 end.0 }
{
    PageSize::ALL
        .iter()
        .rev()
        .copied()
        .find(|size| fits_at(*size, address, end))
}
