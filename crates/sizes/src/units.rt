// Frames, addresses and pool places: three numbers that are not taken for each other. The conversions here are the only crossings.
ghost use Rattle.std.specs.Prelude.{◌≡◌};
ghost use Rattle.sizes.specs.Ladder.{frame_address, address_frame};
ghost use Rattle.sizes.specs.Six.{six};

use crate::page_size::PageSize;

/// The number of a 4 KiB frame.
#[derive(Clone, Copy, Debug, PartialEq, Eq, PartialOrd, Ord, Hash)]
pub struct Frame(pub u64);

/// An address in bytes.
#[derive(Clone, Copy, Debug, PartialEq, Eq, PartialOrd, Ord, Hash)]
pub struct Address(pub u64);

/// A place in the pool. Nothing turns it into a frame or an address.
#[derive(Clone, Copy, Debug, PartialEq, Eq, PartialOrd, Ord, Hash)]
pub struct Place(pub usize);

/// The address of a frame's first byte. A number past the last frame stands for the end of memory.
impl From<Frame> for Address {
    ghost from_gives = { λ frame address. address.0 ≡ frame_address six frame.0 };

    fn from(frame: Frame) -> Address {
        let page = PageSize::SMALLEST.in_bytes();
        let last = PageSize::LARGEST.in_bytes() / page;
        Address(frame.0.min(last) * page)
    }
}

/// The frame that holds an address.
impl From<Address> for Frame {
    ghost from_gives = { λ address frame. frame.0 ≡ address_frame six address.0 };

    fn from(address: Address) -> Frame {
        Frame(address.0 / PageSize::SMALLEST.in_bytes())
    }
}
