// The page sizes, with the original's names. Their bytes and fan-outs stand in constant arrays, indexed by a size's code.
ghost use Rattle.std.specs.Prelude.{◌≡◌, ◌-◌, ◌≤◌, Some};
ghost use Rattle.sizes.specs.Ladder.{bytes, fan_out, smaller as smaller_of, larger as larger_of};
ghost use Rattle.sizes.specs.Six.{six, most_bytes, most_children};
ghost use Rattle.sizes.specs.Size.{Decodes, code_of, code_or_none, unknown_text};

use std::error::Error;
use std::fmt;

/// The size of a page. A size's code is its number here; the order of the codes is that of the sizes.
#[derive(Clone, Copy, Debug, PartialEq, Eq, PartialOrd, Ord, Hash)]
pub enum PageSize {
    Size4KiB = 1,
    /// The RISC-V root table of a guest has this size; no page table entry does.
    Size16KiB = 2,
    Size2MiB = 3,
    Size1GiB = 4,
    Size512GiB = 5,
    Size128TiB = 6,
}

/// A number that is the code of no size.
#[derive(Clone, Copy, Debug, PartialEq, Eq, Hash)]
pub struct UnknownSize(pub u64);

impl fmt::Display for UnknownSize {
    ghost output = { λ unknown. Some (unknown_text unknown.0) };

    fn fmt<W: fmt::Write>(&self, f: &mut fmt::Formatter<W>) -> fmt::Result {
        write!(f, "no page size has code {}", self.0)
    }
}

impl Error for UnknownSize {}

/// The size with a code.
impl TryFrom<u64> for PageSize {
    type Error = UnknownSize;

    ghost try_from_gives = { Decodes };

    fn try_from(code: u64) -> Result<Self, UnknownSize> {
        match code {
            1 => Ok(PageSize::Size4KiB),
            2 => Ok(PageSize::Size16KiB),
            3 => Ok(PageSize::Size2MiB),
            4 => Ok(PageSize::Size1GiB),
            5 => Ok(PageSize::Size512GiB),
            6 => Ok(PageSize::Size128TiB),
            _ => Err(UnknownSize(code)),
        }
    }
}

const CODES: usize = 7;

// Code 0 is no size.
pub(crate) const BYTES: [u64; CODES] = [
    0,
    4096,
    16384,
    2097152,
    1073741824,
    549755813888,
    140737488355328,
];

const FAN_OUT: [usize; CODES] = [0, 0, 4, 128, 512, 512, 256];

impl PageSize {
    pub const SMALLEST: PageSize = PageSize::Size4KiB;

    pub const LARGEST: PageSize = PageSize::Size128TiB;

    /// All sizes, the smallest first.
    pub const ALL: [PageSize; 6] = [
        PageSize::Size4KiB,
        PageSize::Size16KiB,
        PageSize::Size2MiB,
        PageSize::Size1GiB,
        PageSize::Size512GiB,
        PageSize::Size128TiB,
    ];

    /// The size's code: 1 for the smallest, 6 for the largest.
    pub fn code(self) -> usize
        ensures { result ≡ code_of self }
    {
        self as usize
    }

    /// How many bytes a page of the size has.
    pub fn in_bytes(self) -> u64
        ensures exact { result ≡ bytes six (code_of self) }
        ensures some { 1 ≤ result }
        ensures most { result ≤ most_bytes }
    {
        BYTES[self as usize]
    }

    /// How many pages of the next smaller size a page has.
    pub fn number_of_smaller_pages(self) -> usize
        ensures exact { result ≡ fan_out six (code_of self) }
        ensures most { result ≤ most_children }
    {
        FAN_OUT[self as usize]
    }

    /// The next smaller size.
    pub fn smaller(self) -> Option<PageSize>
        ensures exact { code_or_none result ≡ smaller_of six (code_of self) }
        ensures below { code_or_none result ≡ code_of self - 1 }
    {
        match self {
            PageSize::Size4KiB => None,
            PageSize::Size16KiB => Some(PageSize::Size4KiB),
            PageSize::Size2MiB => Some(PageSize::Size16KiB),
            PageSize::Size1GiB => Some(PageSize::Size2MiB),
            PageSize::Size512GiB => Some(PageSize::Size1GiB),
            PageSize::Size128TiB => Some(PageSize::Size512GiB),
        }
    }

    /// The next larger size.
    pub fn larger(self) -> Option<PageSize>
        ensures { code_or_none result ≡ larger_of six (code_of self) }
    {
        match self {
            PageSize::Size4KiB => Some(PageSize::Size16KiB),
            PageSize::Size16KiB => Some(PageSize::Size2MiB),
            PageSize::Size2MiB => Some(PageSize::Size1GiB),
            PageSize::Size1GiB => Some(PageSize::Size512GiB),
            PageSize::Size512GiB => Some(PageSize::Size128TiB),
            PageSize::Size128TiB => None,
        }
    }
}
