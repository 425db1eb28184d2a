// Page sizes by bare code, on any number: 0 stands for no size.
ghost use Rattle.std.specs.Prelude.{◌≡◌, ◌≤◌};
ghost use Rattle.sizes.specs.Ladder.{bytes, fan_out, largest as largest_of, smallest as smallest_of, code as code_of_number, smaller as smaller_of, larger as larger_of};
ghost use Rattle.sizes.specs.Six.{six, most_code, most_bytes, most_children};
ghost use Rattle.sizes.specs.Size.{code_or_none};

use crate::page_size::{BYTES, PageSize};

// The size with a code, if the number is one.
fn sized(code: usize) -> Option<PageSize>
    ensures { code_or_none result ≡ code_of_number six code }
{
    PageSize::try_from(code as u64).ok()
}

// The code of a size, 0 for none.
fn code_or_zero(size: Option<PageSize>) -> usize
    ensures exact { result ≡ code_or_none size }
    ensures most { result ≤ most_code }
{
    size.map_or(0, PageSize::code)
}

/// A caller's number as a size code, or 0.
pub fn code(number: u64) -> usize
    ensures exact { result ≡ code_of_number six number }
    ensures most { result ≤ most_code }
{
    code_or_zero(PageSize::try_from(number).ok())
}

/// How many bytes a page of the size has, 0 for no size.
pub fn in_bytes(size: usize) -> u64
    ensures exact { result ≡ bytes six size }
    ensures most { result ≤ most_bytes }
{
    BYTES.get(size).copied().unwrap_or(0)
}

/// The next smaller size, 0 for none.
pub fn smaller(size: usize) -> usize
    ensures exact { result ≡ smaller_of six size }
    ensures most { result ≤ most_code }
{
    code_or_zero(sized(size).and_then(PageSize::smaller))
}

/// The next larger size, 0 for none.
pub fn larger(size: usize) -> usize
    ensures exact { result ≡ larger_of six size }
    ensures most { result ≤ most_code }
{
    code_or_zero(sized(size).and_then(PageSize::larger))
}

/// How many pages of the next smaller size a page has, 0 for no size.
pub fn number_of_smaller_pages(size: usize) -> usize
    ensures exact { result ≡ fan_out six size }
    ensures most { result ≤ most_children }
{
    sized(size).map_or(0, PageSize::number_of_smaller_pages)
}

/// The code of the largest size.
pub fn largest() -> usize
    ensures exact { result ≡ largest_of six }
    ensures most { result ≤ most_code }
{
    PageSize::LARGEST.code()
}

/// The code of the smallest size.
pub fn smallest() -> usize
    ensures { result ≡ smallest_of }
{
    PageSize::SMALLEST.code()
}
