// The line of an entry, as document 01 prints it.
ghost use Rattle.std.specs.Prelude.{◌+◌, ◌*◌, ◌≤◌, length};
ghost use Rattle.journal.specs.Lines.{decimal, spaced, printed, line_text, Put, Appends};

use crate::Line;

/// How many bytes a line has at most: a report's.
pub const LINE: usize = 133;

// Puts a text at an index, and answers the index behind it.
#[tactic(auto, using(crate::proofs::Lines::middle))]
fn put(out: &mut [u8], at: usize, text: &[u8]) -> usize
    requires { at + length text.now ≤ length out.old }
    ensures { Put out.old at text.now result out.new }
{
    let end = at + text.len();
    out[at..end].copy_from_slice(text);
    end
}

// Puts a number in decimal.
#[tactic(auto, using(crate::proofs::Lines::fewest_decimal))]
fn put_decimal(out: &mut [u8], at: usize, number: u64) -> usize
    requires { at + 20 ≤ length out.old }
    ensures upper_bound { result ≤ at + 20 }
    ensures put { Put out.old at (decimal number) result out.new }
{
    let mut digits = [0u8; 20];
    let count = io::decimal(number, &mut digits);
    put(out, at, &digits[..count])
}

// Puts numbers, a space before each.
fn put_numbers(out: &mut [u8], at: usize, numbers: &[u64]) -> usize
    requires { at + 21 * length numbers.now ≤ length out.old }
    ensures upper_bound { result ≤ at + 21 * length numbers.now }
    ensures put { Put out.old at (spaced numbers.now) result out.new }
{
    let mut next = at;
    for number in numbers {
        next = put(out, next, b" ");
        next = put_decimal(out, next, *number);
    }
    next
}

// Puts the line of an entry of this number, name, refusal number and results.
fn put_line(out: &mut [u8], at: usize, number: u64, name: &[u8], numbers: &[u64]) -> usize
    requires { at + 22 + length name.now + 21 * length numbers.now ≤ length out.old }
    ensures upper_bound { result ≤ at + 22 + length name.now + 21 * length numbers.now }
    ensures put { Put out.old at (printed number name.now numbers.now) result out.new }
{
    let mut next = put_decimal(out, at, number);
    next = put(out, next, b" ");
    next = put(out, next, name);
    next = put_numbers(out, next, numbers);
    put(out, next, b"\n")
}

/// Puts the line of an entry behind the first bytes of out, where there is room for the longest line, and answers the index behind it.
#[tactic(auto, unfolding(crate::specs::Lines::line_text))]
pub fn line_text(number: u64, line: Line, out: &mut [u8], at: usize) -> usize
    ensures { Appends out.old at (line_text number line) result out.new }
{
    if out.len() < LINE || at > out.len() - LINE {
        return at;
    }
    match line {
        Line::Seed(refusal) => put_line(out, at, number, b"seed", &[u64::from(refusal)]),
        Line::Acquire(refusal, base, probes) => {
            let numbers = [u64::from(refusal), base.0, probes as u64];
            put_line(out, at, number, b"acquire", &numbers)
        }
        Line::Release(refusal) => put_line(out, at, number, b"release", &[u64::from(refusal)]),
        Line::Report(refusal, seeded, free, largest, used) => {
            let refused = u64::from(refusal);
            let numbers = [refused, seeded, free, largest as u64, used as u64];
            put_line(out, at, number, b"report", &numbers)
        }
        Line::Bad(refusal) => put_line(out, at, number, b"bad", &[u64::from(refusal)]),
        Line::End => at,
    }
}
