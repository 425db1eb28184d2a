// The list, as it is read: bytes, and numbers of seven bits a byte, the lowest first, where all bytes but the last have their
// high bit set.
use crate::stop::Stop;
use std::io;
use std::io::Read;

/// Where the list comes from.
#[derive(Drop)]
pub struct List<R> {
    pub input: R,
}

impl<R: Read> List<R> {
    /// The next byte, or none where the list has ended.
    pub fn byte(&mut self) -> io::Result<Option<u8>> {
        let mut byte = [0];
        let count = self.input.read(&mut byte)?;
        Ok((count == 1).then_some(byte[0]))
    }

    /// The next byte of a record, which the list must have.
    pub fn next_byte(&mut self) -> Result<u8, Stop> {
        self.byte()?.ok_or(Stop::BadList)
    }

    /// The next number; the list is wrong where it is cut short, or longer than ten bytes.
    pub fn number(&mut self) -> Result<u64, Stop> {
        let mut number = 0;
        // Ten bytes hold 64 bits; what the tenth has above them is dropped.
        for place in 0..10u32 {
            let byte = self.next_byte()?;
            number |= u64::from(byte & 127) << (7 * place);
            if byte < 128 {
                return Ok(number);
            }
        }
        Err(Stop::BadList)
    }

    /// The next numbers, as many as the array has places.
    pub fn numbers<const N: usize>(&mut self) -> Result<[u64; N], Stop> {
        let mut numbers = [0; N];
        for number in &mut numbers {
            *number = self.number()?;
        }
        Ok(numbers)
    }
}
