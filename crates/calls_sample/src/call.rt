// The six calls, and what each answers.
use crate::list::List;
use crate::stop::Stop;
use sizes::Address;
use std::fmt;
use std::io::Read;

/// A call on a store.
#[derive(Clone, Copy)]
pub enum Call {
    Fresh,
    Seed { start: Address, end: Address },
    Acquire { code: u64 },
    Release { base: Address, code: u64 },
    Report,
    Check,
}

// The address that a number of the list stands for: its low 52 bits are the frame, so that page-aligned addresses have few bytes.
fn address(number: u64) -> Address {
    Address(number.rotate_left(12))
}

impl Call {
    /// A seed of the region between two addresses, as the list has them.
    pub fn seed(start: u64, end: u64) -> Call {
        Call::Seed {
            start: address(start),
            end: address(end),
        }
    }

    /// A release of the page at an address, as the list has it.
    pub fn release(base: u64, code: u64) -> Call {
        Call::Release {
            base: address(base),
            code,
        }
    }

    /// Reads the arguments of the call that a record's first byte stands for; the list is wrong where it stands for none.
    pub fn read<R: Read>(list: &mut List<R>, kind: u8) -> Result<Call, Stop> {
        match kind {
            10 => Ok(Call::Fresh),
            11 => {
                let [start, end] = list.numbers::<2>()?;
                Ok(Call::seed(start, end))
            }
            12 => {
                let code = list.number()?;
                Ok(Call::Acquire { code })
            }
            13 => {
                let [base, code] = list.numbers::<2>()?;
                Ok(Call::release(base, code))
            }
            14 => Ok(Call::Report),
            15 => Ok(Call::Check),
            _ => Err(Stop::BadList),
        }
    }
}

impl fmt::Display for Call {
    fn fmt<W: fmt::Write>(&self, f: &mut fmt::Formatter<W>) -> fmt::Result {
        let name = match self {
            Call::Fresh => "fresh",
            Call::Seed { .. } => "seed",
            Call::Acquire { .. } => "acquire",
            Call::Release { .. } => "release",
            Call::Report => "report",
            Call::Check => "check",
        };
        write!(f, "{name}")
    }
}
