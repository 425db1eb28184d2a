// Why a list is not read to its end.
use std::io;

/// Why the records stop before the end of the list.
#[derive(Drop)]
pub enum Stop {
    /// A record is wrong, or cut short.
    BadList,
    /// A read or a write fails.
    Io(io::Error),
}

impl From<io::Error> for Stop {
    fn from(error: io::Error) -> Stop {
        Stop::Io(error)
    }
}
