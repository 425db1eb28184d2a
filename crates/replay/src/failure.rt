// Why a replay stops before its end.
use std::{fmt, io};

/// Why a replay stops before its end. What was read whole before it has its lines, but where they cannot be written.
#[derive(Debug, Drop)]
pub enum Failure {
    /// Standard input cannot be read.
    Input(io::Error),
    /// Standard output cannot be written.
    Output(io::Error),
    /// The journal has more entries than there are numbers for them.
    TooLong,
}

impl fmt::Display for Failure {
    fn fmt<W: fmt::Write>(&self, f: &mut fmt::Formatter<W>) -> fmt::Result {
        match self {
            Failure::Input(error) => write!(f, "standard input: {error}"),
            Failure::Output(error) => write!(f, "standard output: {error}"),
            Failure::TooLong => write!(f, "standard input: more entries than there are numbers"),
        }
    }
}
