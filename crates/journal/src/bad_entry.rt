// Why bytes are no entry: a name for each refusal number of the journal.
ghost use Rattle.std.specs.Prelude.{◌≡◌, Some};
ghost use Rattle.journal.specs.Entries.{bad_number, bad_text};

use std::error::Error;
use std::fmt;

/// Why bytes are no entry. Nothing behind them is read.
#[derive(Clone, Copy, Debug, PartialEq, Eq)]
pub enum BadEntry {
    /// The first byte is no kind of entry.
    UnknownKind = 12,
    /// The journal ends in the entry's body.
    CutShort = 13,
}

impl BadEntry {
    /// The refusal number that the entry's line prints.
    pub fn number(self) -> u32
        ensures { result ≡ bad_number self }
    {
        self as u32
    }
}

impl fmt::Display for BadEntry {
    ghost output = { λ bad. Some (bad_text bad) };

    fn fmt<W: fmt::Write>(&self, f: &mut fmt::Formatter<W>) -> fmt::Result {
        match self {
            BadEntry::UnknownKind => write!(f, "no entry has that kind"),
            BadEntry::CutShort => write!(f, "the entry is cut short"),
        }
    }
}

impl Error for BadEntry {}
