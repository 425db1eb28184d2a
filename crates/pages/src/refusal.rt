// Why a call is refused: a name for each refusal number of the C header.
ghost use Rattle.std.specs.Prelude.{◌≡◌, Some};
ghost use Rattle.pages.specs.Answers.{number_of, refusal_text};
ghost use Rattle.pages.specs.declared.refusal.Refusal.TheVariants.{BadCode};

use sizes::UnknownSize;
use std::error::Error;
use std::fmt;

/// Why a call is refused. A refused call changes nothing.
#[derive(Clone, Copy, Debug, PartialEq, Eq)]
pub enum Refusal {
    /// The size code is none of the six.
    BadCode = 1,
    /// An address is no multiple of the page's size, or a region has no page.
    BadAlignment = 2,
    /// The page or region would end above memory.
    PastTheEnd = 3,
    /// A part of the region is seeded already.
    Overlap = 4,
    /// There are as many regions as there may be.
    RegionsFull = 5,
    /// A part of the page was never seeded.
    NotSeeded = 6,
    /// A part of the page is free already.
    AlreadyFree = 7,
    /// No free page of that size.
    OutOfPages = 8,
    /// The pool has too few words left.
    OutOfRoom = 9,
    /// State and pool are not sound.
    Unsound = 10,
    /// The pool has no words, or too many.
    BadPool = 11,
}

impl Refusal {
    /// The number that the C header gives it.
    pub fn number(self) -> u32
        ensures { result ≡ number_of self }
    {
        self as u32
    }
}

/// A number that is no code is refused.
impl From<UnknownSize> for Refusal {
    ghost from_gives = { λ _ refusal. refusal ≡ BadCode };

    fn from(_size: UnknownSize) -> Refusal {
        Refusal::BadCode
    }
}

impl fmt::Display for Refusal {
    ghost output = { λ refusal. Some (refusal_text refusal) };

    fn fmt<W: fmt::Write>(&self, f: &mut fmt::Formatter<W>) -> fmt::Result {
        match self {
            Refusal::BadCode => write!(f, "no size has that code"),
            Refusal::BadAlignment => write!(f, "not aligned, or empty"),
            Refusal::PastTheEnd => write!(f, "past the end of memory"),
            Refusal::Overlap => write!(f, "seeded already"),
            Refusal::RegionsFull => write!(f, "no place for a further region"),
            Refusal::NotSeeded => write!(f, "never seeded"),
            Refusal::AlreadyFree => write!(f, "free already"),
            Refusal::OutOfPages => write!(f, "no free page of that size"),
            Refusal::OutOfRoom => write!(f, "too few pool words are left"),
            Refusal::Unsound => write!(f, "state and pool are not sound"),
            Refusal::BadPool => write!(f, "a pool of no words, or of too many"),
        }
    }
}

impl Error for Refusal {}
