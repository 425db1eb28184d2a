// What the calls answer beside the state.
use sizes::{Address, PageSize};

/// The answer of an acquire.
#[derive(Clone, Copy, Debug, PartialEq, Eq)]
pub struct Dealt {
    /// The page's base.
    pub base: Address,
    /// How many children were looked at.
    pub probes: usize,
}

/// The answer of a report.
#[derive(Clone, Copy, Debug, PartialEq, Eq)]
pub struct Report {
    /// The bytes of all regions.
    pub seeded: u64,
    /// How many of them are free.
    pub free: u64,
    /// The size of the largest free page.
    pub largest: Option<PageSize>,
    /// How many of the pool's words are used.
    pub used: usize,
}
