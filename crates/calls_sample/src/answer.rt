// What the calls answer beside the state, for the lines and the digest.
use pages::{Dealt, Refusal, Report};
use std::fmt;

/// What a call answers.
#[derive(Clone, Copy)]
pub enum Answer {
    /// Of a fresh, a seed or a release.
    Done(Result<(), Refusal>),
    /// Of an acquire.
    Dealt(Result<Dealt, Refusal>),
    /// Of a report.
    Told(Result<Report, Refusal>),
    /// Of a check.
    Sound(bool),
}

impl Answer {
    /// The number of the refusal, 0 where the call is served.
    pub fn refusal(self) -> u64 {
        let refusal = match self {
            Answer::Done(done) => done.err(),
            Answer::Dealt(dealt) => dealt.err(),
            Answer::Told(told) => told.err(),
            Answer::Sound(_) => None,
        };
        refusal.map_or(0, |refusal| u64::from(refusal.number()))
    }

    /// The results of a call that is served, and zeros up to the fourth.
    pub fn results(self) -> [u64; 4] {
        match self {
            Answer::Dealt(Ok(dealt)) => [dealt.base.0, dealt.probes as u64, 0, 0],
            Answer::Told(Ok(report)) => [
                report.seeded,
                report.free,
                report.largest.map_or(0, |size| size.code() as u64),
                report.used as u64,
            ],
            Answer::Sound(sound) => [u64::from(sound), 0, 0, 0],
            _ => [0; 4],
        }
    }
}

// The end of a call's line: the refusal, and as many results as the call has; of a check its verdict alone.
impl fmt::Display for Answer {
    fn fmt<W: fmt::Write>(&self, f: &mut fmt::Formatter<W>) -> fmt::Result {
        let refusal = self.refusal();
        let [first, second, third, fourth] = self.results();
        match self {
            Answer::Done(_) => write!(f, "{refusal}"),
            Answer::Dealt(_) => write!(f, "{refusal} {first} {second}"),
            Answer::Told(_) => write!(f, "{refusal} {first} {second} {third} {fourth}"),
            Answer::Sound(_) => write!(f, "{first}"),
        }
    }
}
