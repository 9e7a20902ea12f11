//! How long calls took.
use std::fmt;
use std::fmt::{Display, Formatter, Write};

/// The times of several calls, in nanoseconds.
#[derive(Clone, Copy, Debug, PartialEq, Eq)]
pub struct Times {
    count: u64,
    sum: u128,
    longest: u128,
}

impl Times {
    /// Of no call.
    pub fn new() -> Times {
        Times {
            count: 0,
            sum: 0,
            longest: 0,
        }
    }

    /// Notes the time of one call more.
    pub fn note(&mut self, nanos: u128) {
        self.count = self.count.saturating_add(1);
        self.sum = self.sum.saturating_add(nanos);
        self.longest = self.longest.max(nanos);
    }

    fn mean(&self) -> u128 {
        self.sum / u128::from(self.count.max(1))
    }
}

impl Display for Times {
    fn fmt<W: Write>(&self, out: &mut Formatter<W>) -> fmt::Result {
        write!(
            out,
            "{} calls, {} ns each, the longest {} ns",
            self.count,
            self.mean(),
            self.longest
        )
    }
}
