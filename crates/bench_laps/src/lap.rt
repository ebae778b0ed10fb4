//! What one thread did, and how long it took.
use std::io;
use std::time::{Duration, Instant};

/// Whether all was done, and the time. No time: the clock couldn't be read.
#[derive(Clone, Copy)]
pub struct Lap {
    pub complete: bool,
    pub took: Option<Duration>,
}

impl Lap {
    /// Nothing to do, in no time.
    pub const NONE: Lap = Lap {
        complete: true,
        took: Some(Duration::ZERO),
    };

    /// What was done between two readings of the clock.
    pub fn between(begin: io::Result<Instant>, end: io::Result<Instant>, complete: bool) -> Lap {
        let took = match (begin, end) {
            (Ok(begin), Ok(end)) => Some(end.duration_since(begin)),
            _ => None,
        };
        Lap { complete, took }
    }

    /// Whether both did all, and the longer time.
    pub fn beside(self, other: Lap) -> Lap {
        let took = match (self.took, other.took) {
            (Some(a), Some(b)) => Some(if a < b { b } else { a }),
            _ => None,
        };
        let complete = self.complete && other.complete;
        Lap { complete, took }
    }
}
