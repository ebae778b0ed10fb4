//! The time of one operation, in picoseconds.
use crate::lap::Lap;
use std::io;

/// The time of one of so many operations. An error where not all were done, or the clock couldn't be read.
pub fn picos(lap: Lap, rounds: u32) -> io::Result<u64> {
    match lap.took {
        Some(took) if lap.complete => {
            let nanos = u64::try_from(took.as_nanos()).unwrap_or(u64::MAX);
            Ok(nanos.saturating_mul(1000) / u64::from(rounds.max(1)))
        }
        _ => Err(io::Error::from(io::ErrorKind::Other)),
    }
}

/// The median of several times. 0: there is none.
pub fn median(mut all: Vec<u64>) -> io::Result<u64> {
    all.sort()?;
    Ok(all.get(all.len() / 2).copied().unwrap_or(0))
}
