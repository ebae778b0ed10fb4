//! A releaser that keeps the lengths, for tests.
ghost use Rattle.std.specs.Prelude.{◌≡◌, ◌+◌, ◌-◌, ◌^◌, ◌<◌, ◌≤◌, ◌++◌, ◌∷◌};
ghost use Rattle.std.specs.Prelude.{[], None, Some, vec_len, vec_capacity, min, take, length, IfOk};

use crate::{Memory, Releaser};
use std::alloc::Global;

/// Besides the count and the latest length it keeps the lengths of the first releases, as many as its room.
#[derive(Drop)]
pub struct LogReleaser {
    calls: u64,
    latest: Option<u64>,
    lengths: Vec<u64>,
    ghost kept: { vec_len lengths ≡ min calls (vec_capacity lengths) },
}

impl LogReleaser {
    ghost use Rattle.cord_port.specs.Logs.{log_calls, log_latest, log_lengths, log_room};

    /// A releaser that wasn't called, with room for so many lengths. An error is want of memory.
    pub fn new(alloc: Global, room: usize) -> Result<LogReleaser, Memory>
        ensures calls { IfOk result (λ r. log_calls r ≡ 0) }
        ensures latest { IfOk result (λ r. log_latest r ≡ None) }
        ensures lengths { IfOk result (λ r. log_lengths r ≡ []) }
        ensures room { IfOk result (λ r. log_room r ≡ room) }
    {
        let lengths = Vec::with_capacity(alloc, room)?;
        Ok(LogReleaser {
            calls: 0,
            latest: None,
            lengths,
        })
    }

    /// The lengths of the first releases, in bytes.
    pub fn lengths(&self) -> &[u64]
        ensures lengths { result.now ≡ log_lengths self.now }
        ensures count { length result.now ≡ min (log_calls self.now) (log_room self.now) }
    {
        self.lengths.as_slice()
    }
}

impl Releaser for LogReleaser {
    ghost use Rattle.cord_port.specs.Logs.{log_calls, log_latest, log_lengths, log_room};

    ghost calls_of = { λ r. log_calls r };

    ghost latest_of = { λ r. log_latest r };

    fn release(&mut self, length: u64)
        requires { log_calls self.old < 2 ^ 64 - 1 }
        ensures calls { log_calls self.new ≡ log_calls self.old + 1 }
        ensures latest { log_latest self.new ≡ Some length }
        ensures lengths { log_lengths self.new ≡ take (log_room self.old) (log_lengths self.old ++ length ∷ []) }
        ensures room { log_room self.new ≡ log_room self.old }
    {
        self.calls += 1;
        self.latest = Some(length);
        if self.lengths.len() < self.lengths.capacity() {
            self.lengths.push_reserved(length);
        }
    }

    fn calls(&self) -> u64 {
        self.calls
    }

    fn latest(&self) -> Option<u64> {
        self.latest
    }
}
