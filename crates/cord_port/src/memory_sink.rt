//! A sink into memory, for tests.
ghost use Rattle.std.specs.Prelude.{◌≡◌, ◌≤◌, ◌<◌, ◌-◌, ◌↔◌, ◌⊎◌};
ghost use Rattle.std.specs.Prelude.{vec_len, vec_capacity, Some, [], length, min, Contains, IsErr, OnErr, IfOk};
ghost use Rattle.std.specs.Io.{WritesAtMost};
ghost use Rattle.std.specs.Io.KnownBytes.{WriteAppends};
ghost use Rattle.cord_port.specs.Causes.{WriteCause};
ghost use Rattle.cord_port.specs.Calls.{next_call, next_fault};
ghost use Rattle.cord_port.specs.Memories.{sink_bytes, sink_room, sink_most, sink_calls, sink_fails, sink_faults};

use crate::{Failed, Memory, Sink};
use std::alloc::Global;

/// It takes at most `most` bytes in a call. It fails at the calls whose places are listed, counted from 1, and for a
/// piece that isn't empty where no room is left.
#[derive(Drop)]
pub struct MemorySink {
    bytes: Vec<u8>,
    most: usize,
    calls: u32,
    fails: Vec<u32>,
    faults: u64,
}

impl MemorySink {
    /// An empty sink with room for `room` bytes, which takes at most `most` in a call and fails at the calls that `fails` lists, counted from 1.
    pub fn new(
        alloc: Global,
        room: usize,
        most: usize,
        fails: Vec<u32>,
    ) -> Result<MemorySink, Memory>
        ensures bytes { IfOk result (λ s. sink_bytes s ≡ []) }
        ensures room { IfOk result (λ s. sink_room s ≡ room) }
        ensures most { IfOk result (λ s. sink_most s ≡ most) }
        ensures calls { IfOk result (λ s. sink_calls s ≡ 0) }
        ensures fails { IfOk result (λ s. sink_fails s ≡ fails.items) }
        ensures faults { IfOk result (λ s. sink_faults s ≡ 0) }
    {
        let bytes = Vec::with_capacity(alloc, room)?;
        Ok(MemorySink {
            bytes,
            most,
            calls: 0,
            fails,
            faults: 0,
        })
    }

    /// The bytes that it holds.
    pub fn bytes(&self) -> &[u8]
        ensures { result.now ≡ sink_bytes self.now }
    {
        self.bytes.as_slice()
    }
}

impl Sink for MemorySink {
    ghost held = { λ s. Some (sink_bytes s) };

    ghost faults = { λ s. sink_faults s };

    fn write(&mut self, bytes: &[u8]) -> Result<usize, Failed>
        ensures bound { WritesAtMost result bytes.now }
        ensures bytes { WriteAppends (Some (sink_bytes self.old)) (Some (sink_bytes self.new)) result bytes.now }
        ensures cause { WriteCause (sink_faults self.old) (sink_faults self.new) result bytes.now }
        ensures rises { OnErr result (sink_faults self.new ≡ next_fault (sink_faults self.old)) }
        ensures nothing { IfOk result (λ n. n ≡ 0 → 0 < length bytes.now → sink_faults self.new ≡ next_fault (sink_faults self.old)) }
        ensures fails { IsErr result ↔ (Contains (sink_fails self.old) (sink_calls self.new) ⊎ ((0 < length bytes.now) × (sink_room self.old ≡ 0))) }
        ensures fits { IfOk result (λ n. n ≡ min (min (length bytes.now) (sink_most self.old)) (sink_room self.old)) }
        ensures call { sink_calls self.new ≡ next_call (sink_calls self.old) }
        ensures room { sink_room self.new ≡ sink_room self.old - (length (sink_bytes self.new) - length (sink_bytes self.old)) }
        ensures same { (sink_fails self.new ≡ sink_fails self.old) × (sink_most self.new ≡ sink_most self.old) }
    {
        self.calls = self.calls.saturating_add(1);
        let room = self.bytes.capacity() - self.bytes.len();
        if self.fails.contains(&self.calls) || !bytes.is_empty() && room == 0 {
            self.faults = self.faults.saturating_add(1);
            return Err(Failed);
        }
        let count = bytes.len().min(self.most).min(room);
        for i in 0..count {
            self.bytes.push_reserved(bytes[i]);
        }
        if count == 0 && !bytes.is_empty() {
            self.faults = self.faults.saturating_add(1);
        }
        Ok(count)
    }
}
