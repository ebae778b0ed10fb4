//! A source over bytes in memory, for tests.
ghost use Rattle.std.specs.Prelude.{◌≡◌, ◌≤◌, ◌↔◌, vec_len, Some, length, min, Contains, IsErr, OnErr, IfOk};
ghost use Rattle.std.specs.Io.{ReadsAtMost};
ghost use Rattle.std.specs.Io.KnownBytes.{ReadConsumes};
ghost use Rattle.cord_port.specs.Causes.{ReadCause};
ghost use Rattle.cord_port.specs.Calls.{next_call, next_fault};
ghost use Rattle.cord_port.specs.Texts.{CountsGiven};

use crate::{Failed, Source};

/// It gives its bytes in order, as many as fit, and fails at the calls whose places are listed, counted from 1.
#[derive(Drop)]
pub struct MemorySource {
    bytes: Vec<u8>,
    at: usize,
    calls: u32,
    fails: Vec<u32>,
    faults: u64,
    ghost inside: { at ≤ vec_len bytes },
}

impl MemorySource {
    ghost use Rattle.cord_port.specs.Memories.{source_bytes, source_given, source_calls, source_fails, source_faults};

    /// A source of these bytes, which fails at the calls that `fails` lists, counted from 1.
    pub fn new(bytes: Vec<u8>, fails: Vec<u32>) -> MemorySource
        ensures left { source_bytes result ≡ bytes.items }
        ensures calls { source_calls result ≡ 0 }
        ensures fails { source_fails result ≡ fails.items }
        ensures given { source_given result ≡ 0 }
        ensures faults { source_faults result ≡ 0 }
    {
        MemorySource {
            bytes,
            at: 0,
            calls: 0,
            fails,
            faults: 0,
        }
    }
}

impl Source for MemorySource {
    ghost use Rattle.cord_port.specs.Memories.{source_bytes, source_given, source_calls, source_fails, source_faults};

    ghost left = { λ s. Some (source_bytes s) };

    ghost given = { λ s. source_given s };

    ghost faults = { λ s. source_faults s };

    fn read(&mut self, buf: &mut [u8]) -> Result<usize, Failed>
        ensures bound { ReadsAtMost result buf.new }
        ensures bytes { ReadConsumes (Some (source_bytes self.old)) (Some (source_bytes self.new)) result buf.new }
        ensures count { CountsGiven (source_given self.old) (source_given self.new) result }
        ensures cause { ReadCause (source_faults self.old) (source_faults self.new) result }
        ensures rises { OnErr result (source_faults self.new ≡ next_fault (source_faults self.old)) }
        ensures fails { IsErr result ↔ Contains (source_fails self.old) (source_calls self.new) }
        ensures fits { IfOk result (λ n. n ≡ min (length (source_bytes self.old)) (length buf.old)) }
        ensures call { source_calls self.new ≡ next_call (source_calls self.old) }
        ensures same { source_fails self.new ≡ source_fails self.old }
    {
        self.calls = self.calls.saturating_add(1);
        if self.fails.contains(&self.calls) {
            self.faults = self.faults.saturating_add(1);
            return Err(Failed);
        }
        let rest = &self.bytes[self.at..];
        let count = rest.len().min(buf.len());
        buf[..count].copy_from_slice(&rest[..count]);
        self.at += count;
        Ok(count)
    }
}
