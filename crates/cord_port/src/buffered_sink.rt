//! A sink that hands its bytes on in large pieces.
ghost use Rattle.std.specs.Prelude.{◌≡◌, ◌+◌, ◌-◌, ◌≤◌, ◌<◌, [], length, min, vec_len, vec_capacity, IfOk, IfErr, OnOk, OnErr, IsOk};
ghost use Rattle.std.specs.Io.{WritesAtMost};
ghost use Rattle.std.specs.Io.KnownBytes.{Appends, Keeps, WriteAppends, append_known};
ghost use Rattle.cord_port.specs.Causes.{Rose, WriteCause};
ghost use Rattle.cord_port.specs.Texts.{AppendsPart, Extends};

use crate::{Begun, Failed, Sink};
use std::alloc::Global;
use std::marker::PhantomData;

/// How many bytes a buffered sink keeps before it hands any on: the most that one write to a pipe takes on Linux.
pub const BUFFER: usize = 65_536;

/// A sink over another. It hands bytes on when it has 65,536 of them, and the rest when it is flushed.
#[derive(Drop)]
pub struct BufferedSink<K: Sink, N: Begun> {
    below: K,
    bytes: Vec<u8>,
    // How many of the bytes were handed on.
    passed: usize,
    of: PhantomData<N>,
    ghost room: { 65536 ≤ vec_capacity bytes },
    ghost few: { vec_len bytes ≤ 65536 },
    ghost within: { passed ≤ vec_len bytes },
    ghost more: { Extends N.begun (K.held below) },
}

impl<K: Sink + Drop, N: Begun> BufferedSink<K, N> {
    ghost use Rattle.cord_port.specs.Buffers.{sink_below, kept_bytes, kept_room};

    /// A sink over `below`, which keeps nothing yet. Where memory is wanting, `below` comes back.
    pub fn new(alloc: Global, below: K) -> Result<BufferedSink<K, N>, K>
        requires { Extends N.begun (K.held below) }
        ensures below { IfOk result (λ s. sink_below s ≡ below) }
        ensures kept { IfOk result (λ s. kept_bytes s ≡ []) }
        ensures room { IfOk result (λ s. kept_room s ≡ 65536) }
        ensures back { IfErr result (λ sink. sink ≡ below) }
    {
        match Vec::with_capacity(alloc, BUFFER) {
            Ok(bytes) => Ok(BufferedSink {
                below,
                bytes,
                passed: 0,
                of: PhantomData,
            }),
            Err(_) => Err(below),
        }
    }

    /// Hands on what it keeps, in one write where the sink below takes it whole.
    pub fn flush(&mut self) -> Result<(), Failed>
        ensures whole { OnOk result (Appends (K.held (sink_below self.old)) (K.held (sink_below self.new)) (kept_bytes self.old)) }
        ensures part { AppendsPart (K.held (sink_below self.old)) (K.held (sink_below self.new)) (kept_bytes self.old) }
        ensures joined { Keeps (append_known (K.held (sink_below self.old)) (kept_bytes self.old))
            (append_known (K.held (sink_below self.new)) (kept_bytes self.new)) }
        ensures empty { OnOk result ((kept_bytes self.new ≡ []) × (kept_room self.new ≡ 65536)) }
        ensures kept { OnOk result (K.faults (sink_below self.new) ≡ K.faults (sink_below self.old)) }
        ensures cause { OnErr result (Rose (K.faults (sink_below self.old)) (K.faults (sink_below self.new))) }
        ensures later { K.faults (sink_below self.old) ≤ K.faults (sink_below self.new) }
        ensures more { Extends N.begun (K.held (sink_below self.old)) }
    {
        while self.passed < self.bytes.len() {
            let count = self.below.write(&self.bytes[self.passed..])?;
            if count == 0 {
                return Err(Failed);
            }
            self.passed += count;
        }
        self.bytes.clear();
        self.passed = 0;
        Ok(())
    }

    /// The sink below, which holds all that was handed on.
    pub fn into_below(self) -> K
        ensures below { result ≡ sink_below self }
        ensures more { Extends N.begun (K.held result) }
    {
        self.below
    }
}

impl<K: Sink + Drop, N: Begun> Sink for BufferedSink<K, N> {
    ghost use Rattle.cord_port.specs.Buffers.{sink_below, kept_bytes, kept_room};

    ghost held = { λ s. append_known (K.held (sink_below s)) (kept_bytes s) };

    ghost faults = { λ s. K.faults (sink_below s) };

    fn write(&mut self, bytes: &[u8]) -> Result<usize, Failed>
        ensures bound { WritesAtMost result bytes.now }
        ensures bytes { WriteAppends
            (append_known (K.held (sink_below self.old)) (kept_bytes self.old))
            (append_known (K.held (sink_below self.new)) (kept_bytes self.new)) result bytes.now }
        ensures cause { WriteCause (K.faults (sink_below self.old)) (K.faults (sink_below self.new)) result bytes.now }
        // The sink below is written to only where 65,536 bytes came together.
        ensures waits { 0 < kept_room self.old → (sink_below self.new ≡ sink_below self.old) × IsOk result }
        ensures fits { 0 < kept_room self.old → IfOk result (λ n. (n ≡ min (length bytes.now) (kept_room self.old))
            × (kept_room self.new ≡ kept_room self.old - n)) }
        ensures full { kept_room self.old ≡ 0 → IfOk result (λ n. (n ≡ min (length bytes.now) 65536) × (kept_room self.new ≡ 65536 - n)) }
    {
        if self.bytes.len() == BUFFER {
            self.flush()?;
        }
        let count = bytes.len().min(BUFFER - self.bytes.len());
        if self.bytes.extend_from_slice(&bytes[..count]).is_err() {
            unreachable!();
        }
        Ok(count)
    }
}
