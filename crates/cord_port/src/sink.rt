//! Where bytes go.
ghost use Rattle.std.specs.Prelude.{ℕ, List, Option};
ghost use Rattle.std.specs.Io.{WritesAtMost};
ghost use Rattle.std.specs.Io.KnownBytes.{WriteAppends};
ghost use Rattle.cord_port.specs.Causes.{WriteCause};

use crate::Failed;

/// A sink for bytes.
pub trait Sink {
    // The bytes that it holds, where it tells them.
    ghost held: { Self → Option (List ℕ) };

    // How often it failed, or took nothing, so far. The count never falls, and stands still at its type's end.
    ghost faults: { Self → ℕ };

    /// Takes bytes from the front of `bytes` and answers how many. After `Failed` it holds what it held.
    fn write(&mut self, bytes: &[u8]) -> Result<usize, Failed>
        ensures bound { WritesAtMost result bytes.now }
        ensures bytes { WriteAppends (held self.old) (held self.new) result bytes.now }
        ensures cause { WriteCause (faults self.old) (faults self.new) result bytes.now };
}
