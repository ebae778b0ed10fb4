//! Where bytes come from.
ghost use Rattle.std.specs.Prelude.{ℕ, List, Option};
ghost use Rattle.std.specs.Io.{ReadsAtMost};
ghost use Rattle.std.specs.Io.KnownBytes.{ReadConsumes};
ghost use Rattle.cord_port.specs.Causes.{ReadCause};
ghost use Rattle.cord_port.specs.Texts.{CountsGiven};

use crate::Failed;

/// A source of bytes.
pub trait Source {
    // The bytes that are left, where it tells them.
    ghost left: { Self → Option (List ℕ) };

    // How many bytes it gave so far, which each source counts.
    ghost given: { Self → ℕ };

    // How often it failed so far. The count never falls, and stands still at its type's end.
    ghost faults: { Self → ℕ };

    /// Reads the next bytes into the front of `buf` and answers how many they are. None at a buffer that isn't empty
    /// means the end.
    fn read(&mut self, buf: &mut [u8]) -> Result<usize, Failed>
        ensures bound { ReadsAtMost result buf.new }
        ensures bytes { ReadConsumes (left self.old) (left self.new) result buf.new }
        ensures count { CountsGiven (given self.old) (given self.new) result }
        ensures cause { ReadCause (faults self.old) (faults self.new) result };
}
