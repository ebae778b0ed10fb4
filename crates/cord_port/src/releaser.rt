//! What is called when the bytes of an external are let go.
ghost use Rattle.std.specs.Prelude.{◌≡◌, ℕ, ◌+◌, ◌-◌, ◌^◌, ◌<◌, Option, Some};

/// A releaser counts its releases and keeps the latest length.
pub trait Releaser: Drop {
    // How often it was called so far.
    ghost calls_of: { Self → ℕ };

    // The length of the latest release.
    ghost latest_of: { Self → Option ℕ };

    /// The last reference to an external of so many bytes has gone.
    fn release(&mut self, length: u64)
        requires { calls_of self.old < 2 ^ 64 - 1 }
        ensures calls { calls_of self.new ≡ calls_of self.old + 1 }
        ensures latest { latest_of self.new ≡ Some length };

    /// How many releases there were.
    fn calls(&self) -> u64
        ensures { result ≡ calls_of self.now };

    /// The length of the latest release.
    fn latest(&self) -> Option<u64>
        ensures { result ≡ latest_of self.now };
}
