//! What can lie in a cell.
ghost use Rattle.std.specs.Prelude.{◌≡◌, ℕ};

/// An item that can lie in a cell.
pub trait BoardItem {
    // The item's length in bytes.
    ghost length_of: { Self → ℕ };

    /// The item's length in bytes.
    fn size(&self) -> u64
        ensures { result ≡ length_of self.now };
}

/// An item that can be asked for a twin of itself, with the help of `with`. It stays as it is.
pub trait Twin<W> {
    type Out;

    // What `twin` asks of `with`.
    ghost asks: { W → Type 0 };

    // Of the item, `with` before and after, and the answer.
    ghost gives: { Self → W → W → Self.Out → Type 0 };

    fn twin(&mut self, with: &mut W) -> Self::Out
        requires { asks with.old }
        ensures same { self.new ≡ self.old }
        ensures out { gives self.old with.old with.new result };
}
