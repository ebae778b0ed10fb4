//! What the measured sessions put into cells.
ghost use Rattle.std.specs.Prelude.{◌≡◌, ⊤};

use cord_board::{BoardItem, Twin};

/// An item of so many bytes.
#[derive(Drop)]
pub struct Bytes(pub u64);

impl BoardItem for Bytes {
    ghost length_of = { λ b. b.0 };

    fn size(&self) -> u64 {
        self.0
    }
}

/// Its twin is its length; how often it was asked is counted.
impl Twin<u64> for Bytes {
    type Out = u64;

    ghost asks = { λ _. ⊤ };

    ghost gives = { λ b _ _ out. out ≡ b.0 };

    fn twin(&mut self, with: &mut u64) -> u64 {
        *with = with.saturating_add(1);
        self.0
    }
}
