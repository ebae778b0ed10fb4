//! Reading a cord.
ghost use Rattle.std.specs.Prelude.{◌≡◌};
ghost use Rattle.cord_value.specs.Views.{from_start};

use crate::cord::{Cord, Form};
use chunk_reader::Chunks;
use node_pool::Naming;

impl<P: Naming> Cord<P> {
    /// The bytes from the first on, chunk by chunk (`cord.h`, `Chunks`): each a slice of a node's own bytes, or the inline bytes.
    /// No memory is taken.
    pub fn chunks(&self) -> Chunks<'_>
        ensures { result ≡ from_start self.now }
    {
        match &self.form {
            Form::Inline(bytes) => Chunks::of_bytes(bytes.as_slice()),
            Form::Tree { root, .. } => Chunks::new(root),
        }
    }
}
