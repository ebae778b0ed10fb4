//! One byte of a cord.
ghost use Rattle.std.specs.Prelude.{◌≡◌, ◌≤◌, Some, length, slice_get, IfOk, IfErr};

use cord_value::{Cord, CordError};
use node_pool::Naming;

/// The byte at a place, counted in bytes from 0 (`cord.h`, `operator[]`). A place at or behind the end is refused with `Position`.
pub fn at<P: Naming>(cord: &Cord<P>, i: u64) -> Result<u8, CordError>
    ensures byte { IfOk result (λ b. slice_get cord.now.bytes i ≡ Some b) }
    ensures refused { IfErr result (λ x. (x ≡ CordError.Position i (length cord.now.bytes)) × (length cord.now.bytes ≤ i)) }
{
    let size = cord.len();
    if i >= size {
        return Err(CordError::Position { asked: i, size });
    }
    let mut chunks = cord.chunks();
    chunks.seek(i);
    Ok(chunks.read(1)[0])
}
