//! What is shown of a cord.
ghost use Rattle.std.specs.Prelude.{◌≡◌, take, IfOk};

use cord_value::Cord;
use node_pool::Naming;
use std::alloc::{AllocError, Global};

/// The first bytes of a cord, at most so many; the chunks are read no further.
pub fn first_bytes<P: Naming>(
    alloc: Global,
    cord: &Cord<P>,
    most: usize,
) -> Result<Vec<u8>, AllocError>
    ensures { IfOk result (λ bytes. bytes.items ≡ take most cord.now.bytes) }
{
    let mut bytes = Vec::new(alloc);
    let mut rest = cord.chunks();
    while bytes.len() < most {
        let chunk = rest.read(most - bytes.len());
        if chunk.is_empty() {
            return Ok(bytes);
        }
        bytes.extend_from_slice(chunk)?;
    }
    Ok(bytes)
}
