//! The boxes of releasers that a run is given.
ghost use Rattle.std.specs.Prelude.{◌≡◌, ℕ, length, All, IfOk};

use cord_port::Releaser;
use std::alloc::{AllocError, Global};

/// So many boxes, each made by `make` with its place. None of them was called. An error is want of memory.
pub fn new_boxes<B: Releaser, F: Fn(usize) -> Result<B, AllocError>>(
    alloc: Global,
    count: usize,
    make: F,
) -> Result<Vec<B>, AllocError>
    requires callable { F.IsAlwaysCallable make }
    requires new { (i : ℕ) (r : _) → F.post make i r → IfOk r (λ b. B.calls_of b ≡ 0) }
    ensures count { IfOk result (λ boxes. length boxes.items ≡ count) }
    ensures new { IfOk result (λ boxes. All (λ b. B.calls_of b ≡ 0) boxes.items) }
{
    let mut boxes = Vec::new(alloc);
    for i in 0..count {
        let releaser = make(i)?;
        boxes.push(releaser)?;
    }
    Ok(boxes)
}
