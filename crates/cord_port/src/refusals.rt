//! Why a call of this crate was refused.
ghost use Rattle.std.specs.Prelude.{⊤};

use std::alloc::AllocError;

/// A read or a write that failed. The count of faults of its source or sink says that it rose.
#[derive(Clone, Copy, Debug)]
pub struct Failed;

/// Want of memory.
#[derive(Clone, Copy, Debug)]
pub struct Memory;

impl From<AllocError> for Memory {
    fn from(_error: AllocError) -> Memory {
        Memory
    }
}
