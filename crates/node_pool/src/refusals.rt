//! Why a node wasn't made, for all that make nodes.
use crate::calls::TakeError;
use node_edges::Memory;
use std::alloc::AllocError;

/// Why no node was made. The worker's holds are as before.
#[derive(Clone, Copy, Debug, PartialEq, Eq)]
pub enum NodeError {
    /// Each of so many numbers, which are all, was found in use.
    NoNumber { seen: u32 },
    /// The tree would need a Branch of this height, which is above the highest.
    HeightLimit { height: u8 },
    /// Want of memory.
    Memory,
}

impl From<TakeError> for NodeError {
    ghost use Rattle.std.specs.Prelude.{◌≡◌};
    ghost use Rattle.node_pool.specs.Refusals.{refusal_of};

    ghost from_gives = { λ error refusal. refusal ≡ refusal_of error };

    fn from(error: TakeError) -> NodeError {
        match error {
            TakeError::NoNumber { seen } => NodeError::NoNumber { seen },
            TakeError::Memory => NodeError::Memory,
        }
    }
}

impl From<Memory> for NodeError {
    ghost use Rattle.std.specs.Prelude.{◌≡◌};
    ghost use Rattle.node_pool.specs.declared.refusals.NodeError.TheVariants as node;

    ghost from_gives = { λ _ refusal. refusal ≡ node.Memory };

    fn from(_: Memory) -> NodeError {
        NodeError::Memory
    }
}

impl From<AllocError> for NodeError {
    ghost use Rattle.std.specs.Prelude.{◌≡◌};
    ghost use Rattle.node_pool.specs.declared.refusals.NodeError.TheVariants as node;

    ghost from_gives = { λ _ refusal. refusal ≡ node.Memory };

    fn from(_: AllocError) -> NodeError {
        NodeError::Memory
    }
}
