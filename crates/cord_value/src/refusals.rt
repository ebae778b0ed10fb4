//! Why a call on a cord is refused.
use node_pool::{Naming, NodeError, Pass, PassLimit};

/// Why a call did nothing. The cord has the same bytes and the same tree.
#[derive(Clone, Copy, Debug, PartialEq, Eq)]
pub enum CordError {
    /// A position of so many bytes is behind the end of a cord of `size` bytes.
    Position { asked: u64, size: u64 },
    /// The cord would have so many bytes, which is more than is possible.
    LengthLimit { asked: u64 },
    /// The tree would need a Branch of this height, which is above the highest.
    HeightLimit { height: u8 },
    /// A counted step found so many live passes, which is at least the pool's limit.
    PassLimit { found: u64 },
    /// Each of so many numbers, which are all, was found in use.
    NoNumber { seen: u32 },
    /// All of so many releasers, which are all of the worker's, were used before.
    NoReleaser { used: u32 },
    /// Want of memory.
    Memory,
}

impl From<NodeError> for CordError {
    ghost use Rattle.std.specs.Prelude.{◌≡◌};
    ghost use Rattle.cord_value.specs.Refusals.{refusal_of};

    ghost from_gives = { λ error refusal. refusal ≡ refusal_of error };

    fn from(error: NodeError) -> CordError {
        match error {
            NodeError::NoNumber { seen } => CordError::NoNumber { seen },
            NodeError::HeightLimit { height } => CordError::HeightLimit { height },
            NodeError::Memory => CordError::Memory,
        }
    }
}

impl From<PassLimit> for CordError {
    ghost use Rattle.std.specs.Prelude.{◌≡◌};
    ghost use Rattle.cord_value.specs.declared.refusals.CordError.TheVariants as cord;

    ghost from_gives = { λ limit refusal. refusal ≡ cord.PassLimit limit.found };

    fn from(limit: PassLimit) -> CordError {
        CordError::PassLimit { found: limit.found }
    }
}

/// Want of memory for a copy. The pass comes back, empty as before.
#[derive(Drop)]
pub struct CopyRefused<P: Naming> {
    pub pass: Pass<P>,
}
