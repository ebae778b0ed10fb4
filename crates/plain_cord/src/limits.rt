//! Limits on cords and on what is shown of them, in bytes.

/// The most bytes that a cord may have.
pub const MOST_BYTES: u64 = 2_147_483_647;

/// The most bytes that `print` shows.
pub const MOST_SHOWN: usize = 4096;
