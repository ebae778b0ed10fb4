//! What is measured.
ghost use Rattle.std.specs.Prelude.{◌<◌, ◌≤◌};

/// What the threads copy: all the same value, or each a value of its own.
#[derive(Clone, Copy, Debug, PartialEq, Eq)]
pub enum Sharing {
    One,
    Own,
}

/// So many threads, each of which copies and releases so often.
#[derive(Clone, Copy)]
pub struct Plan {
    pub sharing: Sharing,
    pub threads: usize,
    pub rounds: u32,
    ghost some: { 0 < threads },
    ghost few: { threads ≤ 4 },
}

/// A value of so many bytes is made and released so often, on one thread.
#[derive(Clone, Copy)]
pub struct Making {
    pub size: usize,
    pub rounds: u32,
}

/// What the values hold that are copied.
pub const BYTES: &[u8] = b"twenty bytes of text";
