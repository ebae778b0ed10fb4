//! A change of one cord.

/// Bytes are given as a piece and how often it stands.
#[derive(Clone, Copy)]
pub enum Edit<'b> {
    Clear,
    Append(&'b [u8], u32),
    Prepend(&'b [u8], u32),
    Double,
    CutFront(u64),
    CutBack(u64),
    SetSum(u32),
}
