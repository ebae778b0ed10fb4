//! An action on a cell with its items.
use crate::history::Act;

/// An action of a session: what the history keeps of it, with the item that came into the cell, if one did, and the one
/// that lay there. Contracts speak of it; no value of it is made.
pub struct Deed<C> {
    pub session: u16,
    pub place: u32,
    pub act: Act,
    pub cell: u8,
    pub came: Option<C>,
    pub was: Option<C>,
}
