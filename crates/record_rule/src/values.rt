//! The values of the desk.
use cordz_core::Registry;

/// What a record says of its cord: its stamp, how often it was changed, and its length in bytes.
#[derive(Clone, Copy, PartialEq, Eq, Debug)]
pub struct Note {
    pub stamp: u64,
    pub update: u64,
    pub length: u64,
}

/// What a slot keeps of its record. A slot that is free has no share.
#[derive(Drop)]
pub struct Rep<S> {
    pub stamp: u64,
    pub update: u64,
    pub length: u64,
    /// Which method made or changed the cord last.
    pub method: u8,
    pub hold: Option<S>,
}

/// Value 0 is the registry, and the others are the slots' records.
#[derive(Drop)]
pub enum DeskValue<S> {
    List(Registry),
    Record(Rep<S>),
}
