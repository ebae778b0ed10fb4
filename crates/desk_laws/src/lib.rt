//! What the tokens of a closed desk of records come to: definitions, and laws of them; nothing here runs.
#![tactic(auto)]

mod laws;

pub use laws::{finished_desks_are_empty, read_notes_were_told, stamps_are_reserved_once};
