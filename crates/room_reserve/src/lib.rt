//! Room for a list, reserved at the start, in a form that threads may share though they don't share what the list will hold.
#![tactic(auto)]

mod reserve;
#[cfg(test)]
mod tests;

pub use reserve::Reserve;
