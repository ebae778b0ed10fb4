//! Questions to cords, which are read chunk by chunk: a byte, the least place of a needle, the order of two cords, what one begins and
//! ends with; and all bytes to a sink. No memory is taken, and an expected checksum isn't looked at.
#![tactic(auto)]

mod border;
mod bytes;
mod ends;
mod order;
mod reading;
mod searching;
#[cfg(test)]
mod tests;
mod writing;

pub use bytes::at;
pub use ends::{ends_with, starts_with};
pub use order::compare;
pub use searching::find;
pub use writing::write_to;
