//! Plain data and definitions: what a script is, what its sessions answer, and what their commands mean on byte strings
//! and on the board's cells.
//! Every layer above is proved against it.
#![tactic(auto)]

mod deed;
mod history;
mod items;
mod limits;
mod merging;
mod reply;
mod script;
mod searching;
mod statistics;

pub use deed::Deed;
pub use history::{Act, Entry};
pub use items::Items;
pub use limits::{MOST_BYTES, MOST_SHOWN};
pub use merging::sessions_alone_make_plain_runs;
pub use reply::{Book, NewMark, Reply, Report};
pub use script::{Command, Script, Session, Text};
pub use searching::{compare_bytes, first_place};
pub use statistics::Statistics;

#[cfg(test)]
mod tests;
