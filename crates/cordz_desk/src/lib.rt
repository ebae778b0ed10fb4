//! The desk of sampled records: a registry and 256 records that threads take in turns. Each record keeps a counted share of its
//! cord's tree, so that a walk may read the tree while its owner goes on.
#![tactic(auto)]

mod asking;
mod changes;
mod closing;
mod crossing;
mod desk;
mod handing;
mod keeping;
mod list;
mod naming;
mod parts;
mod reading;
mod records;
mod reps;
mod rule;
mod share;
mod start;
mod tickets;
mod tokens;
mod tracking;
mod turns;
mod walks;

pub use desk::CordzDesk;
pub use naming::DeskNaming;
pub use reading::RecordRefused;
pub use rule::RecordRule;
pub use share::Share;
pub use start::OpenedDesk;
pub use tickets::{Change, Ticket};
pub use tokens::{CordzPass, Reserved};
