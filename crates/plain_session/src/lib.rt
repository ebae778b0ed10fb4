//! The plain interpreter: the commands of one session on byte strings. It is the product's reference, with which
//! every faster body is compared.
#![tactic(auto)]

mod cord;
mod edit;
mod joining;
mod names;
mod needle;
mod pieces;
mod queries;
mod replies;
mod session;
#[cfg(test)]
mod tests;

pub use cord::PlainCord;
pub use edit::Edit;
pub use names::Names;
pub use replies::{done, unset};
pub use session::Ran;
