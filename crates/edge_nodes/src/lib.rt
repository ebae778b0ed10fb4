//! Data edges over bytes that are shared or come from outside: parts of flats and externals, and externals.
#![tactic(auto)]

mod external;
mod part;
#[cfg(test)]
mod tests;

pub use external::new_external;
pub use node_pool::{Edge, NodeError};
pub use part::part_of;
