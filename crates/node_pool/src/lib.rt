//! Counted nodes that threads share. A pool has a word for each number, which counts who holds the node of that number. Each
//! thread has a worker, whose direct holds say what it may read; a pass keeps one tree between calls. Each call is a few single
//! steps on words, each of them a step of the count rule, and waits for nobody.
#![tactic(auto)]

mod calls;
mod close;
mod finish;
mod laws;
mod look;
mod mark;
mod naming;
mod outlet;
mod pass_trees;
mod passes;
mod plays;
mod pool;
mod refusals;
mod slices;
mod slots;
mod start;
mod tokens;
mod view;
mod words;

pub use calls::{Left, TakeError};
pub use close::Closed;
pub use laws::paths_that_looks_find_are_lone;
pub use naming::Naming;
pub use node_edges::{Body, Change, Edge, Memory, Side};
pub use outlet::Outlet;
pub use passes::PassLimit;
pub use pool::Pool;
pub use refusals::NodeError;
pub use start::{Opened, PoolRefused};
pub use tokens::{Pass, Worker};
pub use view::{CountRule, PoolTerms, TokenView};
