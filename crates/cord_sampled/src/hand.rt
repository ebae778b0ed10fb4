//! What a session has at hand for its cords.
use cord_port::Releaser;
use cordz_desk::{CordzDesk, CordzPass, DeskNaming};
use node_pool::{Naming, Pool, Worker};

/// The pool and the desk of records, the session's own tokens of both, and how its new trees are sampled.
#[derive(Drop)]
pub struct Hand<'a, P: Naming, D: DeskNaming, B: Releaser> {
    pub pool: &'a Pool<P, B>,
    pub cordz: &'a CordzDesk<P, D>,
    pub worker: Worker<P>,
    pub pass: CordzPass<P, D>,
    /// Of how many new trees one is sampled. 0: none is.
    pub stride: u32,
    /// How many new trees were made.
    pub made: u64,
}
