//! Changes of a node in place.

use crate::edge::Edge;
use node_forest::Side;

/// A change of one node. An edge of it comes again into the node; the change keeps its own.
#[derive(Drop)]
pub enum Change {
    /// Bytes behind a flat's own, no more than it has room for.
    Fill { bytes: Vec<u8> },
    /// A flat's new length in bytes, at least 1 and at most its length. What goes is room then.
    Shorten { length: u64 },
    /// Edges of a Branch, in this order.
    Add { side: Side, edges: Vec<Edge> },
    /// So many edges of a Branch go.
    Drop { side: Side, count: usize },
    /// The outermost edge of a Branch goes, and another takes its place.
    Swap { side: Side, edge: Edge },
}
