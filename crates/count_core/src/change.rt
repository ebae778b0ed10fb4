//! Changes of a node in place.
use node_forest::Side;

/// A change of one node on a lone path. The numbers are those of direct holds other than the root.
#[derive(Debug, Drop)]
pub enum TreeChange {
    /// A flat's new length, at least 1.
    Length { length: u64 },
    /// Direct holds become edges of a branch, in this order.
    Add { side: Side, numbers: Vec<u32> },
    /// So many edges of a branch become direct holds.
    Drop { side: Side, count: u32 },
    /// The outermost edge of a branch becomes a direct hold, and a direct hold takes its place.
    Swap { side: Side, number: u32 },
}
