//! The statistics of a tree.
ghost use Rattle.std.specs.Prelude.{◌≡◌, ◌≤◌};
ghost use Rattle.node_edges.specs.Trees.{shape_of, IsWellFormed};
ghost use Rattle.cordz_stats.specs.Sums.{statistics_of};

use crate::tally::Tally;
use node_edges::Edge;
use plain_cord::Statistics;

/// What the nodes of a tree add up to (`cordz_info.h`, `cord_analysis.cc`). No memory is taken, and the recursion is as deep as the
/// tree is high. The cost is that of the occurrences of nodes, at most 14 for each byte of the text and one: a tree that shares its
/// nodes may have up to 2^35 of them, though few stand in memory.
pub fn statistics(edge: &Edge) -> Statistics
    requires tree { IsWellFormed edge.now }
    requires short { edge.now.0.length ≤ 2147483647 }
    ensures { result ≡ statistics_of (shape_of edge.now) }
{
    let mut tally = Tally::new();
    tally.add_root(edge);
    tally.told(edge.length())
}
