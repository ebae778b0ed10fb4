//! Where a range lies under a single edge.
ghost use Rattle.std.specs.Prelude.{◌≡◌, ◌+◌, ◌<◌, ◌≤◌};
ghost use Rattle.node_edges.specs.Trees.{IsTreeAt};
ghost use Rattle.btree_cut.specs.Cutting.{IsLowest};

use btree_node::opened;
use chunk_reader::edge_at;
use node_pool::Edge;

/// Goes down from a node of this level while the range lies under a single edge. The node where it doesn't, its level, and where the
/// range starts in it.
pub(crate) fn lowest(tree: &Edge, level: u8, start: u64, n: u64) -> (&Edge, u8, u64)
    requires tree { IsTreeAt level tree.now }
    requires some { 0 < n }
    requires within { start + n ≤ tree.now.0.length }
    requires low { level ≤ 12 }
    ensures { IsLowest level tree.now start n result.1 result.0.now result.2 }
{
    if level == 0 {
        return (tree, level, start);
    }
    let edges = opened(tree, level - 1);
    let (at, from) = edge_at(edges, start);
    let edge = &edges[at];
    if edge.length() - from < n {
        return (tree, level, start);
    }
    lowest(edge, level - 1, from, n)
}
