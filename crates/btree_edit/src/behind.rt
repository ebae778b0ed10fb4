//! The way down to a tree's last data edge, and the room there.
ghost use Rattle.std.specs.Prelude.{◌≡◌, ◌≤◌, length};
ghost use Rattle.node_forest.specs.Paths.{Leads};
ghost use Rattle.node_edges.specs.Trees.{shape_of, IsFilled};
ghost use Rattle.tree_shapes.specs.Shape.{IsTree};
ghost use Rattle.flat_nodes.specs.Behind.{path_behind, room_behind};

use arrayvec::ArrayVec;
use btree_node::{level_of, opened};
use flat_nodes::room_of;
use node_pool::Edge;

/// The places of the last edges, from the root down to the last data edge.
pub fn path_behind(root: &Edge) -> ArrayVec<u8, 12>
    requires tree { IsTree (shape_of root.now) }
    requires filled { IsFilled root.now }
    ensures path { result.items ≡ path_behind root.now }
    ensures leads { Leads root.now result.items }
    ensures short { length result.items ≤ 12 }
{
    let mut path = ArrayVec::new();
    let mut edge = root;
    let mut height = level_of(root);
    while height > 0 {
        height -= 1;
        let edges = opened(edge, height);
        let last = edges.len() - 1;
        path.push(last as u8);
        edge = &edges[last];
    }
    path
}

/// How many bytes more the last data edge has room for; 0 where it is no flat.
pub fn room_behind(root: &Edge) -> u32
    requires tree { IsTree (shape_of root.now) }
    requires filled { IsFilled root.now }
    ensures { result ≡ room_behind root.now }
{
    let mut edge = root;
    let mut height = level_of(root);
    while height > 0 {
        height -= 1;
        let edges = opened(edge, height);
        edge = &edges[edges.len() - 1];
    }
    room_of(edge)
}
