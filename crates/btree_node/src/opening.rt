//! What a tree has: its level, its edges, and how many data edges more it takes in at a side.
ghost use Rattle.std.specs.Prelude.{◌≡◌, ◌+◌, ◌<◌, ◌≤◌, length};
ghost use Rattle.node_forest.specs.Forest.{children};
ghost use Rattle.tree_shapes.specs.Shape.{level};
ghost use Rattle.node_edges.specs.Trees.{shape_of, IsTreeAt};
ghost use Rattle.tree_shapes.specs.Room.{most_under, room_at};
ghost use Rattle.btree_node.specs.Opening.{IsOutermost};

use crate::widths::most_under;
use node_pool::{Body, Edge, Side};

/// 0 for a data edge, and a Branch's height and one.
pub fn level_of(edge: &Edge) -> u8
    requires { level (shape_of edge.now) ≤ 12 }
    ensures { result ≡ level (shape_of edge.now) }
{
    match edge.body() {
        Body::Branch { height, .. } => *height + 1,
        _ => 0,
    }
}

/// The edges of a Branch of this height.
pub fn opened(edge: &Edge, height: u8) -> &[Edge]
    requires { IsTreeAt (height + 1) edge.now }
    ensures edges { result.now ≡ children edge.now }
    ensures some { 0 < length result.now }
{
    match edge.body() {
        Body::Branch { edges, .. } => edges,
        _ => unreachable!(),
    }
}

/// The edges of a Branch of this height but the outermost, and the outermost.
pub fn outermost(edge: &Edge, side: Side, height: u8) -> (&[Edge], &Edge)
    requires { IsTreeAt (height + 1) edge.now }
    ensures { IsOutermost side height edge.now result.0.now result.1.now }
{
    let edges = opened(edge, height);
    match side {
        Side::Back => {
            let last = edges.len() - 1;
            (&edges[..last], &edges[last])
        }
        Side::Front => (&edges[1..], &edges[0]),
    }
}

/// How many data edges more a tree of this level takes in at the side, without a new root.
pub fn room_at(edge: &Edge, side: Side, level: u8) -> usize
    requires tree { IsTreeAt level edge.now }
    requires low { level ≤ 12 }
    ensures room { result ≡ room_at side level (shape_of edge.now) }
    ensures less { result < most_under level }
{
    if level == 0 {
        return 0;
    }
    let (siblings, last) = outermost(edge, side, level - 1);
    room_at(last, side, level - 1) + (5 - siblings.len()) * most_under(level - 1)
}
