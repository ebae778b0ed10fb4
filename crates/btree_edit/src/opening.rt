//! The least level at which a tree takes in pieces.
ghost use Rattle.std.specs.Prelude.{◌≡◌, ◌<◌, ◌≤◌, IfSome, None};
ghost use Rattle.node_edges.specs.Trees.{shape_of, IsTreeAt};
ghost use Rattle.tree_shapes.specs.Room.{most_under};
ghost use Rattle.btree_edit.specs.Trees.{lifted_room, IsLevelFor};

use btree_node::{most_under, room_at};
use node_pool::{Edge, Side};

/// How many pieces more a node of this level over the tree alone takes in at the side.
pub(crate) fn lifted_room(edge: &Edge, side: Side, base: u8, level: u8) -> usize
    requires tree { IsTreeAt base edge.now }
    requires above { base ≤ level }
    requires low { level ≤ 12 }
    ensures room { result ≡ lifted_room side (shape_of edge.now) base level }
    ensures less { result < most_under level }
{
    if level == base {
        return room_at(edge, side, base);
    }
    lifted_room(edge, side, base, level - 1) + 5 * most_under(level - 1)
}

/// The least level at which the tree takes in so many pieces, if it is at most 12.
pub(crate) fn level_beside(edge: &Edge, side: Side, base: u8, count: usize) -> Option<u8>
    requires tree { IsTreeAt base edge.now }
    requires low { base ≤ 12 }
    ensures found { IfSome result (IsLevelFor side (shape_of edge.now) base count) }
    ensures none { result ≡ None → lifted_room side (shape_of edge.now) base 12 < count }
{
    for level in base..13 {
        if count <= lifted_room(edge, side, base, level) {
            return Some(level);
        }
    }
    None
}
