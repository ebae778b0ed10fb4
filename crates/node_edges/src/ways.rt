//! What the ways down a tree promise.
ghost use Rattle.std.specs.Prelude.{◌≡◌, ℕ, ◌+◌, ◌*◌, ◌≤◌, length, sum_by, All};
ghost use Rattle.node_forest.specs.Forest.{children, node_count};
ghost use Rattle.node_forest.specs.Label.{Node};
ghost use Rattle.node_edges.specs.Body.{IsNodeOf};
ghost use Rattle.node_edges.specs.Trees.{IsTreeAt, IsWellFormed};
ghost use Rattle.node_edges.specs.Ways.{branches_down};

use crate::edge::Body;

/// Where a node's edges take its place one by one, those that wait beside an edge are made up for: five holds for each
/// Branch on a way down suffice. So 60 more than the first do, where a way has at most 12 Branches.
pub fn few_edges_wait_on_a_way_down()
    ensures edges { (e : Node) (b : Body) → IsNodeOf b e → All (λ c. length (children e) + 5 * branches_down c ≤ 5 * branches_down e + 1) (children e) }
    ensures nodes { (e : Node) → sum_by (λ c. node_count c.1 + 1) (children e) ≡ node_count e.1 }
{}

/// A way down a well formed tree has at most 12 Branches, and from a node no more than its level.
pub fn ways_down_are_short()
    ensures roots { (e : Node) → IsWellFormed e → branches_down e ≤ 12 }
    ensures nodes { (l : ℕ) (e : Node) → IsTreeAt l e → branches_down e ≤ l }
{}
