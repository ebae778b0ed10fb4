//! What the definitions promise, of every tree.
ghost use Rattle.std.specs.Prelude.{◌≡◌, ℕ, suc, ◌<◌, ◌≤◌, List, length, map, All};
ghost use Rattle.std.specs.List.{flat_map};
ghost use Rattle.node_forest.specs.declared.kind.Kind.TheVariants.{Flat};
ghost use Rattle.node_forest.specs.Forest.{children, map_forest};
ghost use Rattle.node_forest.specs.Limits.{most_edges};
ghost use Rattle.node_forest.specs.Label.{Node};
ghost use Rattle.node_edges.specs.Body.{IsBranchOf};
ghost use Rattle.node_forest.specs.Changes.{with_bytes, with_edges};
ghost use Rattle.tree_shapes.specs.Shape.{level};
ghost use Rattle.node_edges.specs.Text.{text, data_edges_at};
ghost use Rattle.node_edges.specs.Trees.{form_of, shape_of, skeleton_of, IsTreeAt, IsWellFormed};

/// The text of a well formed tree has as many bytes as its root says, and so has each Branch and data edge.
pub fn texts_are_as_long_as_edges_say()
    ensures roots { (e : Node) → IsWellFormed e → length (text e) ≡ e.0.length }
    ensures nodes { (l : ℕ) (e : Node) → IsTreeAt l e → length (text e) ≡ e.0.length }
{}

/// A Branch has the texts of its edges, joined, and those of its data edges.
pub fn branches_join_their_texts()
    ensures edges { (l : ℕ) (e : Node) → level (shape_of e) ≡ suc l → text e ≡ flat_map text (children e) }
    ensures leaves { (l : ℕ) (e : Node) → IsTreeAt l e → text e ≡ flat_map text (data_edges_at l e) }
{}

/// The edges of a shape are the shapes of the edges, and so with skeletons.
pub fn shapes_follow_edges()
    ensures shapes { (e : Node) → children (shape_of e) ≡ map shape_of (children e) }
    ensures skeletons { (e : Node) → children (skeleton_of e) ≡ map skeleton_of (children e) }
{}

/// 1 to 6 well formed nodes of one level stand under a Branch of the next, and a well formed Branch has no other edges.
pub fn branches_over_trees_are_trees()
    ensures made { (e : Node) (h : ℕ) (es : List Node) → IsBranchOf h es e → 0 < length es → length es ≤ most_edges → All (IsTreeAt h) es → IsTreeAt (suc h) e }
    ensures opened { (l : ℕ) (e : Node) → IsTreeAt (suc l) e → All (IsTreeAt l) (children e) }
{}

/// A Branch with other edges is a Branch of these, of its height, and a flat with other bytes has these as its text, and as
/// much room as is said.
pub fn changed_nodes_keep_their_kinds()
    ensures edges { (h : ℕ) (es new : List Node) (t : Node) → IsBranchOf h es t → IsBranchOf h new (with_edges new t) }
    ensures text { (t : Node) (l room : ℕ) (bytes : List ℕ) → t.0.kind ≡ Flat → text (with_bytes l bytes room t) ≡ bytes }
    ensures shape { (t : Node) (l room : ℕ) (bytes : List ℕ) → t.0.kind ≡ Flat
        → shape_of (with_bytes l bytes room t) ≡ (record { kind = Flat; length = l; more = room }, map_forest form_of t.1) }
{}
