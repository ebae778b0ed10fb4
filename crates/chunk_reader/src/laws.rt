//! What the definitions promise.
ghost use Rattle.std.specs.Prelude.{◌≡◌, ℕ, ◌<◌, List, length, take, drop, sum_by};
ghost use Rattle.node_forest.specs.Label.{Node};
ghost use Rattle.node_edges.specs.Text.{text};
ghost use Rattle.node_edges.specs.Trees.{IsTreeAt};
ghost use Rattle.chunk_reader.specs.Places.{long, place_in, rest_at, IsPlace};

/// An offset within edges falls in one of them, and no other place is its place.
pub fn offsets_fall_in_one_edge()
    ensures found { (es : List Node) (offset : ℕ) → offset < sum_by long es → IsPlace es offset (place_in es offset).0 (place_in es offset).1 }
    ensures only { (es : List Node) (offset at inner : ℕ) → IsPlace es offset at inner → place_in es offset ≡ (at, inner) }
{}

/// What a data edge has from an offset on is what comes next in the text of the whole tree, and never nothing.
pub fn chunks_are_what_comes_next()
    ensures some { (l : ℕ) (e : Node) (offset : ℕ) → IsTreeAt l e → offset < long e → 0 < length (rest_at l e offset) }
    ensures next { (l : ℕ) (e : Node) (offset : ℕ) → IsTreeAt l e → offset < long e
        → rest_at l e offset ≡ take (length (rest_at l e offset)) (drop offset (text e)) }
{}
