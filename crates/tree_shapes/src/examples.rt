//! The shapes of a few cords, worked out by hand.
ghost use Rattle.std.specs.Prelude.{◌≡◌, ℕ, List, [], ◌∷◌, length, map, Bool, true, false, Some, None};
ghost use Rattle.node_forest.specs.declared.kind.Kind.TheVariants.{Flat};
ghost use Rattle.node_forest.specs.declared.side.Side.TheVariants.{Front, Back};
ghost use Rattle.node_forest.specs.Forest.{children, empty};
ghost use Rattle.tree_shapes.specs.Cords.{cord_of_bytes, with_bytes_added, with_cord_added, doubled};
ghost use Rattle.tree_shapes.specs.Cords.{sub_cord, front_cut, back_cut, with_sum, level_in, repeated};
ghost use Rattle.tree_shapes.specs.Flats.{flat_shape, new_shape};
ghost use Rattle.tree_shapes.specs.Keep.{part_of};
ghost use Rattle.tree_shapes.specs.Nodes.{nodes_in};
ghost use Rattle.tree_shapes.specs.Shape.{Shape, branch_over};

/// Seven pieces make a full leaf, a second one beside it, and a root. A source of 511 bytes comes as a flat of its own, a cord of
/// 600 bytes twice under one Branch. Bytes may fill the room of a flat. After 494 single bytes in front a cord of 19 bytes can be
/// doubled seventeen times, and the eighteenth time needs height 12.
pub fn new_and_grown_cords_have_these_shapes()
    ensures nodes { nodes_in (new_shape 28581) ≡ 10 }
    ensures edges { map (λ (e : Shape). length (children e)) (children (new_shape 28581)) ≡ 6 ∷ 1 ∷ [] }
    ensures inline { (cord_of_bytes 15).tree ≡ None }
    ensures copied { with_cord_added false Back (cord_of_bytes 511) (cord_of_bytes 19)
        ≡ (record { size = 530; tree = Some (branch_over 0 (flat_shape 19 ∷ flat_shape 511 ∷ [])) }) }
    ensures in_front { (with_cord_added false Front (cord_of_bytes 512) (cord_of_bytes 3)).tree
        ≡ Some (branch_over 0 (flat_shape 512 ∷ flat_shape 3 ∷ [])) }
    ensures doubled { (doubled false (cord_of_bytes 600)).tree ≡ Some (branch_over 0 (flat_shape 600 ∷ flat_shape 600 ∷ [])) }
    ensures filled { (with_bytes_added true Back 31 (cord_of_bytes 20)).tree ≡ Some (flat_shape 51) }
    ensures filled_first { (with_bytes_added true Back 32 (cord_of_bytes 20)).tree
        ≡ Some (branch_over 0 (flat_shape 51 ∷ flat_shape 1 ∷ [])) }
    ensures size { (repeated 17 (doubled false) (repeated 494 (with_bytes_added false Front 1) (cord_of_bytes 19))).size ≡ 67239936 }
    ensures low { level_in (repeated 17 (doubled false) (repeated 494 (with_bytes_added false Front 1) (cord_of_bytes 19))).tree ≡ 12 }
    ensures high { level_in (repeated 18 (doubled false) (repeated 494 (with_bytes_added false Front 1) (cord_of_bytes 19))).tree ≡ 13 }
{}

/// Sixteen bytes of twenty are a part, two are inline. The last piece of seven is left without the Branches over it. A flat whose
/// back is cut may be shortened, but not where it has a sum. What is left of a part is one of the same node.
pub fn cut_cords_have_these_shapes()
    ensures part { (sub_cord 0 16 (cord_of_bytes 20)).tree ≡ Some (part_of (flat_shape 20) 0 16) }
    ensures clamped { sub_cord 18 100 (cord_of_bytes 20) ≡ (record { size = 2; tree = None }) }
    ensures alone { (sub_cord 24498 5000 (cord_of_bytes 28581)).tree ≡ Some (flat_shape 4083) }
    ensures whole { sub_cord 0 28581 (cord_of_bytes 28581) ≡ cord_of_bytes 28581 }
    ensures front { (front_cut 2 (front_cut 1 (cord_of_bytes 20))).tree ≡ Some (part_of (flat_shape 20) 3 17) }
    ensures shortened { (back_cut true 3 (cord_of_bytes 20)).tree ≡ Some (record { kind = Flat; length = 17; more = 34 }, empty) }
    ensures summed { (back_cut true 3 (with_sum 7 (cord_of_bytes 20))).tree ≡ Some (part_of (flat_shape 20) 0 17) }
    ensures inline { (back_cut false 1 (with_bytes_added false Back 1 (cord_of_bytes 15))).tree ≡ None }
{}
