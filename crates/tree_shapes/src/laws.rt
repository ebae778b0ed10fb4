//! What the rules by which trees grow promise, of every shape.
ghost use Rattle.std.specs.Prelude.{◌≡◌, ◌≢◌, ◌↔◌, Bool, ℕ, suc, ◌+◌, ◌*◌, ◌<◌, ◌≤◌, List, [], ◌∷◌, ◌++◌, length, map, sum_by, All};
ghost use Rattle.node_forest.specs.declared.kind.Kind.TheVariants.{Sum};
ghost use Rattle.node_forest.specs.declared.side.Side.{Side};
ghost use Rattle.tree_shapes.specs.Capacity.{capacity_for, IsLeast};
ghost use Rattle.tree_shapes.specs.Filling.{with_bytes_filling};
ghost use Rattle.tree_shapes.specs.Flats.{piece_count, new_shape, with_bytes};
ghost use Rattle.tree_shapes.specs.Growth.{placed, wrapped, added, with_all};
ghost use Rattle.tree_shapes.specs.Keep.{keep, kept, kept_in_front};
ghost use Rattle.tree_shapes.specs.Merge.{across, joined, Joins};
ghost use Rattle.tree_shapes.specs.Nodes.{nodes_in, IsLeaf};
ghost use Rattle.tree_shapes.specs.Pieces.{near_size, IsParted};
ghost use Rattle.tree_shapes.specs.Room.{most_under, room_at, room_outside, filled, packed, laid, IsLift, IsRooted};
ghost use Rattle.tree_shapes.specs.Shape.{Shape, level, length_of, IsNode, IsTree, IsRoot};

/// The capacity of a new flat is the least one that holds its bytes.
pub fn capacities_are_least()
    ensures { (n : ℕ) → n ≤ 4083 → IsLeast n (capacity_for n) }
{}

/// Data edges added one after another make the tree that takes them in under as many new roots as they need.
pub fn many_are_added_as_they_are_laid()
    ensures { (side : Side) (j : ℕ) (t : Shape) (xs : List Shape) → IsNode (level t) t → All (IsNode 0) xs
        → IsLift side t (length xs) j → with_all side t xs ≡ filled side (level t + j) (wrapped j t) xs }
{}

/// Where the edges so far are full, a group of data edges comes under one node beside them.
pub fn groups_come_under_one_node()
    ensures { (side : Side) (l : ℕ) (es zs ys : List Shape) → room_outside side l es ≡ 0 → length es < 6
        → All (IsNode l) es → 0 < length zs → All (IsNode 0) zs → length zs ≤ most_under l
        → laid side l es (zs ++ ys) ≡ laid side l (placed side es (packed side l zs)) ys }
{}

/// A tree to which data edges are added stays well formed but for its height, has their lengths, and needs a new root where it
/// has no room.
pub fn trees_that_grow_stay_trees()
    ensures rooted { (side : Side) (t : Shape) (xs : List Shape) → IsRooted t → All (IsNode 0) xs → IsRooted (with_all side t xs) }
    ensures lengths { (side : Side) (t : Shape) (xs : List Shape) → IsRooted t → All (IsNode 0) xs
        → length_of (with_all side t xs) ≡ length_of t + sum_by length_of xs }
    ensures high { (side : Side) (j : ℕ) (t : Shape) (xs : List Shape) → IsNode (level t) t → All (IsNode 0) xs
        → room_at side (level t + j) (wrapped j t) < length xs → level t + j < level (with_all side t xs) }
{}

/// A new tree has at most twice as many nodes as data edges, where each of these is one node.
pub fn new_trees_have_few_nodes()
    ensures { (side : Side) (h : ℕ) (zs : List Shape) → All IsLeaf zs → 0 < length zs → length zs ≤ most_under h
        → ((i : ℕ) → h ≡ suc i → most_under i < length zs) → nodes_in (packed side h zs) ≤ 2 * length zs }
{}

/// A text is cut in two where so many pieces have room at a side of a tree: the pieces of both are its pieces, those that come
/// first first.
pub fn texts_are_parted_at_pieces()
    ensures { (side : Side) (n most : ℕ) → IsParted side n most (near_size side n most) }
{}

/// A new tree of a text is well formed, has its length, at most twice as many nodes as the text has pieces, and is never too high.
pub fn new_trees_are_well_formed()
    ensures formed { (n : ℕ) → 0 < n → n ≤ 2147483647 → IsTree (new_shape n) }
    ensures length { (n : ℕ) → 0 < n → length_of (new_shape n) ≡ n }
    ensures nodes { (n : ℕ) → 0 < n → nodes_in (new_shape n) ≤ 2 * piece_count n }
    ensures low { (n : ℕ) → 0 < n → n ≤ 2147483647 → level (new_shape n) ≤ 8 }
{}

/// A tree to which bytes are added stays well formed but for its height, and has so many bytes more.
pub fn bytes_are_added()
    ensures rooted { (side : Side) (t : Shape) (n : ℕ) → IsRooted t → IsRooted (with_bytes side t n) }
    ensures length { (side : Side) (t : Shape) (n : ℕ) → IsRooted t → length_of (with_bytes side t n) ≡ length_of t + n }
{}

/// A well formed root that is no Sum is exactly a tree: a node of its level, which is at most 12, with 2 edges or more where it is a
/// Branch.
pub fn roots_without_sums_are_trees()
    ensures { (s : Shape) → (IsRoot s × (s.0.kind ≢ Sum)) ↔ IsTree s }
{}

/// Two trees that are merged are one of both lengths, well formed but for its height, and at most one level above the higher of
/// the two. To merge a tree in front is to merge the other behind it.
pub fn trees_are_merged()
    ensures joins { (side : Side) (t x : Shape) → IsRooted t → IsRooted x → Joins t x (joined side t x) }
    ensures across { (side : Side) (t x : Shape) → joined side t x ≡ joined (across side) x t }
{}

/// What is kept of a node is a node of its level, and has the range's length. All of it is the node itself. A range of what was
/// kept is a range of the node, with the starts added.
pub fn ranges_are_kept()
    ensures node { (l : ℕ) (s : Shape) (start n : ℕ) → IsNode l s → 0 < n → start + n ≤ length_of s → IsNode l (keep l s start n) }
    ensures length { (l : ℕ) (s : Shape) (start n : ℕ) → IsNode l s → 0 < n → start + n ≤ length_of s
        → length_of (keep l s start n) ≡ n }
    ensures whole { (l : ℕ) (s : Shape) (start n : ℕ) → n ≡ length_of s → keep l s start n ≡ s }
    ensures again { (l : ℕ) (s : Shape) (a n b m : ℕ) → IsNode l s → 0 < m → b + m ≤ n → a + n ≤ length_of s
        → keep l (keep l s a n) b m ≡ keep l s (a + b) m }
{}

/// The same with roots of one edge dropped: what is kept of a tree is a tree, well formed and no higher.
pub fn ranges_of_trees_are_trees()
    ensures rooted { (t : Shape) (start n : ℕ) → IsRooted t → 0 < n → start + n ≤ length_of t → IsRooted (kept t start n) }
    ensures length { (t : Shape) (start n : ℕ) → IsRooted t → 0 < n → start + n ≤ length_of t → length_of (kept t start n) ≡ n }
    ensures low { (t : Shape) (start n : ℕ) → IsRooted t → 0 < n → start + n ≤ length_of t → level (kept t start n) ≤ level t }
    ensures whole { (t : Shape) (start n : ℕ) → IsRooted t → n ≡ length_of t → kept t start n ≡ t }
    ensures again { (t : Shape) (a n b m : ℕ) → IsRooted t → 0 < m → b + m ≤ n → a + n ≤ length_of t
        → kept (kept t a n) b m ≡ kept t (a + b) m }
{}

/// Whether or not the last flat's room is filled first, and whether or not the last flat is shortened, the tree stays well formed
/// but for its height, and has the length that is asked for.
pub fn last_flats_are_filled_or_shortened()
    ensures filled { (t : Shape) (n : ℕ) → IsRooted t → IsRooted (with_bytes_filling t n) }
    ensures filled_length { (t : Shape) (n : ℕ) → IsRooted t → length_of (with_bytes_filling t n) ≡ length_of t + n }
    ensures cut { (shortens : Bool) (t : Shape) (n : ℕ) → IsRooted t → 0 < n → n ≤ length_of t → IsRooted (kept_in_front shortens t n) }
    ensures cut_length { (shortens : Bool) (t : Shape) (n : ℕ) → IsRooted t → 0 < n → n ≤ length_of t
        → length_of (kept_in_front shortens t n) ≡ n }
    ensures cut_low { (shortens : Bool) (t : Shape) (n : ℕ) → IsRooted t → 0 < n → n ≤ length_of t
        → level (kept_in_front shortens t n) ≤ level t }
{}

/// A node added to a tree that is no lower leaves a tree of both lengths, well formed but for its height, and at most one level
/// higher.
pub fn nodes_are_added()
    ensures rooted { (side : Side) (t x : Shape) → IsRooted t → IsNode (level x) x → level x ≤ level t → IsRooted (added side t x) }
    ensures length { (side : Side) (t x : Shape) → IsRooted t → IsNode (level x) x → level x ≤ level t
        → length_of (added side t x) ≡ length_of t + length_of x }
    ensures no_lower { (side : Side) (t x : Shape) → IsRooted t → IsNode (level x) x → level x ≤ level t
        → level t ≤ level (added side t x) }
    ensures rises { (side : Side) (t x : Shape) → IsRooted t → IsNode (level x) x → level x ≤ level t
        → level (added side t x) ≤ level t + 1 }
{}

/// A tree never gets lower while nodes are added to it. So where the last of them needs no Branch of height 12, none before it does,
/// and the height can be known before anything is done.
pub fn trees_never_get_lower()
    ensures many { (side : Side) (t : Shape) (xs ys : List Shape) → IsRooted t → All (IsNode 0) xs → All (IsNode 0) ys
        → level (with_all side t xs) ≤ level (with_all side t (xs ++ ys)) }
    ensures bytes { (side : Side) (t : Shape) (n : ℕ) → IsRooted t → level t ≤ level (with_bytes side t n) }
{}
