//! What the rules of calls on cords promise, of every cord's shape.
ghost use Rattle.std.specs.Prelude.{◌≡◌, Bool, ℕ, ◌+◌, ◌-◌, ◌<◌, ◌≤◌, min, Option, Some, None};
ghost use Rattle.node_forest.specs.declared.side.Side.{Side};
ghost use Rattle.tree_shapes.specs.Cords.{CordShape, IsCordShape, IsTreeWithoutSum, IsChanged, NeedsHeight12, sum_of, level_in};
ghost use Rattle.tree_shapes.specs.Cords.{cord_of_bytes, cord_of_external, with_bytes_added, with_cord_added};
ghost use Rattle.tree_shapes.specs.Cords.{sub_cord, front_cut, back_cut, with_sum};
ghost use Rattle.tree_shapes.specs.Shape.{Shape};

/// A cord stays whole: it has a tree exactly where it has more than 15 bytes or a sum, well formed and of so many bytes. Where bytes
/// or a cord are added this holds unless height 12 is needed; no other call needs it.
pub fn calls_keep_cords_whole()
    ensures bytes { (n : ℕ) → n ≤ 2147483647 → IsCordShape (cord_of_bytes n) }
    ensures external { (n : ℕ) → 15 < n → n ≤ 2147483647 → IsCordShape (cord_of_external n) }
    ensures added { (fills : Bool) (side : Side) (n : ℕ) (c : CordShape) → IsCordShape c
        → ¬ (NeedsHeight12 (with_bytes_added fills side n c)) → IsCordShape (with_bytes_added fills side n c) }
    ensures joined { (fills : Bool) (side : Side) (source c : CordShape) → IsCordShape source → IsCordShape c
        → ¬ (NeedsHeight12 (with_cord_added fills side source c)) → IsCordShape (with_cord_added fills side source c) }
    ensures sub { (pos n : ℕ) (c : CordShape) → IsCordShape c → IsCordShape (sub_cord pos n c) }
    ensures front { (n : ℕ) (c : CordShape) → IsCordShape c → n ≤ c.size → IsCordShape (front_cut n c) }
    ensures back { (shortens : Bool) (n : ℕ) (c : CordShape) → IsCordShape c → n ≤ c.size → IsCordShape (back_cut shortens n c) }
    ensures sum { (value : ℕ) (c : CordShape) → IsCordShape c → IsCordShape (with_sum value c) }
    ensures low { (c : CordShape) → IsCordShape c → ¬ (NeedsHeight12 c) }
{}

/// A change that adds or takes away bytes leaves as many as it says, and no sum. A tree is left exactly where there are more than
/// 15 bytes, and it is well formed but for its height.
pub fn changes_leave_their_bytes_and_no_sum()
    ensures added { (fills : Bool) (side : Side) (n : ℕ) (c : CordShape) → IsCordShape c → 0 < n
        → IsChanged (c.size + n) (with_bytes_added fills side n c) }
    ensures joined { (fills : Bool) (side : Side) (source c : CordShape) → IsCordShape source → IsCordShape c → 0 < source.size
        → IsChanged (c.size + source.size) (with_cord_added fills side source c) }
    ensures sub { (pos n : ℕ) (c : CordShape) → IsCordShape c → IsChanged (min n (c.size - min pos c.size)) (sub_cord pos n c) }
    ensures front { (n : ℕ) (c : CordShape) → IsCordShape c → 0 < n → n ≤ c.size → IsChanged (c.size - n) (front_cut n c) }
    ensures back { (shortens : Bool) (n : ℕ) (c : CordShape) → IsCordShape c → 0 < n → n ≤ c.size
        → IsChanged (c.size - n) (back_cut shortens n c) }
    ensures none { (n : ℕ) (tree : Option Shape) → IsTreeWithoutSum n tree → sum_of tree ≡ None }
    ensures sum { (value : ℕ) (c : CordShape) → sum_of (with_sum value c).tree ≡ Some value }
{}
