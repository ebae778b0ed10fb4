//! What the table's rule promises of changes in place.
ghost use Rattle.std.specs.Prelude.{◌≡◌, ℕ, ◌<◌, true, List, slice_index};
ghost use mathlib.Core.Option.{some, none};
ghost use lib.ListN.{get_elem?};
ghost use Rattle.atomic_table.specs.Table.{State, Me, keeps, step, stepped, Allows};
ghost use Rattle.node_forest.specs.Label.{Node, number};
ghost use Rattle.node_forest.specs.Paths.{numbers_on};
ghost use Rattle.count_core.specs.Marks.{Change};
ghost use Rattle.count_core.specs.Steps.{mark, Does};
ghost use Rattle.pool_rule.specs.Views.{View};
ghost use Rattle.pool_rule.specs.Rules.{Among, Ruled, world};
ghost use Rattle.pool_rule.specs.Pools.{Terms, Kept};
ghost use Rattle.pool_rule.specs.Marks.{marking, CanChange, IsLonePath, marked, KeepsNodes};

/// Whatever other threads do meanwhile, a load of the word of a direct hold, with which a worker's changes of a list are
/// done along a path from it, keeps the rule and tells the worker what it knows then, where the numbers on the path are lone.
pub fn marks_keep_the_rule<S>()
    ensures { (p : Terms S) (slots id : ℕ) (me : Me S View) (root : Node) (path : List ℕ) (changes : List (ℕ × Change)) → 0 < me.0.spare
        → CanChange root path changes me.0 → IsLonePath root path me.0
        → Allows (Kept p) slots id me (number root) (λ n. n) (marked root path changes (step slots (number root) 0 0 none) me) }
{}

/// On the world of any table under the rule the changes are the count rule's mark. They bring no number to the token, and
/// it holds the same externals.
pub fn marks_are_the_count_rules<S>()
    ensures step { (k : ℕ) (s : State S View) (id : ℕ) (v : View) (c : List (ℕ × S)) (root : Node) (path : List ℕ) (changes : List (ℕ × Change))
        → Ruled k s → get_elem? s.views id ≡ some v → CanChange root path changes v
        → ((n : ℕ) → Among n (numbers_on root path) → slice_index s.words n ≡ 1)
        → Does (mark id (number root) path changes) (world k s) true
        (world k (stepped s (number root) (slice_index s.words (number root)) id c (marking root path changes v) keeps)) }
    ensures nodes { (k : ℕ) (s : State S View) (id : ℕ) (v : View) (root : Node) (path : List ℕ) (changes : List (ℕ × Change)) → Ruled k s
        → get_elem? s.views id ≡ some v → CanChange root path changes v → KeepsNodes v.holds (marking root path changes v).holds }
{}
