//! What changes of an edge are on the table.
ghost use Rattle.std.specs.Prelude.{◌≡◌, ℕ, ◌<◌, List, [], ◌∷◌};
ghost use mathlib.Core.Option.{none};
ghost use Rattle.atomic_table.specs.Table.{Me, step, Allows};
ghost use Rattle.node_forest.specs.Label.{Node, number};
ghost use Rattle.node_forest.specs.Paths.{NeverDeeper, numbers_on};
ghost use Rattle.node_forest.specs.Changes.{Site, site};
ghost use Rattle.count_core.specs.Marks as core;
ghost use Rattle.node_edges.specs.declared.change.Change.{Change};
ghost use Rattle.node_edges.specs.Changes.{edits, FitEach};
ghost use Rattle.pool_rule.specs.Views.{View};
ghost use Rattle.pool_rule.specs.Trades.{HasHolds};
ghost use Rattle.pool_rule.specs.Pools.{Terms, Kept};
ghost use Rattle.pool_rule.specs.Marks.{marking, IsLonePath};
ghost use Rattle.pool_rule.specs.EdgeMarks.{core_changes, HasNew, HoldsNew, all_new, CanEdit, IsOnlyRoot, HaveTraded, edge_changed};

/// Changes of an edge that fit it are changes of its node by the count rule that fit it, at the same depths, and make the
/// same tree of it, where the edges that come are other direct holds. The numbers on the path stay.
pub fn edge_changes_are_marks()
    ensures order { (n : ℕ) (cs : List (ℕ × Change)) (s : Site) → NeverDeeper n cs → NeverDeeper n (core_changes cs s) }
    ensures fit { (cs : List (ℕ × Change)) (s : Site) (hs : List Node) → HasNew cs s hs → FitEach cs s
        → core.FitEach (core_changes cs s) (site s.tree s.path hs) }
    ensures numbers { (cs : List (ℕ × Change)) (s : Site) → FitEach cs s → numbers_on (edits cs s).tree (edits cs s).path ≡ numbers_on s.tree s.path }
    ensures tree { (cs : List (ℕ × Change)) (s : Site) (hs : List Node) → HasNew cs s hs
        → (core.edits (core_changes cs s) (site s.tree s.path hs)).tree ≡ (edits cs s).tree }
{}

/// The token's holds trade the root and the edges that came for the edges that went and the root as it is then.
pub fn edge_changes_trade_holds()
    ensures { (root : Node) (path : List ℕ) (cs : List (ℕ × Change)) (v : View) → IsOnlyRoot root path cs v
        → HaveTraded root path cs v.holds (marking root path (core_changes cs (site root path [])) v).holds }
{}

/// Edges that are holds before all changes, beside the root, are holds when they come.
pub fn held_edges_may_come()
    ensures { (root : Node) (cs : List (ℕ × Change)) (s : Site) (holds : List Node) → HasHolds holds (root ∷ all_new cs) → HoldsNew (root ∷ []) cs s holds }
{}

/// Whatever other threads do meanwhile, a load of the word of a direct hold, with which a worker changes its edge along a
/// path whose numbers are lone, keeps the rule, and trades the root and the edges that come for those that go and the root
/// as it is then.
pub fn edge_changes_keep_the_rule<S>()
    ensures { (p : Terms S) (slots id : ℕ) (me : Me S View) (root : Node) (path : List ℕ) (cs : List (ℕ × Change)) → 0 < me.0.spare
        → CanEdit root path cs me.0 → IsLonePath root path me.0 →
        Allows (Kept p) slots id me (number root) (λ n. n) (edge_changed root path cs (step slots (number root) 0 0 none) me) }
{}
