//! The rule of a desk.
ghost use Rattle.std.specs.Prelude.{◌≡◌, ℕ, List, [], ◌∷◌, ◌++◌, slice_set, Option, Some, None};
ghost use mathlib.Core.Option.{some};
ghost use lib.ListN.{get_elem?};
ghost use Rattle.turn_desk.specs.Spots.{Spot, home, out};

/// `agrees` holds between any two steps. The laws below it say which changes keep it.
pub trait DeskRule {
    type Value;

    /// What a pass knows.
    type View;

    /// What the desk is told once, when it is started.
    type About;

    // The view of the pass of `start`.
    ghost first: { Self.About → Self.View };

    // It stands in proofs for the view of a merged pass, and `agrees` doesn't see it.
    ghost nobody: { Self.View };

    // Of the values, each at home or as it was taken out, and the views of all passes. A merged pass has none.
    ghost agrees: { List (Spot Self.Value) → List (Option Self.View) → Type 0 };

    // Of a place, the value as it was taken out, the value given back, and the leaver's view before and after.
    ghost leaves: { ℕ → Self.Value → Self.Value → Self.View → Self.View → Type 0 };

    // Of a view before a split, and the two after it.
    ghost splits: { Self.View → Self.View → Self.View → Type 0 };

    // Of the two views before a merge, and the one after it.
    ghost merges: { Self.View → Self.View → Self.View → Type 0 };

    // A value is taken out.
    ghost taking_agrees: { (spots : List (Spot Self.Value)) (views : List (Option Self.View)) (place : ℕ) (value : Self.Value) →
        agrees spots views → get_elem? spots place ≡ some (home value) → agrees (slice_set spots place (out value)) views };

    // A value is given back.
    ghost leaving_agrees: { (spots : List (Spot Self.Value)) (views : List (Option Self.View)) (place by : ℕ) (taken given : Self.Value)
        (before after : Self.View) →
        agrees spots views → get_elem? spots place ≡ some (out taken) → get_elem? views by ≡ some (Some before) → leaves place taken given before after →
        agrees (slice_set spots place (home given)) (slice_set views by (Some after)) };

    // The pass `by` is divided, and its second part stands last.
    ghost split_agrees: { (spots : List (Spot Self.Value)) (views : List (Option Self.View)) (by : ℕ) (view left right : Self.View) →
        agrees spots views → get_elem? views by ≡ some (Some view) → splits view left right →
        agrees spots (slice_set views by (Some left) ++ Some right ∷ []) };

    // The pass `other` is joined to the pass `by`.
    ghost merge_agrees: { (spots : List (Spot Self.Value)) (views : List (Option Self.View)) (by other : ℕ) (view second both : Self.View) →
        agrees spots views → get_elem? views by ≡ some (Some view) → ¬ (other ≡ by) → get_elem? views other ≡ some (Some second) → merges view second both →
        agrees spots (slice_set (slice_set views by (Some both)) other None) };
}
