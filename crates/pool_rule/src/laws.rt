//! What the table's rule promises, for slots of any type.
ghost use Rattle.std.specs.Prelude.{◌≡◌, ◌≢◌, ℕ, ◌+◌, ◌-◌, ◌*◌, ◌%◌, ◌^◌, ◌<◌, ◌≤◌, ◌==◌, List, [], ◌∷◌, ◌++◌, length, slice_index};
ghost use mathlib.Core.Option.{some, none};
ghost use lib.ListN.{get_elem?};
ghost use prog.Atomic.{either};
ghost use Rattle.atomic_table.specs.Table.{State, Me, step, Allows, Splits, Joins, opening};
ghost use Rattle.node_forest.specs.Forest.{children};
ghost use Rattle.node_forest.specs.Label.{Node, number, external_slot};
ghost use Rattle.node_forest.specs.Members.{In, Occurs};
ghost use Rattle.count_core.specs.Views.{AreHeld, without, without_all};
ghost use Rattle.count_core.specs.Steps.{zeroes, word_at, holds_at};
ghost use Rattle.pool_rule.specs.Views.{View, first_view, counting, ending, undoing, narrower, part_of, parting, empty_pass, giving, holder, drawing};
ghost use Rattle.pool_rule.specs.Views.{merged, spent};
ghost use Rattle.node_forest.specs.declared.kind.Kind.TheVariants.{External};
ghost use Rattle.node_forest.specs.Limits.{most_edges};
ghost use Rattle.pool_rule.specs.Limits.{most_holds, most_numbers, most_passes, most_workers};
ghost use Rattle.pool_rule.specs.Notes.{Use};
ghost use Rattle.pool_rule.specs.Rules.{Ruled, world};
ghost use Rattle.pool_rule.specs.Pools.{Terms, IsFresh, IsCalled, Member, slot_times, IsBare, IsReached, IsKnown, made_by, ended_by, Kept};
ghost use Rattle.pool_rule.specs.Plays.{AreOneEach, Told, taken, shared, left, homed, looked};
ghost use Rattle.pool_rule.specs.Ends.{IsSettled};
ghost use Rattle.pool_rule.specs.Steps.{AreCoreSteps};
ghost use Rattle.pool_rule.specs.Trades.{Trades, HasHolds, Stands};

/// A pool whose words are 0 and whose one token, which holds nothing, has the shares of all workers.
pub fn pools_start_ruled<S>()
    ensures { (p : Terms S) (limit : ℕ) (slots : List ℕ) (xs : List S) → limit ≤ most_passes → 0 < p.workers → p.workers ≤ most_workers
        → ((j : ℕ) → slot_times j slots ≤ 1) → ((j : ℕ) → Member j slots → j < length xs)
        → ((j : ℕ) (y : S) → get_elem? xs j ≡ some y → IsFresh p j y)
        → Kept p (opening (zeroes (p.numbers + 1)) xs (first_view most_holds p.numbers limit p.workers slots)) }
{}

/// The world on which a token's steps are the count rule's has just the table's words, that of live passes apart, and the trees that each token
/// holds directly.
pub fn worlds_are_the_tables<S>()
    ensures width { (k : ℕ) (s : State S View) → Ruled k s → length (world k s).words ≡ k }
    ensures words { (k : ℕ) (s : State S View) → Ruled k s → (n : ℕ) → n < k → word_at (world k s) n ≡ slice_index s.words n }
    ensures live { (k : ℕ) (s : State S View) → (world k s).live ≡ slice_index s.words k }
    ensures tokens { (k : ℕ) (s : State S View) → length (world k s).views ≡ length s.views }
    ensures holds { (k : ℕ) (s : State S View) (id : ℕ) (v : View) → get_elem? s.views id ≡ some v → holds_at (world k s) id ≡ v.holds }
{}

/// On the world of any table under the rule each step of a token is the count rule's step of the same name, dividing it a split, and
/// joining another to it a merge.
pub fn steps_are_the_count_rules<S>()
    ensures { (k : ℕ) (s : State S View) (id : ℕ) (v : View) (c : List (ℕ × S)) → Ruled k s → get_elem? s.views id ≡ some v → AreCoreSteps k s id v c }
{}

/// Whatever other threads do meanwhile, these steps of a worker keep the rule and tell the worker what it knows then: a compare and
/// exchange of 0 by 1, an addition of 1, a subtraction of 1, and a load.
pub fn steps_keep_the_rule<S>()
    ensures take { (p : Terms S) (slots id : ℕ) (me : Me S View) (t : Node) → 0 < me.0.spare → number t < p.numbers
        → HasHolds me.0.holds (children t) → length (children t) ≤ most_edges → length me.0.holds < me.0.room + length (children t)
        → (t.0.kind ≡ External → (later : List ℕ) × (me.0.unused ≡ external_slot t.0 ∷ later))
        → Allows (Kept p) slots id me (number t) (λ n. either (n == 0) 1 n) (taken t (step slots (number t) 0 1 none) me) }
    ensures share { (p : Terms S) (slots id : ℕ) (me : Me S View) (t : Node) → 0 < me.0.spare → p.numbers ≤ most_numbers → Stands me.0.holds t
        → length me.0.holds < me.0.room → Allows (Kept p) slots id me (number t) (λ n. (n + 1) % 2 ^ 64) (shared t (step slots (number t) 1 0 none) me) }
    ensures leave { (p : Terms S) (slots id : ℕ) (me : Me S View) (t : Node) → 0 < me.0.spare → HasHolds me.0.holds (t ∷ [])
        → length me.0.holds + length (children t) ≤ me.0.room + 1 → me.0.away ≡ []
        → Allows (Kept p) slots id me (number t) (λ n. (n + (2 ^ 64 - 1)) % 2 ^ 64) (left p t (step slots (number t) 1 0 none) me) }
    ensures look { (p : Terms S) (slots id : ℕ) (me : Me S View) (t : Node) → 0 < me.0.spare → IsReached t me.0
        → Allows (Kept p) slots id me (number t) (λ n. n) (looked t (step slots (number t) 0 0 none) me) }
    ensures home { (p : Terms S) (slots id : ℕ) (me : Me S View) (u : Use) (y : S) → 0 < me.0.spare → 0 < p.numbers → me.0.away ≡ u ∷ []
        → me.1 ≡ (u.slot, y) ∷ [] → IsCalled p u.slot u.length y → Allows (Kept p) slots id me 0 (λ n. n) (homed (step slots 0 0 0 none) me) }
{}

/// A pass is counted by an addition of 1 to the word of live passes; it ends, or is taken back where the limit was reached, by a
/// subtraction of 1.
pub fn passes_keep_the_rule<S>()
    ensures count { (p : Terms S) (slots id : ℕ) (me : Me S View) → 0 < me.0.spare → me.0.over < me.0.spare
        → Allows (Kept p) slots id me p.numbers (λ n. (n + 1) % 2 ^ 64) (λ n m. Told (counting n me.0) me m) }
    ensures end { (p : Terms S) (slots id : ℕ) (me : Me S View) → 0 < me.0.spare → 0 < me.0.passes → length me.0.holds < me.0.room
        → Allows (Kept p) slots id me p.numbers (λ n. (n + (2 ^ 64 - 1)) % 2 ^ 64) (λ n m. Told (ending me.0) me m) }
    ensures undo { (p : Terms S) (slots id : ℕ) (me : Me S View) → 0 < me.0.spare → 0 < me.0.over → 0 < me.0.passes → length me.0.holds < me.0.room
        → Allows (Kept p) slots id me p.numbers (λ n. (n + (2 ^ 64 - 1)) % 2 ^ 64) (λ n m. Told (undoing me.0) me m) }
{}

/// A worker with room of its own is split from another, an empty pass or one with a direct hold becomes a token of its own, and a
/// pass goes back to a worker.
pub fn tokens_divide<S>()
    ensures split { (p : Terms S) (id room slots : ℕ) (v : View) → length v.holds + room ≤ v.room → 1 < v.spare → v.over < v.spare
        → Splits {S = S} (Kept p) id v (narrower room slots v) (part_of room slots v) }
    ensures part { (p : Terms S) (id : ℕ) (v : View) → 0 < v.spare → 0 < v.passes → length v.holds < v.room
        → Splits {S = S} (Kept p) id v (parting v) (empty_pass v) }
    ensures hand { (p : Terms S) (id : ℕ) (v : View) (t : Node) → 0 < v.spare → 0 < v.passes → HasHolds v.holds (t ∷ [])
        → Splits {S = S} (Kept p) id v (giving t v) (holder t v) }
    ensures draw { (p : Terms S) (id other : ℕ) (v w : View) → 0 < v.spare → w.spare ≡ 0 → IsBare w
        → Joins {S = S} (Kept p) id v other w (drawing v w) (spent w) }
    ensures merge { (p : Terms S) (id other : ℕ) (v w : View) → 0 < v.spare → w.away ≡ [] → Joins {S = S} (Kept p) id v other w (merged v w) (spent w) }
{}

/// Where one token has the shares of all workers, holds nothing and ended the passes that it made, no number is in use.
pub fn idle_pools_are_empty<S>()
    ensures { (p : Terms S) (s : State S View) (id : ℕ) (v : View) → Kept p s → get_elem? s.views id ≡ some v → v.spare ≡ p.workers → v.passes ≡ 0
        → made_by v ≡ ended_by v → v.holds ≡ [] → (n : ℕ) → n < p.numbers → slice_index s.words n ≡ 0 }
{}

/// Where one token has the shares of all workers and ended the passes that it made, each number in use stands in its trees.
pub fn numbers_in_use_are_held<S>()
    ensures { (p : Terms S) (s : State S View) (id : ℕ) (v : View) → Kept p s → get_elem? s.views id ≡ some v → v.spare ≡ p.workers → v.passes ≡ 0
        → made_by v ≡ ended_by v → (n : ℕ) → n < p.numbers → slice_index s.words n ≢ 0 → (x : Node) × Occurs x v.holds × (number x ≡ n) }
{}

/// What a token that is all workers of a pool knows of the steps of all of them.
pub fn whole_tokens_know_all_steps<S>()
    ensures { (p : Terms S) (s : State S View) (id : ℕ) (v : View) → Kept p s → get_elem? s.views id ≡ some v → v.spare ≡ p.workers → IsKnown v }
{}

/// Each slot is at home where one token is all workers of a pool and has no slot out: a box that no external used wasn't called, and
/// each other box was called at most once since it was handed in, for its external. Where no number is in use it was.
pub fn whole_tokens_know_all_boxes<S>()
    ensures boxes { (p : Terms S) (s : State S View) (id : ℕ) (v : View) → Kept p s → get_elem? s.views id ≡ some v → v.spare ≡ p.workers
        → v.away ≡ [] → (j : ℕ) → j < length s.homes → (y : S) × (get_elem? s.homes j ≡ some (some y)) × IsSettled p s.words v j y }
    ensures places { (p : Terms S) (s : State S View) (id : ℕ) (v : View) → Kept p s → get_elem? s.views id ≡ some v → v.spare ≡ p.workers
        → v.away ≡ [] → (u : Use) → Member u v.used → u.slot < length s.homes }
{}

/// A number that stands in a token's trees is in use.
pub fn held_numbers_are_in_use<S>()
    ensures { (p : Terms S) (s : State S View) (id : ℕ) (v : View) → Kept p s → get_elem? s.views id ≡ some v → (x : Node) → Occurs x v.holds
        → slice_index s.words (number x) ≢ 0 }
{}

/// What those who use the pool know of their holds by weights is what the steps ask for, and what the steps tell is a trade of
/// holds.
pub fn weights_tell_holds()
    ensures held { (hs cs : List Node) → AreOneEach hs → HasHolds hs cs → AreHeld cs hs }
    ensures stands { (hs : List Node) (e : Node) → Stands hs e → Occurs e hs }
    ensures take { (old cs : List Node) (e : Node) → AreOneEach old → HasHolds old cs → Trades old cs (e ∷ []) (without_all cs old ++ e ∷ []) }
    ensures leave { (old gained : List Node) (e : Node) → AreOneEach old → In e old → Trades old (e ∷ []) gained (without (number e) old ++ gained) }
    ensures share { (old : List Node) (e : Node) → Trades old [] (e ∷ []) (old ++ e ∷ []) }
{}
