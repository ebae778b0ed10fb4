//! What the step relation promises, of every world and over every list of steps.
ghost use Rattle.std.specs.Prelude.{◌≡◌, ◌≢◌, ℕ, ◌<◌, Bool, true, false, List, length, Some};
ghost use Rattle.node_forest.specs.Label.{Node, number};
ghost use Rattle.node_forest.specs.Members.{In, Occurs};
ghost use Rattle.count_core.specs.Marks.{Change};
ghost use Rattle.count_core.specs.MarkLaws.{MovesWholeTrees};
ghost use Rattle.count_core.specs.Steps.{State, Step, CanStep, Does, after, holds_at, start, mark};
ghost use Rattle.count_core.specs.Worlds.{IsSound};
ghost use Rattle.count_core.specs.Bare.{bare_world, bare_step};
ghost use Rattle.count_core.specs.Runs.{Moment, IsRun};
ghost use Rattle.count_core.specs.Lives.{life, Alternate, ReturnsFree};
ghost use Rattle.count_core.specs.Paths.{path_from, IsLone};

/// One step keeps the words the counts of their holders, trees with one number equal and the words in bounds, from any
/// world where that holds.
pub fn one_step_keeps_counts()
    ensures { (step : Step) (w : State) (done : Bool) (x : State) → IsSound w → Does step w done x → IsSound x }
{}

/// The same after every list of steps from a world in which no number is held; there are as many words as at the start.
pub fn every_run_keeps_counts()
    ensures sound { (numbers workers : ℕ) (moments : List Moment) (x : State) → IsRun (start numbers workers) moments x → IsSound x }
    ensures places { (numbers workers : ℕ) (moments : List Moment) (x : State) → IsRun (start numbers workers) moments x → length x.words ≡ numbers }
{}

/// Over every list of steps, each number is taken and returned in turn, beginning with a take, and a return leaves no
/// holder.
pub fn takes_and_returns_alternate()
    ensures alternate { (numbers workers : ℕ) (moments : List Moment) (x : State) → IsRun (start numbers workers) moments x → (n : ℕ)
        → Alternate false (life n moments) }
    ensures free { (numbers workers : ℕ) (moments : List Moment) (x : State) → IsRun (start numbers workers) moments x → (n : ℕ) → ReturnsFree n moments }
{}

/// Changes in place leave all other views as they are, and in their own view they move whole trees between the direct holds
/// and the edges beside the path. The numbers on the path stay.
pub fn marks_move_whole_trees()
    ensures others { (w : State) (v n : ℕ) (path : List ℕ) (changes : List (ℕ × Change)) → CanStep (mark v n path changes) w → (other : ℕ)
        → other ≢ v → holds_at (after (mark v n path changes) w) other ≡ holds_at w other }
    ensures moved { (w : State) (v n : ℕ) (path : List ℕ) (changes : List (ℕ × Change)) → CanStep (mark v n path changes) w
        → MovesWholeTrees w (after (mark v n path changes) w) v n path }
{}

/// Each step of a world is that step where its trees have numbers, kinds and lengths alone, as the trees of a `World` have.
pub fn steps_forget_bytes()
    ensures { (step : Step) (w x : State) → Does step w true x → Does (bare_step step) (bare_world w) true (bare_world x) }
{}

/// Where a view holds a tree directly and the word of each node of a path from its root is 1, none of these numbers occurs
/// in another view.
pub fn lone_paths_exclude_others()
    ensures { (w : State) (v : ℕ) (root : Node) (places : List ℕ) → IsSound w → v < length w.views → In root (holds_at w v)
        → IsLone w (path_from (Some root) places) → (x : Node) → In x (path_from (Some root) places) → (other : ℕ) → other ≢ v → (y : Node)
        → Occurs y (holds_at w other) → number y ≢ number x }
{}
