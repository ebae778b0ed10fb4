//! What runs over trees promise.
ghost use Rattle.std.specs.Prelude.{◌≡◌, ℕ, List, [], map, length, Contains, slice_index_or};
ghost use Rattle.std.specs.List.{All};
ghost use Rattle.plain_cord.specs.declared.deed.Deed.{Deed as Deed_value};
ghost use Rattle.plain_cord.specs.declared.history.Entry.{Entry as Entry_value};
ghost use Rattle.plain_cord.specs.Deeds.{empty_cells, IsLegal, of_session, entry_of};
ghost use Rattle.plain_cord.specs.Runs.{IsPlainRun};
ghost use Rattle.cord_steps.specs.Answers.{Request, Answer};
ghost use Rattle.cord_steps.specs.Causes.{ShowsCause};
ghost use Rattle.cord_steps.specs.Cords.{Cord};
ghost use Rattle.cord_steps.specs.Notes.{HasNoMark};
ghost use Rattle.cord_steps.specs.Runs.{new_session};
ghost use Rattle.cord_steps.specs.Sessions.{Options, Session};
ghost use Rattle.cord_runs.specs.Alone.{size_of, RunsAlone};
ghost use Rattle.cord_runs.specs.Kept.{kept_sessions, kept_books, all_untold};
ghost use Rattle.cord_runs.specs.Orders.{lines_of, run_order};
ghost use Rattle.cord_runs.specs.Runs.{acts, lines_at, IsRun};
ghost use Rattle.cord_runs.specs.Stamps.{stamps_in, AreDifferent};
ghost use Rattle.cord_runs.specs.Watching.{IsWatched};

use cord_steps::{
    resource_refusals_show_their_cause, runs_without_refusals_are_plain_runs,
    steps_without_a_stride_have_no_marks,
};
use plain_laws::books_are_determined;

/// Sessions that ran by themselves, each with its own actions among those of one list in which each action found what its
/// cell held, are a run, and that list is its history. No stamp may be that of two new records, which is so where none is sampled.
pub fn sessions_alone_make_runs<R>()
    ensures sampled { (options : Options) (boxes : ℕ → ℕ) (sessions : List (List Request)) (books : List (List (Answer R)))
        (log : List (Deed_value Cord)) → map length books ≡ map length sessions → AreDifferent (stamps_in books) → IsLegal empty_cells log
        → ((p : ℕ) → (after : Session) × RunsAlone options p (new_session (boxes p)) (lines_at sessions books p) (of_session p log) after)
        → IsRun options boxes sessions books (map (entry_of size_of) log) }
    ensures unsampled { (options : Options) (boxes : ℕ → ℕ) (sessions : List (List Request)) (books : List (List (Answer R)))
        (log : List (Deed_value Cord)) → options.stride ≡ 0 → map length books ≡ map length sessions → IsLegal empty_cells log
        → ((p : ℕ) → (after : Session) × RunsAlone options p (new_session (boxes p)) (lines_at sessions books p) (of_session p log) after)
        → IsRun options boxes sessions books (map (entry_of size_of) log) }
{
    steps_without_a_stride_have_no_marks::<R>();
}

/// The order of a run has the lines of each session, once each and in their order, whatever the history.
pub fn run_orders_have_each_line<R>()
    ensures { (sessions : List (List Request)) (books : List (List (Answer R))) (history : List Entry_value) (p : ℕ)
        → lines_of p (run_order acts (length sessions) (lines_at sessions books) history) ≡ lines_at sessions books p }
{}

/// A run over trees is a run on byte strings with the same history: without the lines that were refused for want of a height, a
/// pass, a number or a box, those of the profiler, and marks.
pub fn runs_are_plain_runs<R>()
    ensures { (options : Options) (boxes : ℕ → ℕ) (sessions : List (List Request)) (books : List (List (Answer R))) (history : List Entry_value)
        → IsRun options boxes sessions books history
        → IsPlainRun (kept_sessions sessions books) (kept_books sessions books) history }
{
    runs_without_refusals_are_plain_runs::<R>();
}

/// In each book of a run a refusal for want of a pass tells at least as many live passes as the limit, and one for want of a number
/// all that the pool has.
pub fn refusals_in_runs_show_their_cause<R>()
    ensures { (options : Options) (boxes : ℕ → ℕ) (sessions : List (List Request)) (books : List (List (Answer R))) (history : List Entry_value)
        (p : ℕ) (answer : Answer R) → IsRun options boxes sessions books history → Contains (slice_index_or books p []) answer
        → ShowsCause options answer }
{
    resource_refusals_show_their_cause::<R>();
}

/// In a run each request to the profiler has one of its answers.
pub fn the_profiler_answers_in_runs<R>()
    ensures { (options : Options) (boxes : ℕ → ℕ) (sessions : List (List Request)) (books : List (List (Answer R))) (history : List Entry_value)
        (p : ℕ) → IsRun options boxes sessions books history → All (λ line. IsWatched line) (lines_at sessions books p) }
{}

/// In a run whose stride is 0 no answer has a mark.
pub fn runs_without_a_stride_have_no_marks<R>()
    ensures { (options : Options) (boxes : ℕ → ℕ) (sessions : List (List Request)) (books : List (List (Answer R))) (history : List Entry_value)
        (p : ℕ) (answer : Answer R) → options.stride ≡ 0 → IsRun options boxes sessions books history
        → Contains (slice_index_or books p []) answer → HasNoMark answer }
{
    steps_without_a_stride_have_no_marks::<R>();
}

/// The answers of runs whose stride is 0 follow from the history and from what was refused for want of something or told by the
/// profiler: whatever pools, limits and boxes, two runs of the same requests that have these have the same answers.
pub fn answers_follow_from_history_and_refusals<R>()
    ensures { (options others_options : Options) (boxes others_boxes : ℕ → ℕ) (sessions : List (List Request)) (books others : List (List (Answer R)))
        (history : List Entry_value) → options.stride ≡ 0 → others_options.stride ≡ 0 → IsRun options boxes sessions books history
        → IsRun others_options others_boxes sessions others history → all_untold books ≡ all_untold others → books ≡ others }
{
    steps_without_a_stride_have_no_marks::<R>();
    runs_are_plain_runs::<R>();
    books_are_determined();
}
