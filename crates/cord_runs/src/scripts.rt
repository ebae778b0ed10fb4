//! What runs of scripts over trees promise, as their books tell it.
ghost use Rattle.std.specs.Prelude.{◌≡◌, ◌≤◌, ℕ, List, [], map, Contains, slice_index_or};
ghost use Rattle.plain_cord.specs.declared.script.Script.{Script as Script_value};
ghost use Rattle.plain_cord.specs.declared.reply.Book.{Book as Book_value};
ghost use Rattle.plain_cord.specs.declared.reply.Report.{Report as Report_value};
ghost use Rattle.plain_cord.specs.declared.reply.Reply.TheVariants as replies;
ghost use Rattle.plain_cord.specs.declared.history.Entry.{Entry as Entry_value};
ghost use Rattle.plain_cord.specs.RunOrders.{replies_of};
ghost use Rattle.plain_cord.specs.Runs.{IsPlainRun};
ghost use Rattle.cord_steps.specs.Answers.{Request, Answer};
ghost use Rattle.cord_steps.specs.Replies.{answer_of, reply_of};
ghost use Rattle.cord_steps.specs.Sessions.{Options};
ghost use Rattle.cord_runs.specs.Kept.{kept_sessions, kept_books};
ghost use Rattle.cord_runs.specs.Runs.{IsRun};
ghost use Rattle.cord_runs.specs.Scripts.{options_of, requests_of, boxes_of, answers_in, IsTreeRun};

use crate::laws::{refusals_in_runs_show_their_cause, runs_are_plain_runs};
use cord_steps::replies_tell_answers;
use plain_cord::Report;

/// In each book of a run the reply by which an answer is told tells that answer.
pub fn answers_in_runs_are_told_by_their_replies()
    ensures { (options : Options) (boxes : ℕ → ℕ) (sessions : List (List Request)) (books : List (List (Answer Report_value))) (history : List Entry_value)
        (p : ℕ) (answer : Answer Report_value) → IsRun options boxes sessions books history
        → Contains (slice_index_or books p []) answer → answer ≡ answer_of (reply_of answer) }
{
    replies_tell_answers();
}

/// A run over trees of a script's requests, with its options, is a run of the script: the replies by which its answers are told are
/// the books.
pub fn told_runs_are_tree_runs()
    ensures { (script : Script_value) (boxes : ℕ) (books : List Book_value) (answers : List (List (Answer Report_value))) (history : List Entry_value)
        → IsRun (options_of script) (boxes_of boxes) (requests_of script) answers history
        → map (λ rs. map reply_of rs) answers ≡ map (λ book. book.replies) books
        → IsTreeRun script boxes books history }
{
    replies_tell_answers();
}

/// Without the commands that were refused for want of a height, a pass, a number or a box, those of the profiler, and marks, a run of a
/// script over trees is a run on byte strings with the same history.
pub fn tree_runs_are_plain_runs()
    ensures { (script : Script_value) (boxes : ℕ) (books : List Book_value) (history : List Entry_value) → IsTreeRun script boxes books history
        → IsPlainRun (kept_sessions (requests_of script) (answers_in books)) (kept_books (requests_of script) (answers_in books)) history }
{
    runs_are_plain_runs::<Report>();
}

/// In each book of a script's run over trees a refusal for want of a pass tells at least as many live passes as the script allows, and one
/// for want of a number all that its pool has.
pub fn refusals_in_tree_runs_show_their_cause()
    ensures cords { (script : Script_value) (boxes : ℕ) (books : List Book_value) (history : List Entry_value) (p : ℕ) (found : ℕ)
        → IsTreeRun script boxes books history → Contains (slice_index_or (replies_of books) p []) (replies.Cords found) → script.passes ≤ found }
    ensures pool { (script : Script_value) (boxes : ℕ) (books : List Book_value) (history : List Entry_value) (p : ℕ) (size : ℕ)
        → IsTreeRun script boxes books history → Contains (slice_index_or (replies_of books) p []) (replies.Pool size) → size ≡ script.pool }
{
    refusals_in_runs_show_their_cause::<Report>();
}
