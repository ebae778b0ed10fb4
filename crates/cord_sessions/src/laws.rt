//! Laws of the endings: what a status tells for certain, and what the answers of a run have to do with byte strings.
ghost use Rattle.std.specs.Prelude.{◌≡◌, ◌≢◌, ◌+◌, ◌≤◌, ◌⊎◌, ◌↔◌, ℕ, List, [], ◌∷◌, Some, length, Contains, slice_index_or};
ghost use Rattle.plain_cord.specs.declared.history.Entry.{Entry as Entry_value};
ghost use Rattle.plain_cord.specs.declared.reply.Book.{Book as Book_value};
ghost use Rattle.plain_cord.specs.declared.reply.Reply.{Reply as Reply_value};
ghost use Rattle.plain_cord.specs.declared.reply.Reply.TheVariants as replies;
ghost use Rattle.plain_cord.specs.declared.script.Command.{Command as Command_value};
ghost use Rattle.plain_cord.specs.declared.script.Script.{Script as Script_value};
ghost use Rattle.plain_cord.specs.RunOrders.{replies_of};
ghost use Rattle.plain_cord.specs.Runs.{IsPlainRun};
ghost use Rattle.cord_steps.specs.Answers.{unmarked};
ghost use Rattle.cord_steps.specs.Replies.{request_of, answer_of};
ghost use Rattle.cord_steps.specs.Runs.{kept_line};
ghost use Rattle.cord_runs.specs.Kept.{kept_sessions, kept_books};
ghost use Rattle.cord_runs.specs.Scripts.{requests_of, answers_in};
ghost use Rattle.cord_port.specs.Causes.{Rose};
ghost use Rattle.script_reader.specs.ScriptSpelling.{Spells};
ghost use Rattle.cord_sessions.specs.declared.ending.TheConstants.{MOST_SCRIPT};
ghost use Rattle.cord_sessions.specs.declared.ending.Ending.{Ending as Ending_value};
ghost use Rattle.cord_sessions.specs.declared.ending.Ending.TheVariants.{Done, Refused, Usage, WriteFault, Memory, TooLong};
ghost use Rattle.cord_sessions.specs.declared.asked.Asked.{Asked as Asked_value};
ghost use Rattle.cord_sessions.specs.Asks.{Asks};
ghost use Rattle.cord_sessions.specs.Endings.{Outside, IsRunOf, IsDone, Says, SaysOf};
ghost use Rattle.cord_sessions.specs.Telling.{IsWant, AsksProfiler, IsOfProfiler};

use cord_runs::{refusals_in_tree_runs_show_their_cause, tree_runs_are_plain_runs};

/// A script that the source has whole, with no fault of source or sink, is done with its whole text, unless memory
/// runs out.
pub fn scripts_are_done()
    ensures { (command : Asked_value) (o : Outside) (ending : Ending_value) (bytes : List ℕ) (script : Script_value) → SaysOf command o ending
        → o.left ≡ Some bytes → Spells bytes script → length bytes ≤ MOST_SCRIPT
        → ¬ (Rose o.read_faults o.read_faults_after) → ¬ (Rose o.write_faults o.write_faults_after)
        → ((ending ≡ Done) × IsDone command o) ⊎ (ending ≡ Memory) }
{}

/// The usage line comes exactly where the words are no command, and `script too long` exactly where one byte more than
/// the limit was read.
pub fn statuses_are_exact()
    ensures usage { (words : List (List ℕ)) (o : Outside) (ending : Ending_value) → Says words o ending
        → (ending ≡ Usage) ↔ ((command : Asked_value) → ¬ (Asks words command)) }
    ensures long { (words : List (List ℕ)) (o : Outside) (ending : Ending_value) → Says words o ending
        → (ending ≡ TooLong) ↔ (o.given_after ≡ o.given + (MOST_SCRIPT + 1)) }
    // Bytes that are read to the end and are no script are refused, and no other bytes are.
    ensures refused { (command : Asked_value) (o : Outside) (bytes : List ℕ) → SaysOf command o Refused → o.left ≡ Some bytes
        → (script : Script_value) → Spells bytes script → ⊥ }
    ensures no_script { (command : Asked_value) (o : Outside) (ending : Ending_value) (bytes : List ℕ) → SaysOf command o ending
        → o.left ≡ Some bytes → ((script : Script_value) → Spells bytes script → ⊥)
        → (ending ≢ Done) × (ending ≢ WriteFault) }
{}

/// Each reply that a run prints is what plain byte strings give under the printed history, or it is a refusal for want of a box, a height, a
/// pass or a number, or the profiler's.
pub fn printed_replies_are_those_of_byte_strings()
    // The commands that weren't refused so, with their replies without marks, are a run on byte strings with the same history.
    ensures run { (o : Outside) (script : Script_value) (books : List Book_value) (history : List Entry_value) → IsRunOf o script books history
        → IsPlainRun (kept_sessions (requests_of script) (answers_in books)) (kept_books (requests_of script) (answers_in books)) history }
    // Each command is among them with its reply, or its reply is such a refusal, or one of the two is the profiler's.
    ensures kept { (command : Command_value) (reply : Reply_value)
        → (kept_line (request_of command, answer_of reply) ≡ (command, unmarked reply) ∷ [])
        ⊎ (IsWant reply ⊎ (AsksProfiler command ⊎ IsOfProfiler reply)) }
    // A refusal for want of a pass tells at least as many live passes as the script allows, and one for want of a number all of its pool.
    ensures cords { (o : Outside) (script : Script_value) (books : List Book_value) (history : List Entry_value) (p : ℕ) (found : ℕ)
        → IsRunOf o script books history → Contains (slice_index_or (replies_of books) p []) (replies.Cords found) → script.passes ≤ found }
    ensures pool { (o : Outside) (script : Script_value) (books : List Book_value) (history : List Entry_value) (p : ℕ) (size : ℕ)
        → IsRunOf o script books history → Contains (slice_index_or (replies_of books) p []) (replies.Pool size) → size ≡ script.pool }
{
    tree_runs_are_plain_runs();
    refusals_in_tree_runs_show_their_cause();
}
