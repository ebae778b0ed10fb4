//! What the text of a run tells.
ghost use Rattle.std.specs.Prelude.{◌≡◌, ◌<◌, ℕ, List};
ghost use Rattle.std.specs.List.{All};
ghost use Rattle.plain_cord.specs.declared.script.Script.{Script as Script_value};
ghost use Rattle.plain_cord.specs.declared.reply.Book.{Book as Book_value};
ghost use Rattle.plain_cord.specs.declared.history.Entry.{Entry as Entry_value};
ghost use Rattle.plain_cord.specs.Runs.{IsPlainRun};
ghost use Rattle.script_reader.specs.ScriptSpelling.{Spells};
ghost use Rattle.script_reader.specs.Limits.{IsWithinLimits};
ghost use Rattle.report_text.specs.Outputs.{output_text, IsPrintable};
ghost use Rattle.report_text.specs.Readable.{IsReadable};
ghost use Rattle.run_laws.specs.ByteTexts.{HaveByteTexts};

use plain_laws::books_are_determined;
use report_text::{different_histories_print_differently, plain_runs_are_printable};

/// Every plain run of a script within the limits can be written.
pub fn plain_runs_within_limits_are_printable()
    ensures { (script : Script_value) (books : List Book_value) (history : List Entry_value) → IsWithinLimits script
        → IsPlainRun script.sessions books history → IsPrintable script.sessions books history }
{
    plain_runs_are_printable();
}

/// The texts of a script that is spelled are of bytes.
pub fn spelled_texts_are_bytes()
    ensures { (bytes : List ℕ) (script : Script_value) → Spells bytes script → HaveByteTexts script.sessions }
{}

/// Every plain run of a script within the limits can be read back from its text, and its actions were on cells that
/// there are.
pub fn plain_runs_are_readable()
    ensures readable { (script : Script_value) (books : List Book_value) (history : List Entry_value) → IsWithinLimits script → HaveByteTexts script.sessions
        → IsPlainRun script.sessions books history → IsReadable script.sessions books history }
    ensures cells { (script : Script_value) (books : List Book_value) (history : List Entry_value) → IsWithinLimits script
        → IsPlainRun script.sessions books history → All (λ entry. entry.cell < 64) history }
{}

/// The text of a run tells its history, whatever the bytes of the script's texts are.
pub fn histories_of_a_script_print_differently()
    ensures { (script : Script_value) (books : List Book_value) (others : List Book_value) (history : List Entry_value) (later : List Entry_value)
        → IsWithinLimits script → IsPlainRun script.sessions books history → IsPlainRun script.sessions others later
        → output_text script.sessions books history 0 script.pool ≡ output_text script.sessions others later 0 script.pool → history ≡ later }
{
    different_histories_print_differently();
}

/// Two different runs of one script never print the same: the text tells each answer and the order of all actions.
pub fn different_runs_of_a_script_print_differently()
    ensures { (script : Script_value) (books : List Book_value) (others : List Book_value) (history : List Entry_value) (later : List Entry_value)
        → IsWithinLimits script → IsPlainRun script.sessions books history → IsPlainRun script.sessions others later
        → output_text script.sessions books history 0 script.pool ≡ output_text script.sessions others later 0 script.pool
        → (books ≡ others) × (history ≡ later) }
{
    histories_of_a_script_print_differently();
    books_are_determined();
}
