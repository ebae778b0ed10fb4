//! What the text of a run over trees tells.
ghost use Rattle.std.specs.Prelude.{ℕ, List};
ghost use Rattle.plain_cord.specs.declared.script.Script.{Script as Script_value};
ghost use Rattle.plain_cord.specs.declared.reply.Book.{Book as Book_value};
ghost use Rattle.plain_cord.specs.declared.history.Entry.{Entry as Entry_value};
ghost use Rattle.cord_runs.specs.Scripts.{IsTreeRun};
ghost use Rattle.script_reader.specs.Limits.{IsWithinLimits};
ghost use Rattle.report_text.specs.Outputs.{IsPrintable};

use cord_runs::{the_profiler_answers_in_runs, tree_runs_are_plain_runs};
use plain_cord::Report;
use report_text::plain_runs_are_printable;

/// Every run over trees of a script within the limits can be written.
pub fn tree_runs_within_limits_are_printable()
    ensures { (script : Script_value) (boxes : ℕ) (books : List Book_value) (history : List Entry_value) → IsWithinLimits script
        → IsTreeRun script boxes books history → IsPrintable script.sessions books history }
{
    tree_runs_are_plain_runs();
    the_profiler_answers_in_runs::<Report>();
    plain_runs_are_printable();
}
