//! Whole runs.
ghost use Rattle.std.specs.Prelude.{◌≡◌, ℕ, ◌≤◌, List, [], ◌∷◌, ◌++◌, length, Some, None, slice_get};
ghost use Rattle.std.specs.List.{All};
ghost use Rattle.plain_cord.specs.declared.limits.TheConstants.{MOST_BYTES};
ghost use Rattle.plain_cord.specs.declared.script.Text.{Text as Text_value};
ghost use Rattle.plain_cord.specs.declared.script.Command.{Command as Command_value};
ghost use Rattle.plain_cord.specs.declared.script.Command.TheVariants as commands;
ghost use Rattle.plain_cord.specs.declared.script.Session.{Session as Session_value};
ghost use Rattle.plain_cord.specs.declared.reply.Reply.{Reply as Reply_value};
ghost use Rattle.plain_cord.specs.declared.reply.Book.{Book as Book_value};
ghost use Rattle.plain_cord.specs.declared.history.Entry.{Entry as Entry_value};
ghost use Rattle.plain_cord.specs.Texts.{text_bytes};
ghost use Rattle.plain_cord.specs.States.{Environment};
ghost use Rattle.plain_cord.specs.Outcomes.{shown};
ghost use Rattle.plain_cord.specs.Steps.{PlainRun};
ghost use Rattle.plain_cord.specs.RunOrders.{run_order, lines_at};
ghost use Rattle.plain_cord.specs.Runs.{IsBookOf, IsPlainRun};
ghost use Rattle.plain_laws.specs.Lines.{lines_of};
ghost use Rattle.plain_laws.specs.Targets.{cell_of};
ghost use Rattle.plain_laws.specs.Appends.{AppendsTo, texts_bytes};

/// A name that is set to a text, and to which then texts are appended among any other commands that leave it alone,
/// is printed as the texts joined.
pub fn appended_texts_are_printed()
    ensures { (names now : Environment) (a : List ℕ) (first : Text_value) (said : List Command_value) (texts : List Text_value) (replies : List Reply_value)
        → AppendsTo a said texts → length (text_bytes first ++ texts_bytes texts) ≤ MOST_BYTES
        → PlainRun names (commands.Let a first ∷ said ++ commands.Print a ∷ []) replies now
        → (before : List Reply_value) × (replies ≡ before ++ shown (text_bytes first ++ texts_bytes texts) ∷ []) }
{}

/// The order of a run has the lines of each session, once each and in their order, whatever the history.
pub fn orders_have_each_line()
    ensures { (sessions : List Session_value) (books : List Book_value) (history : List Entry_value) (p : ℕ)
        → lines_of p (run_order (length sessions) (lines_at sessions books) history) ≡ lines_at sessions books p }
{}

/// A script's answers follow from the history: two lists of books that are plain runs of it with the same history are the
/// same.
pub fn books_are_determined()
    ensures { (sessions : List Session_value) (books others : List Book_value) (history : List Entry_value) → IsPlainRun sessions books history
        → IsPlainRun sessions others history → books ≡ others }
{}

/// A session none of whose commands names a cell has the answers of its own plain run, whatever the others do.
pub fn sessions_without_cells_run_alone()
    ensures { (sessions : List Session_value) (books : List Book_value) (history : List Entry_value) (p : ℕ) (session : Session_value) (book : Book_value)
        → IsPlainRun sessions books history
        → slice_get sessions p ≡ Some session → slice_get books p ≡ Some book → All (λ command. cell_of command ≡ None) session.commands
        → IsBookOf session book }
{}
