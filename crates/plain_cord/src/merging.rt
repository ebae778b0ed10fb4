//! How sessions that know nothing of each other make one run.
ghost use Rattle.std.specs.Prelude.{◌≡◌, ℕ, List, map, length};
ghost use Rattle.plain_cord.specs.declared.script.Session.{Session as Session_value};
ghost use Rattle.plain_cord.specs.declared.reply.Book.{Book as Book_value};
ghost use Rattle.plain_cord.specs.declared.deed.Deed.{Deed as Deed_value};
ghost use Rattle.plain_cord.specs.States.{CordState};
ghost use Rattle.plain_cord.specs.Deeds.{empty_cells, IsLegal, of_session, entry_of};
ghost use Rattle.plain_cord.specs.Effects.{SessionState, new_session, size_of};
ghost use Rattle.plain_cord.specs.RunOrders.{commands_of, replies_of, lines_at};
ghost use Rattle.plain_cord.specs.Runs.{IsPlainRun};
ghost use Rattle.plain_cord.specs.Alone.{RunsAlone};

/// Sessions that ran by themselves, each with its own actions among those of one list in which each action found what its
/// cell held, are a plain run, and that list is its history.
pub fn sessions_alone_make_plain_runs()
    ensures { (sessions : List Session_value) (books : List Book_value) (log : List (Deed_value CordState))
        → map length (replies_of books) ≡ map length (commands_of sessions) → IsLegal empty_cells log
        → ((p : ℕ) → (after : SessionState) × RunsAlone p new_session (lines_at sessions books p) (of_session p log) after)
        → IsPlainRun sessions books (map (entry_of size_of) log) }
{}
