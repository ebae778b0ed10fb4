//! What the history of a plain run tells.
ghost use Rattle.std.specs.Prelude.{◌≡◌, ℕ, List, [], ◌∷◌, ◌++◌, length, Some};
ghost use Rattle.plain_cord.specs.declared.script.Session.{Session as Session_value};
ghost use Rattle.plain_cord.specs.declared.reply.Book.{Book as Book_value};
ghost use Rattle.plain_cord.specs.declared.history.Entry.{Entry as Entry_value};
ghost use Rattle.plain_cord.specs.States.{CordState};
ghost use Rattle.plain_cord.specs.RunOrders.{Line, run_order, lines_at};
ghost use Rattle.plain_cord.specs.Runs.{IsPlainRun};
ghost use Rattle.plain_laws.specs.Actions.{actions_of, told_actions};
ghost use Rattle.plain_laws.specs.Moments.{beginning, moment_after, cord_of, Gets, WasPut};
ghost use Rattle.plain_laws.specs.Replays.{entries_of, Replays};

/// Who knows the lengths alone can do the history again: each action found in its cell what the actions before it left
/// there, from 64 empty cells, and the actions of each session are counted 1, 2, 3 and so on.
pub fn histories_replay()
    ensures { (sessions : List Session_value) (books : List Book_value) (history : List Entry_value) → IsPlainRun sessions books history → Replays history }
{}

/// The history tells each action of each session's commands that came to the board, in their order, and no other.
pub fn histories_tell_each_action()
    ensures { (sessions : List Session_value) (books : List Book_value) (history : List Entry_value) (p : ℕ) → IsPlainRun sessions books history
        → told_actions (entries_of p history) ≡ actions_of (lines_at sessions books p) }
{}

/// What a take, a peek or a swap that was done gives to its name is, sum included, the cord that the last put or swap before
/// it, in the order of the history, brought into that cell: the cord that the name of that put or swap had then.
pub fn taken_cords_were_put()
    ensures { (sessions : List Session_value) (books : List Book_value) (history : List Entry_value) (done rest : List (ℕ × Line)) (p : ℕ) (line : Line)
        (name : List ℕ) (cell : ℕ) → IsPlainRun sessions books history
        → run_order (length sessions) (lines_at sessions books) history ≡ done ++ (p, line) ∷ rest → Gets line name cell
        → (cord : CordState) × (cord_of (moment_after beginning (done ++ (p, line) ∷ [])) p name ≡ Some cord) × WasPut done cell cord }
{}
