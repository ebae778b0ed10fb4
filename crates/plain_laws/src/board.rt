//! What a command does to the board's cells and to its session's names, whatever lies in the cells.
ghost use Rattle.std.specs.Prelude.{◌≡◌, ◌≢◌, ℕ, List, Some, slice_get};
ghost use Rattle.plain_cord.specs.declared.script.Command.{Command as Command_value};
ghost use Rattle.plain_cord.specs.States.{SameNames};
ghost use Rattle.plain_cord.specs.Effects.{SessionState, Cells, Effect, PlainEffect};
ghost use Rattle.plain_laws.specs.Targets.{target, cell_of};
ghost use Rattle.plain_laws.specs.Refusals.{IsRefusal, IsByteReply};

/// A refused command, of those that come to the board too, changes neither a name nor a cell.
pub fn refused_actions_change_nothing()
    ensures names { (p : ℕ) (state : SessionState) (cells : Cells) (command : Command_value) (e : Effect) → PlainEffect p state cells command e
        → IsRefusal e.reply → SameNames e.state.names state.names }
    ensures cells { (p : ℕ) (state : SessionState) (cells : Cells) (command : Command_value) (e : Effect) → PlainEffect p state cells command e
        → IsRefusal e.reply → e.cells ≡ cells }
{}

/// A command touches no name but the one that it sets, and no cell but the one that it names.
pub fn other_names_and_cells_stay()
    ensures names { (p : ℕ) (state : SessionState) (cells : Cells) (command : Command_value) (e : Effect) (name : List ℕ)
        → PlainEffect p state cells command e → target command ≢ Some name → e.state.names name ≡ state.names name }
    ensures cells { (p : ℕ) (state : SessionState) (cells : Cells) (command : Command_value) (e : Effect) (cell : ℕ) → PlainEffect p state cells command e
        → cell_of command ≢ Some cell → slice_get e.cells cell ≡ slice_get cells cell }
{}

/// On byte strings and cells no command is refused for want of a box, a height, a pass or a number, and the profiler says nothing.
pub fn byte_strings_want_nothing()
    ensures { (p : ℕ) (state : SessionState) (cells : Cells) (command : Command_value) (e : Effect) → PlainEffect p state cells command e
        → IsByteReply e.reply }
{}
