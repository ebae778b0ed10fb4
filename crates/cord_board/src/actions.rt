//! What a session does to a cell. Each action is done when its turn is left, and its entry stands then.
ghost use Rattle.std.specs.Prelude.{◌≡◌, ◌<◌, ◌∷◌, IsNone, IsSomeAnd, MatchOption, MatchResult, Option, Some, None};
ghost use Rattle.plain_cord.specs.Deeds.{deed};
ghost use Rattle.cord_board.specs.Passes.{board_view, IsOn};
ghost use Rattle.cord_board.specs.Rule.{CellHeld};
ghost use Rattle.cord_board.specs.Views.{entries_left, session_of, gave_of, joined_of, clearings_of, cleared_of, next_place, CanAct, Did, IsLast};
ghost use Rattle.cord_board.specs.declared.view.BoardView.TheVariants.{Root};

use crate::board::Board;
use crate::item::{BoardItem, Twin};
use crate::passes::BoardPass;
use plain_cord::Act;
use std::sync::Wait;

impl<C: BoardItem> Board<C> {
    /// Puts the item into the cell, and gives what stood there.
    pub fn put<R: Wait>(&self, rt: &R, pass: &mut BoardPass<C>, cell: u8, item: C) -> Option<C>
        requires board { IsOn self.now pass.old }
        requires cell { cell < 64 }
        requires session { CanAct (board_view pass.old) }
        ensures board { IsOn self.now pass.new }
        ensures did { let v = board_view pass.old in Did v (board_view pass.new) (deed (session_of v) (next_place v) Act.Put cell (Some item) result) }
    {
        let mut turn = self.desk.enter(rt, &mut pass.pass, 0);
        let was = turn.value().put(pass.session, pass.made + 1, cell, item);
        self.desk.exit(&mut pass.pass, turn);
        pass.made += 1;
        was
    }

    /// Takes the item out of the cell. None where it was empty.
    pub fn take<R: Wait>(&self, rt: &R, pass: &mut BoardPass<C>, cell: u8) -> Option<C>
        requires board { IsOn self.now pass.old }
        requires cell { cell < 64 }
        requires session { CanAct (board_view pass.old) }
        ensures board { IsOn self.now pass.new }
        ensures did { let v = board_view pass.old in Did v (board_view pass.new) (deed (session_of v) (next_place v) Act.Take cell None result) }
    {
        let mut turn = self.desk.enter(rt, &mut pass.pass, 0);
        let was = turn.value().take(pass.session, pass.made + 1, cell);
        self.desk.exit(&mut pass.pass, turn);
        pass.made += 1;
        was
    }

    /// Exchanges the item in the cell for the one that is handed in. Where the cell is empty the item comes back.
    pub fn swap<R: Wait>(&self, rt: &R, pass: &mut BoardPass<C>, cell: u8, item: C) -> Result<C, C>
        requires board { IsOn self.now pass.old }
        requires cell { cell < 64 }
        requires session { CanAct (board_view pass.old) }
        ensures board { IsOn self.now pass.new }
        ensures did { let v = board_view pass.old in let w = board_view pass.new in MatchResult result
            (λ was. Did v w (deed (session_of v) (next_place v) Act.Swap cell (Some item) (Some was)))
            (λ back. (back ≡ item) × Did v w (deed (session_of v) (next_place v) Act.Swap cell None None)) }
    {
        let mut turn = self.desk.enter(rt, &mut pass.pass, 0);
        let swapped = turn.value().swap(pass.session, pass.made + 1, cell, item);
        self.desk.exit(&mut pass.pass, turn);
        pass.made += 1;
        swapped
    }

    /// Asks the item in the cell for its twin. None where the cell is empty.
    pub fn peek<R: Wait, W>(
        &self,
        rt: &R,
        pass: &mut BoardPass<C>,
        cell: u8,
        with: &mut W,
    ) -> Option<C::Out>
    where
        C: Twin<W>,
        requires board { IsOn self.now pass.old }
        requires cell { cell < 64 }
        requires session { CanAct (board_view pass.old) }
        requires asks { C.Twin.asks with.old }
        ensures board { IsOn self.now pass.new }
        ensures did { let v = board_view pass.old in (was : Option C)
            × MatchOption was (IsNone result × (with.new ≡ with.old)) (λ x. IsSomeAnd result (λ y. C.Twin.gives x with.old with.new y))
            × Did v (board_view pass.new) (deed (session_of v) (next_place v) Act.Peek cell None was) }
    {
        let mut turn = self.desk.enter(rt, &mut pass.pass, 0);
        let out = turn.value().peek(pass.session, pass.made + 1, cell, with);
        self.desk.exit(&mut pass.pass, turn);
        pass.made += 1;
        out
    }

    /// Takes the item out of the cell without an entry, when every session has come back. `finish` tells of all items that
    /// were taken so.
    pub fn clear<R: Wait>(&self, rt: &R, pass: &mut BoardPass<C>, cell: u8) -> Option<C>
        requires board { IsOn self.now pass.old }
        requires cell { cell < 64 }
        requires last { IsLast (board_view pass.old) }
        ensures board { IsOn self.now pass.new }
        ensures cleared { let v = board_view pass.old in board_view pass.new ≡
            Root (entries_left v) (gave_of v) (joined_of v) ((cell, result) ∷ clearings_of v) }
        ensures held { let v = board_view pass.old in CellHeld (gave_of v) (joined_of v) (cleared_of v) cell result }
    {
        let mut turn = self.desk.enter(rt, &mut pass.pass, 0);
        let was = turn.value().clear(cell);
        self.desk.exit(&mut pass.pass, turn);
        was
    }
}
