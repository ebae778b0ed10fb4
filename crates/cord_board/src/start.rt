//! How a board begins and ends.
ghost use Rattle.std.specs.Prelude.{◌≡◌, ◌≤◌, ◌<◌, ◌^◌, ℕ, true, false, [], map, replicate, vec_capacity, IfOk, None};
ghost use Rattle.cord_board.specs.Passes.{board_view, IsOn};
ghost use Rattle.plain_cord.specs.Deeds.{entry_of};
ghost use Rattle.cord_board.specs.Histories.{entries_of, CountUp};
ghost use Rattle.cord_board.specs.Rule.{IsHistory, IsEnd};
ghost use Rattle.cord_board.specs.Views.{has, gave_of, joined_of, mine_in, clearings_of, cleared_of, IsLast};
ghost use Rattle.cord_board.specs.declared.view.BoardView.TheVariants.{Root};

use crate::board::Board;
use crate::cells::Cells;
use crate::item::BoardItem;
use crate::passes::BoardPass;
use cord_port::Memory;
use plain_cord::Entry;
use std::alloc::Global;
use turn_desk::{Desk, DeskRefused};

impl<C: BoardItem + Drop> Board<C> {
    /// An empty board, with room for so many entries, and its first pass.
    pub fn start(alloc: Global, entries: usize) -> Result<(Board<C>, BoardPass<C>), Memory>
        requires { entries < 2 ^ 32 }
        ensures board { IfOk result (λ b. IsOn b.0 b.1) }
        ensures view { IfOk result (λ b. board_view b.1 ≡ Root entries [] [] []) }
    {
        let cells = fresh_cells(alloc, entries)?;
        let mut values = Vec::with_capacity(alloc, 1)?;
        values.push_reserved(cells);
        match Desk::start(alloc, values, &entries) {
            Ok((desk, pass)) => {
                let pass = BoardPass {
                    pass,
                    session: 0,
                    made: 0,
                };
                Ok((Board { desk }, pass))
            }
            Err(DeskRefused { values: _ }) => Err(Memory),
        }
    }

    /// The history, for the last pass, when each of the 64 cells was cleared. One list of actions has both its entries and
    /// the items that lay in the cleared cells.
    pub fn finish(self, pass: BoardPass<C>) -> Vec<Entry>
        requires board { IsOn self pass }
        requires last { IsLast (board_view pass) }
        requires cleared { (k : ℕ) → k < 64 → has k (cleared_of (board_view pass)) ≡ true }
        ensures history { let v = board_view pass in IsHistory C.length_of result.items (gave_of v) (joined_of v) }
        ensures cleared { let v = board_view pass in IsEnd C.length_of result.items (gave_of v) (joined_of v) (clearings_of v) }
        ensures own { let v = board_view pass in (p : ℕ) → has p (gave_of v) ≡ true
            → entries_of p result.items ≡ map (entry_of C.length_of) (mine_in (joined_of v) p) }
        ensures none { (p : ℕ) → has p (gave_of (board_view pass)) ≡ false → entries_of p result.items ≡ [] }
        ensures numbered { (p : ℕ) → CountUp 1 (entries_of p result.items) }
    {
        let Board { desk } = self;
        let BoardPass {
            pass,
            session: _,
            made: _,
        } = pass;
        let mut values = desk.close(pass);
        let last = values.pop();
        let Some(slot) = last else { unreachable!() };
        let Some(found) = slot else { unreachable!() };
        let Cells {
            cells: _,
            history,
            cleared: _,
        } = found;
        history
    }
}

fn fresh_cells<C: Drop>(alloc: Global, entries: usize) -> Result<Cells<C>, Memory>
    ensures cells { IfOk result (λ x. x.cells.items ≡ replicate 64 None) }
    ensures history { IfOk result (λ x. (x.history.items ≡ []) × (entries ≤ vec_capacity x.history)) }
{
    let cells = empty_cells(alloc)?;
    let history = Vec::with_capacity(alloc, entries)?;
    Ok(Cells {
        cells,
        history,
        cleared: 0,
    })
}

fn empty_cells<C: Drop>(alloc: Global) -> Result<Vec<Option<C>>, Memory>
    ensures { IfOk result (λ v. v.items ≡ replicate 64 None) }
{
    let mut cells = Vec::with_capacity(alloc, 64)?;
    for _ in 0..64usize {
        cells.push_reserved(None);
    }
    Ok(cells)
}
