//! The cells with their history, which lie on the desk.
ghost use Rattle.std.specs.Prelude.{◌≡◌, ◌<◌, ◌++◌, ◌∷◌, [], slice_get, slice_set, vec_len, vec_capacity, option_map, IsNone, IsSomeAnd, MatchOption};
ghost use Rattle.std.specs.Prelude.{MatchResult, Option, Some, None};
ghost use Rattle.plain_cord.specs.Deeds.{deed};
ghost use Rattle.cord_board.specs.Log.{Acts, Clears};

use crate::item::{BoardItem, Twin};
use plain_cord::{Act, Entry};
use std::mem;

/// 64 cells and their history.
#[derive(Drop)]
pub struct Cells<C> {
    pub(crate) cells: Vec<Option<C>>,
    pub(crate) history: Vec<Entry>,
    // The cell that was cleared last. Contracts read it, to know of a turn that cleared a cell which one that was.
    pub(crate) cleared: u8,
}

impl<C> Cells<C> {
    // Leaves this in the cell, and gives what lay there.
    fn exchange(&mut self, cell: u8, item: Option<C>) -> Option<C>
        requires { cell < vec_len self.old.cells }
        ensures found { slice_get self.old.cells.items cell ≡ Some result }
        ensures cells { self.new.cells.items ≡ slice_set self.old.cells.items cell item }
        ensures same { (self.new.history ≡ self.old.history) × (self.new.cleared ≡ self.old.cleared) }
    {
        mem::replace(&mut self.cells[usize::from(cell)], item)
    }

    fn note(&mut self, entry: Entry)
        requires { vec_len self.old.history < vec_capacity self.old.history }
        ensures history { self.new.history.items ≡ self.old.history.items ++ entry ∷ [] }
        ensures room { vec_capacity self.new.history ≡ vec_capacity self.old.history }
        ensures same { (self.new.cells ≡ self.old.cells) × (self.new.cleared ≡ self.old.cleared) }
    {
        self.history.push_reserved(entry);
    }

    // Takes the item out, without an entry.
    pub(crate) fn clear(&mut self, cell: u8) -> Option<C>
        requires { cell < vec_len self.old.cells }
        ensures { Clears self.old self.new cell result }
    {
        self.cleared = cell;
        self.exchange(cell, None)
    }
}

impl<C: BoardItem> Cells<C> {
    pub(crate) fn put(&mut self, session: u16, place: u32, cell: u8, item: C) -> Option<C>
        requires cell { cell < vec_len self.old.cells }
        requires room { vec_len self.old.history < vec_capacity self.old.history }
        ensures { Acts C.length_of self.old self.new (deed session place Act.Put cell (Some item) result) }
    {
        let came = Some(item.size());
        let was = self.exchange(cell, Some(item));
        self.note(Entry {
            session,
            place,
            act: Act::Put,
            cell,
            came,
            was: None,
        });
        was
    }

    pub(crate) fn take(&mut self, session: u16, place: u32, cell: u8) -> Option<C>
        requires cell { cell < vec_len self.old.cells }
        requires room { vec_len self.old.history < vec_capacity self.old.history }
        ensures { Acts C.length_of self.old self.new (deed session place Act.Take cell None result) }
    {
        let was = self.exchange(cell, None);
        let found = length_in(&was);
        self.note(Entry {
            session,
            place,
            act: Act::Take,
            cell,
            came: None,
            was: found,
        });
        was
    }

    pub(crate) fn swap(&mut self, session: u16, place: u32, cell: u8, item: C) -> Result<C, C>
        requires cell { cell < vec_len self.old.cells }
        requires room { vec_len self.old.history < vec_capacity self.old.history }
        ensures { MatchResult result
            (λ was. Acts C.length_of self.old self.new (deed session place Act.Swap cell (Some item) (Some was)))
            (λ back. (back ≡ item) × Acts C.length_of self.old self.new (deed session place Act.Swap cell None None)) }
    {
        let came = item.size();
        let (came, was, swapped) = match &mut self.cells[usize::from(cell)] {
            Some(there) => {
                let was = mem::replace(there, item);
                (Some(came), Some(was.size()), Ok(was))
            }
            None => (None, None, Err(item)),
        };
        self.note(Entry {
            session,
            place,
            act: Act::Swap,
            cell,
            came,
            was,
        });
        swapped
    }

    pub(crate) fn peek<W>(
        &mut self,
        session: u16,
        place: u32,
        cell: u8,
        with: &mut W,
    ) -> Option<C::Out>
    where
        C: Twin<W>,
        requires cell { cell < vec_len self.old.cells }
        requires room { vec_len self.old.history < vec_capacity self.old.history }
        requires asks { C.Twin.asks with.old }
        ensures { (was : Option C) × MatchOption was (IsNone result × (with.new ≡ with.old))
            (λ x. IsSomeAnd result (λ y. C.Twin.gives x with.old with.new y)) × Acts C.length_of self.old self.new (deed session place Act.Peek cell None was) }
    {
        let slot = &mut self.cells[usize::from(cell)];
        let was = length_in(slot);
        let out = twin_in(slot, with);
        self.note(Entry {
            session,
            place,
            act: Act::Peek,
            cell,
            came: None,
            was,
        });
        out
    }
}

fn length_in<C: BoardItem>(item: &Option<C>) -> Option<u64>
    ensures { result ≡ option_map C.length_of item.now }
{
    match item {
        Some(x) => Some(x.size()),
        None => None,
    }
}

fn twin_in<C: Twin<W>, W>(item: &mut Option<C>, with: &mut W) -> Option<C::Out>
    requires { C.Twin.asks with.old }
    ensures same { item.new ≡ item.old }
    ensures out { MatchOption item.old (IsNone result × (with.new ≡ with.old)) (λ x. IsSomeAnd result (λ y. C.Twin.gives x with.old with.new y)) }
{
    match item {
        Some(x) => Some(x.twin(with)),
        None => None,
    }
}
