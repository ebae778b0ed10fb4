//! The owner's token of a record, and a change of it.
ghost use Rattle.std.specs.Prelude.{◌≡◌, ◌<◌};
ghost use Rattle.turn_desk.specs.Passes.{desk_view};
ghost use Rattle.cordz_desk.specs.Owners.{slot_in, notes_in, IsTicketView, IsNewest};

use crate::naming::DeskNaming;
use crate::rule::RecordRule;
use crate::share::Share;
use crate::tokens::Seated;
use node_pool::Naming;
use record_rule::Note;
use std::marker::PhantomData;
use turn_desk::Turn;

/// The owner's token of a tracked record. Contracts see the notes that were set under it.
#[derive(Drop)]
pub struct Ticket<P: Naming, D: DeskNaming> {
    pub(crate) pass: Seated<P>,
    pub(crate) slot: u16,
    pub(crate) note: Note,
    pub(crate) of: PhantomData<D>,
    ghost named: { pass.table_id ≡ D.desk },
    ghost owner: { IsTicketView (desk_view pass) },
    ghost slotted: { slot ≡ slot_in (desk_view pass) },
    ghost small: { slot < 256 },
    ghost noted: { IsNewest note (notes_in (desk_view pass)) },
}

/// The record's turn, with its share taken out. It ends by `publish`, `keep` or `strip`.
pub struct Change<P: Naming> {
    /// None for a bare record.
    pub share: Option<Share<P>>,
    pub(crate) turn: Turn<RecordRule<Share<P>>>,
}

impl<P: Naming, D: DeskNaming> Ticket<P, D> {
    ghost use Rattle.cordz_desk.specs.Tickets.{notes_of};

    /// The newest note of its record.
    pub fn note(&self) -> Note
        ensures { IsNewest result (notes_of self.now) }
    {
        self.note
    }
}
