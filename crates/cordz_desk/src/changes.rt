//! Changes of a record, under its turn.
ghost use Rattle.std.specs.Prelude.{◌≡◌, true, false, ◌∷◌, MatchOption, None};
ghost use Rattle.std.specs.Bool.{⊤};
ghost use Rattle.turn_desk.specs.Passes.{desk_view};
ghost use Rattle.record_rule.specs.Notes.{newest_update};
ghost use Rattle.record_rule.specs.World.{is_none};
ghost use Rattle.cordz_desk.specs.Owners.{IsNewestTree, noted_as};
ghost use Rattle.cordz_desk.specs.Reps.{IsRaised};
ghost use Rattle.cordz_desk.specs.Shares.{tree_in, IsShare};
ghost use Rattle.cordz_desk.specs.Tickets.{slot_of, stamp_of, notes_of, bare_of, IsAtRest, IsSameTicket, IsChangeOf, IsShareOf};

use crate::desk::CordzDesk;
use crate::naming::DeskNaming;
use crate::reps::{publish_share, put_share, take_share};
use crate::share::Share;
use crate::tickets::{Change, Ticket};
use node_pool::Naming;
use record_rule::Note;
use std::marker::Brand;
use std::sync::Wait;

impl<P: Naming, D: DeskNaming> CordzDesk<P, D> {
    /// Takes the record's turn, and its share out of it. A bare record has none.
    pub fn begin<R: Wait>(&self, rt: &R, ticket: &mut Ticket<P, D>) -> Change<P>
        requires rest { IsAtRest ticket.old }
        ensures ticket { IsSameTicket ticket.old ticket.new }
        ensures change { IsChangeOf ticket.new result }
        ensures bare { is_none result.share ≡ bare_of ticket.new }
        ensures share { MatchOption result.share ⊤ (λ x. IsShareOf (notes_of ticket.new) (bare_of ticket.new) x) }
    {
        let mut turn = self.enter_record(rt, &mut ticket.pass, ticket.slot);
        let share = take_share(turn.value());
        Change { share, turn }
    }

    /// Ends a change with a new share, whose note the ticket has then. The old share was taken out of the change.
    pub fn publish(
        &self,
        ticket: &mut Ticket<P, D>,
        change: Change<P>,
        share: Share<P>,
        method: u8,
    ) -> Note
        requires change { IsChangeOf ticket.old change }
        requires taken { change.share ≡ None }
        requires share { IsShare share }
        ensures rest { IsAtRest ticket.new }
        ensures ticket { (slot_of ticket.new ≡ slot_of ticket.old) × (stamp_of ticket.new ≡ stamp_of ticket.old) × (bare_of ticket.new ≡ false) }
        ensures notes { notes_of ticket.new ≡ noted_as result share.edge ∷ notes_of ticket.old }
        ensures stamp { result.stamp ≡ stamp_of ticket.old }
        ensures update { IsRaised (newest_update (notes_of ticket.old)) result.update }
        ensures length { result.length ≡ share.edge.0.length }
    {
        let Change { share: _, mut turn } = change;
        let note = publish_share(turn.value(), share, method);
        self.leave_to::<Brand>(&mut ticket.pass, turn, ticket.slot);
        ticket.note = note;
        note
    }

    /// Ends a change that wasn't made, with a share of the same tree, or of a bare record without one.
    pub fn keep(&self, ticket: &mut Ticket<P, D>, change: Change<P>)
        requires change { IsChangeOf ticket.old change }
        requires bare { is_none change.share ≡ bare_of ticket.old }
        requires share { MatchOption change.share ⊤ (λ x. IsShareOf (notes_of ticket.old) (bare_of ticket.old) x) }
        ensures rest { IsAtRest ticket.new }
        ensures ticket { IsSameTicket ticket.old ticket.new }
    {
        self.put_back(ticket, change);
    }

    /// Ends a change that could not be made, and leaves the record bare under its old note. The share was taken out of the change.
    pub fn strip(&self, ticket: &mut Ticket<P, D>, change: Change<P>)
        requires change { IsChangeOf ticket.old change }
        requires taken { change.share ≡ None }
        ensures rest { IsAtRest ticket.new }
        ensures ticket { (slot_of ticket.new ≡ slot_of ticket.old) × (stamp_of ticket.new ≡ stamp_of ticket.old) × (notes_of ticket.new ≡ notes_of ticket.old) }
        ensures bare { bare_of ticket.new ≡ true }
    {
        self.put_back(ticket, change);
    }

    fn put_back(&self, ticket: &mut Ticket<P, D>, change: Change<P>)
        requires change { IsChangeOf ticket.old change }
        requires share { MatchOption change.share ⊤ (λ x. IsShareOf (notes_of ticket.old) (bare_of ticket.old) x) }
        ensures rest { IsAtRest ticket.new }
        ensures ticket { (slot_of ticket.new ≡ slot_of ticket.old) × (stamp_of ticket.new ≡ stamp_of ticket.old) × (notes_of ticket.new ≡ notes_of ticket.old) }
        ensures bare { bare_of ticket.new ≡ is_none change.share }
    {
        let Change { share, mut turn } = change;
        put_share(turn.value(), share);
        self.leave_to::<Brand>(&mut ticket.pass, turn, ticket.slot);
    }
}
