//! The desk, and a token's turn on its registry.
ghost use Rattle.std.specs.Prelude.{◌≡◌, ◌<◌, ◌≤◌, ◌+◌, ◌^◌, [], length};
ghost use Rattle.turn_desk.specs.Passes.{desk_places, desk_view, IsOf, IsIdle, IsSamePass, HasTurn};
ghost use Rattle.turn_desk.specs.Turns.{turn_place, turn_value, taken_value};
ghost use Rattle.room_reserve.specs.Rooms.{room_of};
ghost use Rattle.record_rule.specs.Log.{after_deed, made_of};
ghost use Rattle.record_rule.specs.Steps.{Does, Leaves, Makes, registry_of};
ghost use Rattle.record_rule.specs.Views.{done_view, token_in, most_actions, IsTokenView, HasDone};
ghost use Rattle.record_rule.specs.declared.views.DeskView.{DeskView};
ghost use Rattle.cordz_desk.specs.Asking.{May, IsAnswerTo, HasSmall, HasStamp, IsOnce};
ghost use Rattle.cordz_desk.specs.Keeps.{kept_in};
ghost use Rattle.cordz_desk.specs.Reps.{rep_of, IsRep, FoundAt};
ghost use Rattle.cordz_desk.specs.Shares.{tree_in, IsShare};

use crate::asking::{Ask, perform};
use crate::naming::DeskNaming;
use crate::parts::Parts;
use crate::rule::RecordRule;
use crate::share::Share;
use crate::tokens::Seated;
use node_pool::Naming;
use record_rule::{Deed, DeskView};
use std::marker::{Brand, PhantomData};
use std::sync::Wait;
use turn_desk::{Leave, Turn};

/// The registry, and the records of its 256 slots, which threads take in turns.
pub struct CordzDesk<P: Naming, D: DeskNaming> {
    pub(crate) parts: Parts<Share<P>>,
    pub(crate) of: PhantomData<D>,
    ghost named: { parts.desk.table.shared.table_id ≡ D.desk },
    ghost places: { desk_places parts.desk ≡ 257 },
    ghost rooted: { (kept_in parts.root).table_id ≡ D.desk },
    ghost idle: { IsIdle (kept_in parts.root) },
    ghost room: { 257 ≤ room_of parts.shares },
}

// Which view a token has after its turn, for clauses alone.
pub(crate) trait Becoming {
    ghost after: { DeskView → DeskView };
}

impl Becoming for Brand {
    ghost after = { λ v. v };
}

pub(crate) struct Becomes<B> {
    view: PhantomData<B>,
}

impl<B: Becoming> Leave<DeskView> for Becomes<B> {
    ghost after = { B.after };
}

impl<P: Naming, D: DeskNaming> CordzDesk<P, D> {
    /// A token's action or read.
    pub(crate) fn act<R: Wait>(&self, rt: &R, pass: &mut Seated<P>, ask: Ask) -> Deed
        requires desk { IsOf self.now.parts.desk pass.old }
        requires idle { IsIdle pass.old }
        requires token { IsTokenView (desk_view pass.old) }
        requires may { May ask (token_in (desk_view pass.old)) }
        requires few { made_of (token_in (desk_view pass.old)).own < most_actions }
        ensures pass { IsSamePass pass.old pass.new × IsIdle pass.new }
        ensures token { IsTokenView (desk_view pass.new) }
        ensures done { HasDone (token_in (desk_view pass.old)) (token_in (desk_view pass.new)) result }
        ensures answer { IsAnswerTo ask result }
        ensures small { HasSmall result }
        ensures first { HasStamp result }
        ensures once { IsOnce result }
    {
        let mut turn = self.parts.desk.enter(rt, pass, 0);
        let deed = perform(turn.value(), ask);
        self.leave::<Brand>(pass, turn, &deed);
        deed
    }

    // Waits for the turn of a slot's record.
    pub(crate) fn enter_record<R: Wait>(
        &self,
        rt: &R,
        pass: &mut Seated<P>,
        slot: u16,
    ) -> Turn<RecordRule<Share<P>>>
        requires desk { IsOf self.now.parts.desk pass.old }
        requires idle { IsIdle pass.old }
        requires slot { slot < 256 }
        ensures pass { IsSamePass pass.old pass.new × (desk_view pass.new ≡ desk_view pass.old) }
        ensures turn { HasTurn pass.new (turn_place result) (taken_value result) }
        ensures place { turn_place result ≡ slot + 1 }
        ensures value { turn_value result ≡ taken_value result }
        ensures rep { IsRep (taken_value result) }
        ensures found { FoundAt slot (rep_of (taken_value result)) (desk_view pass.old) }
    {
        self.parts.desk.enter(rt, pass, usize::from(slot) + 1)
    }

    // Leaves the turn of a slot's record for a view that the caller chose.
    pub(crate) fn leave_to<B: Becoming>(
        &self,
        pass: &mut Seated<P>,
        turn: Turn<RecordRule<Share<P>>>,
        slot: u16,
    )
        requires desk { IsOf self.now.parts.desk pass.old }
        requires turn { HasTurn pass.old (turn_place turn) (taken_value turn) }
        requires place { turn_place turn ≡ slot + 1 }
        requires leaves { Leaves tree_in IsShare (turn_place turn) (taken_value turn) (turn_value turn) (desk_view pass.old) (B.after (desk_view pass.old)) }
        ensures pass { IsSamePass pass.old pass.new × IsIdle pass.new }
        ensures view { desk_view pass.new ≡ B.after (desk_view pass.old) }
    {
        self.parts.desk.exit_to::<Becomes<B>>(pass, turn);
    }

    fn leave<B: Becoming>(
        &self,
        pass: &mut Seated<P>,
        turn: Turn<RecordRule<Share<P>>>,
        deed: &Deed,
    )
        requires after { B.after ≡ done_view (registry_of (turn_value turn)).clock deed.now }
        requires desk { IsOf self.now.parts.desk pass.old }
        requires turn { HasTurn pass.old (turn_place turn) (taken_value turn) }
        requires first { turn_place turn ≡ 0 }
        requires token { IsTokenView (desk_view pass.old) }
        requires makes { Makes (taken_value turn) (turn_value turn) deed.now }
        requires does { Does deed.now (token_in (desk_view pass.old)) (registry_of (taken_value turn)) (registry_of (turn_value turn)) }
        requires few { length (after_deed deed.now []) + made_of (token_in (desk_view pass.old)).own ≤ most_actions }
        ensures pass { IsSamePass pass.old pass.new × IsIdle pass.new }
        ensures view { desk_view pass.new ≡ done_view (registry_of (turn_value turn)).clock deed.now (desk_view pass.old) }
    {
        self.parts.desk.exit_to::<Becomes<B>>(pass, turn);
    }
}
