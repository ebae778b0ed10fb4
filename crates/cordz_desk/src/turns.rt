//! A token's turns on the records of slots that are its own.
ghost use Rattle.std.specs.Prelude.{◌≡◌, ◌<◌, ◌≤◌, ◌+◌, [], ◌∷◌};
ghost use Rattle.turn_desk.specs.Passes.{desk_view, IsOf, IsIdle, IsSamePass};
ghost use Rattle.record_rule.specs.Log.{made_of};
ghost use Rattle.record_rule.specs.Steps.{IsOwned};
ghost use Rattle.record_rule.specs.Views.{claim_at, claiming, claiming_view, token_in, most_actions, HasDone, IsTokenView};
ghost use Rattle.record_rule.specs.declared.values.Rep.{Rep as IsOfRep};
ghost use Rattle.record_rule.specs.declared.views.Claim.TheVariants.{Promised, Written, Emptied};
ghost use Rattle.record_rule.specs.declared.views.Deed.TheVariants.{Free};
ghost use Rattle.cordz_desk.specs.Owners.{first_note};
ghost use Rattle.cordz_desk.specs.Reps.{FoundAt};
ghost use Rattle.cordz_desk.specs.Shares.{IsShare};
ghost use Rattle.cordz_desk.specs.Tokens.{IsCleared, HasSettled};
ghost use Rattle.cordz_desk.specs.declared.share.Share.{Share};

use crate::asking::Ask;
use crate::desk::CordzDesk;
use crate::naming::DeskNaming;
use crate::reps::{take_share, write};
use crate::share::Share;
use crate::tokens::Seated;
use cordz_core::Settled;
use node_pool::Naming;
use record_rule::{Deed, Note, Rep};
use std::marker::Brand;
use std::sync::Wait;

impl<P: Naming, D: DeskNaming> CordzDesk<P, D> {
    // Writes the record of a slot that is reserved.
    pub(crate) fn fill<R: Wait>(
        &self,
        rt: &R,
        pass: &mut Seated<P>,
        slot: u16,
        stamp: u64,
        share: Share<P>,
        method: u8,
    ) -> Note
        requires desk { IsOf self.now.parts.desk pass.old }
        requires idle { IsIdle pass.old }
        requires token { IsTokenView (desk_view pass.old) }
        requires slot { slot < 256 }
        requires claim { claim_at (token_in (desk_view pass.old)).claims slot ≡ Promised stamp }
        requires share { IsShare share }
        ensures pass { IsSamePass pass.old pass.new × IsIdle pass.new }
        ensures view { desk_view pass.new ≡ claiming_view slot (Written stamp (first_note stamp share.edge ∷ [])) (desk_view pass.old) }
        ensures note { result ≡ (first_note stamp share.edge).note }
    {
        let length = share.edge.length();
        let mut turn = self.enter_record(rt, pass, slot);
        let rep = Rep {
            stamp,
            update: 0,
            length,
            method,
            hold: Some(share),
        };
        write(turn.value(), rep);
        self.leave_to::<Brand>(pass, turn, slot);
        Note {
            stamp,
            update: 0,
            length,
        }
    }

    // Takes the share out of the record of a slot that is to be cleared.
    pub(crate) fn drain<R: Wait>(&self, rt: &R, pass: &mut Seated<P>, slot: u16) -> Option<Share<P>>
        requires desk { IsOf self.now.parts.desk pass.old }
        requires idle { IsIdle pass.old }
        requires token { IsTokenView (desk_view pass.old) }
        requires slot { slot < 256 }
        requires claim { IsCleared (claim_at (token_in (desk_view pass.old)).claims slot) }
        ensures pass { IsSamePass pass.old pass.new × IsIdle pass.new }
        ensures view { desk_view pass.new ≡ claiming_view slot Emptied (desk_view pass.old) }
        ensures found { (r : IsOfRep (Share P)) × FoundAt slot r (desk_view pass.old) × (result ≡ r.hold) }
    {
        let mut turn = self.enter_record(rt, pass, slot);
        let share = take_share(turn.value());
        self.leave_to::<Brand>(pass, turn, slot);
        share
    }

    // Gives up a record that the token has.
    pub(crate) fn unlink_and_settle<R: Wait>(
        &self,
        rt: &R,
        pass: &mut Seated<P>,
        slot: u16,
    ) -> Settled
        requires desk { IsOf self.now.parts.desk pass.old }
        requires idle { IsIdle pass.old }
        requires token { IsTokenView (desk_view pass.old) }
        requires claim { IsOwned (claim_at (token_in (desk_view pass.old)).claims slot) }
        requires few { made_of (token_in (desk_view pass.old)).own + 2 ≤ most_actions }
        ensures pass { IsSamePass pass.old pass.new × IsIdle pass.new }
        ensures token { IsTokenView (desk_view pass.new) }
        ensures done { HasSettled (token_in (desk_view pass.old)) (token_in (desk_view pass.new)) slot result }
    {
        self.act(rt, pass, Ask::Unlink(slot));
        match self.act(rt, pass, Ask::Settle(slot)) {
            Deed::Settle(_, answer) => answer,
            _ => unreachable!(),
        }
    }

    // Empties a slot that is to be cleared, and frees it.
    pub(crate) fn clear<R: Wait>(&self, rt: &R, pass: &mut Seated<P>, slot: u16) -> Option<Share<P>>
        requires desk { IsOf self.now.parts.desk pass.old }
        requires idle { IsIdle pass.old }
        requires token { IsTokenView (desk_view pass.old) }
        requires slot { slot < 256 }
        requires claim { IsCleared (claim_at (token_in (desk_view pass.old)).claims slot) }
        requires few { made_of (token_in (desk_view pass.old)).own < most_actions }
        ensures pass { IsSamePass pass.old pass.new × IsIdle pass.new }
        ensures token { IsTokenView (desk_view pass.new) }
        ensures done { HasDone (claiming slot Emptied (token_in (desk_view pass.old))) (token_in (desk_view pass.new)) (Free slot) }
        ensures found { (r : IsOfRep (Share P)) × FoundAt slot r (desk_view pass.old) × (result ≡ r.hold) }
    {
        let share = self.drain(rt, pass, slot);
        self.act(rt, pass, Ask::Free(slot));
        share
    }
}
