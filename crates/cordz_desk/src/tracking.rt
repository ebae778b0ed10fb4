//! Records that are tracked, given up and cleared.
ghost use Rattle.std.specs.Prelude.{◌≡◌, ◌<◌, ◌≤◌, ◌+◌, ◌^◌, false, [], ◌∷◌, MatchOption};
ghost use Rattle.std.specs.Bool.{⊤};
ghost use Rattle.record_rule.specs.declared.values.Rep.{Rep as IsOfRep};
ghost use Rattle.record_rule.specs.Log.{made_of};
ghost use Rattle.record_rule.specs.Views.{claim_at};
ghost use Rattle.record_rule.specs.declared.views.Claim.TheVariants.{Nothing, Promised};
ghost use Rattle.record_rule.specs.declared.views.Deed.TheVariants.{Free, Track};
ghost use Rattle.cordz_desk.specs.Owners.{first_note};
ghost use Rattle.cordz_desk.specs.Reps.{FoundAt};
ghost use Rattle.cordz_desk.specs.Shares.{IsShare};
ghost use Rattle.cordz_desk.specs.Tickets.{slot_of, stamp_of, notes_of, bare_of, IsAtRest};
ghost use Rattle.cordz_desk.specs.Tokens.{token_of, view_of, HasDeed, IsSameBut, IsCleared, IsGivenUp};
ghost use Rattle.cordz_desk.specs.declared.share.Share.{Share};

use crate::asking::Ask;
use crate::desk::CordzDesk;
use crate::handing::{Issuing, Redeeming};
use crate::naming::DeskNaming;
use crate::share::Share;
use crate::tickets::Ticket;
use crate::tokens::{CordzPass, Reserved};
use cordz_core::Settled;
use node_pool::Naming;
use std::marker::PhantomData;
use std::sync::Wait;

impl<P: Naming, D: DeskNaming> CordzDesk<P, D> {
    /// Writes the record of a reserved slot, and links it as the newest.
    pub fn track<R: Wait>(
        &self,
        rt: &R,
        pass: &mut CordzPass<P, D>,
        reserved: Reserved,
        share: Share<P>,
        method: u8,
    ) -> Ticket<P, D>
        requires few { made_of (token_of pass.old).own < 2 ^ 34 }
        requires reserved { claim_at (token_of pass.old).claims reserved.slot ≡ Promised reserved.stamp }
        requires share { IsShare share }
        ensures did { HasDeed (token_of pass.old) (token_of pass.new).own (Track reserved.slot) }
        ensures same { IsSameBut reserved.slot (token_of pass.old) (token_of pass.new) }
        ensures untracked { (token_of pass.new).untracked ≡ (token_of pass.old).untracked }
        ensures claim { claim_at (token_of pass.new).claims reserved.slot ≡ Nothing }
        ensures rest { IsAtRest result }
        ensures ticket { (slot_of result ≡ reserved.slot) × (stamp_of result ≡ reserved.stamp) × (bare_of result ≡ false) }
        ensures notes { notes_of result ≡ first_note reserved.stamp share.edge ∷ [] }
    {
        let Reserved { slot, stamp } = reserved;
        let note = self.fill(rt, &mut pass.pass, slot, stamp, share, method);
        self.act(rt, &mut pass.pass, Ask::Track(slot));
        let owner = self.parts.desk.split::<Issuing>(&mut pass.pass);
        Ticket {
            pass: owner,
            slot,
            note,
            of: PhantomData,
        }
    }

    /// Gives a record up. Where no snapshot lives it is deleted at once, and its share comes back.
    pub fn untrack<R: Wait>(
        &self,
        rt: &R,
        pass: &mut CordzPass<P, D>,
        ticket: Ticket<P, D>,
    ) -> Option<Share<P>>
        requires few { made_of (token_of pass.old).own + 3 ≤ 2 ^ 34 }
        requires rest { IsAtRest ticket }
        ensures given { IsGivenUp (token_of pass.old) (token_of pass.new).own (slot_of ticket) (notes_of ticket) (bare_of ticket) result }
        ensures same { IsSameBut (slot_of ticket) (token_of pass.old) (token_of pass.new) }
        ensures untracked { (token_of pass.new).untracked ≡ (stamp_of ticket, notes_of ticket) ∷ (token_of pass.old).untracked }
        ensures claim { claim_at (token_of pass.new).claims (slot_of ticket) ≡ Nothing }
    {
        let Ticket {
            pass: owner,
            slot,
            note: _,
            of: _,
        } = ticket;
        self.parts.desk.merge::<Redeeming>(&mut pass.pass, owner);
        match self.unlink_and_settle(rt, &mut pass.pass, slot) {
            Settled::Deleted => self.clear(rt, &mut pass.pass, slot),
            Settled::Queued => None,
        }
    }

    /// Empties a slot that `end_snapshot` gave, and frees it. The record's share comes back, if it has one.
    pub fn collect<R: Wait>(
        &self,
        rt: &R,
        pass: &mut CordzPass<P, D>,
        slot: u16,
    ) -> Option<Share<P>>
        requires few { made_of (token_of pass.old).own < 2 ^ 34 }
        requires slot { slot < 256 }
        requires cleared { IsCleared (claim_at (token_of pass.old).claims slot) }
        ensures did { HasDeed (token_of pass.old) (token_of pass.new).own (Free slot) }
        ensures same { IsSameBut slot (token_of pass.old) (token_of pass.new) }
        ensures untracked { (token_of pass.new).untracked ≡ (token_of pass.old).untracked }
        ensures claim { claim_at (token_of pass.new).claims slot ≡ Nothing }
        ensures found { (r : IsOfRep (Share P)) × FoundAt slot r (view_of pass.old) × (result ≡ r.hold) }
        ensures share { MatchOption result ⊤ IsShare }
    {
        self.clear(rt, &mut pass.pass, slot)
    }
}
