//! Snapshots, and walks from record to record.
ghost use Rattle.std.specs.Prelude.{◌≡◌, ◌<◌, ◌≤◌, ◌+◌, ◌^◌, ℕ, true, false, IfSome, None};
ghost use Rattle.cordz_core.specs.Queue.{has, Apart};
ghost use Rattle.record_rule.specs.Log.{made_of, is_walking, walk_of};
ghost use Rattle.record_rule.specs.Views.{claim_at, HasDone};
ghost use Rattle.record_rule.specs.declared.views.Claim.TheVariants.{Cleared};
ghost use Rattle.record_rule.specs.declared.views.Deed.TheVariants.{Snap, Unsnap, Head, Next};
ghost use Rattle.cordz_desk.specs.Tokens.{token_of};

use crate::asking::Ask;
use crate::desk::CordzDesk;
use crate::naming::DeskNaming;
use crate::tokens::CordzPass;
use arrayvec::ArrayVec;
use node_pool::Naming;
use record_rule::Deed;
use std::sync::Wait;

impl<P: Naming, D: DeskNaming> CordzDesk<P, D> {
    /// Begins the snapshot of one of the first 16 passes, which has none.
    pub fn snapshot<R: Wait>(&self, rt: &R, pass: &mut CordzPass<P, D>)
        requires few { made_of (token_of pass.old).own < 2 ^ 34 }
        requires walker { (token_of pass.old).number < 16 }
        requires none { is_walking (token_of pass.old).own ≡ false }
        ensures { HasDone (token_of pass.old) (token_of pass.new) (Snap (token_of pass.old).number) }
    {
        self.act(rt, &mut pass.pass, Ask::Snap(pass.number));
    }

    /// The newest linked record's slot, where a walk begins.
    pub fn first<R: Wait>(&self, rt: &R, pass: &mut CordzPass<P, D>) -> Option<u16>
        requires few { made_of (token_of pass.old).own < 2 ^ 34 }
        requires walking { is_walking (token_of pass.old).own ≡ true }
        ensures done { HasDone (token_of pass.old) (token_of pass.new) (Head result) }
        ensures small { IfSome result (λ s. s < 256) }
    {
        match self.act(rt, &mut pass.pass, Ask::Head) {
            Deed::Head(answer) => answer,
            _ => unreachable!(),
        }
    }

    /// The slot of the record behind one that the walk gave.
    pub fn next<R: Wait>(&self, rt: &R, pass: &mut CordzPass<P, D>, slot: u16) -> Option<u16>
        requires few { made_of (token_of pass.old).own < 2 ^ 34 }
        requires walking { is_walking (token_of pass.old).own ≡ true }
        requires given { has slot (walk_of (token_of pass.old).own) ≡ true }
        ensures done { HasDone (token_of pass.old) (token_of pass.new) (Next slot result) }
        ensures small { IfSome result (λ s. s < 256) }
    {
        match self.act(rt, &mut pass.pass, Ask::Next(slot)) {
            Deed::Next(_, answer) => answer,
            _ => unreachable!(),
        }
    }

    /// Ends the pass's snapshot, and gives the slots of the records that are deleted with it, in the order of their settling.
    pub fn end_snapshot<R: Wait>(&self, rt: &R, pass: &mut CordzPass<P, D>) -> ArrayVec<u16, 256>
        requires few { made_of (token_of pass.old).own < 2 ^ 34 }
        requires walking { is_walking (token_of pass.old).own ≡ true }
        ensures done { HasDone (token_of pass.old) (token_of pass.new) (Unsnap (token_of pass.old).number result) }
        ensures small { (s : ℕ) → has s result.items ≡ true → s < 256 }
        ensures once { Apart result.items }
        ensures cleared { (s : ℕ) → has s result.items ≡ true → claim_at (token_of pass.new).claims s ≡ Cleared None }
    {
        match self.act(rt, &mut pass.pass, Ask::Unsnap(pass.number)) {
            Deed::Unsnap(_, gone) => gone,
            _ => unreachable!(),
        }
    }
}
