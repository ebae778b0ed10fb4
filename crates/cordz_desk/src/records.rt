//! Slots that are reserved, and given back.
ghost use Rattle.std.specs.Prelude.{◌≡◌, ◌<◌, ◌≤◌, ◌+◌, ◌^◌, IfOk, IfErr};
ghost use Rattle.record_rule.specs.Log.{made_of};
ghost use Rattle.record_rule.specs.Views.{claim_at, HasDone};
ghost use Rattle.record_rule.specs.declared.views.Claim.TheVariants.{Promised};
ghost use Rattle.record_rule.specs.declared.views.Deed.TheVariants.{Reserve, Full, Free};
ghost use Rattle.cordz_desk.specs.Tokens.{token_of};

use crate::asking::Ask;
use crate::desk::CordzDesk;
use crate::naming::DeskNaming;
use crate::tokens::{CordzPass, Reserved};
use cordz_core::RecordsFull;
use node_pool::Naming;
use record_rule::Deed;
use std::sync::Wait;

impl<P: Naming, D: DeskNaming> CordzDesk<P, D> {
    /// A free slot, with the next stamp.
    pub fn reserve<R: Wait>(
        &self,
        rt: &R,
        pass: &mut CordzPass<P, D>,
    ) -> Result<Reserved, RecordsFull>
        requires few { made_of (token_of pass.old).own < 2 ^ 34 }
        ensures reserved { IfOk result (λ r. HasDone (token_of pass.old) (token_of pass.new) (Reserve r.slot r.stamp)) }
        ensures claim { IfOk result (λ r. claim_at (token_of pass.new).claims r.slot ≡ Promised r.stamp) }
        ensures first { IfOk result (λ r. 1 ≤ r.stamp) }
        ensures full { IfErr result (λ _. HasDone (token_of pass.old) (token_of pass.new) Full) }
        ensures in_use { IfErr result (λ e. e.in_use ≡ 256) }
    {
        match self.act(rt, &mut pass.pass, Ask::Reserve) {
            Deed::Reserve(slot, stamp) => Ok(Reserved { slot, stamp }),
            Deed::Full => Err(RecordsFull { in_use: 256 }),
            _ => unreachable!(),
        }
    }

    /// Gives a slot back that was reserved in vain.
    pub fn give_up<R: Wait>(&self, rt: &R, pass: &mut CordzPass<P, D>, reserved: Reserved)
        requires few { made_of (token_of pass.old).own < 2 ^ 34 }
        requires reserved { claim_at (token_of pass.old).claims reserved.slot ≡ Promised reserved.stamp }
        ensures { HasDone (token_of pass.old) (token_of pass.new) (Free reserved.slot) }
    {
        let Reserved { slot, stamp: _ } = reserved;
        self.act(rt, &mut pass.pass, Ask::Free(slot));
    }
}
