//! Copies that a peek made.
ghost use Rattle.std.specs.Prelude.{◌≡◌, ◌+◌, ◌≤◌, ◌^◌, [], length};
ghost use Rattle.pool_rule.specs.Trades.{SameHolds};
ghost use Rattle.record_rule.specs.Log.{made_of};
ghost use Rattle.cordz_desk.specs.Tokens.{token_of};
ghost use Rattle.cord_value.specs.Workers.{Keeps};
ghost use Rattle.cord_sampled.specs.Copies.{one_if, IsCopied};
ghost use Rattle.cord_sampled.specs.Sampled.{cord_in, ticket_in};
ghost use Rattle.cord_sampled.specs.Tracking.{ended_by, IsTrackedIf};

use crate::cord::SampledCord;
use crate::hand::Hand;
use crate::mark::Mark;
use crate::passes::end_pass;
use crate::tracking::recorded;
use cord_port::Releaser;
use cord_value::Cord;
use cordz_desk::{DeskNaming, Share};
use node_pool::{Naming, Pass};
use std::sync::Wait;

/// A copy of a cord, with a share of its tree where it is to be sampled, and the passes that these don't hold.
#[derive(Drop)]
pub struct Copied<P: Naming> {
    pub cord: Cord<P>,
    pub share: Option<Share<P>>,
    pub spare: Option<Pass<P>>,
    pub spare_sample: Option<Pass<P>>,
}

/// Makes a copy the session's own, with a record where it is to be sampled and a slot is free. The spare passes end.
pub fn adopt<R: Wait, P: Naming, D: DeskNaming, B: Releaser>(
    rt: &R,
    hand: &mut Hand<'_, P, D, B>,
    copied: Copied<P>,
) -> (SampledCord<P, D>, Mark)
    requires room { length hand.old.worker.holds ≤ 96 }
    requires few { made_of (token_of hand.old.pass).own + 2 ≤ 2 ^ 34 }
    requires copied { IsCopied copied }
    ensures cord { cord_in result.0 ≡ copied.cord }
    ensures tracked { IsTrackedIf copied.share (ticket_in result.0) result.1 (token_of hand.old.pass) (token_of hand.new.pass) }
    ensures worker { Keeps P.limit [] 0 (one_if copied.spare + one_if copied.spare_sample + ended_by result.1) hand.old.worker hand.new.worker }
    ensures holds { SameHolds hand.old.worker.holds hand.new.worker.holds }
    ensures acted { made_of (token_of hand.new.pass).own ≤ made_of (token_of hand.old.pass).own + 2 }
    ensures same { (hand.new.stride ≡ hand.old.stride) × (hand.new.made ≡ hand.old.made) }
{
    let Copied {
        cord,
        share,
        spare,
        spare_sample,
    } = copied;
    end_pass(hand.pool, &mut hand.worker, spare);
    end_pass(hand.pool, &mut hand.worker, spare_sample);
    recorded(rt, hand, cord, share)
}
