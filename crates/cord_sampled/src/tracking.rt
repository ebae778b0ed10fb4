//! Records that are made.
ghost use Rattle.std.specs.Prelude.{◌≡◌, ◌+◌, ◌≤◌, ◌^◌, [], length, Some, MatchOption};
ghost use Rattle.std.specs.Bool.{⊤};
ghost use Rattle.record_rule.specs.Log.{made_of};
ghost use Rattle.cordz_desk.specs.Shares.{tree_in, IsShare};
ghost use Rattle.cordz_desk.specs.Tokens.{token_of};
ghost use Rattle.cord_value.specs.Workers.{Keeps};
ghost use Rattle.cord_sampled.specs.Records.{HasRecord};
ghost use Rattle.cord_sampled.specs.Sampled.{cord_in, ticket_in};
ghost use Rattle.cord_sampled.specs.Tracking.{ended_by, IsTracked, IsTrackedIf};

use crate::cord::SampledCord;
use crate::hand::Hand;
use crate::leaving::end_share;
use crate::mark::Mark;
use cord_port::Releaser;
use cord_value::Cord;
use cordz_core::RecordsFull;
use cordz_desk::{DeskNaming, Share, Ticket};
use node_pool::Naming;
use std::sync::Wait;

/// A record of the share's tree, where a slot is free. Else the share ends.
pub(crate) fn track<R: Wait, P: Naming, D: DeskNaming, B: Releaser>(
    rt: &R,
    hand: &mut Hand<'_, P, D, B>,
    share: Share<P>,
) -> (Option<Ticket<P, D>>, Mark)
    requires room { length hand.old.worker.holds ≤ 96 }
    requires few { made_of (token_of hand.old.pass).own + 2 ≤ 2 ^ 34 }
    requires share { IsShare share }
    ensures record { MatchOption result.0 ⊤ (HasRecord (Some (tree_in share))) }
    ensures tracked { IsTracked result.0 result.1 (tree_in share) (token_of hand.old.pass) (token_of hand.new.pass) }
    ensures worker { Keeps P.limit [] 0 (ended_by result.1) hand.old.worker hand.new.worker }
    ensures same { (hand.new.stride ≡ hand.old.stride) × (hand.new.made ≡ hand.old.made) }
{
    match hand.cordz.reserve(rt, &mut hand.pass) {
        Ok(reserved) => {
            let ticket = hand.cordz.track(rt, &mut hand.pass, reserved, share, 0);
            let mark = Mark::Noted(ticket.note());
            (Some(ticket), mark)
        }
        Err(RecordsFull { in_use }) => {
            end_share(hand.pool, &mut hand.worker, Some(share));
            (None, Mark::Full { in_use })
        }
    }
}

/// The cord, with a record where there is a share of its tree for one and a slot is free.
pub(crate) fn recorded<R: Wait, P: Naming, D: DeskNaming, B: Releaser>(
    rt: &R,
    hand: &mut Hand<'_, P, D, B>,
    cord: Cord<P>,
    share: Option<Share<P>>,
) -> (SampledCord<P, D>, Mark)
    requires room { length hand.old.worker.holds ≤ 96 }
    requires few { made_of (token_of hand.old.pass).own + 2 ≤ 2 ^ 34 }
    requires share { MatchOption share ⊤ (λ x. IsShare x × (cord.tree ≡ Some (tree_in x))) }
    ensures cord { cord_in result.0 ≡ cord }
    ensures tracked { IsTrackedIf share (ticket_in result.0) result.1 (token_of hand.old.pass) (token_of hand.new.pass) }
    ensures worker { Keeps P.limit [] 0 (ended_by result.1) hand.old.worker hand.new.worker }
    ensures same { (hand.new.stride ≡ hand.old.stride) × (hand.new.made ≡ hand.old.made) }
{
    let Some(share) = share else {
        let ticket = None;
        return (SampledCord { cord, ticket }, Mark::Plain);
    };
    let (ticket, mark) = track(rt, hand, share);
    (SampledCord { cord, ticket }, mark)
}
