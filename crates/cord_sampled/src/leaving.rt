//! Records that are given up.
ghost use Rattle.std.specs.Prelude.{◌≡◌, ◌+◌, ◌≤◌, ◌^◌, [], length, MatchOption};
ghost use Rattle.std.specs.Bool.{⊤};
ghost use Rattle.record_rule.specs.Log.{made_of};
ghost use Rattle.cordz_desk.specs.Shares.{IsShare};
ghost use Rattle.cordz_desk.specs.Tickets.{stamp_of, IsAtRest};
ghost use Rattle.cordz_desk.specs.Tokens.{token_of};
ghost use Rattle.cord_value.specs.Workers.{Keeps};
ghost use Rattle.cord_sampled.specs.declared.mark.Mark.TheVariants.{Gone};
ghost use Rattle.cord_sampled.specs.Leaving.{shares_in, IsGivenBack};
ghost use Rattle.cord_sampled.specs.Records.{IsStamped};

use crate::hand::Hand;
use crate::mark::Mark;
use cord_port::Releaser;
use cordz_desk::{DeskNaming, Share, Ticket};
use node_pool::{Naming, Pool, Worker};
use std::sync::Wait;

/// Leaves the tree of a share, and ends its pass.
pub fn end_share<P: Naming, B: Releaser>(
    pool: &Pool<P, B>,
    w: &mut Worker<P>,
    share: Option<Share<P>>,
)
    requires room { length w.old.holds ≤ 96 }
    requires share { MatchOption share ⊤ IsShare }
    ensures { Keeps P.limit [] 0 (shares_in share) w.old w.new }
{
    if let Some(share) = share {
        let Share { pass, edge } = share;
        pool.draw_and_end(w, pass);
        pool.finish(w, &edge);
    }
}

/// Gives up a record, and ends the share that comes back.
pub(crate) fn give_up<R: Wait, P: Naming, D: DeskNaming, B: Releaser>(
    rt: &R,
    hand: &mut Hand<'_, P, D, B>,
    ticket: Ticket<P, D>,
) -> Mark
    requires room { length hand.old.worker.holds ≤ 96 }
    requires few { made_of (token_of hand.old.pass).own + 3 ≤ 2 ^ 34 }
    requires rest { IsAtRest ticket }
    requires stamped { IsStamped ticket }
    ensures mark { result ≡ Gone (stamp_of ticket) }
    ensures given { IsGivenBack P.limit ticket 0 (token_of hand.old.pass) (token_of hand.new.pass) hand.old.worker hand.new.worker }
    ensures same { (hand.new.stride ≡ hand.old.stride) × (hand.new.made ≡ hand.old.made) }
{
    let stamp = ticket.note().stamp;
    let share = hand.cordz.untrack(rt, &mut hand.pass, ticket);
    end_share(hand.pool, &mut hand.worker, share);
    Mark::Gone { stamp }
}
