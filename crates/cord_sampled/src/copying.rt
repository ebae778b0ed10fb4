//! Copies of sampled cords, and ranges of them.
ghost use Rattle.std.specs.Prelude.{◌≡◌, ◌+◌, ◌-◌, ◌<◌, ◌≤◌, ◌^◌, length, take, drop, is_some, None, IfOk, IfErr, OnErr};
ghost use Rattle.tree_shapes.specs.Cords.{sub_cord};
ghost use Rattle.pool_rule.specs.Trades.{SameHolds};
ghost use Rattle.record_rule.specs.Log.{made_of};
ghost use Rattle.cordz_desk.specs.Tokens.{token_of};
ghost use Rattle.cord_value.specs.Changes.{IsRefused};
ghost use Rattle.cord_value.specs.Ranges.{SharesIfTree};
ghost use Rattle.cord_value.specs.Refusals.{IsBalanced};
ghost use Rattle.cord_value.specs.Views.{cord_shape, passes_of, IsTreeOf};
ghost use Rattle.cord_sampled.specs.Making.{is_sampled, HasMade, IsRecorded};
ghost use Rattle.cord_sampled.specs.Refusals.{IsCopyCause};
ghost use Rattle.cord_sampled.specs.Showing.{IsSameRecord};

use crate::cord::SampledCord;
use crate::hand::Hand;
use crate::making::MOST_INLINE;
use crate::mark::Mark;
use crate::passes::end_pass;
use crate::sampling::{counted, is_turn, sample_pass, sampled};
use cord_port::Releaser;
use cord_value::CordError;
use cordz_desk::DeskNaming;
use node_pool::Naming;
use std::alloc::Global;
use std::sync::Wait;

impl<P: Naming, D: DeskNaming> SampledCord<P, D> {
    ghost use Rattle.cord_sampled.specs.Sampled.{cord_in, ticket_in};

    /// A copy with the same tree, which is sampled where this cord is. It isn't counted.
    pub fn copy<R: Wait, B: Releaser>(
        &mut self,
        rt: &R,
        hand: &mut Hand<'_, P, D, B>,
    ) -> Result<(SampledCord<P, D>, Mark), CordError>
        requires room { length hand.old.worker.holds ≤ 96 }
        requires few { made_of (token_of hand.old.pass).own + 2 ≤ 2 ^ 34 }
        ensures kept { cord_in self.new ≡ cord_in self.old }
        ensures record { IsSameRecord (ticket_in self.old) (ticket_in self.new) }
        ensures same { IfOk result (λ r. cord_in r.0 ≡ cord_in self.old) }
        ensures recorded { IfOk result (λ r. IsRecorded (is_some (ticket_in self.old)) (cord_in self.old).tree (ticket_in r.0) r.1
            (token_of hand.old.pass) (token_of hand.new.pass)) }
        ensures worker { IfOk result (λ r. HasMade P.limit (λ n. n ≡ 0) (cord_in r.0).tree (ticket_in r.0) r.1 hand.old.worker hand.new.worker) }
        ensures refused { IfErr result (IsCopyCause P.limit (cord_in self.old).tree) }
        ensures balanced { IfErr result (λ x. IsBalanced P.limit x hand.old.worker hand.new.worker) }
        ensures token { OnErr result (token_of hand.new.pass ≡ token_of hand.old.pass) }
        ensures holds { SameHolds hand.old.worker.holds hand.new.worker.holds }
        ensures acted { made_of (token_of hand.new.pass).own ≤ made_of (token_of hand.old.pass).own + 2 }
        ensures counts { (hand.new.stride ≡ hand.old.stride) × (hand.new.made ≡ hand.old.made) }
    {
        let wanted = self.ticket.is_some();
        let sample = sample_pass(hand.pool, &mut hand.worker, wanted)?;
        match self.cord.copy(hand.pool, &mut hand.worker) {
            Ok(cord) => sampled(rt, hand, cord, sample),
            Err(error) => {
                end_pass(hand.pool, &mut hand.worker, sample);
                Err(error)
            }
        }
    }

    /// A cord of the `n` bytes from a position on, both clamped to what there is. A tree counts as new, and is sampled at its turn.
    pub fn sub<R: Wait, B: Releaser>(
        &mut self,
        alloc: Global,
        rt: &R,
        hand: &mut Hand<'_, P, D, B>,
        pos: u64,
        n: u64,
    ) -> Result<(SampledCord<P, D>, Mark), CordError>
        requires room { length hand.old.worker.holds ≤ 96 }
        requires few { made_of (token_of hand.old.pass).own + 2 ≤ 2 ^ 34 }
        requires count { hand.old.made < 2 ^ 64 - 1 }
        ensures kept { cord_in self.new ≡ cord_in self.old }
        ensures record { IsSameRecord (ticket_in self.old) (ticket_in self.new) }
        ensures bytes { IfOk result (λ r. (cord_in r.0).bytes ≡ take n (drop pos (cord_in self.old).bytes)) }
        ensures shape { IfOk result (λ r. cord_shape (cord_in r.0) ≡ sub_cord pos n (cord_shape (cord_in self.old))) }
        ensures shared { IfOk result (λ r. SharesIfTree pos (length (cord_in r.0).bytes) (cord_in self.old).tree (cord_in r.0).tree) }
        ensures formed { IfOk result (λ r. IsTreeOf (cord_in r.0).bytes (cord_in r.0).tree) }
        ensures recorded { IfOk result (λ r. IsRecorded (is_sampled hand.old.stride hand.old.made (cord_in r.0).tree) (cord_in r.0).tree
            (ticket_in r.0) r.1 (token_of hand.old.pass) (token_of hand.new.pass)) }
        ensures made { IfOk result (λ r. hand.new.made ≡ hand.old.made + passes_of (cord_in r.0).tree) }
        ensures worker { IfOk result (λ r. HasMade P.limit (λ n. n ≤ 32) (cord_in r.0).tree (ticket_in r.0) r.1 hand.old.worker hand.new.worker) }
        ensures refused { IfErr result (λ x. IsRefused P.size P.limit None (sub_cord pos n (cord_shape (cord_in self.old))) x
            hand.old.worker hand.new.worker) }
        ensures balanced { IfErr result (λ x. IsBalanced P.limit x hand.old.worker hand.new.worker) }
        ensures token { OnErr result (token_of hand.new.pass ≡ token_of hand.old.pass) }
        ensures unmade { OnErr result (hand.new.made ≡ hand.old.made) }
        ensures holds { SameHolds hand.old.worker.holds hand.new.worker.holds }
        ensures acted { made_of (token_of hand.new.pass).own ≤ made_of (token_of hand.old.pass).own + 2 }
        ensures stride { hand.new.stride ≡ hand.old.stride }
    {
        let size = self.cord.len();
        let start = pos.min(size);
        let long = n.min(size - start) > MOST_INLINE as u64;
        let wanted = long && is_turn(hand.stride, hand.made);
        let sample = match sample_pass(hand.pool, &mut hand.worker, wanted) {
            Ok(sample) => sample,
            Err(error) => return Err(error),
        };
        match self.cord.sub(alloc, hand.pool, &mut hand.worker, pos, n) {
            Ok(cord) => counted(rt, hand, cord, sample),
            Err(error) => {
                end_pass(hand.pool, &mut hand.worker, sample);
                Err(error)
            }
        }
    }
}
