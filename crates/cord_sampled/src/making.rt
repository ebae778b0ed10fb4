//! Cords that are made.
ghost use Rattle.std.specs.Prelude.{◌≡◌, ◌+◌, ◌-◌, ◌<◌, ◌≤◌, ◌^◌, length, IfOk, IfErr, OnErr};
ghost use Rattle.tree_shapes.specs.Cords.{cord_of_bytes};
ghost use Rattle.pool_rule.specs.Trades.{SameHolds};
ghost use Rattle.record_rule.specs.Log.{made_of};
ghost use Rattle.cordz_desk.specs.Tokens.{token_of};
ghost use Rattle.cord_value.specs.Refusals.{IsMakeRefused, IsBalanced};
ghost use Rattle.cord_value.specs.Views.{cord_shape, nodes_of, passes_of, IsTreeOf};
ghost use Rattle.cord_sampled.specs.Making.{is_sampled, HasMade, IsRecorded};

use crate::cord::SampledCord;
use crate::hand::Hand;
use crate::mark::Mark;
use crate::passes::end_pass;
use crate::sampling::{counted, is_turn, sample_pass};
use cord_port::Releaser;
use cord_value::{Cord, CordError};
use cordz_desk::DeskNaming;
use node_pool::Naming;
use std::alloc::Global;
use std::sync::Wait;

/// The most bytes of a cord, and the most of one without a tree.
pub(crate) const MOST_BYTES: usize = 2_147_483_647;

pub(crate) const MOST_INLINE: usize = 15;

impl<P: Naming, D: DeskNaming> SampledCord<P, D> {
    ghost use Rattle.cord_sampled.specs.Sampled.{cord_in, ticket_in};

    /// A cord of these bytes. A tree is counted, and sampled at its turn; its record's pass is made first.
    pub fn from_bytes<R: Wait, B: Releaser>(
        alloc: Global,
        rt: &R,
        hand: &mut Hand<'_, P, D, B>,
        bytes: &[u8],
    ) -> Result<(SampledCord<P, D>, Mark), CordError>
        requires room { length hand.old.worker.holds ≤ 96 }
        requires few { made_of (token_of hand.old.pass).own + 2 ≤ 2 ^ 34 }
        requires count { hand.old.made < 2 ^ 64 - 1 }
        ensures bytes { IfOk result (λ r. (cord_in r.0).bytes ≡ bytes.now) }
        ensures formed { IfOk result (λ r. IsTreeOf (cord_in r.0).bytes (cord_in r.0).tree) }
        ensures shape { IfOk result (λ r. cord_shape (cord_in r.0) ≡ cord_of_bytes (length bytes.now)) }
        ensures recorded { IfOk result (λ r. IsRecorded (is_sampled hand.old.stride hand.old.made (cord_in r.0).tree) (cord_in r.0).tree
            (ticket_in r.0) r.1 (token_of hand.old.pass) (token_of hand.new.pass)) }
        ensures made { IfOk result (λ r. hand.new.made ≡ hand.old.made + passes_of (cord_in r.0).tree) }
        ensures worker { IfOk result (λ r. HasMade P.limit (λ n. n ≡ nodes_of (cord_in r.0).tree) (cord_in r.0).tree (ticket_in r.0) r.1
            hand.old.worker hand.new.worker) }
        ensures refused { IfErr result (λ x. IsMakeRefused P.size P.limit (length bytes.now) x hand.old.worker hand.new.worker) }
        ensures balanced { IfErr result (λ x. IsBalanced P.limit x hand.old.worker hand.new.worker) }
        ensures token { OnErr result (token_of hand.new.pass ≡ token_of hand.old.pass) }
        ensures unmade { OnErr result (hand.new.made ≡ hand.old.made) }
        ensures holds { SameHolds hand.old.worker.holds hand.new.worker.holds }
        ensures acted { made_of (token_of hand.new.pass).own ≤ made_of (token_of hand.old.pass).own + 2 }
        ensures stride { hand.new.stride ≡ hand.old.stride }
    {
        let fits = bytes.len() > MOST_INLINE && bytes.len() <= MOST_BYTES;
        let wanted = fits && is_turn(hand.stride, hand.made);
        let sample = sample_pass(hand.pool, &mut hand.worker, wanted)?;
        match Cord::from_bytes(alloc, hand.pool, &mut hand.worker, bytes) {
            Ok(cord) => counted(rt, hand, cord, sample),
            Err(error) => {
                end_pass(hand.pool, &mut hand.worker, sample);
                Err(error)
            }
        }
    }
}
