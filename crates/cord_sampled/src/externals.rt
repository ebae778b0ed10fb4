//! Cords over bytes from outside.
ghost use Rattle.std.specs.Prelude.{◌≡◌, ◌+◌, ◌-◌, ◌<◌, ◌≤◌, ◌^◌, length, Some, IfOk, IfErr, OnErr};
ghost use Rattle.edge_nodes.specs.Externals.{external_node, first_slot};
ghost use Rattle.tree_shapes.specs.Cords.{cord_of_external};
ghost use Rattle.pool_rule.specs.Trades.{SameHolds};
ghost use Rattle.record_rule.specs.Log.{made_of};
ghost use Rattle.cordz_desk.specs.Tokens.{token_of};
ghost use Rattle.cord_value.specs.Externals.{IsExternalRefused};
ghost use Rattle.cord_value.specs.Views.{cord_shape, root_number, IsTreeOf};
ghost use Rattle.cord_sampled.specs.Copies.{one_if};
ghost use Rattle.cord_sampled.specs.Externals.{KeepsExternal, IsExternalUndone};
ghost use Rattle.cord_sampled.specs.Making.{turn_after, IsRecorded};
ghost use Rattle.cord_sampled.specs.Tracking.{ended_by};

use crate::cord::SampledCord;
use crate::hand::Hand;
use crate::making::MOST_BYTES;
use crate::mark::Mark;
use crate::passes::end_pass;
use crate::sampling::{counted, is_turn, sample_pass};
use cord_port::Releaser;
use cord_value::{Cord, CordError};
use cordz_desk::DeskNaming;
use node_pool::Naming;
use std::alloc::Global;
use std::sync::Wait;

impl<P: Naming, D: DeskNaming> SampledCord<P, D> {
    ghost use Rattle.cord_sampled.specs.Sampled.{cord_in, ticket_in};

    /// A cord over an external of at least 16 bytes, which uses the worker's next releaser slot. It is counted, and sampled at its turn. Want of
    /// memory for its record's share leaves the external again, so its releaser may have been called.
    pub fn from_external<R: Wait, B: Releaser>(
        alloc: Global,
        rt: &R,
        hand: &mut Hand<'_, P, D, B>,
        bytes: &[u8],
    ) -> Result<(SampledCord<P, D>, Mark), CordError>
        requires long { 16 ≤ length bytes.now }
        requires room { length hand.old.worker.holds ≤ 96 }
        requires few { made_of (token_of hand.old.pass).own + 2 ≤ 2 ^ 34 }
        requires count { hand.old.made < 2 ^ 64 - 1 }
        ensures bytes { IfOk result (λ r. (cord_in r.0).bytes ≡ bytes.now) }
        ensures node { IfOk result (λ r. (cord_in r.0).tree
            ≡ Some (external_node (root_number (cord_in r.0).tree) bytes.now (first_slot hand.old.worker.unused))) }
        ensures formed { IfOk result (λ r. IsTreeOf (cord_in r.0).bytes (cord_in r.0).tree) }
        ensures shape { IfOk result (λ r. cord_shape (cord_in r.0) ≡ cord_of_external (length bytes.now)) }
        ensures recorded { IfOk result (λ r. IsRecorded (turn_after hand.old.stride hand.old.made) (cord_in r.0).tree
            (ticket_in r.0) r.1 (token_of hand.old.pass) (token_of hand.new.pass)) }
        ensures made { IfOk result (λ r. hand.new.made ≡ hand.old.made + 1) }
        ensures worker { IfOk result (λ r. KeepsExternal P.limit (length bytes.now) (root_number (cord_in r.0).tree)
            (1 + (one_if (ticket_in r.0) + ended_by r.1)) (ended_by r.1) hand.old.worker hand.new.worker) }
        ensures refused { IfErr result (λ x. IsExternalRefused P.size P.limit (length bytes.now) x hand.old.worker hand.new.worker) }
        ensures undone { IfErr result (λ x. IsExternalUndone P.limit (turn_after hand.old.stride hand.old.made) (length bytes.now) x
            hand.old.worker hand.new.worker) }
        ensures token { OnErr result (token_of hand.new.pass ≡ token_of hand.old.pass) }
        ensures unmade { OnErr result (hand.new.made ≡ hand.old.made) }
        ensures holds { SameHolds hand.old.worker.holds hand.new.worker.holds }
        ensures acted { made_of (token_of hand.new.pass).own ≤ made_of (token_of hand.old.pass).own + 2 }
        ensures stride { hand.new.stride ≡ hand.old.stride }
    {
        let used = hand.worker.used_slots();
        let Some(_) = hand.worker.next_slot() else {
            return Err(CordError::NoReleaser { used });
        };
        if bytes.len() > MOST_BYTES {
            let asked = bytes.len() as u64;
            return Err(CordError::LengthLimit { asked });
        }
        let wanted = is_turn(hand.stride, hand.made);
        let sample = match sample_pass(hand.pool, &mut hand.worker, wanted) {
            Ok(sample) => sample,
            Err(error) => return Err(error),
        };
        match Cord::from_external(alloc, hand.pool, &mut hand.worker, bytes) {
            Ok(cord) => counted(rt, hand, cord, sample),
            Err(error) => {
                end_pass(hand.pool, &mut hand.worker, sample);
                Err(error)
            }
        }
    }
}
