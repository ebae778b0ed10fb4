//! New trees that are to be sampled.
ghost use Rattle.std.specs.Prelude.{◌≡◌, ◌+◌, ◌-◌, ◌<◌, ◌≤◌, ◌^◌, [], true, length, is_some, IsSome, IfOk, IfErr};
ghost use Rattle.record_rule.specs.Log.{made_of};
ghost use Rattle.cordz_desk.specs.Tokens.{token_of};
ghost use Rattle.cord_value.specs.Refusals.{IsBalanced};
ghost use Rattle.cord_value.specs.Views.{passes_of};
ghost use Rattle.cord_value.specs.Workers.{Keeps};
ghost use Rattle.cord_value.specs.declared.refusals.CordError.TheVariants.{Memory};
ghost use Rattle.cord_sampled.specs.Copies.{one_if, IsEmptyIf};
ghost use Rattle.cord_sampled.specs.Making.{turn_after, IsRecorded};
ghost use Rattle.cord_sampled.specs.Refusals.{IsLimit};
ghost use Rattle.cord_sampled.specs.Sampled.{cord_in, ticket_in};
ghost use Rattle.cord_sampled.specs.Tracking.{ended_by};

use crate::cord::SampledCord;
use crate::hand::Hand;
use crate::mark::Mark;
use crate::sharing::share_tree;
use crate::tracking::track;
use cord_port::Releaser;
use cord_value::{CopyRefused, Cord, CordError};
use cordz_desk::DeskNaming;
use node_pool::{Naming, Pass, Pool, Worker};
use std::sync::Wait;

/// Whether the next new tree is to be sampled, of a stride and of how many there were.
pub(crate) fn is_turn(stride: u32, made: u64) -> bool
    requires { made < 2 ^ 64 - 1 }
    ensures { result ≡ turn_after stride made }
{
    stride != 0 && (made + 1) % u64::from(stride) == 0
}

/// A pass for a record, if one is wanted.
pub(crate) fn sample_pass<P: Naming, B: Releaser>(
    pool: &Pool<P, B>,
    w: &mut Worker<P>,
    wanted: bool,
) -> Result<Option<Pass<P>>, CordError>
    ensures some { IfOk result (λ r. is_some r ≡ wanted) }
    ensures empty { IfOk result IsEmptyIf }
    ensures worker { IfOk result (λ r. Keeps P.limit [] (one_if r) 0 w.old w.new) }
    ensures wanted { IfErr result (λ _. wanted ≡ true) }
    ensures refused { IfErr result (IsLimit P.limit) }
    ensures balanced { IfErr result (λ x. IsBalanced P.limit x w.old w.new) }
{
    if !wanted {
        return Ok(None);
    }
    match pool.pass(w) {
        Ok(pass) => Ok(Some(pass)),
        Err(limit) => Err(limit.into()),
    }
}

/// The cord, with a record where there is a pass for one and a slot is free. Want of memory for the share releases the cord.
pub(crate) fn sampled<R: Wait, P: Naming, D: DeskNaming, B: Releaser>(
    rt: &R,
    hand: &mut Hand<'_, P, D, B>,
    cord: Cord<P>,
    sample: Option<Pass<P>>,
) -> Result<(SampledCord<P, D>, Mark), CordError>
    requires room { length hand.old.worker.holds ≤ 96 }
    requires few { made_of (token_of hand.old.pass).own + 2 ≤ 2 ^ 34 }
    requires empty { IsEmptyIf sample }
    requires tree { is_some sample ≡ true → IsSome cord.tree }
    ensures cord { IfOk result (λ r. cord_in r.0 ≡ cord) }
    ensures recorded { IfOk result (λ r. IsRecorded (is_some sample) cord.tree (ticket_in r.0) r.1 (token_of hand.old.pass) (token_of hand.new.pass)) }
    ensures worker { IfOk result (λ r. Keeps P.limit [] 0 (ended_by r.1) hand.old.worker hand.new.worker) }
    ensures memory { IfErr result (λ x. (x ≡ Memory) × (is_some sample ≡ true)) }
    ensures undone { IfErr result (λ _. Keeps P.limit [] 0 (1 + passes_of cord.tree) hand.old.worker hand.new.worker) }
    ensures token { IfErr result (λ _. token_of hand.new.pass ≡ token_of hand.old.pass) }
    ensures same { (hand.new.stride ≡ hand.old.stride) × (hand.new.made ≡ hand.old.made) }
{
    let mut cord = cord;
    let Some(pass) = sample else {
        let ticket = None;
        return Ok((SampledCord { cord, ticket }, Mark::Plain));
    };
    match share_tree(hand.pool, &mut hand.worker, &mut cord, pass) {
        Ok(share) => {
            let (ticket, mark) = track(rt, hand, share);
            Ok((SampledCord { cord, ticket }, mark))
        }
        Err(CopyRefused { pass }) => {
            hand.pool.end(&mut hand.worker, pass);
            cord.release(hand.pool, &mut hand.worker);
            Err(CordError::Memory)
        }
    }
}

/// The same of a new cord, whose tree counts.
pub(crate) fn counted<R: Wait, P: Naming, D: DeskNaming, B: Releaser>(
    rt: &R,
    hand: &mut Hand<'_, P, D, B>,
    cord: Cord<P>,
    sample: Option<Pass<P>>,
) -> Result<(SampledCord<P, D>, Mark), CordError>
    requires room { length hand.old.worker.holds ≤ 96 }
    requires few { made_of (token_of hand.old.pass).own + 2 ≤ 2 ^ 34 }
    requires count { hand.old.made < 2 ^ 64 - 1 }
    requires empty { IsEmptyIf sample }
    requires tree { is_some sample ≡ true → IsSome cord.tree }
    ensures cord { IfOk result (λ r. cord_in r.0 ≡ cord) }
    ensures recorded { IfOk result (λ r. IsRecorded (is_some sample) cord.tree (ticket_in r.0) r.1 (token_of hand.old.pass) (token_of hand.new.pass)) }
    ensures made { IfOk result (λ r. hand.new.made ≡ hand.old.made + passes_of cord.tree) }
    ensures worker { IfOk result (λ r. Keeps P.limit [] 0 (ended_by r.1) hand.old.worker hand.new.worker) }
    ensures memory { IfErr result (λ x. (x ≡ Memory) × (is_some sample ≡ true)) }
    ensures undone { IfErr result (λ _. Keeps P.limit [] 0 (1 + passes_of cord.tree) hand.old.worker hand.new.worker) }
    ensures token { IfErr result (λ _. token_of hand.new.pass ≡ token_of hand.old.pass) }
    ensures unmade { IfErr result (λ _. hand.new.made ≡ hand.old.made) }
    ensures stride { hand.new.stride ≡ hand.old.stride }
{
    let tree = cord.is_tree();
    match sampled(rt, hand, cord, sample) {
        Ok(made) => {
            if tree {
                hand.made += 1;
            }
            Ok(made)
        }
        Err(error) => Err(error),
    }
}
