//! Passes that are made before a peek.
ghost use Rattle.std.specs.Prelude.{◌≡◌, ◌↔◌, ◌+◌, ◌<◌, ◌≤◌, [], length, IsSome, IfOk, IfErr};
ghost use Rattle.cordz_desk.specs.Tokens.{token_of};
ghost use Rattle.cord_value.specs.Refusals.{IsBalanced};
ghost use Rattle.cord_value.specs.Workers.{Keeps};
ghost use Rattle.cord_sampled.specs.Copies.{one_if, IsEmptyIf};
ghost use Rattle.cord_sampled.specs.Refusals.{IsLimit};

use crate::hand::Hand;
use crate::passes::{Ready, end_pass};
use cord_port::Releaser;
use cord_value::CordError;
use cordz_desk::DeskNaming;
use node_pool::Naming;

/// Makes the passes that a peek may need: one, and one more where the stride isn't 0.
pub fn ready<P: Naming, D: DeskNaming, B: Releaser>(
    hand: &mut Hand<'_, P, D, B>,
) -> Result<Ready<P>, CordError>
    ensures empty { IfOk result (λ r. (r.copy.holds ≡ []) × IsEmptyIf r.sample) }
    ensures sample { IfOk result (λ r. IsSome r.sample ↔ (0 < hand.old.stride)) }
    ensures worker { IfOk result (λ r. Keeps P.limit [] (1 + one_if r.sample) 0 hand.old.worker hand.new.worker) }
    ensures refused { IfErr result (IsLimit P.limit) }
    ensures balanced { IfErr result (λ x. IsBalanced P.limit x hand.old.worker hand.new.worker) }
    ensures token { token_of hand.new.pass ≡ token_of hand.old.pass }
    ensures same { (hand.new.stride ≡ hand.old.stride) × (hand.new.made ≡ hand.old.made) }
{
    let copy = hand.pool.pass(&mut hand.worker)?;
    if hand.stride == 0 {
        return Ok(Ready { copy, sample: None });
    }
    match hand.pool.pass(&mut hand.worker) {
        Ok(pass) => Ok(Ready {
            copy,
            sample: Some(pass),
        }),
        Err(limit) => {
            hand.pool.end(&mut hand.worker, copy);
            Err(limit.into())
        }
    }
}

/// Ends the passes again, for a peek that found its cell empty.
pub fn give_back<P: Naming, D: DeskNaming, B: Releaser>(
    hand: &mut Hand<'_, P, D, B>,
    ready: Ready<P>,
)
    requires copy { ready.copy.holds ≡ [] }
    requires sample { IsEmptyIf ready.sample }
    ensures worker { Keeps P.limit [] 0 (1 + one_if ready.sample) hand.old.worker hand.new.worker }
    ensures token { token_of hand.new.pass ≡ token_of hand.old.pass }
    ensures same { (hand.new.stride ≡ hand.old.stride) × (hand.new.made ≡ hand.old.made) }
{
    let Ready { copy, sample } = ready;
    hand.pool.end(&mut hand.worker, copy);
    end_pass(hand.pool, &mut hand.worker, sample);
}
