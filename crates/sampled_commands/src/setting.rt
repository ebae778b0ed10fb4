//! A name that is set to a new cord. The cord that it had before is released.
ghost use Rattle.std.specs.Prelude.{◌≡◌, ◌≤◌, ◌+◌, ◌^◌, length, IfOk, IfErr, OnErr};
ghost use Rattle.record_rule.specs.Log.{made_of};
ghost use Rattle.cordz_desk.specs.Tokens.{token_of};
ghost use Rattle.ordered_names.specs.Named.{named, all_in};
ghost use Rattle.sampled_commands.specs.Accounts.{seen, trees_in, records_in, IsOngoing, AddsUpTo};
ghost use Rattle.sampled_commands.specs.Leaving.{GivesUp, IsIdle};
ghost use Rattle.sampled_commands.specs.Setting.{session_made, IsFormMade, trees_made, records_made, IsSet};
ghost use Rattle.sampled_commands.specs.Views.{AreSame};

use crate::answer::{Answer, done, refusal};
use crate::cord::SessionCord;
use crate::lending::let_go;
use cord_port::Releaser;
use cord_sampled::{Hand, Mark, SampledCord};
use cord_value::CordError;
use cordz_desk::DeskNaming;
use node_pool::Naming;
use ordered_names::Names;
use std::alloc::AllocError;
use std::sync::Wait;

/// A sampled cord that was made, as one of a session.
pub fn of_session<P: Naming, D: DeskNaming>(
    made: Result<(SampledCord<P, D>, Mark), CordError>,
) -> Result<(SessionCord<P, D>, Mark), CordError>
    requires form { IsFormMade made }
    ensures { result ≡ session_made made }
{
    match made {
        Ok((cord, mark)) => Ok((SessionCord::of(cord), mark)),
        Err(error) => Err(error),
    }
}

/// Sets a name to a cord that was made, or answers why none was. The answer tells the mark of the cord's record, and the stamp of that which went.
pub fn set_made<'a, R: Wait, P: Naming, D: DeskNaming, B: Releaser>(
    rt: &R,
    hand: &mut Hand<'_, P, D, B>,
    names: &mut Names<'a, SessionCord<P, D>>,
    a: &'a [u8],
    made: Result<(SessionCord<P, D>, Mark), CordError>,
) -> Result<Answer, AllocError>
    requires room { length hand.old.worker.holds ≤ 96 }
    requires few { made_of (token_of hand.old.pass).own + 3 ≤ 2 ^ 34 }
    ensures ongoing { IsOngoing (seen hand.old.worker (token_of hand.old.pass) hand.old.made) (seen hand.new.worker (token_of hand.new.pass) hand.new.made) }
    ensures even { AddsUpTo (seen hand.old.worker (token_of hand.old.pass) hand.old.made) (seen hand.new.worker (token_of hand.new.pass) hand.new.made)
        (trees_in names.old + trees_made made) (trees_in names.new) (records_in names.old + records_made made) (records_in names.new) }
    ensures set { IfOk result (λ answer. IsSet names.old names.new a.now made answer) }
    ensures desk { IfOk made (λ _. IfOk result (λ _. GivesUp (named names.old a.now) (token_of hand.old.pass) (token_of hand.new.pass))) }
    ensures refused { IfErr made (λ _. hand.new ≡ hand.old) }
    ensures same { OnErr result (AreSame names.old names.new) }
    ensures idle { IsIdle hand.old.worker hand.new.worker }
    ensures acted { made_of (token_of hand.new.pass).own ≤ made_of (token_of hand.old.pass).own + 3 }
    ensures count { length (all_in names.new) ≤ length (all_in names.old) + 1 }
    ensures kept { (hand.new.stride ≡ hand.old.stride) × (hand.new.made ≡ hand.old.made) }
{
    let (cord, mark) = match made {
        Ok(made) => made,
        Err(error) => return refusal(error),
    };
    match names.set(a, cord) {
        Ok(old) => {
            let gone = let_go(rt, hand, old);
            Ok(done(mark, gone))
        }
        Err(cord) => {
            let_go(rt, hand, Some(cord));
            Err(AllocError)
        }
    }
}
