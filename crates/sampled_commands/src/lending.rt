//! A name's cord, taken out of the names while a call works on it, and cords that leave the names.
ghost use Rattle.std.specs.Prelude.{◌≡◌, ◌≤◌, ◌+◌, ◌^◌, length, Some, IfSome, IfNone};
ghost use Rattle.record_rule.specs.Log.{made_of};
ghost use Rattle.cordz_desk.specs.Tokens.{token_of};
ghost use Rattle.ordered_names.specs.Named.{named, all_in};
ghost use Rattle.sampled_commands.specs.Accounts.{seen, trees_of, trees_in, trees_if, records_of, records_in, records_if, IsOngoing, AddsUpTo};
ghost use Rattle.sampled_commands.specs.Leaving.{gone_cord, GivesUp, IsIdle};
ghost use Rattle.sampled_commands.specs.Views.{no_session_cord, AreSame, IsSetTo};

use crate::cord::SessionCord;
use cord_port::Releaser;
use cord_sampled::{Hand, Mark};
use cordz_desk::DeskNaming;
use node_pool::Naming;
use ordered_names::Names;
use std::sync::Wait;

/// Takes the cord of a name out, if it was ever set. Meanwhile the name has an empty cord.
pub fn take_out<P: Naming, D: DeskNaming>(
    names: &mut Names<'_, SessionCord<P, D>>,
    a: &[u8],
) -> Option<SessionCord<P, D>>
    ensures found { result ≡ named names.old a.now }
    ensures lent { IfSome result (λ _. IsSetTo names.old names.new a.now no_session_cord) }
    ensures trees { IfSome result (λ c. trees_in names.new + trees_of c ≡ trees_in names.old) }
    ensures records { IfSome result (λ c. records_in names.new + records_of c ≡ records_in names.old) }
    ensures count { length (all_in names.new) ≡ length (all_in names.old) }
    ensures same { IfNone result (AreSame names.old names.new × (trees_in names.new ≡ trees_in names.old) × (records_in names.new ≡ records_in names.old)) }
{
    match names.exchange(a, SessionCord::new()) {
        Ok(cord) => Some(cord),
        Err(back) => {
            back.into_cord();
            None
        }
    }
}

/// Gives a name whose cord was taken out a cord again.
pub fn put_back<P: Naming, D: DeskNaming>(
    names: &mut Names<'_, SessionCord<P, D>>,
    a: &[u8],
    cord: SessionCord<P, D>,
)
    requires lent { named names.old a.now ≡ Some no_session_cord }
    ensures set { IsSetTo names.old names.new a.now cord }
    ensures trees { trees_in names.new ≡ trees_in names.old + trees_of cord }
    ensures records { records_in names.new ≡ records_in names.old + records_of cord }
    ensures count { length (all_in names.new) ≡ length (all_in names.old) }
{
    match names.exchange(a, cord) {
        Ok(lent) => {
            lent.into_cord();
        }
        Err(_cord) => unreachable!(),
    }
}

/// Releases a cord that nobody has any more, with its record.
pub fn let_go<R: Wait, P: Naming, D: DeskNaming, B: Releaser>(
    rt: &R,
    hand: &mut Hand<'_, P, D, B>,
    cord: Option<SessionCord<P, D>>,
) -> Mark
    requires room { length hand.old.worker.holds ≤ 96 }
    requires few { made_of (token_of hand.old.pass).own + 3 ≤ 2 ^ 34 }
    ensures mark { result ≡ gone_cord cord }
    ensures ongoing { IsOngoing (seen hand.old.worker (token_of hand.old.pass) hand.old.made) (seen hand.new.worker (token_of hand.new.pass) hand.new.made) }
    ensures even { AddsUpTo (seen hand.old.worker (token_of hand.old.pass) hand.old.made) (seen hand.new.worker (token_of hand.new.pass) hand.new.made)
        (trees_if cord) 0 (records_if cord) 0 }
    ensures desk { GivesUp cord (token_of hand.old.pass) (token_of hand.new.pass) }
    ensures idle { IsIdle hand.old.worker hand.new.worker }
    ensures acted { made_of (token_of hand.new.pass).own ≤ made_of (token_of hand.old.pass).own + 3 }
    ensures same { (hand.new.stride ≡ hand.old.stride) × (hand.new.made ≡ hand.old.made) }
{
    match cord {
        Some(cord) => cord.into_sampled().release(rt, hand),
        None => Mark::Plain,
    }
}
