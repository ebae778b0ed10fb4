//! Commands that set a name to a new cord. The cord that the name had before is released, with its record.
ghost use Rattle.std.specs.Prelude.{◌≡◌, ◌≤◌, ◌<◌, ◌+◌, ◌-◌, ◌^◌, length, IfOk, OnErr};
ghost use Rattle.plain_cord.specs.declared.script.Command.TheVariants as commands;
ghost use Rattle.plain_cord.specs.Texts.{text_bytes};
ghost use Rattle.record_rule.specs.Log.{made_of};
ghost use Rattle.cordz_desk.specs.Tokens.{token_of};
ghost use Rattle.ordered_names.specs.Named.{all_in};
ghost use Rattle.cord_steps.specs.Answers.{Plain};
ghost use Rattle.sampled_commands.specs.Accounts.{seen, IsOngoing, AddsUp};
ghost use Rattle.sampled_commands.specs.Desk.{WorksAtDesk};
ghost use Rattle.sampled_commands.specs.Does.{Does};
ghost use Rattle.sampled_commands.specs.Leaving.{IsIdle};
ghost use Rattle.sampled_commands.specs.Views.{AreSame};

use crate::answer::{Answer, done, unset};
use crate::cord::SessionCord;
use crate::lending::{let_go, put_back, take_out};
use crate::setting::{of_session, set_made};
use crate::texts::TextBytes;
use cord_port::Releaser;
use cord_sampled::{Hand, Mark, SampledCord};
use cordz_desk::DeskNaming;
use node_pool::Naming;
use ordered_names::Names;
use plain_cord::Text;
use std::alloc::{AllocError, Global};
use std::sync::Wait;

/// Sets a name to the bytes of a text.
pub fn set_text<'a, R: Wait, P: Naming, D: DeskNaming, B: Releaser>(
    alloc: Global,
    rt: &R,
    hand: &mut Hand<'_, P, D, B>,
    names: &mut Names<'a, SessionCord<P, D>>,
    a: &'a [u8],
    text: &Text,
) -> Result<Answer, AllocError>
    requires room { length hand.old.worker.holds ≤ 96 }
    requires few { made_of (token_of hand.old.pass).own + 5 ≤ 2 ^ 34 }
    requires count { hand.old.made < 2 ^ 64 - 1 }
    requires within { length (text_bytes text.now) ≤ 2147483647 }
    ensures ongoing { IsOngoing (seen hand.old.worker (token_of hand.old.pass) hand.old.made) (seen hand.new.worker (token_of hand.new.pass) hand.new.made) }
    ensures even { IfOk result (λ _. AddsUp (seen hand.old.worker (token_of hand.old.pass) hand.old.made)
        (seen hand.new.worker (token_of hand.new.pass) hand.new.made) names.old names.new) }
    ensures does { IfOk result (λ answer. Does P.size P.limit hand.old.stride names.old names.new
        (seen hand.old.worker (token_of hand.old.pass) hand.old.made) (seen hand.new.worker (token_of hand.new.pass) hand.new.made)
        (Plain (commands.Let a.now text.now)) answer) }
    ensures desk { IfOk result (λ answer. WorksAtDesk names.old names.new (token_of hand.old.pass) (token_of hand.new.pass) answer) }
    ensures idle { IsIdle hand.old.worker hand.new.worker }
    ensures same { OnErr result (AreSame names.old names.new) }
    ensures acted { made_of (token_of hand.new.pass).own ≤ made_of (token_of hand.old.pass).own + 5 }
    ensures count { length (all_in names.new) ≤ length (all_in names.old) + 1 }
    ensures made { hand.new.made ≤ hand.old.made + 1 }
    ensures stride { hand.new.stride ≡ hand.old.stride }
{
    let bytes = TextBytes::of_text(alloc, text)?;
    let made = SampledCord::from_bytes(alloc, rt, hand, bytes.as_slice());
    set_made(rt, hand, names, a, of_session(made))
}

/// Sets `b` to a copy of the cord of `a`, sum included. The copy is sampled where the cord is.
pub fn copy<'a, R: Wait, P: Naming, D: DeskNaming, B: Releaser>(
    alloc: Global,
    rt: &R,
    hand: &mut Hand<'_, P, D, B>,
    names: &mut Names<'a, SessionCord<P, D>>,
    a: &[u8],
    b: &'a [u8],
) -> Result<Answer, AllocError>
    requires room { length hand.old.worker.holds ≤ 96 }
    requires few { made_of (token_of hand.old.pass).own + 5 ≤ 2 ^ 34 }
    ensures ongoing { IsOngoing (seen hand.old.worker (token_of hand.old.pass) hand.old.made) (seen hand.new.worker (token_of hand.new.pass) hand.new.made) }
    ensures even { IfOk result (λ _. AddsUp (seen hand.old.worker (token_of hand.old.pass) hand.old.made)
        (seen hand.new.worker (token_of hand.new.pass) hand.new.made) names.old names.new) }
    ensures does { IfOk result (λ answer. Does P.size P.limit hand.old.stride names.old names.new
        (seen hand.old.worker (token_of hand.old.pass) hand.old.made) (seen hand.new.worker (token_of hand.new.pass) hand.new.made)
        (Plain (commands.Copy a.now b.now)) answer) }
    ensures desk { IfOk result (λ answer. WorksAtDesk names.old names.new (token_of hand.old.pass) (token_of hand.new.pass) answer) }
    ensures idle { IsIdle hand.old.worker hand.new.worker }
    ensures same { OnErr result (AreSame names.old names.new) }
    ensures acted { made_of (token_of hand.new.pass).own ≤ made_of (token_of hand.old.pass).own + 5 }
    ensures count { length (all_in names.new) ≤ length (all_in names.old) + 1 }
    ensures made { hand.new.made ≡ hand.old.made }
    ensures stride { hand.new.stride ≡ hand.old.stride }
{
    let Some(cord) = take_out(names, a) else {
        return unset(alloc, a);
    };
    let mut cord = cord.into_sampled();
    let made = cord.copy(rt, hand);
    put_back(names, a, SessionCord::of(cord));
    set_made(rt, hand, names, b, of_session(made))
}

/// Sets `b` to at most `n` of the bytes of `a` behind the first `pos`.
pub fn sub<'a, R: Wait, P: Naming, D: DeskNaming, B: Releaser>(
    alloc: Global,
    rt: &R,
    hand: &mut Hand<'_, P, D, B>,
    names: &mut Names<'a, SessionCord<P, D>>,
    a: &[u8],
    pos: u64,
    n: u64,
    b: &'a [u8],
) -> Result<Answer, AllocError>
    requires room { length hand.old.worker.holds ≤ 96 }
    requires few { made_of (token_of hand.old.pass).own + 5 ≤ 2 ^ 34 }
    requires count { hand.old.made < 2 ^ 64 - 1 }
    ensures ongoing { IsOngoing (seen hand.old.worker (token_of hand.old.pass) hand.old.made) (seen hand.new.worker (token_of hand.new.pass) hand.new.made) }
    ensures even { IfOk result (λ _. AddsUp (seen hand.old.worker (token_of hand.old.pass) hand.old.made)
        (seen hand.new.worker (token_of hand.new.pass) hand.new.made) names.old names.new) }
    ensures does { IfOk result (λ answer. Does P.size P.limit hand.old.stride names.old names.new
        (seen hand.old.worker (token_of hand.old.pass) hand.old.made) (seen hand.new.worker (token_of hand.new.pass) hand.new.made)
        (Plain (commands.Sub a.now pos n b.now)) answer) }
    ensures desk { IfOk result (λ answer. WorksAtDesk names.old names.new (token_of hand.old.pass) (token_of hand.new.pass) answer) }
    ensures idle { IsIdle hand.old.worker hand.new.worker }
    ensures same { OnErr result (AreSame names.old names.new) }
    ensures acted { made_of (token_of hand.new.pass).own ≤ made_of (token_of hand.old.pass).own + 5 }
    ensures count { length (all_in names.new) ≤ length (all_in names.old) + 1 }
    ensures made { hand.new.made ≤ hand.old.made + 1 }
    ensures stride { hand.new.stride ≡ hand.old.stride }
{
    let Some(cord) = take_out(names, a) else {
        return unset(alloc, a);
    };
    let mut cord = cord.into_sampled();
    let _ = cord.cord().len();
    let made = cord.sub(alloc, rt, hand, pos, n);
    put_back(names, a, SessionCord::of(cord));
    set_made(rt, hand, names, b, of_session(made))
}

/// Makes the cord of a name empty.
pub fn clear<R: Wait, P: Naming, D: DeskNaming, B: Releaser>(
    alloc: Global,
    rt: &R,
    hand: &mut Hand<'_, P, D, B>,
    names: &mut Names<'_, SessionCord<P, D>>,
    a: &[u8],
) -> Result<Answer, AllocError>
    requires room { length hand.old.worker.holds ≤ 96 }
    requires few { made_of (token_of hand.old.pass).own + 3 ≤ 2 ^ 34 }
    ensures ongoing { IsOngoing (seen hand.old.worker (token_of hand.old.pass) hand.old.made) (seen hand.new.worker (token_of hand.new.pass) hand.new.made) }
    ensures even { IfOk result (λ _. AddsUp (seen hand.old.worker (token_of hand.old.pass) hand.old.made)
        (seen hand.new.worker (token_of hand.new.pass) hand.new.made) names.old names.new) }
    ensures does { IfOk result (λ answer. Does P.size P.limit hand.old.stride names.old names.new
        (seen hand.old.worker (token_of hand.old.pass) hand.old.made) (seen hand.new.worker (token_of hand.new.pass) hand.new.made)
        (Plain (commands.Clear a.now)) answer) }
    ensures desk { IfOk result (λ answer. WorksAtDesk names.old names.new (token_of hand.old.pass) (token_of hand.new.pass) answer) }
    ensures idle { IsIdle hand.old.worker hand.new.worker }
    ensures same { OnErr result (AreSame names.old names.new) }
    ensures acted { made_of (token_of hand.new.pass).own ≤ made_of (token_of hand.old.pass).own + 3 }
    ensures count { length (all_in names.new) ≤ length (all_in names.old) + 1 }
    ensures made { hand.new.made ≡ hand.old.made }
    ensures stride { hand.new.stride ≡ hand.old.stride }
{
    let Some(cord) = take_out(names, a) else {
        return unset(alloc, a);
    };
    let gone = let_go(rt, hand, Some(cord));
    Ok(done(Mark::Plain, gone))
}
