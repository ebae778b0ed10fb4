//! Bytes from outside, with a releaser of the session.
ghost use Rattle.std.specs.Prelude.{◌≡◌, ◌≤◌, ◌<◌, ◌+◌, ◌-◌, ◌^◌, length, IfOk, OnErr};
ghost use Rattle.plain_cord.specs.declared.script.Command.TheVariants as commands;
ghost use Rattle.record_rule.specs.Log.{made_of};
ghost use Rattle.cordz_desk.specs.Tokens.{token_of};
ghost use Rattle.ordered_names.specs.Named.{all_in};
ghost use Rattle.cord_steps.specs.Answers.{External};
ghost use Rattle.cord_steps.specs.Whole.{IsWithin};
ghost use Rattle.sampled_commands.specs.Accounts.{seen, IsOngoing, AddsUp};
ghost use Rattle.sampled_commands.specs.Desk.{WorksAtDesk};
ghost use Rattle.sampled_commands.specs.Does.{Does};
ghost use Rattle.sampled_commands.specs.Slots.{external_by, SameSlots, Uses};
ghost use Rattle.sampled_commands.specs.Views.{AreSame};

use crate::answer::Answer;
use crate::cord::SessionCord;
use crate::setting::{of_session, set_made};
use crate::texts::TextBytes;
use cord_port::Releaser;
use cord_sampled::{Hand, SampledCord};
use cordz_desk::DeskNaming;
use node_pool::Naming;
use ordered_names::Names;
use plain_cord::Text;
use std::alloc::{AllocError, Global};
use std::sync::Wait;

/// Sets a name to an external of the bytes of a text, where the session has a box left. It uses the session's next box, also where
/// memory for the name or for a record's share is wanting.
pub fn set_external<'a, R: Wait, P: Naming, D: DeskNaming, B: Releaser>(
    alloc: Global,
    rt: &R,
    hand: &mut Hand<'_, P, D, B>,
    names: &mut Names<'a, SessionCord<P, D>>,
    a: &'a [u8],
    text: &Text,
) -> Result<Answer, AllocError>
    requires room { length hand.old.worker.holds ≤ 96 }
    requires few { made_of (token_of hand.old.pass).own + 5 ≤ 2 ^ 34 }
    requires count { hand.old.made < 2 ^ 64 - 1 }
    requires within { IsWithin (External a.now text.now) }
    ensures ongoing { IsOngoing (seen hand.old.worker (token_of hand.old.pass) hand.old.made) (seen hand.new.worker (token_of hand.new.pass) hand.new.made) }
    ensures slots { SameSlots hand.old.worker hand.new.worker }
    ensures even { IfOk result (λ _. AddsUp (seen hand.old.worker (token_of hand.old.pass) hand.old.made)
        (seen hand.new.worker (token_of hand.new.pass) hand.new.made) names.old names.new) }
    ensures does { IfOk result (λ answer. Does P.size P.limit hand.old.stride names.old names.new
        (seen hand.old.worker (token_of hand.old.pass) hand.old.made) (seen hand.new.worker (token_of hand.new.pass) hand.new.made)
        (External a.now text.now) answer) }
    ensures desk { IfOk result (λ answer. WorksAtDesk names.old names.new (token_of hand.old.pass) (token_of hand.new.pass) answer) }
    ensures uses { IfOk result (λ answer. Uses hand.old.worker hand.new.worker (external_by (commands.Ext a.now text.now) answer)) }
    ensures same { OnErr result (AreSame names.old names.new) }
    ensures acted { made_of (token_of hand.new.pass).own ≤ made_of (token_of hand.old.pass).own + 5 }
    ensures count { length (all_in names.new) ≤ length (all_in names.old) + 1 }
    ensures made { hand.new.made ≤ hand.old.made + 1 }
    ensures stride { hand.new.stride ≡ hand.old.stride }
{
    let Some(_) = hand.worker.next_slot() else {
        return Ok(Answer::Releasers);
    };
    let bytes = TextBytes::of_text(alloc, text)?;
    let made = SampledCord::from_external(alloc, rt, hand, bytes.as_slice());
    set_made(rt, hand, names, a, of_session(made))
}
