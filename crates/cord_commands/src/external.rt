//! Bytes from outside, with a releaser of the session.
ghost use Rattle.std.specs.Prelude.{◌≡◌, ◌≤◌, length, IfOk, OnErr};
ghost use Rattle.plain_cord.specs.declared.script.Command.TheVariants as commands;
ghost use Rattle.cord_steps.specs.Answers.{External};
ghost use Rattle.cord_steps.specs.Whole.{IsWithin};
ghost use Rattle.cord_commands.specs.Accounts.{trees_in, AddsUp};
ghost use Rattle.cord_commands.specs.Does.{Does};
ghost use Rattle.cord_commands.specs.Slots.{external_by, SameSlots, Uses};
ghost use Rattle.cord_commands.specs.Views.{AreSame};

use crate::answer::Answer;
use crate::making::set_made;
use crate::texts::TextBytes;
use cord_port::Releaser;
use cord_value::Cord;
use node_pool::{Naming, Pool, Worker};
use ordered_names::Names;
use plain_cord::Text;
use std::alloc::{AllocError, Global};

/// Sets a name to an external of the bytes of a text, where the session has a box left. It uses the session's next box, also where
/// memory for the name is wanting.
pub fn set_external<'a, P: Naming, B: Releaser>(
    alloc: Global,
    pool: &Pool<P, B>,
    w: &mut Worker<P>,
    names: &mut Names<'a, Cord<P>>,
    a: &'a [u8],
    text: &Text,
) -> Result<Answer, AllocError>
    requires room { length w.old.holds ≤ 96 }
    requires within { IsWithin (External a.now text.now) }
    ensures even { AddsUp w.old w.new (trees_in names.old) (trees_in names.new) }
    ensures slots { SameSlots w.old w.new }
    ensures does { IfOk result (λ answer. Does P.size P.limit names.old names.new w.old w.new (External a.now text.now) answer) }
    ensures uses { IfOk result (λ answer. Uses w.old w.new (external_by (commands.Ext a.now text.now) answer)) }
    ensures same { OnErr result (AreSame names.old names.new) }
{
    let Some(_) = w.next_slot() else {
        return Ok(Answer::Releasers);
    };
    let bytes = TextBytes::of_text(alloc, text)?;
    let made = Cord::from_external(alloc, pool, w, bytes.as_slice());
    set_made(pool, w, names, a, made)
}
