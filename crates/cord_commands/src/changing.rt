//! Commands that change the cord of a name.
ghost use Rattle.std.specs.Prelude.{◌≡◌, ◌≤◌, length, Err, IfOk, OnErr};
ghost use Rattle.plain_cord.specs.declared.script.Command.TheVariants as commands;
ghost use Rattle.cord_value.specs.declared.refusals.CordError.TheVariants.{Memory};
ghost use Rattle.cord_commands.specs.Accounts.{trees_in, IsSteady};
ghost use Rattle.cord_commands.specs.Answers.{IsAnswerTo};
ghost use Rattle.cord_commands.specs.Does.{Does};
ghost use Rattle.cord_commands.specs.Edits.{command_of, IsApt};
ghost use Rattle.cord_commands.specs.Places.{PlacesEdit};
ghost use Rattle.cord_steps.specs.Answers.{Plain};
ghost use Rattle.cord_commands.specs.Views.{AreSame};

use crate::answer::{Answer, done, refusal, told, unset};
use crate::edits::{Edit, apply};
use crate::lending::{put_back, take_out};
use cord_port::Releaser;
use cord_value::{Cord, CordError};
use node_pool::{Naming, Pool, Worker};
use ordered_names::Names;
use plain_cord::Reply;
use std::alloc::{AllocError, Global};

/// The answer to a change.
pub fn changed(done_or_not: Result<(), CordError>) -> Result<Answer, AllocError>
    ensures answer { IfOk result (λ answer. IsAnswerTo done_or_not answer) }
    ensures memory { OnErr result (done_or_not ≡ Err Memory) }
{
    match done_or_not {
        Ok(()) => Ok(done()),
        Err(error) => refusal(error),
    }
}

/// Does a change on the cord of a name, if it was ever set.
pub fn change<P: Naming, B: Releaser>(
    alloc: Global,
    pool: &Pool<P, B>,
    w: &mut Worker<P>,
    names: &mut Names<'_, Cord<P>>,
    a: &[u8],
    by: Edit<'_>,
) -> Result<Answer, AllocError>
    requires room { length w.old.holds ≤ 96 }
    requires apt { IsApt names.old a.now by }
    ensures steady { IsSteady w.old w.new (trees_in names.old) (trees_in names.new) }
    ensures does { IfOk result (λ answer. Does P.size P.limit names.old names.new w.old w.new (Plain (command_of a.now by.entry)) answer) }
    ensures placed { IfOk result (λ answer. PlacesEdit names.old names.new w.old w.new a.now by.entry answer) }
    ensures same { OnErr result (AreSame names.old names.new) }
{
    let Some(mut cord) = take_out(names, a) else {
        return unset(alloc, a);
    };
    let _ = cord.len();
    let edited = apply(alloc, pool, w, &mut cord, by);
    let _ = cord.len();
    put_back(names, a, cord);
    changed(edited)
}

/// Sets the expected sum of a cord that has bytes.
pub fn set_sum<P: Naming, B: Releaser>(
    alloc: Global,
    pool: &Pool<P, B>,
    w: &mut Worker<P>,
    names: &mut Names<'_, Cord<P>>,
    a: &[u8],
    value: u32,
) -> Result<Answer, AllocError>
    requires room { length w.old.holds ≤ 96 }
    ensures steady { IsSteady w.old w.new (trees_in names.old) (trees_in names.new) }
    ensures does { IfOk result (λ answer. Does P.size P.limit names.old names.new w.old w.new (Plain (commands.SetSum a.now value)) answer) }
    ensures same { OnErr result (AreSame names.old names.new) }
{
    match names.find(a) {
        None => return unset(alloc, a),
        Some(cord) => {
            if cord.len() == 0 {
                return Ok(told(Reply::NoBytes));
            }
        }
    }
    change(alloc, pool, w, names, a, Edit::SetSum(value))
}
