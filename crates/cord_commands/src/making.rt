//! Commands that set a name to a new cord. The cord that the name had before is released.
ghost use Rattle.std.specs.Prelude.{◌≡◌, ◌≤◌, ◌+◌, length, IfOk, IfErr, OnErr};
ghost use Rattle.plain_cord.specs.declared.script.Command.TheVariants as commands;
ghost use Rattle.plain_cord.specs.Texts.{text_bytes};
ghost use Rattle.cord_steps.specs.Answers.{Plain};
ghost use Rattle.cord_commands.specs.Accounts.{trees_in, trees_made, IsSteady};
ghost use Rattle.cord_commands.specs.Answers.{IsSet};
ghost use Rattle.cord_commands.specs.Does.{Does};
ghost use Rattle.cord_commands.specs.Views.{AreSame};

use crate::answer::{Answer, done, refusal, unset};
use crate::lending::{let_go, put_back, take_out};
use crate::texts::TextBytes;
use cord_port::Releaser;
use cord_value::{Cord, CordError};
use node_pool::{Naming, Pool, Worker};
use ordered_names::Names;
use plain_cord::Text;
use std::alloc::{AllocError, Global};

/// Sets a name to a cord that was made, or answers why none was.
pub fn set_made<'a, P: Naming, B: Releaser>(
    pool: &Pool<P, B>,
    w: &mut Worker<P>,
    names: &mut Names<'a, Cord<P>>,
    a: &'a [u8],
    made: Result<Cord<P>, CordError>,
) -> Result<Answer, AllocError>
    requires room { length w.old.holds ≤ 96 }
    ensures steady { IsSteady w.old w.new (trees_in names.old + trees_made made) (trees_in names.new) }
    ensures set { IfOk result (λ answer. IsSet names.old names.new a.now made answer) }
    ensures same { OnErr result (AreSame names.old names.new) }
    ensures idle { IfErr made (λ _. w.new ≡ w.old) }
{
    let cord = match made {
        Ok(cord) => cord,
        Err(error) => return refusal(error),
    };
    match names.set(a, cord) {
        Ok(old) => {
            let_go(pool, w, old);
            Ok(done())
        }
        Err(cord) => {
            cord.release(pool, w);
            Err(AllocError)
        }
    }
}

/// Sets a name to the bytes of a text.
pub fn set_text<'a, P: Naming, B: Releaser>(
    alloc: Global,
    pool: &Pool<P, B>,
    w: &mut Worker<P>,
    names: &mut Names<'a, Cord<P>>,
    a: &'a [u8],
    text: &Text,
) -> Result<Answer, AllocError>
    requires room { length w.old.holds ≤ 96 }
    requires within { length (text_bytes text.now) ≤ 2147483647 }
    ensures steady { IsSteady w.old w.new (trees_in names.old) (trees_in names.new) }
    ensures does { IfOk result (λ answer. Does P.size P.limit names.old names.new w.old w.new (Plain (commands.Let a.now text.now)) answer) }
    ensures same { OnErr result (AreSame names.old names.new) }
{
    let bytes = TextBytes::of_text(alloc, text)?;
    let made = Cord::from_bytes(alloc, pool, w, bytes.as_slice());
    set_made(pool, w, names, a, made)
}

/// Sets `b` to a copy of the cord of `a`, sum included.
pub fn copy<'a, P: Naming, B: Releaser>(
    alloc: Global,
    pool: &Pool<P, B>,
    w: &mut Worker<P>,
    names: &mut Names<'a, Cord<P>>,
    a: &[u8],
    b: &'a [u8],
) -> Result<Answer, AllocError>
    requires room { length w.old.holds ≤ 96 }
    ensures steady { IsSteady w.old w.new (trees_in names.old) (trees_in names.new) }
    ensures does { IfOk result (λ answer. Does P.size P.limit names.old names.new w.old w.new (Plain (commands.Copy a.now b.now)) answer) }
    ensures same { OnErr result (AreSame names.old names.new) }
{
    let Some(mut cord) = take_out(names, a) else {
        return unset(alloc, a);
    };
    let made = cord.copy(pool, w);
    put_back(names, a, cord);
    set_made(pool, w, names, b, made)
}

/// Sets `b` to at most `n` of the bytes of `a` behind the first `pos`.
pub fn sub<'a, P: Naming, B: Releaser>(
    alloc: Global,
    pool: &Pool<P, B>,
    w: &mut Worker<P>,
    names: &mut Names<'a, Cord<P>>,
    a: &[u8],
    pos: u64,
    n: u64,
    b: &'a [u8],
) -> Result<Answer, AllocError>
    requires room { length w.old.holds ≤ 96 }
    ensures steady { IsSteady w.old w.new (trees_in names.old) (trees_in names.new) }
    ensures does { IfOk result (λ answer. Does P.size P.limit names.old names.new w.old w.new (Plain (commands.Sub a.now pos n b.now)) answer) }
    ensures same { OnErr result (AreSame names.old names.new) }
{
    let Some(mut cord) = take_out(names, a) else {
        return unset(alloc, a);
    };
    let _ = cord.len();
    let made = cord.sub(alloc, pool, w, pos, n);
    put_back(names, a, cord);
    set_made(pool, w, names, b, made)
}

/// Makes the cord of a name empty.
pub fn clear<P: Naming, B: Releaser>(
    alloc: Global,
    pool: &Pool<P, B>,
    w: &mut Worker<P>,
    names: &mut Names<'_, Cord<P>>,
    a: &[u8],
) -> Result<Answer, AllocError>
    requires room { length w.old.holds ≤ 96 }
    ensures steady { IsSteady w.old w.new (trees_in names.old) (trees_in names.new) }
    ensures does { IfOk result (λ answer. Does P.size P.limit names.old names.new w.old w.new (Plain (commands.Clear a.now)) answer) }
    ensures same { OnErr result (AreSame names.old names.new) }
{
    let Some(cord) = take_out(names, a) else {
        return unset(alloc, a);
    };
    cord.release(pool, w);
    Ok(done())
}
