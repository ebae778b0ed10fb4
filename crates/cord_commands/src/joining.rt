//! Two cords that are joined.
ghost use Rattle.std.specs.Prelude.{◌≡◌, ◌<◌, ◌≤◌, false, length, IfOk, IfErr, OnErr};
ghost use Rattle.tree_shapes.specs.Cords.{IsCordAdded, with_cord_added};
ghost use Rattle.tree_shapes.specs.Growth.{beside};
ghost use Rattle.cord_value.specs.Changes.{IsRefused};
ghost use Rattle.cord_value.specs.Refusals.{IsBalanced};
ghost use Rattle.cord_value.specs.Views.{cord_shape};
ghost use Rattle.cord_steps.specs.Answers.{Plain};
ghost use Rattle.cord_commands.specs.Accounts.{trees_of, trees_in, IsSteady};
ghost use Rattle.cord_commands.specs.Does.{Does};
ghost use Rattle.cord_commands.specs.Edits.{joining};
ghost use Rattle.cord_commands.specs.Views.{AreSame};

use crate::answer::{Answer, unset};
use crate::changing::{change, changed};
use crate::edits::Edit;
use crate::lending::{put_back, take_out};
use cord_port::Releaser;
use cord_value::{Cord, CordError};
use node_pool::{Naming, Pool, Side, Worker};
use ordered_names::Names;
use std::alloc::{AllocError, Global};

/// Adds the bytes of `b` at a side of those of `a`; `b` stays.
pub fn join<P: Naming, B: Releaser>(
    alloc: Global,
    pool: &Pool<P, B>,
    w: &mut Worker<P>,
    names: &mut Names<'_, Cord<P>>,
    a: &[u8],
    b: &[u8],
    side: Side,
) -> Result<Answer, AllocError>
    requires room { length w.old.holds ≤ 96 }
    ensures steady { IsSteady w.old w.new (trees_in names.old) (trees_in names.new) }
    ensures does { IfOk result (λ answer. Does P.size P.limit names.old names.new w.old w.new (Plain (joining side a.now b.now)) answer) }
    ensures same { OnErr result (AreSame names.old names.new) }
{
    if a == b {
        return change(alloc, pool, w, names, a, Edit::Double(side));
    }
    let Some(mut cord) = take_out(names, a) else {
        return unset(alloc, a);
    };
    let Some(mut other) = take_out(names, b) else {
        put_back(names, a, cord);
        return unset(alloc, b);
    };
    let added = add_cord(alloc, pool, w, &mut cord, &mut other, side);
    let _ = cord.len();
    put_back(names, b, other);
    put_back(names, a, cord);
    changed(added)
}

// Adds a cord at a side of another.
fn add_cord<P: Naming, B: Releaser>(
    alloc: Global,
    pool: &Pool<P, B>,
    w: &mut Worker<P>,
    cord: &mut Cord<P>,
    other: &mut Cord<P>,
    side: Side,
) -> Result<(), CordError>
    requires room { length w.old.holds ≤ 96 }
    ensures steady { IsSteady w.old w.new (trees_of cord.old) (trees_of cord.new) }
    ensures bytes { IfOk result (λ _. cord.new.bytes ≡ beside side cord.old.bytes other.old.bytes) }
    ensures shape { IfOk result (λ _. IsCordAdded side (cord_shape other.old) (cord_shape cord.old) (cord_shape cord.new)) }
    ensures some { IfErr result (λ _. 0 < length other.old.bytes) }
    ensures refused { IfErr result
        (λ x. IsRefused P.size P.limit cord.old.tree (with_cord_added false side (cord_shape other.old) (cord_shape cord.old)) x w.old w.new) }
    ensures balanced { IfErr result (λ x. IsBalanced P.limit x w.old w.new) }
    ensures same { OnErr result (cord.new ≡ cord.old) }
    ensures kept { other.new ≡ other.old }
{
    match side {
        Side::Front => cord.prepend_cord(alloc, pool, w, other),
        Side::Back => cord.append_cord(alloc, pool, w, other),
    }
}
