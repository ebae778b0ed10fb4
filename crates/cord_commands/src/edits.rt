//! Changes of one cord.
ghost use Rattle.std.specs.Prelude.{◌≡◌, ◌≤◌, ◌++◌, length, IfOk, IfErr, OnErr};
ghost use Rattle.node_forest.specs.declared.side.Side.TheVariants as sides;
ghost use Rattle.plain_cord.specs.Texts.{text_bytes};
ghost use Rattle.tree_shapes.specs.Cords.{IsBytesAdded};
ghost use Rattle.tree_shapes.specs.Growth.{beside};
ghost use Rattle.cord_value.specs.Grown.{IsGrowRefused};
ghost use Rattle.cord_value.specs.Views.{cord_shape};
ghost use Rattle.cord_commands.specs.Accounts.{trees_of, IsSteady};
ghost use Rattle.cord_commands.specs.Edits.{IsEdited, IsEditRefused, IsTextRefused, IsBehindBalanced, IsTextBalanced, IsEditBalanced};
ghost use Rattle.cord_commands.specs.Places.{IsTextPlaced, IsTextShared, IsEditPlaced, IsEditShared};

use crate::texts::TextBytes;
use cord_port::Releaser;
use cord_value::{Cord, CordError};
use node_pool::{Naming, Pool, Side, Worker};
use plain_cord::Text;
use std::alloc::Global;

/// What a command changes a cord by.
#[derive(Clone, Copy)]
pub enum Edit<'b> {
    /// The bytes of the text, at a side.
    Add(&'b Text, Side),
    /// The cord's own bytes once more, by a command that says this side.
    Double(Side),
    CutFront(u64),
    CutBack(u64),
    SetSum(u32),
}

/// Does a change. After a refusal the cord is as before.
#[tactic(auto, using(crate::proofs::Placing::ok_any, crate::proofs::Placing::err_any))]
pub fn apply<P: Naming, B: Releaser>(
    alloc: Global,
    pool: &Pool<P, B>,
    w: &mut Worker<P>,
    cord: &mut Cord<P>,
    change: Edit<'_>,
) -> Result<(), CordError>
    requires room { length w.old.holds ≤ 96 }
    ensures steady { IsSteady w.old w.new (trees_of cord.old) (trees_of cord.new) }
    ensures edited { IfOk result (λ _. IsEdited change.entry cord.old cord.new) }
    ensures placed { IfOk result (λ _. IsEditPlaced change.entry cord.old cord.new w.old w.new) }
    ensures refused { IfErr result (λ x. IsEditRefused P.size P.limit change.entry cord.old x w.old w.new) }
    ensures shared_if_err { IfErr result (λ x. IsEditShared change.entry cord.old x w.old w.new) }
    ensures balanced { IfErr result (λ x. IsEditBalanced P.limit change.entry x w.old w.new) }
    ensures same { OnErr result (cord.new ≡ cord.old) }
{
    match change {
        Edit::Add(text, side) => add_text(alloc, pool, w, cord, text, side),
        Edit::Double(_) => cord.double(alloc, pool, w),
        Edit::CutFront(n) => cord.cut_front(alloc, pool, w, n),
        Edit::CutBack(n) => cord.cut_back(alloc, pool, w, n),
        Edit::SetSum(value) => cord.set_sum(alloc, pool, w, value),
    }
}

// Adds the bytes of a text.
#[tactic(auto, using(crate::proofs::Placing::ok_any, crate::proofs::Placing::err_any))]
fn add_text<P: Naming, B: Releaser>(
    alloc: Global,
    pool: &Pool<P, B>,
    w: &mut Worker<P>,
    cord: &mut Cord<P>,
    text: &Text,
    side: Side,
) -> Result<(), CordError>
    requires room { length w.old.holds ≤ 96 }
    ensures steady { IsSteady w.old w.new (trees_of cord.old) (trees_of cord.new) }
    ensures bytes { IfOk result (λ _. cord.new.bytes ≡ beside side cord.old.bytes (text_bytes text.now)) }
    ensures shape { IfOk result (λ _. IsBytesAdded side (length (text_bytes text.now)) (cord_shape cord.old) (cord_shape cord.new)) }
    ensures placed { IfOk result (λ _. IsTextPlaced side (text_bytes text.now) cord.old cord.new w.old w.new) }
    ensures refused { IfErr result (λ x. IsTextRefused P.size P.limit side (length (text_bytes text.now)) cord.old x w.old w.new) }
    ensures shared_if_err { IfErr result (λ x. IsTextShared side (text_bytes text.now) cord.old x w.old w.new) }
    ensures balanced { IfErr result (λ x. IsTextBalanced P.limit side x w.old w.new) }
    ensures same { OnErr result (cord.new ≡ cord.old) }
{
    let Ok(bytes) = TextBytes::of_text(alloc, text) else {
        return Err(CordError::Memory);
    };
    match side {
        Side::Front => cord.prepend_bytes(alloc, pool, w, bytes.as_slice()),
        Side::Back => add_behind(alloc, pool, w, cord, bytes.as_slice()),
    }
}

// Adds bytes behind. Only a tree has a last flat whose room may take them, so that a cord without one makes no look.
fn add_behind<P: Naming, B: Releaser>(
    alloc: Global,
    pool: &Pool<P, B>,
    w: &mut Worker<P>,
    cord: &mut Cord<P>,
    bytes: &[u8],
) -> Result<(), CordError>
    requires room { length w.old.holds ≤ 96 }
    ensures steady { IsSteady w.old w.new (trees_of cord.old) (trees_of cord.new) }
    ensures bytes { IfOk result (λ _. cord.new.bytes ≡ cord.old.bytes ++ bytes.now) }
    ensures shape { IfOk result (λ _. IsBytesAdded sides.Back (length bytes.now) (cord_shape cord.old) (cord_shape cord.new)) }
    ensures placed { IfOk result (λ _. IsTextPlaced sides.Back bytes.now cord.old cord.new w.old w.new) }
    ensures refused { IfErr result (λ x. IsGrowRefused P.size P.limit sides.Back (length bytes.now) cord.old x w.old w.new) }
    ensures shared_if_err { IfErr result (λ x. IsTextShared sides.Back bytes.now cord.old x w.old w.new) }
    ensures balanced { IfErr result (λ x. IsBehindBalanced P.limit x w.old w.new) }
    ensures same { OnErr result (cord.new ≡ cord.old) }
{
    if cord.is_tree() {
        cord.append_filling(alloc, pool, w, bytes)
    } else {
        cord.append_bytes(alloc, pool, w, bytes)
    }
}
