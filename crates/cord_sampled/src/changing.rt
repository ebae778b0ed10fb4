//! Changes of cords that have a record.
ghost use Rattle.std.specs.Prelude.{◌≡◌, ◌≤◌, true, length, IfOk, IfErr};
ghost use Rattle.cordz_desk.specs.Tickets.{IsAtRest};
ghost use Rattle.cordz_desk.specs.Tokens.{token_of};
ghost use Rattle.cord_sampled.specs.Changing.{IsToldOf, IsUndone};
ghost use Rattle.cord_sampled.specs.Edits.{HasKept};

use crate::alters::Alters;
use crate::hand::Hand;
use crate::mark::Mark;
use crate::publishing::publish_tree;
use cord_port::Releaser;
use cord_value::{Cord, CordError};
use cordz_desk::{DeskNaming, Ticket};
use node_pool::Naming;
use std::alloc::Global;
use std::sync::Wait;

/// Does a change under the record's turn, which says the new tree then. The record of a cord that has no tree any more stays until it is given up.
pub(crate) fn change_recorded<R, P, D, B, S, W>(
    alloc: Global,
    rt: &R,
    hand: &mut Hand<'_, P, D, B>,
    cord: &mut Cord<P>,
    ticket: &mut Ticket<P, D>,
    step: &S,
    with: &mut W,
) -> Result<Mark, CordError>
where
    R: Wait,
    P: Naming,
    D: DeskNaming,
    B: Releaser,
    S: Alters<P, B, W>,
    requires room { length hand.old.worker.holds ≤ 96 }
    requires rest { IsAtRest ticket.old }
    requires changes { S.changes step.now with.old cord.old ≡ true }
    ensures rest { IsAtRest ticket.new }
    ensures altered { IfOk result (λ _. S.makes step.now with.old cord.old cord.new) }
    ensures told { IfOk result (λ mark. IsToldOf ticket.old ticket.new mark cord.new.tree) }
    ensures kept { IfOk result (λ _. HasKept P.limit cord.old cord.new hand.old.worker hand.new.worker) }
    ensures refused { IfErr result (λ x. S.refuses step.now with.old cord.old x hand.old.worker hand.new.worker) }
    ensures undone { IfErr result (λ x. IsUndone P.limit ticket.old ticket.new (S.makes step.now with.old) x cord.old cord.new
        hand.old.worker hand.new.worker) }
    ensures stays { with.new ≡ with.old }
    ensures token { token_of hand.new.pass ≡ token_of hand.old.pass }
    ensures same { (hand.new.stride ≡ hand.old.stride) × (hand.new.made ≡ hand.old.made) }
{
    let change = hand.cordz.begin(rt, ticket);
    match step.apply(alloc, hand.pool, &mut hand.worker, cord, with) {
        Ok(()) => {
            if cord.is_tree() {
                publish_tree(hand, cord, ticket, change)
            } else {
                hand.cordz.keep(ticket, change);
                Ok(Mark::Plain)
            }
        }
        Err(error) => {
            hand.cordz.keep(ticket, change);
            Err(error)
        }
    }
}
