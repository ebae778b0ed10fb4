//! Records of cords that are changed.
ghost use Rattle.std.specs.Prelude.{◌≡◌, ◌≤◌, [], false, length, IsSome, IfOk, IfErr, MatchOption};
ghost use Rattle.std.specs.Bool.{⊤};
ghost use Rattle.record_rule.specs.World.{is_none};
ghost use Rattle.cordz_desk.specs.Shares.{IsShare};
ghost use Rattle.cordz_desk.specs.Tickets.{notes_of, bare_of, IsAtRest, IsChangeOf, IsShareOf};
ghost use Rattle.cordz_desk.specs.Tokens.{token_of};
ghost use Rattle.cord_value.specs.Workers.{Keeps};
ghost use Rattle.cord_value.specs.declared.refusals.CordError.TheVariants.{Memory};
ghost use Rattle.cord_sampled.specs.Publishing.{IsTold, IsStripped};

use crate::hand::Hand;
use crate::mark::Mark;
use crate::sharing::share_tree;
use cord_port::Releaser;
use cord_value::{CopyRefused, Cord, CordError};
use cordz_desk::{Change, DeskNaming, Share, Ticket};
use node_pool::{Naming, Pass, Pool, Worker};

/// Leaves the tree of a share. Its pass is empty then.
pub(crate) fn emptied<P: Naming, B: Releaser>(
    pool: &Pool<P, B>,
    w: &mut Worker<P>,
    share: Share<P>,
) -> Pass<P>
    requires room { length w.old.holds ≤ 96 }
    requires share { IsShare share }
    ensures empty { result.holds ≡ [] }
    ensures worker { Keeps P.limit [] 0 0 w.old w.new }
{
    let Share { mut pass, edge } = share;
    pool.draw(w, &mut pass);
    pool.finish(w, &edge);
    pass
}

/// Ends a change of a record whose cord has another tree now. A bare record stays bare. Where memory is wanting it becomes so.
pub(crate) fn publish_tree<P: Naming, D: DeskNaming, B: Releaser>(
    hand: &mut Hand<'_, P, D, B>,
    cord: &mut Cord<P>,
    ticket: &mut Ticket<P, D>,
    change: Change<P>,
) -> Result<Mark, CordError>
    requires room { length hand.old.worker.holds ≤ 96 }
    requires change { IsChangeOf ticket.old change }
    requires bare { is_none change.share ≡ bare_of ticket.old }
    requires share { MatchOption change.share ⊤ (λ x. IsShareOf (notes_of ticket.old) (bare_of ticket.old) x) }
    requires tree { IsSome cord.old.tree }
    ensures kept { cord.new ≡ cord.old }
    ensures rest { IsAtRest ticket.new }
    ensures told { IfOk result (λ mark. MatchOption cord.old.tree ⊥ (IsTold (bare_of ticket.old) ticket.old ticket.new mark)) }
    ensures worker { IfOk result (λ _. Keeps P.limit [] 0 0 hand.old.worker hand.new.worker) }
    ensures memory { IfErr result (λ x. x ≡ Memory) }
    ensures stripped { IfErr result (λ _. (bare_of ticket.old ≡ false) × IsStripped ticket.old ticket.new) }
    ensures undone { IfErr result (λ _. Keeps P.limit [] 0 1 hand.old.worker hand.new.worker) }
    ensures token { token_of hand.new.pass ≡ token_of hand.old.pass }
    ensures same { (hand.new.stride ≡ hand.old.stride) × (hand.new.made ≡ hand.old.made) }
{
    let mut change = change;
    let Some(share) = change.share.take() else {
        hand.cordz.keep(ticket, change);
        return Ok(Mark::Plain);
    };
    let pass = emptied(hand.pool, &mut hand.worker, share);
    match share_tree(hand.pool, &mut hand.worker, cord, pass) {
        Ok(share) => Ok(Mark::Noted(hand.cordz.publish(ticket, change, share, 0))),
        Err(CopyRefused { pass }) => {
            hand.pool.end(&mut hand.worker, pass);
            hand.cordz.strip(ticket, change);
            Err(CordError::Memory)
        }
    }
}
