//! Peeks: what a session lends the board for a copy of the cord in a cell.
ghost use Rattle.std.specs.Prelude.{◌≡◌, ◌+◌, ◌≤◌, ◌&&◌, [], true, length, is_some, IsSome, Some, IfOk, IfErr, MatchOption};
ghost use Rattle.std.specs.Bool.{⊤};
ghost use Rattle.cordz_desk.specs.Shares.{tree_in, IsShare};
ghost use Rattle.cord_value.specs.Workers.{Keeps};
ghost use Rattle.cord_sampled.specs.Copies.{one_if, IsEmptyIf};
ghost use Rattle.cord_sampled.specs.Peeks.{IsReady, IsAgain, IsCopyOf};

use crate::copies::Copied;
use crate::cord::SampledCord;
use crate::passes::Ready;
use crate::publishing::emptied;
use crate::sharing::share_tree;
use cord_board::Twin;
use cord_port::{Memory, Releaser};
use cord_value::{CopyRefused, Cord};
use cordz_desk::{DeskNaming, Share};
use node_pool::{Naming, Pass, Pool, Worker};

/// What a peek needs to copy the cord that it finds: passes that were made before.
#[derive(Drop)]
pub struct Peeker<'a, P: Naming, B: Releaser> {
    pub pool: &'a Pool<P, B>,
    pub worker: &'a mut Worker<P>,
    pub ready: Option<Ready<P>>,
}

/// A share of the cord's tree, where the cord is sampled and there is a pass for one. Else the pass is spare.
fn share_if<P: Naming, B: Releaser>(
    pool: &Pool<P, B>,
    w: &mut Worker<P>,
    cord: &mut Cord<P>,
    sampled: bool,
    sample: Option<Pass<P>>,
) -> Result<(Option<Share<P>>, Option<Pass<P>>), CopyRefused<P>>
    requires room { length w.old.holds ≤ 96 }
    requires empty { IsEmptyIf sample }
    requires tree { sampled ≡ true → IsSome cord.old.tree }
    ensures kept { cord.new ≡ cord.old }
    ensures share { IfOk result (λ r. MatchOption r.0 ⊤ (λ x. IsShare x × (cord.old.tree ≡ Some (tree_in x)))) }
    ensures some { IfOk result (λ r. is_some r.0 ≡ sampled && is_some sample) }
    ensures spare { IfOk result (λ r. IsEmptyIf r.1 × (one_if r.1 + one_if r.0 ≡ one_if sample)) }
    ensures worker { IfOk result (λ _. Keeps P.limit [] 0 0 w.old w.new) }
    ensures refused { IfErr result (λ r. (r.pass.holds ≡ []) × (w.new ≡ w.old)) }
    ensures wanted { IfErr result (λ _. (is_some sample ≡ true) × IsSome cord.old.tree) }
{
    if !sampled {
        return Ok((None, sample));
    }
    let Some(pass) = sample else {
        return Ok((None, None));
    };
    match share_tree(pool, w, cord, pass) {
        Ok(share) => Ok((Some(share), None)),
        Err(refused) => Err(refused),
    }
}

/// Leaves the tree of a copy. Its pass is empty then.
fn emptied_copy<P: Naming, B: Releaser>(
    pool: &Pool<P, B>,
    w: &mut Worker<P>,
    copy: Cord<P>,
) -> Pass<P>
    requires room { length w.old.holds ≤ 96 }
    requires tree { IsSome copy.tree }
    ensures empty { result.holds ≡ [] }
    ensures worker { Keeps P.limit [] 0 0 w.old w.new }
{
    match copy.into_tree() {
        Some((pass, edge)) => emptied(pool, w, Share { pass, edge }),
        None => unreachable!(),
    }
}

/// A copy of the cord under these passes, with a share where the cord is sampled. Want of memory gives the passes back.
fn copy_under<P: Naming, B: Releaser>(
    pool: &Pool<P, B>,
    w: &mut Worker<P>,
    cord: &mut Cord<P>,
    sampled: bool,
    ready: Ready<P>,
) -> Result<Copied<P>, Ready<P>>
    requires room { length w.old.holds ≤ 96 }
    requires ready { IsReady ready }
    requires tree { sampled ≡ true → IsSome cord.old.tree }
    ensures kept { cord.new ≡ cord.old }
    ensures copy { IfOk result (IsCopyOf cord.old sampled ready) }
    ensures again { IfErr result (IsAgain ready) }
    ensures memory { IfErr result (λ _. IsSome cord.old.tree) }
    ensures worker { Keeps P.limit [] 0 0 w.old w.new }
{
    let Ready { copy, sample } = ready;
    let (mut copied, spare) = match cord.copy_into(pool, w, copy) {
        Ok(made) => made,
        Err(CopyRefused { pass }) => return Err(Ready { copy: pass, sample }),
    };
    match share_if(pool, w, &mut copied, sampled, sample) {
        Ok((share, spare_sample)) => Ok(Copied {
            cord: copied,
            share,
            spare,
            spare_sample,
        }),
        Err(CopyRefused { pass }) => Err(Ready {
            copy: emptied_copy(pool, w, copied),
            sample: Some(pass),
        }),
    }
}

impl<'a, P: Naming, D: DeskNaming, B: Releaser> Twin<Peeker<'a, P, B>> for SampledCord<P, D> {
    ghost use Rattle.std.specs.Prelude.{◌≡◌, ◌≤◌, length, is_some};
    ghost use Rattle.cord_sampled.specs.Peeks.{IsReadyIf, IsPeeked};
    ghost use Rattle.cord_sampled.specs.Sampled.{cord_in, ticket_in};

    type Out = Result<Option<Copied<P>>, Memory>;

    ghost asks = { λ with. (length with.worker.now.holds ≤ 96) × IsReadyIf with.ready };

    ghost gives = { λ c with after out. (after.worker.ghost_name ≡ with.worker.ghost_name)
        × IsPeeked P.limit (cord_in c) (is_some (ticket_in c)) with.worker.now after.worker.now with.ready after.ready out };

    fn twin(&mut self, with: &mut Peeker<'a, P, B>) -> Result<Option<Copied<P>>, Memory> {
        let Some(ready) = with.ready.take() else {
            return Ok(None);
        };
        let sampled = self.ticket.is_some();
        match copy_under(with.pool, with.worker, &mut self.cord, sampled, ready) {
            Ok(copied) => Ok(Some(copied)),
            Err(ready) => {
                with.ready = Some(ready);
                Err(Memory)
            }
        }
    }
}
