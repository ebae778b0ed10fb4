//! Shares of cords' trees, for their records.
ghost use Rattle.std.specs.Prelude.{◌≡◌, ◌≤◌, [], length, IsSome, Some, IfOk, IfErr};
ghost use Rattle.cordz_desk.specs.Shares.{tree_in, IsShare};
ghost use Rattle.cord_value.specs.Workers.{Keeps};

use cord_port::Releaser;
use cord_value::{CopyRefused, Cord};
use cordz_desk::Share;
use node_pool::{Naming, Pass, Pool, Worker};

/// A share of the cord's tree, under a pass that is empty.
pub(crate) fn share_tree<P: Naming, B: Releaser>(
    pool: &Pool<P, B>,
    w: &mut Worker<P>,
    cord: &mut Cord<P>,
    pass: Pass<P>,
) -> Result<Share<P>, CopyRefused<P>>
    requires room { length w.old.holds ≤ 96 }
    requires empty { pass.holds ≡ [] }
    requires tree { IsSome cord.old.tree }
    ensures kept { cord.new ≡ cord.old }
    ensures share { IfOk result (λ x. IsShare x × (cord.old.tree ≡ Some (tree_in x))) }
    ensures worker { IfOk result (λ _. Keeps P.limit [] 0 0 w.old w.new) }
    ensures refused { IfErr result (λ r. (r.pass.holds ≡ []) × (w.new ≡ w.old)) }
{
    match cord.copy_into(pool, w, pass) {
        Ok((copy, _)) => match copy.into_tree() {
            Some((pass, edge)) => Ok(Share { pass, edge }),
            None => unreachable!(),
        },
        Err(refused) => Err(refused),
    }
}
