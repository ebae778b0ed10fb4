//! Trees for records, with a pass that holds them.
ghost use Rattle.std.specs.Prelude.{◌≡◌, ◌<◌, ◌≤◌, [], ◌∷◌, length, IfSome};
ghost use Rattle.node_edges.specs.Trees.{IsWellFormed};
ghost use Rattle.pool_rule.specs.Trades.{Trades, SameHolds, HasHolds};
ghost use Rattle.cordz_desk.specs.Shares.{IsShare};

use cord_port::CountReleaser;
use cordz_desk::Share;
use flat_nodes::new_flat;
use node_pool::{Edge, Naming, Pool, Worker};
use std::alloc::Global;

/// The boxes of the pools here, of which there are none.
pub type Boxes = CountReleaser;

/// A flat of so many bytes, and a pass that holds it. None where a number, a pass or memory is wanting.
pub fn new_share<P: Naming>(
    alloc: Global,
    pool: &Pool<P, Boxes>,
    w: &mut Worker<P>,
    size: u16,
) -> Option<Share<P>>
    requires size { (0 < size) × (size ≤ 4083) }
    requires room { length w.old.holds ≤ 96 }
    ensures same { SameHolds w.old.holds w.new.holds }
    ensures share { IfSome result (λ s. IsShare s) }
{
    let Ok(bytes) = vec![in alloc; 120u8; size as usize] else {
        return None;
    };
    let Ok(mut pass) = pool.pass(w) else {
        return None;
    };
    let Ok(edge) = new_flat(alloc, pool, w, bytes.as_slice()) else {
        pool.end(w, pass);
        return None;
    };
    pool.fill(w, &mut pass, &edge);
    Some(Share { pass, edge })
}

/// Leaves a share's tree, and its pass ends.
pub fn give_back<P: Naming>(pool: &Pool<P, Boxes>, w: &mut Worker<P>, share: Share<P>)
    requires share { IsShare share }
    requires room { length w.old.holds ≤ 96 }
    ensures same { SameHolds w.old.holds w.new.holds }
{
    let Share { pass, edge } = share;
    pool.draw_and_end(w, pass);
    leave(pool, w, &edge);
}

/// Leaves a tree that the worker holds.
pub fn leave<P: Naming>(pool: &Pool<P, Boxes>, w: &mut Worker<P>, edge: &Edge)
    requires formed { IsWellFormed edge.now }
    requires held { HasHolds w.old.holds (edge.now ∷ []) }
    requires room { length w.old.holds ≤ 97 }
    ensures traded { Trades w.old.holds (edge.now ∷ []) [] w.new.holds }
{
    pool.finish(w, edge);
}
