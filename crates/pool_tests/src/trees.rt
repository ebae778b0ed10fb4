//! Trees that are finished, and a flat that is filled in place.
ghost use Rattle.std.specs.Prelude.{◌≡◌, ◌+◌, ◌<◌, ◌≤◌, [], ◌∷◌, length, IfOk, IfSome};
ghost use Rattle.node_forest.specs.declared.kind.Kind.TheVariants as kinds;
ghost use Rattle.node_forest.specs.Forest.{children};
ghost use Rattle.node_forest.specs.Label.{flat_room};
ghost use Rattle.node_edges.specs.Body.{flat_node};
ghost use Rattle.node_edges.specs.Ways.{branches_down};
ghost use Rattle.pool_rule.specs.Trades.{HasHolds, Trades};
ghost use Rattle.node_pool.specs.Opened.{opened_table, opened_numbers, opened_passes, opened_workers, opened_boxes};

use cord_port::LogReleaser;
use node_pool::{
    Body, Change, Closed, Edge, Left, Naming, Opened, Pool, TakeError, Worker,
    paths_that_looks_find_are_lone,
};
use std::alloc::Global;
use std::marker::Brand;

type Boxes = LogReleaser;

fn opened(alloc: Global) -> Option<Opened<Boxes>>
    ensures numbers { IfSome result (λ o. opened_numbers o ≡ 8) }
    ensures workers { IfSome result (λ o. opened_workers o ≡ 2) }
{
    let Ok(opened) = Opened::start(alloc, 8, 1, 2, Vec::new(alloc)) else {
        return None;
    };
    Some(opened)
}

fn flat<P: Naming>(
    alloc: Global,
    pool: &Pool<P, Boxes>,
    w: &mut Worker<P>,
    bytes: &[u8],
    room: u32,
) -> Result<Edge, TakeError>
    requires short { length bytes.now ≤ 100 }
    requires room { length w.old.holds < 256 }
    ensures edge { IfOk result (λ e. e ≡ flat_node e.0.number bytes.now room) }
    ensures traded { IfOk result (λ e. Trades w.old.holds [] (e ∷ []) w.new.holds) }
{
    let Ok(bytes) = Vec::from_slice(alloc, bytes) else {
        return Err(TakeError::Memory);
    };
    pool.take(alloc, w, Body::Flat { bytes, room })
}

fn branch<P: Naming>(
    alloc: Global,
    pool: &Pool<P, Boxes>,
    w: &mut Worker<P>,
    left: Edge,
    right: Edge,
) -> Option<Edge>
    requires short { (left.0.length ≤ 100) × (right.0.length ≤ 100) }
    requires flat { (branches_down left ≡ 0) × (branches_down right ≡ 0) }
    requires held { HasHolds w.old.holds (left ∷ right ∷ []) }
    requires room { length w.old.holds < 256 }
    ensures low { IfSome result (λ e. branches_down e ≡ 1) }
    ensures traded { IfSome result (λ e. Trades w.old.holds (left ∷ right ∷ []) (e ∷ []) w.new.holds) }
{
    let mut edges = Vec::new(alloc);
    let Ok(()) = edges.push(left) else {
        return None;
    };
    let Ok(()) = edges.push(right) else {
        return None;
    };
    let Ok(edge) = pool.take(alloc, w, Body::Branch { height: 0, edges }) else {
        return None;
    };
    Some(edge)
}

/// A flat is filled in place where a look finds that nobody else holds it. None is want of memory, or a look that answers no.
fn filled<P: Naming>(
    alloc: Global,
    pool: &Pool<P, Boxes>,
    w: &mut Worker<P>,
    edge: &mut Edge,
    more: &[u8],
) -> Option<()>
    requires held { HasHolds w.old.holds (edge.old ∷ []) }
    requires few { length w.old.holds ≤ 256 }
    requires flat { (edge.old.0.kind ≡ kinds.Flat) × (edge.old.0.length ≤ 100) }
    requires leaf { children edge.old ≡ [] }
    requires room { (1 ≤ length more.now) × (length more.now ≤ flat_room edge.old.0) × (length more.now ≤ 100) }
    ensures traded { IfSome result (λ _. Trades w.old.holds (edge.old ∷ []) (edge.new ∷ []) w.new.holds) }
    ensures leaf { IfSome result (λ _. children edge.new ≡ []) }
{
    if !pool.look(w, edge, &[]) {
        return None;
    }
    paths_that_looks_find_are_lone();
    let Ok(bytes) = Vec::from_slice(alloc, more) else {
        return None;
    };
    let changes = [(0, Change::Fill { bytes })];
    let Ok(removed) = pool.mark(alloc, w, edge, &[], &changes) else {
        return None;
    };
    if removed.is_empty() { Some(()) } else { None }
}

/// What became of a flat of 20 bytes with room for 31: its number before and after, its length, and whether a look finds it lone
/// once it is shared.
fn filled_flat<P: Naming>(
    alloc: Global,
    pool: &Pool<P, Boxes>,
    w: &mut Worker<P>,
) -> Option<(u32, u32, u64, bool)>
    requires empty { w.old.holds ≡ [] }
{
    let Ok(mut edge) = flat(alloc, pool, w, &[b'a'; 20], 31) else {
        return None;
    };
    let before = edge.number();
    filled(alloc, pool, w, &mut edge, &[b'b'; 31])?;
    pool.share(w, &edge);
    let lone = pool.look(w, &edge, &[]);
    pool.leave(w, &edge);
    Some((before, edge.number(), edge.length(), lone))
}

fn filled_alone<P: Naming>(
    alloc: Global,
    opened: Opened<Boxes>,
) -> Option<((u32, u32, u64, bool), u32)>
    requires table { opened_table opened ≡ P.table }
    requires numbers { opened_numbers opened ≡ P.size }
    requires passes { opened_passes opened ≡ P.limit }
    requires boxes { opened_boxes opened ≡ P.boxes }
    requires workers { (opened_workers opened ≡ P.workers) × (P.workers ≡ 2) }
{
    let Ok((pool, mut workers)) = opened.named::<P>(alloc) else {
        return None;
    };
    let answer = filled_flat(alloc, &pool, &mut workers[0])?;
    let Closed {
        in_use,
        releasers: _,
    } = pool.close(workers);
    Some((answer, in_use))
}

#[test]
fn a_lone_flat_of_20_bytes_is_filled_to_51_under_its_number(rt: HostRuntime) {
    let opened = opened(rt.alloc()).expect(&rt, "memory");
    let (answer, in_use) = filled_alone::<Brand>(rt.alloc(), opened).expect(&rt, "memory");
    assert_eq!(rt; answer, (0, 0, 51, false));
    assert_eq!(rt; in_use, 1);
}

/// A Branch over two flats is finished. None is want of memory.
fn finished<P: Naming>(alloc: Global, pool: &Pool<P, Boxes>, w: &mut Worker<P>) -> Option<()>
    requires empty { w.old.holds ≡ [] }
    ensures empty { IfSome result (λ _. length w.new.holds ≡ 0) }
{
    let Ok(left) = flat(alloc, pool, w, b"left", 15) else {
        return None;
    };
    let Ok(right) = flat(alloc, pool, w, b"right", 14) else {
        return None;
    };
    let root = branch(alloc, pool, w, left, right)?;
    pool.finish(w, &root);
    Some(())
}

/// The same where the first flat is shared, and what leaving it answers then.
fn finished_beside<P: Naming>(
    alloc: Global,
    pool: &Pool<P, Boxes>,
    w: &mut Worker<P>,
) -> Option<Left>
    requires empty { w.old.holds ≡ [] }
{
    let Ok(left) = flat(alloc, pool, w, b"left", 15) else {
        return None;
    };
    let Ok(own) = left.again() else {
        return None;
    };
    pool.share(w, &own);
    let Ok(right) = flat(alloc, pool, w, b"right", 14) else {
        return None;
    };
    let root = branch(alloc, pool, w, left, right)?;
    pool.finish(w, &root);
    Some(pool.leave(w, &own))
}

fn both_finished<P: Naming>(alloc: Global, opened: Opened<Boxes>) -> Option<(Left, u32)>
    requires table { opened_table opened ≡ P.table }
    requires numbers { opened_numbers opened ≡ P.size }
    requires passes { opened_passes opened ≡ P.limit }
    requires boxes { opened_boxes opened ≡ P.boxes }
    requires workers { (opened_workers opened ≡ P.workers) × (P.workers ≡ 2) }
{
    let Ok((pool, mut workers)) = opened.named::<P>(alloc) else {
        return None;
    };
    finished(alloc, &pool, &mut workers[0])?;
    let left = finished_beside(alloc, &pool, &mut workers[1])?;
    let Closed {
        in_use,
        releasers: _,
    } = pool.close(workers);
    Some((left, in_use))
}

#[test]
fn finishing_leaves_no_number_in_use_but_those_of_shared_nodes(rt: HostRuntime) {
    let opened = opened(rt.alloc()).expect(&rt, "memory");
    let answer = both_finished::<Brand>(rt.alloc(), opened);
    assert_eq!(rt; answer, Some((Left::Last, 0)));
}
