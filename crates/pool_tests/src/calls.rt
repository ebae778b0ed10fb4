//! Pools on one thread, and on four.
ghost use Rattle.std.specs.Prelude.{◌≡◌, ◌+◌, ◌<◌, ◌≤◌, [], ◌∷◌, length, IfOk, IfErr, IfSome, IsTrue};
ghost use Rattle.node_forest.specs.Forest.{children};
ghost use Rattle.pool_rule.specs.Trades.{Trades, SameHolds, HasHolds};
ghost use Rattle.node_pool.specs.Opened.{opened_table, opened_numbers, opened_passes, opened_workers, opened_boxes};

use cord_port::{LogReleaser, Releaser};
use node_pool::{Body, Closed, Edge, Left, Naming, Opened, PassLimit, Pool, TakeError, Worker};
use std::alloc::Global;
use std::marker::Brand;
use std::thread::{self, Threads};

type Boxes = LogReleaser;

fn opened(alloc: Global, numbers: u32, passes: u32, workers: u32) -> Option<Opened<Boxes>>
    requires numbers { (0 < numbers) × (numbers ≤ 1024) }
    requires passes { (0 < passes) × (passes ≤ 100) }
    requires workers { (0 < workers) × (workers ≤ 8) }
    ensures numbers { IfSome result (λ o. opened_numbers o ≡ numbers) }
    ensures passes { IfSome result (λ o. opened_passes o ≡ passes) }
    ensures workers { IfSome result (λ o. opened_workers o ≡ workers) }
{
    let Ok(opened) = Opened::start(alloc, numbers, passes, workers, Vec::new(alloc)) else {
        return None;
    };
    Some(opened)
}

fn take_flat<P: Naming>(
    alloc: Global,
    pool: &Pool<P, Boxes>,
    w: &mut Worker<P>,
) -> Result<Edge, TakeError>
    requires room { length w.old.holds < 256 }
    ensures edge { IfOk result (λ e. children e ≡ []) }
    ensures traded { IfOk result (λ e. Trades w.old.holds [] (e ∷ []) w.new.holds) }
    ensures refused { IfErr result (λ _. w.new.holds ≡ w.old.holds) }
{
    let bytes = Vec::new(alloc);
    pool.take(alloc, w, Body::Flat { bytes, room: 19 })
}

/// How many flats were taken before one was refused, and how many numbers were seen then.
fn until_refused<P: Naming>(
    alloc: Global,
    pool: &Pool<P, Boxes>,
    w: &mut Worker<P>,
) -> Option<(u32, u32)>
    requires empty { length w.old.holds ≡ 0 }
{
    for i in 0..20u32 {
        match take_flat(alloc, pool, w) {
            Ok(_) => {}
            Err(TakeError::NoNumber { seen }) => return Some((i, seen)),
            Err(TakeError::Memory) => return None,
        }
    }
    None
}

fn filled<P: Naming>(alloc: Global, opened: Opened<Boxes>) -> Option<((u32, u32), u32)>
    requires table { opened_table opened ≡ P.table }
    requires numbers { opened_numbers opened ≡ P.size }
    requires passes { opened_passes opened ≡ P.limit }
    requires boxes { opened_boxes opened ≡ P.boxes }
    requires workers { (opened_workers opened ≡ P.workers) × (P.workers ≡ 1) }
{
    let Ok((pool, mut workers)) = opened.named::<P>(alloc) else {
        return None;
    };
    let answer = until_refused(alloc, &pool, &mut workers[0])?;
    let Closed {
        in_use,
        releasers: _,
    } = pool.close(workers);
    Some((answer, in_use))
}

#[test]
fn the_ninth_take_of_eight_numbers_is_refused(rt: HostRuntime) {
    let opened = opened(rt.alloc(), 8, 1, 1).expect(&rt, "memory");
    let answer = filled::<Brand>(rt.alloc(), opened);
    assert_eq!(rt; answer, Some(((8, 8), 8)));
}

/// A flat is taken and shared, and left twice.
fn left_twice<P: Naming>(
    alloc: Global,
    pool: &Pool<P, Boxes>,
    w: &mut Worker<P>,
) -> Option<(Left, Left)>
    requires empty { length w.old.holds ≡ 0 }
{
    let Ok(edge) = take_flat(alloc, pool, w) else {
        return None;
    };
    pool.share(w, &edge);
    let first = pool.leave(w, &edge);
    let second = pool.leave(w, &edge);
    Some((first, second))
}

/// Two passes of two, and what a third found.
fn third_pass<P: Naming>(pool: &Pool<P, Boxes>, w: &mut Worker<P>) -> Option<u64> {
    let Ok(first) = pool.pass(w) else {
        return None;
    };
    let Ok(second) = pool.pass(w) else {
        pool.end(w, first);
        return None;
    };
    let answer = pool.pass(w);
    pool.end(w, first);
    pool.end(w, second);
    match answer {
        Err(PassLimit { found }) => Some(found),
        Ok(third) => {
            pool.end(w, third);
            None
        }
    }
}

/// What is found of a node before it is shared, while it is shared, and after.
fn looks<P: Naming>(
    alloc: Global,
    pool: &Pool<P, Boxes>,
    w: &mut Worker<P>,
) -> Option<(bool, bool, bool)>
    requires empty { length w.old.holds ≡ 0 }
{
    let Ok(edge) = take_flat(alloc, pool, w) else {
        return None;
    };
    let before = pool.look(w, &edge, &[]);
    pool.share(w, &edge);
    let while_shared = pool.look(w, &edge, &[]);
    pool.leave(w, &edge);
    let after = pool.look(w, &edge, &[]);
    pool.leave(w, &edge);
    Some((before, while_shared, after))
}

fn worked<P: Naming>(
    alloc: Global,
    opened: Opened<Boxes>,
) -> Option<((Left, Left), Option<u64>, (bool, bool, bool), u32)>
    requires table { opened_table opened ≡ P.table }
    requires numbers { opened_numbers opened ≡ P.size }
    requires passes { opened_passes opened ≡ P.limit }
    requires boxes { opened_boxes opened ≡ P.boxes }
    requires workers { (opened_workers opened ≡ P.workers) × (P.workers ≡ 3) }
{
    let Ok((pool, mut workers)) = opened.named::<P>(alloc) else {
        return None;
    };
    let left = left_twice(alloc, &pool, &mut workers[0])?;
    let found = third_pass(&pool, &mut workers[1]);
    let looked = looks(alloc, &pool, &mut workers[2])?;
    let Closed {
        in_use,
        releasers: _,
    } = pool.close(workers);
    Some((left, found, looked, in_use))
}

#[test]
fn the_second_leaver_is_the_last_and_the_third_pass_finds_two(rt: HostRuntime) {
    let opened = opened(rt.alloc(), 8, 2, 3).expect(&rt, "memory");
    let (left, found, looked, in_use) = worked::<Brand>(rt.alloc(), opened).expect(&rt, "memory");
    assert_eq!(rt; left, (Left::Shared, Left::Last));
    assert_eq!(rt; found, Some(2));
    assert_eq!(rt; looked, (true, false, true));
    assert_eq!(rt; in_use, 0);
}

/// Takes a flat and leaves it again. False where memory was wanting.
fn own_flat<P: Naming>(alloc: Global, pool: &Pool<P, Boxes>, w: &mut Worker<P>) -> bool
    requires room { length w.old.holds < 256 }
    ensures same { SameHolds w.old.holds w.new.holds }
{
    let Ok(own) = take_flat(alloc, pool, w) else {
        return false;
    };
    pool.leave(w, &own);
    true
}

/// Shares the edge, takes and leaves a flat of its own, and leaves the edge.
fn round<P: Naming>(alloc: Global, pool: &Pool<P, Boxes>, w: &mut Worker<P>, edge: &Edge) -> bool
    requires leaf { children edge.now ≡ [] }
    requires held { HasHolds w.old.holds (edge.now ∷ []) }
    requires room { length w.old.holds < 200 }
    ensures same { SameHolds w.old.holds w.new.holds }
{
    pool.share(w, edge);
    let took = own_flat(alloc, pool, w);
    pool.leave(w, edge);
    took
}

fn rounds<P: Naming>(
    alloc: Global,
    pool: &Pool<P, Boxes>,
    mut w: Worker<P>,
    edge: &Edge,
) -> (Worker<P>, bool)
    requires leaf { children edge.now ≡ [] }
    requires held { HasHolds w.holds (edge.now ∷ []) }
    requires room { length w.holds < 200 }
    ensures same { SameHolds w.holds result.0.holds }
{
    for _ in 0..100000u32 {
        if !round(alloc, pool, &mut w, edge) {
            return (w, false);
        }
    }
    (w, true)
}

/// Another worker gets a hold of the edge. False where a pass was refused.
fn give<P: Naming>(
    pool: &Pool<P, Boxes>,
    from: &mut Worker<P>,
    to: &mut Worker<P>,
    edge: &Edge,
) -> bool
    requires held { HasHolds from.old.holds (edge.now ∷ []) }
    requires room { length from.old.holds < 200 }
    requires empty { to.old.holds ≡ [] }
    ensures kept { HasHolds from.new.holds (edge.now ∷ []) × (length from.new.holds ≡ length from.old.holds) }
    ensures given { IsTrue result → HasHolds to.new.holds (edge.now ∷ []) × (length to.new.holds ≡ 1) }
{
    let Ok(mut pass) = pool.pass(from) else {
        return false;
    };
    pool.share(from, edge);
    pool.fill(from, &mut pass, edge);
    pool.draw(to, &mut pass);
    pool.end(to, pass);
    true
}

fn two<P: Naming + Send + Sync, R: Threads + Sync>(
    rt: &R,
    alloc: Global,
    pool: &Pool<P, Boxes>,
    one: Worker<P>,
    other: Worker<P>,
    edge: &Edge,
) -> ((Worker<P>, bool), (Worker<P>, bool))
    requires leaf { children edge.now ≡ [] }
    requires one { HasHolds one.holds (edge.now ∷ []) × (length one.holds < 200) }
    requires other { HasHolds other.holds (edge.now ∷ []) × (length other.holds < 200) }
    ensures one { SameHolds one.holds result.0.0.holds }
    ensures other { SameHolds other.holds result.1.0.holds }
{
    thread::join(
        rt,
        move || -> (Worker<P>, bool)
            requires { (children edge.now ≡ []) × HasHolds one.holds (edge.now ∷ []) × (length one.holds < 200) }
            ensures { SameHolds one.holds result.0.holds }
        { rounds(alloc, pool, one, edge) },
        move || -> (Worker<P>, bool)
            requires { (children edge.now ≡ []) × HasHolds other.holds (edge.now ∷ []) × (length other.holds < 200) }
            ensures { SameHolds other.holds result.0.holds }
        { rounds(alloc, pool, other, edge) },
    )
}

/// Four threads share and leave one edge. Whether all found memory, and how many numbers were in use at the end.
fn shared_by_four<P: Naming + Send + Sync, R: Threads + Sync>(
    rt: &R,
    alloc: Global,
    opened: Opened<Boxes>,
) -> Option<(bool, u32)>
    requires table { opened_table opened ≡ P.table }
    requires numbers { opened_numbers opened ≡ P.size }
    requires passes { opened_passes opened ≡ P.limit }
    requires boxes { opened_boxes opened ≡ P.boxes }
    requires workers { (opened_workers opened ≡ P.workers) × (P.workers ≡ 4) }
{
    let Ok((pool, mut workers)) = opened.named::<P>(alloc) else {
        return None;
    };
    let Ok(edge) = take_flat(alloc, &pool, &mut workers[0]) else {
        return None;
    };
    let Some(mut d) = workers.pop() else {
        return None;
    };
    let Some(mut c) = workers.pop() else {
        return None;
    };
    let Some(mut b) = workers.pop() else {
        return None;
    };
    let Some(mut a) = workers.pop() else {
        return None;
    };
    if !give(&pool, &mut a, &mut b, &edge) {
        return None;
    }
    if !give(&pool, &mut a, &mut c, &edge) {
        return None;
    }
    if !give(&pool, &mut a, &mut d, &edge) {
        return None;
    }
    let shared = &pool;
    let same = &edge;
    let (first, second) = thread::join(
        rt,
        move || -> ((Worker<P>, bool), (Worker<P>, bool))
            requires { (children same.now ≡ []) × HasHolds a.holds (same.now ∷ []) × (length a.holds < 200) × HasHolds b.holds (same.now ∷ [])
                × (length b.holds < 200) }
            ensures { SameHolds a.holds result.0.0.holds × SameHolds b.holds result.1.0.holds }
        { two(rt, alloc, shared, a, b, same) },
        move || -> ((Worker<P>, bool), (Worker<P>, bool))
            requires { (children same.now ≡ []) × HasHolds c.holds (same.now ∷ []) × (length c.holds < 200) × HasHolds d.holds (same.now ∷ [])
                × (length d.holds < 200) }
            ensures { SameHolds c.holds result.0.0.holds × SameHolds d.holds result.1.0.holds }
        { two(rt, alloc, shared, c, d, same) },
    );
    let ((mut a, one), (mut b, two)) = first;
    let ((mut c, three), (mut d, four)) = second;
    pool.leave(&mut a, &edge);
    pool.leave(&mut b, &edge);
    pool.leave(&mut c, &edge);
    pool.leave(&mut d, &edge);
    workers.push_reserved(a);
    workers.push_reserved(b);
    workers.push_reserved(c);
    workers.push_reserved(d);
    let Closed {
        in_use,
        releasers: _,
    } = pool.close(workers);
    Some((one && two && three && four, in_use))
}

// There are far more numbers than nodes, since a search may find each number in use while other threads take and leave them in turn.
#[test]
fn four_threads_leave_a_shared_edge_unused(rt: HostRuntime) {
    let opened = opened(rt.alloc(), 1024, 2, 4).expect(&rt, "memory");
    let answer = shared_by_four::<Brand, HostRuntime>(&rt, rt.alloc(), opened);
    assert_eq!(rt; answer, Some((true, 0)));
}

/// An external of 20 bytes is taken and shared, and left so many times. How many numbers are in use then, and the lengths with which
/// its box was called.
fn external<P: Naming>(
    alloc: Global,
    opened: Opened<Boxes>,
    last: bool,
) -> Option<(u32, Option<u64>, u64)>
    requires table { (opened_table opened ≡ P.table) × (P.table.slots ≡ 1) }
    requires numbers { opened_numbers opened ≡ P.size }
    requires passes { opened_passes opened ≡ P.limit }
    requires workers { (opened_workers opened ≡ P.workers) × (P.workers ≡ 1) }
    requires boxes { opened_boxes opened ≡ P.boxes }
{
    let Ok((pool, mut workers)) = opened.named::<P>(alloc) else {
        return None;
    };
    let Ok(bytes) = Vec::from_slice(alloc, b"twenty bytes of text") else {
        return None;
    };
    let w = &mut workers[0];
    let Ok(edge) = pool.take(alloc, w, Body::External { bytes, slot: 0 }) else {
        return None;
    };
    pool.share(w, &edge);
    pool.leave(w, &edge);
    if last {
        pool.leave(w, &edge);
    }
    let Closed { in_use, releasers } = pool.close(workers);
    let Some(first) = releasers.first() else {
        return None;
    };
    Some((in_use, first.latest(), first.calls()))
}

fn with_box(alloc: Global) -> Option<Opened<Boxes>>
    ensures numbers { IfSome result (λ o. opened_numbers o ≡ 8) }
    ensures workers { IfSome result (λ o. opened_workers o ≡ 1) }
    ensures slots { IfSome result (λ o. (opened_table o).slots ≡ 1) }
{
    let Ok(log) = LogReleaser::new(alloc, 4) else {
        return None;
    };
    let mut releasers = Vec::new(alloc);
    if releasers.push(log).is_err() {
        return None;
    }
    let Ok(opened) = Opened::start(alloc, 8, 1, 1, releasers) else {
        return None;
    };
    Some(opened)
}

#[test]
fn a_box_is_called_by_the_last_leaver_alone(rt: HostRuntime) {
    let opened = with_box(rt.alloc()).expect(&rt, "memory");
    let answer = external::<Brand>(rt.alloc(), opened, false);
    assert_eq!(rt; answer, Some((1, None, 0)));
    let opened = with_box(rt.alloc()).expect(&rt, "memory");
    let answer = external::<Brand>(rt.alloc(), opened, true);
    assert_eq!(rt; answer, Some((0, Some(20), 1)));
}
