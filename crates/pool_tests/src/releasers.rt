//! Boxes below a Branch that is finished, and boxes of a pool that isn't started.
ghost use Rattle.std.specs.Prelude.{◌≡◌, ◌<◌, ◌≤◌, [], ◌∷◌, length, All, IfSome};
ghost use Rattle.cord_port.specs.Logs.{log_calls};
ghost use Rattle.node_edges.specs.Ways.{branches_down};
ghost use Rattle.pool_rule.specs.Trades.{HasHolds, Trades};
ghost use Rattle.node_pool.specs.Opened.{opened_table, opened_numbers, opened_passes, opened_workers, opened_boxes};

use crate::steps::{From, Step, stepped};
use cord_port::{LogReleaser, Releaser};
use cord_value::Cord;
use node_pool::{Body, Closed, Edge, Naming, Opened, Pool, PoolRefused, Worker};
use std::alloc::Global;
use std::marker::Brand;

type Boxes = LogReleaser;

/// A pool of 8 numbers and so many passes with one worker and one box.
fn with_box(alloc: Global, passes: u32) -> Option<Opened<Boxes>>
    requires passes { (0 < passes) × (passes ≤ 2) }
    ensures numbers { IfSome result (λ o. opened_numbers o ≡ 8) }
    ensures workers { IfSome result (λ o. opened_workers o ≡ 1) }
    ensures slots { IfSome result (λ o. (opened_table o).slots ≡ 1) }
{
    let Ok(log) = LogReleaser::new(alloc, 4) else {
        return None;
    };
    let mut releasers = Vec::new(alloc);
    let Ok(()) = releasers.push(log) else {
        return None;
    };
    let Ok(opened) = Opened::start(alloc, 8, passes, 1, releasers) else {
        return None;
    };
    Some(opened)
}

/// An external of 20 bytes that uses the worker's first slot.
fn external<P: Naming>(alloc: Global, pool: &Pool<P, Boxes>, w: &mut Worker<P>) -> Option<Edge>
    requires empty { w.old.holds ≡ [] }
    requires slot { w.old.unused ≡ 0 ∷ [] }
    ensures low { IfSome result (λ e. (branches_down e ≡ 0) × (e.0.length ≡ 20)) }
    ensures traded { IfSome result (λ e. Trades w.old.holds [] (e ∷ []) w.new.holds) }
{
    let Ok(bytes) = Vec::from_slice(alloc, b"twenty bytes of text") else {
        return None;
    };
    let Ok(edge) = pool.take(alloc, w, Body::External { bytes, slot: 0 }) else {
        return None;
    };
    Some(edge)
}

/// A Branch over this edge and a flat.
fn beside_a_flat<P: Naming>(
    alloc: Global,
    pool: &Pool<P, Boxes>,
    w: &mut Worker<P>,
    edge: Edge,
) -> Option<Edge>
    requires edge { (branches_down edge ≡ 0) × (edge.0.length ≡ 20) }
    requires held { HasHolds w.old.holds (edge ∷ []) }
    requires few { length w.old.holds ≤ 100 }
    ensures low { IfSome result (λ e. branches_down e ≡ 1) }
    ensures traded { IfSome result (λ e. Trades w.old.holds (edge ∷ []) (e ∷ []) w.new.holds) }
{
    let Ok(bytes) = Vec::from_slice(alloc, b"own") else {
        return None;
    };
    let Ok(flat) = pool.take(alloc, w, Body::Flat { bytes, room: 16 }) else {
        return None;
    };
    let mut edges = Vec::new(alloc);
    let Ok(()) = edges.push(edge) else {
        return None;
    };
    let Ok(()) = edges.push(flat) else {
        return None;
    };
    let Ok(root) = pool.take(alloc, w, Body::Branch { height: 0, edges }) else {
        return None;
    };
    Some(root)
}

/// The Branch is finished by its only holder.
fn finished<P: Naming>(alloc: Global, pool: &Pool<P, Boxes>, w: &mut Worker<P>) -> Option<()>
    requires empty { w.old.holds ≡ [] }
    requires slot { w.old.unused ≡ 0 ∷ [] }
{
    let edge = external(alloc, pool, w)?;
    let root = beside_a_flat(alloc, pool, w, edge)?;
    pool.finish(w, &root);
    Some(())
}

/// The Branch is finished where the external is held once more, which may be left then.
fn finished_beside<P: Naming>(
    alloc: Global,
    pool: &Pool<P, Boxes>,
    w: &mut Worker<P>,
    left: bool,
) -> Option<()>
    requires empty { w.old.holds ≡ [] }
    requires slot { w.old.unused ≡ 0 ∷ [] }
{
    let edge = external(alloc, pool, w)?;
    pool.share(w, &edge);
    let Ok(own) = edge.again() else {
        return None;
    };
    let root = beside_a_flat(alloc, pool, w, edge)?;
    pool.finish(w, &root);
    if left {
        pool.finish(w, &own);
    }
    Some(())
}

/// How a Branch over an external is finished.
#[derive(Clone, Copy, Debug)]
enum Ending {
    Alone,
    BesideAHold,
    BeforeTheHold,
}

/// How many numbers are in use after an ending, how often the box was called, and its latest length.
fn ended<P: Naming>(
    alloc: Global,
    opened: Opened<Boxes>,
    ending: Ending,
) -> Option<(u32, u64, Option<u64>)>
    requires table { (opened_table opened ≡ P.table) × (P.table.slots ≡ 1) }
    requires numbers { opened_numbers opened ≡ P.size }
    requires passes { opened_passes opened ≡ P.limit }
    requires workers { (opened_workers opened ≡ P.workers) × (P.workers ≡ 1) }
    requires boxes { opened_boxes opened ≡ P.boxes }
{
    let Ok((pool, mut workers)) = opened.named::<P>(alloc) else {
        return None;
    };
    match ending {
        Ending::Alone => finished(alloc, &pool, &mut workers[0])?,
        Ending::BesideAHold => finished_beside(alloc, &pool, &mut workers[0], false)?,
        Ending::BeforeTheHold => finished_beside(alloc, &pool, &mut workers[0], true)?,
    }
    let Closed { in_use, releasers } = pool.close(workers);
    let Some(first) = releasers.first() else {
        return None;
    };
    Some((in_use, first.calls(), first.latest()))
}

#[test]
fn a_finished_branch_calls_the_box_of_an_external_that_nobody_else_holds(rt: HostRuntime) {
    for (ending, wanted) in [
        (Ending::Alone, (0u32, 1u64, Some(20u64))),
        (Ending::BesideAHold, (1, 0, None)),
        (Ending::BeforeTheHold, (0, 1, Some(20))),
    ] {
        let opened = with_box(rt.alloc(), 1).expect(&rt, "memory");
        let seen = ended::<Brand>(rt.alloc(), opened, ending);
        assert_eq!(rt; seen, Some(wanted), "at {ending:?}");
    }
}

/// A cord over an external of 100 bytes, and a cord of 50 of them; the first is released, and then perhaps the second.
fn released<P: Naming>(
    alloc: Global,
    pool: &Pool<P, Boxes>,
    w: &mut Worker<P>,
    both: bool,
) -> Option<()>
    requires empty { w.old.holds ≡ [] }
{
    let bytes = vec![in alloc; 120u8; 100].ok()?;
    let mut whole = Cord::from_external(alloc, pool, w, bytes.as_slice()).ok()?;
    let part = whole.sub(alloc, pool, w, 10, 50).ok()?;
    whole.release(pool, w);
    if both {
        part.release(pool, w);
    }
    Some(())
}

/// How many numbers are in use then, how often the box was called, and its latest length.
fn called<P: Naming>(
    alloc: Global,
    opened: Opened<Boxes>,
    both: bool,
) -> Option<(u32, u64, Option<u64>)>
    requires table { (opened_table opened ≡ P.table) × (P.table.slots ≡ 1) }
    requires numbers { opened_numbers opened ≡ P.size }
    requires passes { opened_passes opened ≡ P.limit }
    requires workers { (opened_workers opened ≡ P.workers) × (P.workers ≡ 1) }
    requires boxes { opened_boxes opened ≡ P.boxes }
{
    let Ok((pool, mut workers)) = opened.named::<P>(alloc) else {
        return None;
    };
    released(alloc, &pool, &mut workers[0], both)?;
    let Closed { in_use, releasers } = pool.close(workers);
    let first = releasers.first()?;
    Some((in_use, first.calls(), first.latest()))
}

#[test]
fn the_box_of_an_external_is_called_when_the_last_cord_over_it_has_gone(rt: HostRuntime) {
    for (both, wanted) in [(false, (2u32, 0u64, None)), (true, (0, 1, Some(100u64)))] {
        let opened = with_box(rt.alloc(), 2).expect(&rt, "memory");
        let seen = called::<Brand>(rt.alloc(), opened, both);
        assert_eq!(rt; seen, Some(wanted), "both released: {both}");
    }
}

/// Two boxes, of which the first was called with 10.
fn two_boxes(alloc: Global) -> Option<Vec<Boxes>>
    ensures count { IfSome result (λ bs. length bs.items ≡ 2) }
    ensures calls { IfSome result (λ bs. All (λ b. log_calls b ≤ 1) bs.items) }
{
    let Ok(mut first) = LogReleaser::new(alloc, 1) else {
        return None;
    };
    first.release(10);
    let Ok(second) = LogReleaser::new(alloc, 1) else {
        return None;
    };
    let mut boxes = Vec::new(alloc);
    let Ok(()) = boxes.push(first) else {
        return None;
    };
    let Ok(()) = boxes.push(second) else {
        return None;
    };
    Some(boxes)
}

/// What the two boxes say.
fn told(boxes: &[Boxes]) -> bool {
    let [first, second] = boxes else {
        return false;
    };
    let called = first.calls() == 1 && first.latest() == Some(10);
    called && second.calls() == 0 && second.latest().is_none()
}

fn named<P: Naming>(alloc: Global, opened: Opened<Boxes>) -> bool
    requires table { opened_table opened ≡ P.table }
    requires numbers { opened_numbers opened ≡ P.size }
    requires passes { opened_passes opened ≡ P.limit }
    requires workers { (opened_workers opened ≡ P.workers) × (P.workers ≡ 2) }
    requires boxes { opened_boxes opened ≡ P.boxes }
{
    match opened.named::<P>(alloc) {
        Ok((pool, workers)) => told(pool.close(workers).releasers.as_slice()),
        Err(PoolRefused { releasers }) => told(releasers.as_slice()),
    }
}

/// Whichever allocation fails, the boxes come back in their order.
#[test]
fn boxes_come_back_from_a_pool_that_starts_and_from_one_that_does_not(rt: HostRuntime) {
    let alloc = rt.alloc();
    let Some(boxes) = two_boxes(alloc) else {
        return;
    };
    match Opened::start(alloc, 8, 1, 2, boxes) {
        Ok(opened) => assert!(rt; named::<Brand>(alloc, opened)),
        Err(PoolRefused { releasers }) => assert!(rt; told(releasers.as_slice())),
    }
}

/// What three steps on a cord over an external of 100 bytes leave, released or not: how many numbers are in use, how often the box
/// was called, and its latest length.
fn changed<P: Naming>(
    alloc: Global,
    opened: Opened<Boxes>,
    steps: [Step; 3],
    release: bool,
) -> Option<(u32, u64, Option<u64>)>
    requires table { opened_table opened ≡ P.table }
    requires numbers { opened_numbers opened ≡ P.size }
    requires passes { opened_passes opened ≡ P.limit }
    requires workers { (opened_workers opened ≡ P.workers) × (P.workers ≡ 1) }
    requires boxes { opened_boxes opened ≡ P.boxes }
{
    let bytes = vec![in alloc; 120u8; 100].ok()?;
    let (pool, mut workers) = opened.named::<P>(alloc).ok()?;
    let w = &mut workers[0];
    let cord = stepped(alloc, &pool, w, bytes.as_slice(), From::External, steps).ok()?;
    if release {
        cord.release(&pool, w);
    }
    let Closed { in_use, releasers } = pool.close(workers);
    let first = releasers.first()?;
    Some((in_use, first.calls(), first.latest()))
}

#[test]
fn the_box_of_an_external_is_called_once_when_its_last_part_or_sum_has_gone(rt: HostRuntime) {
    let alloc = rt.alloc();
    let nothing = Step::Copy;
    for (steps, kept, gone) in [
        (
            [Step::Range(10, 80), Step::Range(10, 50), Step::Range(5, 30)],
            (2u32, 0u64, None),
            (0u32, 1u64, Some(100u64)),
        ),
        (
            [Step::CutFront(10), Step::CutBack(10), Step::SetSum(7)],
            (3, 0, None),
            (0, 1, Some(100)),
        ),
        (
            [Step::SetSum(7), Step::CutBack(20), nothing],
            (2, 0, None),
            (0, 1, Some(100)),
        ),
        (
            [Step::CutFront(100), nothing, nothing],
            (0, 1, Some(100)),
            (0, 1, Some(100)),
        ),
        (
            [Step::CutFront(50), Step::CutBack(40), nothing],
            (0, 1, Some(100)),
            (0, 1, Some(100)),
        ),
        (
            [Step::Join(600), Step::Range(100, 600), nothing],
            (1, 1, Some(100)),
            (0, 1, Some(100)),
        ),
    ] {
        for (release, seen) in [(false, kept), (true, gone)] {
            let opened = with_box(alloc, 2).expect(&rt, "memory");
            let answer = changed::<Brand>(alloc, opened, steps, release);
            assert_eq!(rt; answer, Some(seen), "{steps:?}, released: {release}");
        }
    }
}
