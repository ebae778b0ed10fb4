//! The slots that workers have, use, and run out of.
ghost use Rattle.std.specs.Prelude.{◌≡◌, ◌-◌, ◌^◌, ◌<◌, ◌≤◌, [], ◌∷◌, length, All, IfOk, IfSome};
ghost use Rattle.node_forest.specs.Forest.{children};
ghost use Rattle.pool_rule.specs.Trades.{Trades};
ghost use Rattle.cord_port.specs.Logs.{log_calls};
ghost use Rattle.node_pool.specs.Opened.{opened_table, opened_numbers, opened_passes, opened_workers, opened_boxes};

use cord_port::LogReleaser;
use node_pool::{Body, Edge, Naming, Opened, Pool, TakeError, Worker};
use std::alloc::Global;
use std::marker::Brand;

type Boxes = LogReleaser;

/// So many boxes that were never called.
pub(crate) fn boxes(alloc: Global, count: u32) -> Option<Vec<Boxes>>
    ensures count { IfSome result (λ v. length v.items ≡ count) }
    ensures calls { IfSome result (λ v. All (λ b. log_calls b < 2 ^ 64 - 1) v.items) }
{
    let mut boxes = Vec::new(alloc);
    for i in 0..count {
        let Ok(log) = LogReleaser::new(alloc, 1) else {
            return None;
        };
        let Ok(()) = boxes.push(log) else {
            return None;
        };
    }
    Some(boxes)
}

fn opened(alloc: Global, numbers: u32, workers: u32, count: u32) -> Option<Opened<Boxes>>
    requires numbers { (0 < numbers) × (numbers ≤ 100) }
    requires workers { (0 < workers) × (workers ≤ 8) }
    requires count { count ≤ 100 }
    ensures workers { IfSome result (λ o. opened_workers o ≡ workers) }
{
    let boxes = boxes(alloc, count)?;
    let Ok(opened) = Opened::start(alloc, numbers, 1, workers, boxes) else {
        return None;
    };
    Some(opened)
}

/// An external that uses the worker's next slot, and that slot. None where the worker has none left.
fn external<P: Naming>(
    alloc: Global,
    pool: &Pool<P, Boxes>,
    w: &mut Worker<P>,
) -> Option<(u32, Result<Edge, TakeError>)>
    requires room { length w.old.holds < 256 }
    ensures edge { IfSome result (λ r. IfOk r.1 (λ e. children e ≡ [])) }
    ensures traded { IfSome result (λ r. IfOk r.1 (λ e. Trades w.old.holds [] (e ∷ []) w.new.holds)) }
{
    let slot = w.next_slot()?;
    let Ok(bytes) = Vec::from_slice(alloc, b"twenty bytes of text") else {
        return None;
    };
    let taken = pool.take(alloc, w, Body::External { bytes, slot });
    Some((slot, taken))
}

/// The slot of an external that is left again.
fn left_external<P: Naming>(alloc: Global, pool: &Pool<P, Boxes>, w: &mut Worker<P>) -> Option<u32>
    requires empty { w.old.holds ≡ [] }
    ensures empty { IfSome result (λ _. w.new.holds ≡ []) }
{
    let (slot, Ok(edge)) = external(alloc, pool, w)? else {
        return None;
    };
    pool.leave(w, &edge);
    Some(slot)
}

/// A worker's next slot, and how many it used.
fn slots_of<P: Naming>(w: &Worker<P>) -> (Option<u32>, u32) {
    (w.next_slot(), w.used_slots())
}

type Seen = (Option<u32>, u32);

/// The slots of four externals of the second worker; its own slots at the start, while it has the first external, after it left
/// that, and at the end; and the first worker's at the start and at the end.
fn used_up<P: Naming>(
    alloc: Global,
    opened: Opened<Boxes>,
) -> Option<([u32; 4], [Seen; 4], [Seen; 2])>
    requires table { opened_table opened ≡ P.table }
    requires numbers { opened_numbers opened ≡ P.size }
    requires passes { opened_passes opened ≡ P.limit }
    requires boxes { opened_boxes opened ≡ P.boxes }
    requires workers { (opened_workers opened ≡ P.workers) × (P.workers ≡ 2) }
{
    let Ok((pool, mut workers)) = opened.named::<P>(alloc) else {
        return None;
    };
    let other = slots_of(&workers[0]);
    let w = &mut workers[1];
    let start = slots_of(w);
    let (first, Ok(edge)) = external(alloc, &pool, w)? else {
        return None;
    };
    let held = slots_of(w);
    pool.leave(w, &edge);
    let left = slots_of(w);
    let second = left_external(alloc, &pool, w)?;
    let third = left_external(alloc, &pool, w)?;
    let fourth = left_external(alloc, &pool, w)?;
    let end = slots_of(w);
    let other_end = slots_of(&workers[0]);
    pool.close(workers);
    Some((
        [first, second, third, fourth],
        [start, held, left, end],
        [other, other_end],
    ))
}

#[test]
fn each_slot_is_used_once_and_then_none_is_left(rt: HostRuntime) {
    let opened = opened(rt.alloc(), 8, 2, 20).expect(&rt, "memory");
    let (slots, used, unused) = used_up::<Brand>(rt.alloc(), opened).expect(&rt, "memory");
    assert_eq!(rt; slots, [16, 17, 18, 19]);
    assert_eq!(rt;
        used,
        [(Some(16), 0), (Some(17), 1), (Some(17), 1), (None, 4)]
    );
    assert_eq!(rt; unused, [(Some(0), 0), (Some(0), 0)]);
}

/// The numbers that were seen by an external that a full pool of one number refused, and the worker's slots before and after it.
fn refused<P: Naming>(alloc: Global, opened: Opened<Boxes>) -> Option<(u32, Seen, Seen)>
    requires table { opened_table opened ≡ P.table }
    requires numbers { opened_numbers opened ≡ P.size }
    requires passes { opened_passes opened ≡ P.limit }
    requires boxes { opened_boxes opened ≡ P.boxes }
    requires workers { (opened_workers opened ≡ P.workers) × (P.workers ≡ 1) }
{
    let Ok((pool, mut workers)) = opened.named::<P>(alloc) else {
        return None;
    };
    let w = &mut workers[0];
    let (_, Ok(_)) = external(alloc, &pool, w)? else {
        return None;
    };
    let before = slots_of(w);
    let (_, Err(TakeError::NoNumber { seen })) = external(alloc, &pool, w)? else {
        return None;
    };
    let after = slots_of(w);
    pool.close(workers);
    Some((seen, before, after))
}

#[test]
fn a_refused_take_leaves_its_slot_unused(rt: HostRuntime) {
    let opened = opened(rt.alloc(), 1, 1, 2).expect(&rt, "memory");
    let (seen, before, after) = refused::<Brand>(rt.alloc(), opened).expect(&rt, "a full pool");
    assert_eq!(rt; seen, 1);
    assert_eq!(rt; before, (Some(1), 1));
    assert_eq!(rt; after, before);
}

/// The slots of the last of three workers.
fn last_slots<P: Naming>(alloc: Global, opened: Opened<Boxes>) -> Option<Seen>
    requires table { opened_table opened ≡ P.table }
    requires numbers { opened_numbers opened ≡ P.size }
    requires passes { opened_passes opened ≡ P.limit }
    requires boxes { opened_boxes opened ≡ P.boxes }
    requires workers { (opened_workers opened ≡ P.workers) × (P.workers ≡ 3) }
{
    let Ok((pool, workers)) = opened.named::<P>(alloc) else {
        return None;
    };
    let seen = slots_of(&workers[2]);
    pool.close(workers);
    Some(seen)
}

#[test]
fn a_worker_behind_the_last_box_has_no_slot(rt: HostRuntime) {
    for (count, want) in [(0, None), (32, None), (33, Some(32)), (50, Some(32))] {
        let opened = opened(rt.alloc(), 8, 3, count).expect(&rt, "memory");
        let seen = last_slots::<Brand>(rt.alloc(), opened).expect(&rt, "memory");
        assert_eq!(rt; seen, (want, 0), "at {count}");
    }
}
