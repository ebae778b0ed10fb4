//! Calls in pools with just the numbers that they need, and with one fewer.
ghost use Rattle.std.specs.Prelude.{◌≡◌, ◌≤◌, length};
ghost use Rattle.pool_rule.specs.Trades.{SameHolds};
ghost use Rattle.node_pool.specs.Opened.{opened_table, opened_numbers, opened_passes, opened_workers, opened_boxes};

use crate::slots::boxes;
use crate::steps::{Boxes, From, Outcome, Step, stepped, taken};
use cord_value::{Cord, CordError};
use node_pool::{Closed, Naming, Opened, Pool, Worker};
use std::alloc::Global;
use std::marker::Brand;

/// A cord, a step on it, and whether a copy is held meanwhile, so that no node is changed in place.
#[derive(Clone, Copy, Debug)]
struct Case {
    from: From,
    size: usize,
    before: Step,
    held: bool,
    step: Step,
}

/// The step on the cord, while a copy of it may be held.
fn taken_beside<P: Naming>(
    alloc: Global,
    pool: &Pool<P, Boxes>,
    w: &mut Worker<P>,
    cord: &mut Cord<P>,
    case: Case,
) -> Result<Outcome, CordError>
    requires room { length w.old.holds ≤ 96 }
    ensures same { SameHolds w.old.holds w.new.holds }
{
    if !case.held {
        return Ok(taken(alloc, pool, w, cord, case.step));
    }
    let copy = match cord.copy(pool, w) {
        Ok(copy) => copy,
        Err(error) => return Err(error),
    };
    let outcome = taken(alloc, pool, w, cord, case.step);
    copy.release(pool, w);
    Ok(outcome)
}

/// The step's answer, whether the cord has its bytes and its sum then, and how many numbers are in use once it was released.
fn tried<P: Naming>(
    alloc: Global,
    opened: Opened<Boxes>,
    case: Case,
) -> Result<(Result<(), CordError>, bool, u32), CordError>
    requires table { opened_table opened ≡ P.table }
    requires numbers { opened_numbers opened ≡ P.size }
    requires passes { opened_passes opened ≡ P.limit }
    requires boxes { opened_boxes opened ≡ P.boxes }
    requires workers { (opened_workers opened ≡ P.workers) × (P.workers ≡ 1) }
{
    let Ok(text) = vec![in alloc; b'a'; case.size] else {
        return Err(CordError::Memory);
    };
    let Ok((pool, mut workers)) = opened.named::<P>(alloc) else {
        return Err(CordError::Memory);
    };
    let w = &mut workers[0];
    let steps = [case.before, Step::CutFront(0), Step::CutBack(0)];
    let mut cord = stepped(alloc, &pool, w, text.as_slice(), case.from, steps)?;
    let (size, sum) = (cord.len(), cord.sum());
    let (answer, _) = taken_beside(alloc, &pool, w, &mut cord, case)?;
    let kept = (cord.len(), cord.sum()) == (size, sum);
    cord.release(&pool, w);
    let Closed {
        in_use,
        releasers: _,
    } = pool.close(workers);
    Ok((answer, kept, in_use))
}

#[test]
fn one_number_too_few_refuses_parts_cuts_and_sums_and_keeps_the_cord(rt: HostRuntime) {
    let alloc = rt.alloc();
    let (flats, external, nothing) = (From::Flats, From::External, Step::CutFront(0));
    for (numbers, from, size, before, held, step) in [
        (
            13u32,
            flats,
            28_581usize,
            nothing,
            false,
            Step::Range(1, 28_580),
        ),
        (15, flats, 28_581, nothing, false, Step::Range(1, 28_579)),
        (12, flats, 28_581, nothing, false, Step::Range(4083, 24_498)),
        (13, flats, 28_581, nothing, false, Step::Range(24_497, 4084)),
        (11, flats, 28_581, nothing, false, Step::Range(100, 3000)),
        (13, flats, 28_581, nothing, true, Step::CutFront(1)),
        (13, flats, 28_581, nothing, true, Step::CutBack(1)),
        (11, flats, 28_581, nothing, true, Step::CutFront(24_500)),
        (11, flats, 28_581, nothing, false, Step::SetSum(8)),
        (12, flats, 28_581, Step::SetSum(7), false, Step::SetSum(8)),
        (14, flats, 28_581, Step::SetSum(7), false, Step::CutFront(1)),
        (2, flats, 3, nothing, false, Step::SetSum(8)),
        (2, flats, 20, nothing, false, Step::Range(1, 18)),
        (2, external, 100, nothing, false, Step::Range(10, 50)),
        (2, external, 100, nothing, true, Step::CutBack(10)),
        (
            3,
            external,
            100,
            Step::Range(10, 50),
            true,
            Step::CutFront(10),
        ),
        (2, external, 100, nothing, false, Step::SetSum(8)),
    ] {
        let case = Case {
            from,
            size,
            before,
            held,
            step,
        };
        for (free, wanted) in [
            (numbers, Ok(())),
            (numbers - 1, Err(CordError::NoNumber { seen: numbers - 1 })),
        ] {
            assert!(&rt; 0 < free && free <= 15, "the pool's size");
            let boxes = boxes(alloc, 1).expect(&rt, "memory");
            let Ok(opened) = Opened::start(alloc, free, 2, 1, boxes) else {
                assert!(&rt; false, "memory");
                return;
            };
            let seen = tried::<Brand>(alloc, opened, case);
            assert_eq!(rt;
                seen,
                Ok((wanted, wanted.is_err(), 0)),
                "{case:?} of {free}"
            );
        }
    }
}
