//! Cords that are cut and joined, get sums and lose them, step by step.
ghost use Rattle.std.specs.Prelude.{◌≡◌, ◌≤◌, length};
ghost use Rattle.pool_rule.specs.Trades.{SameHolds};
ghost use Rattle.node_pool.specs.Opened.{opened_table, opened_numbers, opened_passes, opened_workers, opened_boxes};

use crate::steps::{Boxes, Outcome, Step, taken};
use cord_value::{Cord, CordError};
use node_pool::{Closed, Naming, Opened, Pool, Worker};
use std::alloc::Global;
use std::marker::Brand;

/// What three steps on a cord of these bytes come to. The cord is released then.
fn all_taken<P: Naming>(
    alloc: Global,
    pool: &Pool<P, Boxes>,
    w: &mut Worker<P>,
    bytes: &[u8],
    steps: [Step; 3],
) -> Result<[Outcome; 3], CordError>
    requires room { length w.old.holds ≤ 96 }
    ensures same { SameHolds w.old.holds w.new.holds }
{
    let mut cord = match Cord::from_bytes(alloc, pool, w, bytes) {
        Ok(cord) => cord,
        Err(error) => return Err(error),
    };
    let [one, two, three] = steps;
    let first = taken(alloc, pool, w, &mut cord, one);
    let second = taken(alloc, pool, w, &mut cord, two);
    let third = taken(alloc, pool, w, &mut cord, three);
    cord.release(pool, w);
    Ok([first, second, third])
}

fn outcomes_of<P: Naming>(
    alloc: Global,
    opened: Opened<Boxes>,
    bytes: &[u8],
    steps: [Step; 3],
) -> Option<(Result<[Outcome; 3], CordError>, u32)>
    requires table { opened_table opened ≡ P.table }
    requires numbers { opened_numbers opened ≡ P.size }
    requires passes { opened_passes opened ≡ P.limit }
    requires boxes { opened_boxes opened ≡ P.boxes }
    requires workers { (opened_workers opened ≡ P.workers) × (P.workers ≡ 1) }
{
    let Ok((pool, mut workers)) = opened.named::<P>(alloc) else {
        return None;
    };
    let outcomes = all_taken(alloc, &pool, &mut workers[0], bytes, steps);
    let Closed {
        in_use,
        releasers: _,
    } = pool.close(workers);
    Some((outcomes, in_use))
}

const TWENTY: &[u8] = b"0123456789abcdefghij";

#[test]
fn ranges_cuts_joins_and_sums_leave_what_they_say(rt: HostRuntime) {
    let alloc = rt.alloc();
    let whole = (20, true, None, Some(b'0'), Some(b'j'));
    let none = (0, false, None, None, None);
    for (numbers, bytes, steps, seen) in [
        (
            2u32,
            TWENTY,
            [Step::Range(0, 16), Step::Range(14, 5), Step::Range(9, 1)],
            [
                (Ok(()), (16u64, true, None, Some(b'0'), Some(b'f'))),
                (Ok(()), (2, false, None, Some(b'e'), Some(b'f'))),
                (Ok(()), none),
            ],
        ),
        (
            2,
            TWENTY,
            [Step::CutFront(21), Step::CutBack(4), Step::CutFront(16)],
            [
                (
                    Err(CordError::Position {
                        asked: 21,
                        size: 20,
                    }),
                    whole,
                ),
                (Ok(()), (16, true, None, Some(b'0'), Some(b'f'))),
                (Ok(()), none),
            ],
        ),
        (
            1,
            TWENTY,
            [Step::CutBack(1), Step::Range(0, 20), Step::CutFront(5)],
            [
                (Err(CordError::NoNumber { seen: 1 }), whole),
                (Ok(()), whole),
                (Ok(()), (15, false, None, Some(b'5'), Some(b'j'))),
            ],
        ),
        (
            2,
            b"abc",
            [Step::SetSum(7), Step::Append(b""), Step::Append(b"d")],
            [
                (Ok(()), (3, true, Some(7), Some(b'a'), Some(b'c'))),
                (Ok(()), (3, true, Some(7), Some(b'a'), Some(b'c'))),
                (Ok(()), (4, false, None, Some(b'a'), Some(b'd'))),
            ],
        ),
        (
            2,
            b"abc",
            [Step::SetSum(7), Step::Copy, Step::CutFront(0)],
            [
                (Ok(()), (3, true, Some(7), Some(b'a'), Some(b'c'))),
                (Ok(()), (3, true, Some(7), Some(b'a'), Some(b'c'))),
                (Ok(()), (3, true, Some(7), Some(b'a'), Some(b'c'))),
            ],
        ),
        (
            2,
            b"",
            [Step::SetSum(1), Step::SetSum(2), Step::Append(b"x")],
            [
                (Ok(()), (0, true, Some(1), None, None)),
                (Ok(()), (0, true, Some(2), None, None)),
                (Ok(()), (1, false, None, Some(b'x'), Some(b'x'))),
            ],
        ),
        (
            3,
            TWENTY,
            [Step::SetSum(7), Step::SetSum(8), Step::CutBack(1)],
            [
                (Ok(()), (20, true, Some(7), Some(b'0'), Some(b'j'))),
                (Ok(()), (20, true, Some(8), Some(b'0'), Some(b'j'))),
                (Ok(()), (19, true, None, Some(b'0'), Some(b'i'))),
            ],
        ),
        (
            3,
            TWENTY,
            [Step::Join(512), Step::Join(16), Step::CutBack(512)],
            [
                (Ok(()), (532, true, None, Some(b'0'), Some(b's'))),
                (
                    Err(CordError::NoNumber { seen: 3 }),
                    (532, true, None, Some(b'0'), Some(b's')),
                ),
                (Ok(()), whole),
            ],
        ),
        (
            3,
            TWENTY,
            [Step::Join(511), Step::CutBack(0), Step::CutFront(5)],
            [
                (Err(CordError::NoNumber { seen: 3 }), whole),
                (Ok(()), whole),
                (Ok(()), (15, false, None, Some(b'5'), Some(b'j'))),
            ],
        ),
        (
            5,
            b"abc",
            [Step::Join(600), Step::JoinFront(600), Step::JoinFront(0)],
            [
                (Ok(()), (603, true, None, Some(b'a'), Some(b's'))),
                (Ok(()), (1203, true, None, Some(b's'), Some(b's'))),
                (Ok(()), (1203, true, None, Some(b's'), Some(b's'))),
            ],
        ),
        (
            4,
            b"",
            [Step::Join(600), Step::SetSum(5), Step::Join(1)],
            [
                (Ok(()), (600, true, None, Some(b's'), Some(b's'))),
                (Ok(()), (600, true, Some(5), Some(b's'), Some(b's'))),
                (Ok(()), (601, true, None, Some(b's'), Some(b's'))),
            ],
        ),
        (
            8,
            TWENTY,
            [Step::Double, Step::Double, Step::Join(600)],
            [
                (Ok(()), (40, true, None, Some(b'0'), Some(b'j'))),
                (Ok(()), (80, true, None, Some(b'0'), Some(b'j'))),
                (Ok(()), (680, true, None, Some(b'0'), Some(b's'))),
            ],
        ),
        (
            3,
            b"0123456789",
            [Step::Double, Step::SetSum(1), Step::Double],
            [
                (Ok(()), (20, true, None, Some(b'0'), Some(b'9'))),
                (Ok(()), (20, true, Some(1), Some(b'0'), Some(b'9'))),
                (
                    Err(CordError::NoNumber { seen: 3 }),
                    (20, true, Some(1), Some(b'0'), Some(b'9')),
                ),
            ],
        ),
    ] {
        assert!(&rt; 0 < numbers && numbers <= 8, "the pool's size");
        let Ok(opened) = Opened::start(alloc, numbers, 2, 1, Vec::new(alloc)) else {
            assert!(&rt; false, "memory");
            return;
        };
        let answer = outcomes_of::<Brand>(alloc, opened, bytes, steps);
        assert_eq!(rt;
            answer,
            Some((Ok(seen), 0)),
            "{steps:?} in a pool of {numbers}"
        );
    }
}

/// The answer, the length, whether there is a tree, and the sum.
fn told(outcome: Outcome) -> (Result<(), CordError>, u64, bool, Option<u32>) {
    let (answer, (size, tree, sum, _, _)) = outcome;
    (answer, size, tree, sum)
}

/// What is told of a cord of so many bytes that gets a sum, after that, after the step, and of a copy of it then.
fn summed_and_changed<P: Naming>(
    alloc: Global,
    opened: Opened<Boxes>,
    size: usize,
    step: Step,
) -> Option<[(Result<(), CordError>, u64, bool, Option<u32>); 3]>
    requires table { opened_table opened ≡ P.table }
    requires numbers { opened_numbers opened ≡ P.size }
    requires passes { opened_passes opened ≡ P.limit }
    requires boxes { opened_boxes opened ≡ P.boxes }
    requires workers { (opened_workers opened ≡ P.workers) × (P.workers ≡ 1) }
{
    let (bytes, _) = TWENTY.split_at(size.min(TWENTY.len()));
    let steps = [Step::SetSum(7), step, Step::Copy];
    let (outcomes, in_use) = outcomes_of::<P>(alloc, opened, bytes, steps)?;
    let Ok(outcomes) = outcomes else {
        return None;
    };
    let [first, second, third] = outcomes;
    if in_use > 0 {
        return None;
    }
    Some([told(first), told(second), told(third)])
}

#[test]
fn a_sum_on_few_bytes_stays_exactly_where_no_byte_comes_or_goes(rt: HostRuntime) {
    let alloc = rt.alloc();
    for (step, sizes, sum) in [
        (Step::Append(b""), [1u64, 15, 16], Some(7u32)),
        (Step::Append(b"x"), [2, 16, 17], None),
        (Step::Prepend(b""), [1, 15, 16], Some(7)),
        (Step::Prepend(b"x"), [2, 16, 17], None),
        (Step::CutFront(0), [1, 15, 16], Some(7)),
        (Step::CutFront(1), [0, 14, 15], None),
        (Step::CutBack(0), [1, 15, 16], Some(7)),
        (Step::CutBack(1), [0, 14, 15], None),
        (Step::Range(0, 99), [1, 15, 16], None),
        (Step::Copy, [1, 15, 16], Some(7)),
        (Step::SetSum(8), [1, 15, 16], Some(8)),
        (Step::Join(0), [1, 15, 16], Some(7)),
        (Step::Join(1), [2, 16, 17], None),
        (Step::Join(600), [601, 615, 616], None),
        (Step::JoinFront(0), [1, 15, 16], Some(7)),
        (Step::JoinFront(1), [2, 16, 17], None),
        (Step::JoinFront(600), [601, 615, 616], None),
        (Step::Double, [2, 30, 32], None),
    ] {
        for (from, after) in [(1usize, sizes[0]), (15, sizes[1]), (16, sizes[2])] {
            let Ok(opened) = Opened::start(alloc, 8, 2, 1, Vec::new(alloc)) else {
                assert!(&rt; false, "memory");
                return;
            };
            let seen = summed_and_changed::<Brand>(alloc, opened, from, step);
            let changed = (Ok(()), after, after > 15 || sum.is_some(), sum);
            let wanted = [(Ok(()), from as u64, true, Some(7)), changed, changed];
            assert_eq!(rt; seen, Some(wanted), "{step:?} on {from} bytes");
        }
    }
}
