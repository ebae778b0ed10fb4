//! Bytes that go into the room of a cord's last flat, and copies that see none of it.
ghost use Rattle.std.specs.Prelude.{◌≡◌, ◌≤◌, length};
ghost use Rattle.pool_rule.specs.Trades.{SameHolds};
ghost use Rattle.node_pool.specs.Opened.{opened_table, opened_numbers, opened_passes, opened_workers, opened_boxes};

use cord_port::LogReleaser;
use cord_value::{Cord, CordError};
use node_pool::{Closed, Naming, Opened, Pool, Worker};
use std::alloc::Global;
use std::marker::Brand;

type Boxes = LogReleaser;

/// How long a cord is, and its last byte.
type Seen = (u64, Option<u8>);

/// What came of an append, and what is seen then.
type Outcome = (Result<(), CordError>, Seen);

fn seen_of<P: Naming>(cord: &Cord<P>) -> Seen {
    let size = cord.len();
    let Some(last) = size.checked_sub(1) else {
        return (size, None);
    };
    let mut reading = cord.chunks();
    reading.seek(last);
    (size, reading.read(1).first().copied())
}

/// So many of a byte are added behind.
fn appended<P: Naming>(
    alloc: Global,
    pool: &Pool<P, Boxes>,
    w: &mut Worker<P>,
    cord: &mut Cord<P>,
    byte: u8,
    count: usize,
) -> Outcome
    requires room { length w.old.holds ≤ 96 }
    ensures same { SameHolds w.old.holds w.new.holds }
{
    let Ok(bytes) = vec![in alloc; byte; count] else {
        return (Err(CordError::Memory), seen_of(cord));
    };
    let answer = cord.append_filling(alloc, pool, w, bytes.as_slice());
    (answer, seen_of(cord))
}

/// Appends to a cord of 20 bytes: of `1`, of `2` while a copy is held, and of `3` when it is gone. What they come to, and what is seen
/// of the copy after the second.
fn all_appended<P: Naming>(
    alloc: Global,
    pool: &Pool<P, Boxes>,
    w: &mut Worker<P>,
    counts: [usize; 3],
) -> Result<([Outcome; 3], Seen), CordError>
    requires room { length w.old.holds ≤ 96 }
    ensures same { SameHolds w.old.holds w.new.holds }
{
    let [one, two, three] = counts;
    let mut cord = match Cord::from_bytes(alloc, pool, w, b"0123456789abcdefghij") {
        Ok(cord) => cord,
        Err(error) => return Err(error),
    };
    let first = appended(alloc, pool, w, &mut cord, b'1', one);
    let copy = match cord.copy(pool, w) {
        Ok(copy) => copy,
        Err(error) => {
            cord.release(pool, w);
            return Err(error);
        }
    };
    let second = appended(alloc, pool, w, &mut cord, b'2', two);
    let seen = seen_of(&copy);
    copy.release(pool, w);
    let third = appended(alloc, pool, w, &mut cord, b'3', three);
    cord.release(pool, w);
    Ok(([first, second, third], seen))
}

fn outcomes_of<P: Naming>(
    alloc: Global,
    opened: Opened<Boxes>,
    counts: [usize; 3],
) -> Option<(Result<([Outcome; 3], Seen), CordError>, u32)>
    requires table { opened_table opened ≡ P.table }
    requires numbers { opened_numbers opened ≡ P.size }
    requires passes { opened_passes opened ≡ P.limit }
    requires boxes { opened_boxes opened ≡ P.boxes }
    requires workers { (opened_workers opened ≡ P.workers) × (P.workers ≡ 1) }
{
    let Ok((pool, mut workers)) = opened.named::<P>(alloc) else {
        return None;
    };
    let outcomes = all_appended(alloc, &pool, &mut workers[0], counts);
    let Closed {
        in_use,
        releasers: _,
    } = pool.close(workers);
    Some((outcomes, in_use))
}

// A flat of 20 bytes has room for 31. An append that needs a number is refused where all are in use, and one into room isn't.
#[test]
fn appends_into_room_take_no_number_and_a_held_copy_sees_none(rt: HostRuntime) {
    let alloc = rt.alloc();
    let none_left = |numbers: u32| -> Result<(), CordError> {
        Err(CordError::NoNumber { seen: numbers })
    };
    for (numbers, counts, outcomes, copy) in [
        (
            3u32,
            [31usize, 5, 14],
            [
                (Ok(()), (51u64, Some(b'1'))),
                (Ok(()), (56, Some(b'2'))),
                (Ok(()), (70, Some(b'3'))),
            ],
            (51u64, Some(b'1')),
        ),
        (
            1,
            [31, 1, 1],
            [
                (Ok(()), (51, Some(b'1'))),
                (none_left(1), (51, Some(b'1'))),
                (none_left(1), (51, Some(b'1'))),
            ],
            (51, Some(b'1')),
        ),
        (
            1,
            [10, 1, 21],
            [
                (Ok(()), (30, Some(b'1'))),
                (none_left(1), (30, Some(b'1'))),
                (Ok(()), (51, Some(b'3'))),
            ],
            (30, Some(b'1')),
        ),
        (
            3,
            [32, 19, 19],
            [
                (Ok(()), (52, Some(b'1'))),
                (none_left(3), (52, Some(b'1'))),
                (Ok(()), (71, Some(b'3'))),
            ],
            (52, Some(b'1')),
        ),
    ] {
        assert!(&rt; 0 < numbers && numbers <= 8, "the pool's size");
        let Ok(opened) = Opened::start(alloc, numbers, 2, 1, Vec::new(alloc)) else {
            assert!(&rt; false, "memory");
            return;
        };
        let answer = outcomes_of::<Brand>(alloc, opened, counts);
        assert_eq!(rt;
            answer,
            Some((Ok((outcomes, copy)), 0)),
            "{counts:?} in a pool of {numbers}"
        );
    }
}
