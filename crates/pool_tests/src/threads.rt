//! Cords on four threads, which share a tree and have trees of their own.
ghost use Rattle.std.specs.Prelude.{◌≡◌, ◌≤◌, length, vec_len, vec_capacity, All, IfSome};
ghost use Rattle.pool_rule.specs.Trades.{SameHolds};
ghost use Rattle.node_pool.specs.Opened.{opened_table, opened_numbers, opened_passes, opened_workers, opened_boxes};

use cord_port::LogReleaser;
use cord_value::{Cord, CordError};
use node_pool::{Closed, Naming, Opened, Pool, Worker};
use std::alloc::Global;
use std::marker::Brand;
use std::sync::{Barrier, Wait};
use std::thread::{self, Threads};

type Boxes = LogReleaser;

const BYTES: &[u8] = b"twenty bytes of text";

const ROUNDS: u32 = 100000;

/// What a thread has: its worker, its copy of the shared cord, and how many rounds it did.
#[derive(Drop)]
struct Seat<P: Naming> {
    worker: Worker<P>,
    cord: Cord<P>,
    rounds: u32,
    ghost idle: { length worker.holds ≡ 0 },
}

/// A cord of the thread alone is made, copied and released twice.
fn private<P: Naming>(
    alloc: Global,
    pool: &Pool<P, Boxes>,
    w: &mut Worker<P>,
) -> Result<(), CordError>
    requires room { length w.old.holds ≤ 96 }
    ensures same { SameHolds w.old.holds w.new.holds }
{
    let mut cord = match Cord::from_bytes(alloc, pool, w, BYTES) {
        Ok(cord) => cord,
        Err(error) => return Err(error),
    };
    let copied = cord.copy(pool, w);
    cord.release(pool, w);
    match copied {
        Ok(copy) => {
            copy.release(pool, w);
            Ok(())
        }
        Err(error) => Err(error),
    }
}

/// The shared cord is copied, a private one comes and goes, and the copy is released.
fn round<P: Naming>(
    alloc: Global,
    pool: &Pool<P, Boxes>,
    w: &mut Worker<P>,
    shared: &mut Cord<P>,
) -> Result<(), CordError>
    requires room { length w.old.holds ≤ 96 }
    ensures same { SameHolds w.old.holds w.new.holds }
{
    let copy = match shared.copy(pool, w) {
        Ok(copy) => copy,
        Err(error) => return Err(error),
    };
    let answer = private(alloc, pool, w);
    copy.release(pool, w);
    answer
}

/// All rounds of a thread, from the point on that all threads have reached.
fn work<P: Naming, R: Wait>(
    rt: &R,
    alloc: Global,
    pool: &Pool<P, Boxes>,
    start: &Barrier,
    seat: &mut Seat<P>,
) {
    start.wait(rt);
    for _ in 0..ROUNDS {
        if round(alloc, pool, &mut seat.worker, &mut seat.cord).is_err() {
            return;
        }
        seat.rounds = seat.rounds.saturating_add(1);
    }
}

/// Gives each worker a seat with a copy of the cord. None where a copy was refused.
fn seated<P: Naming>(
    pool: &Pool<P, Boxes>,
    cord: &mut Cord<P>,
    workers: Vec<Worker<P>>,
    room: Vec<Seat<P>>,
) -> Option<Vec<Seat<P>>>
    requires room { (vec_len room ≡ 0) × (length workers.items ≤ vec_capacity room) }
    requires idle { All (λ w. length w.holds ≡ 0) workers.items }
    ensures count { IfSome result (λ seats. vec_len seats ≡ length workers.items) }
{
    let mut seats = room;
    for worker in workers {
        let mut worker = worker;
        let Ok(copy) = cord.copy(pool, &mut worker) else {
            return None;
        };
        seats.push_reserved(Seat {
            worker,
            cord: copy,
            rounds: 0,
        });
    }
    Some(seats)
}

/// Releases the copies and gives the workers back.
fn left<P: Naming>(
    pool: &Pool<P, Boxes>,
    seats: Vec<Seat<P>>,
    room: Vec<Worker<P>>,
) -> Vec<Worker<P>>
    requires room { (vec_len room ≡ 0) × (length seats.items ≤ vec_capacity room) }
    ensures count { vec_len result ≡ length seats.items }
{
    let mut workers = room;
    for seat in seats {
        let Seat {
            worker,
            cord,
            rounds: _,
        } = seat;
        let mut worker = worker;
        cord.release(pool, &mut worker);
        workers.push_reserved(worker);
    }
    workers
}

/// Four threads copy and release one cord, and make, copy and release others. How many rounds they did, and how many numbers were in
/// use at the end.
fn worked_by_four<P: Naming + Send + Sync, R: Threads + Wait + Sync>(
    rt: &R,
    alloc: Global,
    opened: Opened<Boxes>,
) -> Option<(u32, u32)>
    requires table { opened_table opened ≡ P.table }
    requires numbers { opened_numbers opened ≡ P.size }
    requires passes { opened_passes opened ≡ P.limit }
    requires boxes { opened_boxes opened ≡ P.boxes }
    requires workers { (opened_workers opened ≡ P.workers) × (P.workers ≡ 4) }
{
    let Ok((pool, mut workers)) = opened.named::<P>(alloc) else {
        return None;
    };
    let Ok(room) = Vec::with_capacity(alloc, 4) else {
        return None;
    };
    let Ok(back) = Vec::with_capacity(alloc, 4) else {
        return None;
    };
    let Ok(mut cord) = Cord::from_bytes(alloc, &pool, &mut workers[0], BYTES) else {
        return None;
    };
    let mut seats = seated(&pool, &mut cord, workers, room)?;
    cord.release(&pool, &mut seats[0].worker);
    let start = Barrier::new(4);
    let shared = &pool;
    let task = |_: usize, seat: &mut Seat<P>| work(rt, alloc, shared, &start, seat);
    thread::for_each_mut(rt, seats.as_mut_slice(), 4, &task);
    let mut rounds = 0u32;
    for seat in seats.as_slice() {
        rounds = rounds.saturating_add(seat.rounds);
    }
    let workers = left(&pool, seats, back);
    let Closed {
        in_use,
        releasers: _,
    } = pool.close(workers);
    Some((rounds, in_use))
}

// There are far more numbers than cords, since a search may find each number in use while other threads take and leave them in turn.
#[test]
fn four_threads_leave_no_number_of_their_cords_in_use(rt: HostRuntime) {
    let alloc = rt.alloc();
    let Ok(opened) = Opened::start(alloc, 1024, 16, 4, Vec::new(alloc)) else {
        assert!(&rt; false, "memory");
        return;
    };
    let answer = worked_by_four::<Brand, HostRuntime>(&rt, alloc, opened);
    assert_eq!(rt; answer, Some((4 * ROUNDS, 0)));
}
