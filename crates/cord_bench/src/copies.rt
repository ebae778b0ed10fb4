//! Cords that threads copy and release.
ghost use Rattle.std.specs.Prelude.{◌≡◌, ◌≤◌, length};
ghost use Rattle.pool_rule.specs.Trades.{SameHolds};
ghost use Rattle.node_pool.specs.Opened.{opened_table, opened_numbers, opened_passes, opened_workers, opened_boxes};

use crate::plan::{BYTES, Plan};
use crate::seats::{Boxes, Seat, left, seated};
use bench_laps::Lap;
use cord_value::{Cord, CordError};
use node_pool::{Closed, Naming, Opened, Pool, Worker};
use std::alloc::{AllocError, Global};
use std::io;
use std::marker::Brand;
use std::sync::{Barrier, Wait};
use std::thread::{self, Threads};
use std::time::{Clock, Instant};

/// What the threads did together, and how many numbers were in use at the end.
#[derive(Clone, Copy)]
pub struct Run {
    pub lap: Lap,
    pub in_use: u32,
}

/// A call was refused before anything was measured.
pub fn refused(_error: CordError) -> io::Error {
    io::Error::from(io::ErrorKind::Other)
}

// Copies and releases so often. Whether all copies were made.
fn copy_all<P: Naming>(
    pool: &Pool<P, Boxes>,
    w: &mut Worker<P>,
    cord: &mut Cord<P>,
    rounds: u32,
) -> bool
    requires room { length w.old.holds ≤ 96 }
    ensures same { SameHolds w.old.holds w.new.holds }
{
    for _ in 0..rounds {
        match cord.copy(pool, w) {
            Ok(copy) => copy.release(pool, w),
            Err(_) => return false,
        }
    }
    true
}

// What a thread does, from the point on that all threads have reached.
fn work<P: Naming, R: Wait + Clock>(
    rt: &R,
    pool: &Pool<P, Boxes>,
    start: &Barrier,
    rounds: u32,
    seat: &mut Seat<P>,
) {
    start.wait(rt);
    let begin = Instant::now(rt);
    let complete = copy_all(pool, &mut seat.worker, &mut seat.cord, rounds);
    let end = Instant::now(rt);
    seat.lap = Lap::between(begin, end, complete);
}

// Runs the plan's threads, each on one of the seats.
fn run_all<P: Naming + Send + Sync, R: Threads + Wait + Clock + Sync>(
    rt: &R,
    pool: &Pool<P, Boxes>,
    plan: Plan,
    seats: &mut [Seat<P>],
)
    requires { length seats.old ≡ 4 }
{
    let rounds = plan.rounds;
    let start = Barrier::new(plan.threads);
    let task = |_: usize, seat: &mut Seat<P>| work(rt, pool, &start, rounds, seat);
    let (running, _) = seats.split_at_mut(plan.threads);
    thread::for_each_mut(rt, running, plan.threads, &task);
}

fn copied<P: Naming + Send + Sync, R: Threads + Wait + Clock + Sync>(
    rt: &R,
    alloc: Global,
    opened: Opened<Boxes>,
    plan: Plan,
) -> io::Result<Run>
    requires table { opened_table opened ≡ P.table }
    requires numbers { opened_numbers opened ≡ P.size }
    requires passes { opened_passes opened ≡ P.limit }
    requires boxes { opened_boxes opened ≡ P.boxes }
    requires workers { (opened_workers opened ≡ P.workers) × (P.workers ≡ 4) }
{
    let room = Vec::with_capacity(alloc, 4)?;
    let back = Vec::with_capacity(alloc, 4)?;
    let Ok((pool, mut workers)) = opened.named::<P>(alloc) else {
        return Err(io::Error::from(io::ErrorKind::OutOfMemory));
    };
    let mut cord = match Cord::from_bytes(alloc, &pool, &mut workers[0], BYTES) {
        Ok(cord) => cord,
        Err(error) => return Err(refused(error)),
    };
    let mut seats = match seated(alloc, &pool, plan.sharing, &mut cord, workers, room) {
        Ok(seats) => seats,
        Err(error) => return Err(refused(error)),
    };
    cord.release(&pool, &mut seats[0].worker);
    run_all(rt, &pool, plan, seats.as_mut_slice());
    let (workers, lap) = left(&pool, seats, back);
    let Closed {
        in_use,
        releasers: _,
    } = pool.close(workers);
    Ok(Run { lap, in_use })
}

/// Does the plan on cords of a new pool.
pub fn on_cords<R: Threads + Wait + Clock + Sync>(
    rt: &R,
    alloc: Global,
    plan: Plan,
) -> io::Result<Run> {
    let opened = Opened::start(alloc, 1024, 16, 4, Vec::new(alloc)).map_err(|_| AllocError)?;
    copied::<Brand, R>(rt, alloc, opened, plan)
}
