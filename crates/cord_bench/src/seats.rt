//! What a thread has of the cords, and how it is given out and comes back.
ghost use Rattle.std.specs.Prelude.{◌≡◌, ◌≤◌, length, vec_len, vec_capacity, All, IfOk};
ghost use Rattle.pool_rule.specs.Trades.{SameHolds};

use crate::plan::{BYTES, Sharing};
use bench_laps::Lap;
use cord_port::CountReleaser;
use cord_value::{Cord, CordError};
use node_pool::{Naming, Pool, Worker};
use std::alloc::Global;

/// The boxes of the pools here, of which there are none.
pub type Boxes = CountReleaser;

/// A thread's worker, the cord that it copies, and what it did.
#[derive(Drop)]
pub struct Seat<P: Naming> {
    pub worker: Worker<P>,
    pub cord: Cord<P>,
    pub lap: Lap,
    ghost idle: { length worker.holds ≡ 0 },
}

// A copy of the cord, or one of its own.
fn one_cord<P: Naming>(
    alloc: Global,
    pool: &Pool<P, Boxes>,
    sharing: Sharing,
    cord: &mut Cord<P>,
    w: &mut Worker<P>,
) -> Result<Cord<P>, CordError>
    requires room { length w.old.holds ≤ 96 }
    ensures same { SameHolds w.old.holds w.new.holds }
{
    match sharing {
        Sharing::One => cord.copy(pool, w),
        Sharing::Own => Cord::from_bytes(alloc, pool, w, BYTES),
    }
}

/// Gives each worker a seat with a copy of the cord, or with a cord of its own.
pub fn seated<P: Naming>(
    alloc: Global,
    pool: &Pool<P, Boxes>,
    sharing: Sharing,
    cord: &mut Cord<P>,
    workers: Vec<Worker<P>>,
    room: Vec<Seat<P>>,
) -> Result<Vec<Seat<P>>, CordError>
    requires room { (vec_len room ≡ 0) × (length workers.items ≤ vec_capacity room) }
    requires idle { All (λ w. length w.holds ≡ 0) workers.items }
    ensures count { IfOk result (λ seats. vec_len seats ≡ length workers.items) }
{
    let mut seats = room;
    for worker in workers {
        let mut worker = worker;
        let cord = match one_cord(alloc, pool, sharing, cord, &mut worker) {
            Ok(cord) => cord,
            Err(error) => return Err(error),
        };
        let lap = Lap::NONE;
        seats.push_reserved(Seat { worker, cord, lap });
    }
    Ok(seats)
}

/// Releases the cords and gives the workers back, and what all threads did.
pub fn left<P: Naming>(
    pool: &Pool<P, Boxes>,
    seats: Vec<Seat<P>>,
    room: Vec<Worker<P>>,
) -> (Vec<Worker<P>>, Lap)
    requires room { (vec_len room ≡ 0) × (length seats.items ≤ vec_capacity room) }
    ensures count { vec_len result.0 ≡ length seats.items }
{
    let mut workers = room;
    let mut all = Lap::NONE;
    for seat in seats {
        let Seat { worker, cord, lap } = seat;
        let mut worker = worker;
        cord.release(pool, &mut worker);
        workers.push_reserved(worker);
        all = all.beside(lap);
    }
    (workers, all)
}
