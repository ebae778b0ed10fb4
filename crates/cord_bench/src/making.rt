//! Values that one thread makes and releases: cords of some bytes, and the yardstick, a `Vec` of them behind an `Arc`.
ghost use Rattle.std.specs.Prelude.{◌≡◌, ◌≤◌, length};
ghost use Rattle.pool_rule.specs.Trades.{SameHolds};
ghost use Rattle.node_pool.specs.Opened.{opened_table, opened_numbers, opened_passes, opened_workers, opened_boxes};

use crate::copies::Run;
use crate::plan::Making;
use crate::seats::Boxes;
use bench_laps::Lap;
use cord_value::Cord;
use node_pool::{Closed, Naming, Opened, Pool, Worker};
use std::alloc::{AllocError, Global};
use std::io;
use std::marker::Brand;
use std::sync::Arc;
use std::time::{Clock, Instant};

// Makes and releases a cord so often. Whether all were made.
fn make_all<P: Naming>(
    alloc: Global,
    pool: &Pool<P, Boxes>,
    w: &mut Worker<P>,
    bytes: &[u8],
    rounds: u32,
) -> bool
    requires room { length w.old.holds ≤ 96 }
    ensures same { SameHolds w.old.holds w.new.holds }
{
    for _ in 0..rounds {
        match Cord::from_bytes(alloc, pool, w, bytes) {
            Ok(cord) => cord.release(pool, w),
            Err(_) => return false,
        }
    }
    true
}

fn made<P: Naming, R: Clock>(
    rt: &R,
    alloc: Global,
    opened: Opened<Boxes>,
    bytes: &[u8],
    rounds: u32,
) -> io::Result<Run>
    requires table { opened_table opened ≡ P.table }
    requires numbers { opened_numbers opened ≡ P.size }
    requires passes { opened_passes opened ≡ P.limit }
    requires boxes { opened_boxes opened ≡ P.boxes }
    requires workers { (opened_workers opened ≡ P.workers) × (P.workers ≡ 1) }
{
    let (pool, mut workers) = opened.named::<P>(alloc).map_err(|_| AllocError)?;
    let begin = Instant::now(rt);
    let complete = make_all(alloc, &pool, &mut workers[0], bytes, rounds);
    let end = Instant::now(rt);
    let lap = Lap::between(begin, end, complete);
    let Closed {
        in_use,
        releasers: _,
    } = pool.close(workers);
    Ok(Run { lap, in_use })
}

/// Makes cords in a new pool.
pub fn of_cords<R: Clock>(rt: &R, alloc: Global, making: Making) -> io::Result<Run> {
    let bytes = vec![in alloc; 120u8; making.size]?;
    let opened = Opened::start(alloc, 1024, 16, 1, Vec::new(alloc)).map_err(|_| AllocError)?;
    made::<Brand, R>(rt, alloc, opened, bytes.as_slice(), making.rounds)
}

fn new_value(alloc: Global, bytes: &[u8]) -> Result<Arc<Vec<u8>>, AllocError> {
    let own = Vec::from_slice(alloc, bytes)?;
    Arc::new(alloc, own).map_err(|_| AllocError)
}

/// Makes values behind an `Arc`.
pub fn of_arcs<R: Clock>(rt: &R, alloc: Global, making: Making) -> io::Result<Lap> {
    let bytes = vec![in alloc; 120u8; making.size]?;
    let mut complete = true;
    let begin = Instant::now(rt);
    for _ in 0..making.rounds {
        if new_value(alloc, bytes.as_slice()).is_err() {
            complete = false;
        }
    }
    let end = Instant::now(rt);
    Ok(Lap::between(begin, end, complete))
}
