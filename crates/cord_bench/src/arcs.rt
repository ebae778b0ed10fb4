//! The yardstick of copies: clones of an `Arc`.
use crate::plan::{BYTES, Plan, Sharing};
use bench_laps::Lap;
use std::alloc::{AllocError, Global};
use std::io;
use std::sync::{Arc, Barrier, Wait};
use std::thread::{self, Threads};
use std::time::{Clock, Instant};

/// The value that a thread clones, and what it did.
#[derive(Drop)]
struct Chair {
    value: Arc<Vec<u8>>,
    lap: Lap,
}

// Clones and drops so often. Whether all clones were made.
fn clone_all(value: &Arc<Vec<u8>>, rounds: u32) -> bool {
    for _ in 0..rounds {
        if Arc::try_clone(value).is_err() {
            return false;
        }
    }
    true
}

// What a thread does, from the point on that all threads have reached.
fn work<R: Wait + Clock>(rt: &R, start: &Barrier, rounds: u32, chair: &mut Chair) {
    start.wait(rt);
    let begin = Instant::now(rt);
    let complete = clone_all(&chair.value, rounds);
    let end = Instant::now(rt);
    chair.lap = Lap::between(begin, end, complete);
}

fn new_value(alloc: Global) -> io::Result<Arc<Vec<u8>>> {
    let bytes = Vec::from_slice(alloc, BYTES)?;
    Ok(Arc::new(alloc, bytes)?)
}

/// Does the plan on values behind an `Arc`.
pub fn on_arcs<R: Threads + Wait + Clock + Sync>(
    rt: &R,
    alloc: Global,
    plan: Plan,
) -> io::Result<Lap> {
    let Plan {
        sharing,
        threads,
        rounds,
    } = plan;
    let one = new_value(alloc)?;
    let mut chairs = Vec::with_capacity(alloc, threads)?;
    for _ in 0..threads {
        let value = match sharing {
            Sharing::One => Arc::try_clone(&one)?,
            Sharing::Own => new_value(alloc)?,
        };
        let lap = Lap::NONE;
        chairs.push(Chair { value, lap })?;
    }
    let start = Barrier::new(threads);
    let task = |_: usize, chair: &mut Chair| work(rt, &start, rounds, chair);
    thread::for_each_mut(rt, chairs.as_mut_slice(), threads, &task);
    let mut all = Lap::NONE;
    for chair in chairs.as_slice() {
        all = all.beside(chair.lap);
    }
    Ok(all)
}
