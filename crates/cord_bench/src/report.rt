//! What is told of runs.
use crate::arcs::on_arcs;
use crate::copies::{Run, on_cords};
use crate::making::{of_arcs, of_cords};
use crate::plan::{Making, Plan, Sharing};
use bench_laps::{Lap, median, picos};
use std::alloc::Global;
use std::sync::Wait;
use std::thread::Threads;
use std::time::Clock;
use std::{fmt, io};

/// What doesn't depend on the schedule: whether all was done, and how many numbers were left in use.
#[derive(Drop)]
pub struct Tried<T> {
    what: T,
    run: Run,
    other: Lap,
}

/// Does the copies once.
pub fn try_copies<R: Threads + Wait + Clock + Sync>(
    rt: &R,
    alloc: Global,
    plan: Plan,
) -> io::Result<Tried<Plan>> {
    Ok(Tried {
        what: plan,
        run: on_cords(rt, alloc, plan)?,
        other: on_arcs(rt, alloc, plan)?,
    })
}

/// Makes the values once.
pub fn try_making<R: Clock>(rt: &R, alloc: Global, making: Making) -> io::Result<Tried<Making>> {
    Ok(Tried {
        what: making,
        run: of_cords(rt, alloc, making)?,
        other: of_arcs(rt, alloc, making)?,
    })
}

/// The medians of runs, in picoseconds an operation.
#[derive(Drop)]
pub struct Measured<T> {
    what: T,
    cords: u64,
    arcs: u64,
}

/// Does the copies so many times on cords and on the yardstick, in turns.
pub fn measure_copies<R: Threads + Wait + Clock + Sync>(
    rt: &R,
    alloc: Global,
    plan: Plan,
    runs: usize,
) -> io::Result<Measured<Plan>> {
    let mut cords = Vec::new(alloc);
    let mut arcs = Vec::new(alloc);
    for _ in 0..runs {
        cords.push(picos(on_cords(rt, alloc, plan)?.lap, plan.rounds)?)?;
        arcs.push(picos(on_arcs(rt, alloc, plan)?, plan.rounds)?)?;
    }
    Ok(Measured {
        what: plan,
        cords: median(cords)?,
        arcs: median(arcs)?,
    })
}

/// Makes the values so many times as cords and as the yardstick, in turns.
pub fn measure_making<R: Clock>(
    rt: &R,
    alloc: Global,
    making: Making,
    runs: usize,
) -> io::Result<Measured<Making>> {
    let mut cords = Vec::new(alloc);
    let mut arcs = Vec::new(alloc);
    for _ in 0..runs {
        cords.push(picos(of_cords(rt, alloc, making)?.lap, making.rounds)?)?;
        arcs.push(picos(of_arcs(rt, alloc, making)?, making.rounds)?)?;
    }
    Ok(Measured {
        what: making,
        cords: median(cords)?,
        arcs: median(arcs)?,
    })
}

impl fmt::Display for Plan {
    fn fmt<W: fmt::Write>(&self, f: &mut fmt::Formatter<W>) -> fmt::Result {
        let what = match self.sharing {
            Sharing::One => "one shared value",
            Sharing::Own => "own values",
        };
        write!(f, "copies of {}, {} threads", what, self.threads)
    }
}

impl fmt::Display for Making {
    fn fmt<W: fmt::Write>(&self, f: &mut fmt::Formatter<W>) -> fmt::Result {
        write!(f, "new values of {} bytes", self.size)
    }
}

impl<T: fmt::Display> fmt::Display for Tried<T> {
    fn fmt<W: fmt::Write>(&self, f: &mut fmt::Formatter<W>) -> fmt::Result {
        write!(
            f,
            "{}: cords all done {}, {} numbers in use; arcs all done {}",
            self.what, self.run.lap.complete, self.run.in_use, self.other.complete
        )
    }
}

impl<T: fmt::Display> fmt::Display for Measured<T> {
    fn fmt<W: fmt::Write>(&self, f: &mut fmt::Formatter<W>) -> fmt::Result {
        let ratio = self.cords.saturating_mul(100) / self.arcs.max(1);
        write!(
            f,
            "{}: cord {}.{} ns, Arc {}.{} ns, time ratio {}.{:02}",
            self.what,
            self.cords / 1000,
            self.cords / 100 % 10,
            self.arcs / 1000,
            self.arcs / 100 % 10,
            ratio / 100,
            ratio % 100
        )
    }
}
