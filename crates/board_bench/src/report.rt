//! What is told of runs.
use crate::crowd::{Run, on_board};
use crate::locked::on_shelf;
use crate::plan::{Cells, Plan};
use crate::replay::replays;
use std::alloc::Global;
use std::sync::Wait;
use std::thread::Threads;
use std::time::{Clock, Duration};
use std::{fmt, io};

/// What doesn't depend on the schedule: how many entries each history has, whether it replays, and how many items were left.
#[derive(Drop)]
pub struct Tried {
    cells: Cells,
    entries: usize,
    replayed: bool,
    full: usize,
    other_entries: usize,
    other_replayed: bool,
}

/// Does the plan once.
pub fn try_out<R: Threads + Wait + Clock + Sync>(
    rt: &R,
    alloc: Global,
    plan: Plan,
) -> io::Result<Tried> {
    let Run {
        history,
        full,
        took: _,
    } = on_board(rt, alloc, plan)?;
    let (other, _) = on_shelf(rt, alloc, plan)?;
    Ok(Tried {
        cells: plan.cells,
        entries: history.len(),
        replayed: replays(history.as_slice()),
        full,
        other_entries: other.len(),
        other_replayed: replays(other.as_slice()),
    })
}

/// The medians of runs, in nanoseconds.
#[derive(Drop)]
pub struct Measured {
    plan: Plan,
    board: u64,
    shelf: u64,
}

/// Does the plan so many times on the board and on the yardstick, in turns.
pub fn measure<R: Threads + Wait + Clock + Sync>(
    rt: &R,
    alloc: Global,
    plan: Plan,
    runs: usize,
) -> io::Result<Measured> {
    let mut board = Vec::new(alloc);
    let mut shelf = Vec::new(alloc);
    for _ in 0..runs {
        board.push(nanos(on_board(rt, alloc, plan)?.took))?;
        shelf.push(nanos(on_shelf(rt, alloc, plan)?.1))?;
    }
    Ok(Measured {
        plan,
        board: median(board)?,
        shelf: median(shelf)?,
    })
}

fn nanos(took: Duration) -> u64 {
    u64::try_from(took.as_nanos()).unwrap_or(u64::MAX)
}

fn median(mut all: Vec<u64>) -> io::Result<u64> {
    all.sort()?;
    Ok(all.get(all.len() / 2).copied().unwrap_or(0))
}

// Actions in a second.
fn rate(actions: usize, took: u64) -> u64 {
    (actions as u64).saturating_mul(1000000000) / took.max(1)
}

impl fmt::Display for Cells {
    fn fmt<W: fmt::Write>(&self, f: &mut fmt::Formatter<W>) -> fmt::Result {
        f.write_str(match self {
            Cells::One => "one cell",
            Cells::Own => "own cells",
        })
    }
}

impl fmt::Display for Tried {
    fn fmt<W: fmt::Write>(&self, f: &mut fmt::Formatter<W>) -> fmt::Result {
        write!(
            f,
            "{}: board {} entries, replayed {}, {} items left; mutex {} entries, replayed {}",
            self.cells,
            self.entries,
            self.replayed,
            self.full,
            self.other_entries,
            self.other_replayed
        )
    }
}

impl fmt::Display for Measured {
    fn fmt<W: fmt::Write>(&self, f: &mut fmt::Formatter<W>) -> fmt::Result {
        let actions = self.plan.all();
        let ratio = self.board.saturating_mul(100) / self.shelf.max(1);
        write!(
            f,
            "{}, {} threads: board {} actions/s, mutex {} actions/s, time ratio {}.{:02}",
            self.plan.cells,
            self.plan.sessions,
            rate(actions, self.board),
            rate(actions, self.shelf),
            ratio / 100,
            ratio % 100
        )
    }
}
