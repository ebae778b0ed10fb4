//! A script that was accepted, run.
ghost use Rattle.std.specs.Prelude.{◌≡◌, ◌≤◌, ◌<◌, ◌-◌, ◌^◌, length, All, IfOk, IfErr};
ghost use Rattle.cord_runs.specs.Boxes.{externals_in};
ghost use Rattle.cord_runs.specs.Scripts.{IsTreeRun};
ghost use Rattle.cord_seats.specs.Boxes.{handed_in, AreCalled, AreBack};
ghost use Rattle.script_reader.specs.Limits.{IsWithinLimits};
ghost use Rattle.cord_sessions.specs.Causes.{AreCaused};

use crate::telling::books_of;
use cord_board::Entry;
use cord_port::{Gate, Releaser};
use cord_runs::told_runs_are_tree_runs;
use cord_seats::Ran;
use plain_cord::{Book, Script};
use std::alloc::{AllocError, Global};
use std::sync::Wait;
use std::thread::Threads;

/// What a script's run gives: a book for each session, the board's history, how many numbers of the pool are still in use, and
/// the boxes that were handed in, in their order.
#[derive(Drop)]
pub struct Run {
    pub books: Vec<Book>,
    pub history: Vec<Entry>,
    pub numbers_left: u32,
    pub returned: Vec<Box<dyn Releaser + Send>>,
}

/// Want of memory, of this call or of a session. The boxes that were handed in come back, in their order.
#[derive(Drop)]
pub struct RunRefused {
    pub returned: Vec<Box<dyn Releaser + Send>>,
}

/// Runs an accepted script that has no stride on cords over a new pool, its sessions side by side over one board, each in a thread of
/// its own. A session whose thread can't be started is run by the caller. The session i, counted from 0, owns the boxes 16 * i to
/// 16 * i + 15, as far as there are so many. Each box that an external of it used was called once, with the external's length.
pub fn run_script<R: Threads + Wait + Sync, G: Gate + Sync>(
    rt: &R,
    alloc: Global,
    script: &Script,
    gate: &G,
    releasers: Vec<Box<dyn Releaser + Send>>,
) -> Result<Run, RunRefused>
    requires accepted { IsWithinLimits script.now }
    requires stride { script.now.stride ≡ 0 }
    requires boxes { length releasers.items ≤ 256 }
    requires calls { All (λ b. calls_of b < 2 ^ 64 - 1) releasers.items }
    ensures run { IfOk result (λ run. IsTreeRun script.now (length releasers.items) run.books.items run.history.items) }
    ensures caused { IfOk result (λ run. AreCaused script.now (length releasers.items) run.books.items) }
    ensures left { IfOk result (λ run. run.numbers_left ≡ 0) }
    ensures called { IfOk result (λ run. AreCalled (externals_in script.now.sessions run.books.items)
        (handed_in calls_of latest_of releasers.items) (handed_in calls_of latest_of run.returned.items)) }
    ensures back { IfErr result (λ refused. AreBack (handed_in calls_of latest_of releasers.items)
        (handed_in calls_of latest_of refused.returned.items)) }
{
    let ran = match cord_seats::run_script(rt, alloc, script, gate, releasers) {
        Ok(ran) => ran,
        Err(cord_seats::RunRefused { returned }) => return Err(RunRefused { returned }),
    };
    let Ran {
        answers,
        history,
        numbers_left,
        returned,
    } = ran;
    match books_of(alloc, answers) {
        Ok(books) => {
            // A law: what cords answered is a run of the script.
            told_runs_are_tree_runs();
            Ok(Run {
                books,
                history,
                numbers_left,
                returned,
            })
        }
        Err(AllocError) => Err(RunRefused { returned }),
    }
}
