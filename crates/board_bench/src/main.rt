//! Measures actions on the board beside the same actions on a `Mutex` of the same data. With no word it does a little work
//! and tells nothing of time; with a number it takes the medians of so many runs.
#![tactic(auto)]

mod crowd;
mod item;
mod locked;
mod plan;
mod replay;
mod report;
#[cfg(test)]
mod tests;

use plan::{Cells, Plan};
use report::{measure, try_out};
use std::{env, io};

// The actions of each session in a run that is timed.
const ACTIONS: u16 = 50000;

fn main(rt: HostRuntime) -> io::Result<()> {
    let word = env::args(&rt)?.nth(1);
    let runs = word.and_then(|w| w.as_str().parse::<usize>().ok());
    for cells in [Cells::One, Cells::Own] {
        let Some(runs) = runs else {
            let plan = Plan {
                sessions: 2,
                actions: 8,
                cells,
            };
            println!(rt; "{}", try_out(&rt, rt.alloc(), plan)?)?;
            continue;
        };
        for sessions in [1u16, 2, 4, 16] {
            let plan = Plan {
                sessions,
                actions: ACTIONS,
                cells,
            };
            println!(rt; "{}", measure(&rt, rt.alloc(), plan, runs)?)?;
        }
    }
    Ok(())
}
