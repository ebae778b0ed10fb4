//! Measures copies of cords beside clones of an `Arc`, and new cords beside an `Arc` of a new `Vec`. With no word it does a little
//! work and tells nothing of time; with a number it takes the medians of so many runs.
#![tactic(auto)]

mod arcs;
mod copies;
mod making;
mod plan;
mod report;
mod seats;

use plan::{Making, Plan, Sharing};
use report::{measure_copies, measure_making, try_copies, try_making};
use std::{env, io};

// How often a thread alone copies and releases, or makes a value, in a run that is timed. So a run is seldom interrupted.
const ALONE: u32 = 20000;

// How often each of several threads does. So the threads run side by side for most of the time.
const TOGETHER: u32 = 200000;

fn main(rt: HostRuntime) -> io::Result<()> {
    let word = env::args(&rt)?.nth(1);
    let runs = word.and_then(|w| w.as_str().parse::<usize>().ok());
    for sharing in [Sharing::One, Sharing::Own] {
        let Some(runs) = runs else {
            let plan = Plan {
                sharing,
                threads: 2,
                rounds: 8,
            };
            println!(rt; "{}", try_copies(&rt, rt.alloc(), plan)?)?;
            continue;
        };
        for threads in [1usize, 2, 4] {
            let rounds = if threads == 1 { ALONE } else { TOGETHER };
            let plan = Plan {
                sharing,
                threads,
                rounds,
            };
            println!(rt; "{}", measure_copies(&rt, rt.alloc(), plan, runs)?)?;
        }
    }
    for size in [20usize, 500, 4083] {
        let Some(runs) = runs else {
            let making = Making { size, rounds: 8 };
            println!(rt; "{}", try_making(&rt, rt.alloc(), making)?)?;
            continue;
        };
        let making = Making {
            size,
            rounds: ALONE,
        };
        println!(rt; "{}", measure_making(&rt, rt.alloc(), making, runs)?)?;
    }
    Ok(())
}
