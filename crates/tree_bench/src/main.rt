//! Measures questions to cords, and ranges and cuts of them, beside the same on bytes in one piece. With no word it does a little work and
//! tells nothing of time; with a number it takes the medians of so many runs.
#![tactic(auto)]

ghost use Rattle.std.specs.Prelude.{◌<◌, ◌≤◌};

mod changes;
mod cords;
mod measure;
mod plan;
mod report;
mod texts;

use measure::{Effort, ask, change_cord};
use plan::{Change, Kind, Question, Shape};
use report::{Line, Tried};
use std::{env, io};

const KINDS: [Kind; 3] = [Kind::Full, Kind::Small, Kind::Parts];

const QUESTIONS: [Question; 11] = [
    Question::FindNone,
    Question::FindRun,
    Question::FindLong,
    Question::Compare,
    Question::CompareCopy,
    Question::Starts,
    Question::Ends,
    Question::Write,
    Question::At,
    Question::SeekDrawn,
    Question::SeekOn,
];

// How often the block is doubled, and how often it is asked in a run: 1 MiB, 64 MiB, and for places and copies 1 GiB.
const SIZES: [(u32, u32); 3] = [(4, 16), (10, 1), (14, 1)];

// From 64 KiB to 1 GiB.
const HALVES: [u32; 5] = [0, 4, 8, 10, 14];

// Letters of so many kinds: for runs one.
fn letters_of(question: Question) -> u8
    ensures some { 0 < result }
    ensures few { result ≤ 25 }
{
    match question {
        Question::FindRun | Question::FindLong => 1,
        _ => 24,
    }
}

// Whether the question is asked of 1 GiB too.
fn is_for_places(question: Question) -> bool {
    matches!(
        question,
        Question::CompareCopy | Question::At | Question::SeekDrawn | Question::SeekOn
    )
}

fn main(rt: HostRuntime) -> io::Result<()> {
    let word = env::args(&rt)?.nth(1);
    let runs = word.and_then(|w| w.as_str().parse::<u32>().ok());
    let alloc = rt.alloc();
    for kind in KINDS {
        for what in QUESTIONS {
            let letters = letters_of(what);
            let sizes = if runs.is_some() {
                SIZES
            } else {
                [(1, 1), (15, 0), (15, 0)]
            };
            for (doublings, rounds) in sizes {
                if doublings > 10 && !(is_for_places(what) && doublings < 15) {
                    continue;
                }
                let shape = Shape {
                    kind,
                    letters,
                    doublings,
                };
                let effort = Effort {
                    rounds,
                    runs: runs.unwrap_or(1),
                };
                let measured = ask(&rt, alloc, shape, what, effort)?;
                let line = Line {
                    what,
                    shape,
                    measured,
                };
                if runs.is_some() {
                    println!(rt; "{line}")?;
                } else {
                    println!(rt; "{}", Tried(line))?;
                }
            }
        }
    }
    for what in [Change::Half, Change::Front, Change::Back] {
        for doublings in HALVES {
            let wanted = if runs.is_some() { 4 } else { 0 };
            if doublings != wanted && (what != Change::Half || runs.is_none()) {
                continue;
            }
            let shape = Shape {
                kind: Kind::Full,
                letters: 24,
                doublings,
            };
            let rounds = if what == Change::Half && runs.is_some() {
                100
            } else {
                1
            };
            let effort = Effort {
                rounds,
                runs: runs.unwrap_or(1),
            };
            let measured = change_cord(&rt, alloc, shape, what, effort)?;
            let line = Line {
                what,
                shape,
                measured,
            };
            if runs.is_some() {
                println!(rt; "{line}")?;
            } else {
                println!(rt; "{}", Tried(line))?;
            }
        }
    }
    Ok(())
}
