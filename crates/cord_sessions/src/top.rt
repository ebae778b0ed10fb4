//! The top call.
ghost use Rattle.std.specs.Prelude.{◌≡◌, ◌≤◌, ◌<◌, ◌-◌, ◌^◌, [], List, length, map, string_bytes, All};
ghost use Rattle.pool_rule.specs.Pools.{Handed};
ghost use Rattle.cord_seats.specs.Boxes.{handed_in};
ghost use Rattle.cord_sessions.specs.declared.ending.Ending.{Ending as Ending_value};
ghost use Rattle.cord_sessions.specs.Endings.{Says, SaysOf, Told, LimitsStand, IsUnrun, NothingRan, outside, status_of};
ghost use Rattle.cord_sessions.specs.Parts.{TellsUnread};
ghost use Rattle.cord_sessions.specs.declared.asked.Asked.TheVariants.{Run, Check};

use crate::asked::{Asked, command_of};
use crate::ending::{Ended, Ending};
use crate::feeding::feed_source;
use crate::script_run::{check_fed, run_fed};
use cord_port::{Gate, ReadRefused, Releaser, Sink, Source, write_all};
use std::alloc::Global;
use std::sync::Wait;
use std::thread::Threads;

/// The program's exit status, and the boxes that were handed in, in their order.
#[derive(Drop)]
pub struct Finish {
    pub status: u8,
    pub returned: Vec<Box<dyn Releaser + Send>>,
}

// Writes a line. A fault of the sink there changes no ending.
fn tell<K: Sink>(sink: &mut K, line: &[u8])
    ensures { Told (K.held sink.old) (K.held sink.new) (K.faults sink.old) (K.faults sink.new) line.now }
{
    let _ = write_all(sink, line);
}

// Why the bytes of the source were not read, to the sink.
fn tell_unread<K: Sink>(refused: ReadRefused, sink: &mut K) -> Ending
    ensures { TellsUnread refused (K.held sink.old) (K.held sink.new) (K.faults sink.old) (K.faults sink.new) result }
{
    match refused {
        ReadRefused::Memory => Ending::Memory,
        ReadRefused::Fault => {
            tell(sink, b"read fault\n");
            Ending::ReadFault
        }
        ReadRefused::TooLong => {
            tell(sink, b"script too long\n");
            Ending::TooLong
        }
    }
}

fn run_to_end<R: Threads + Wait + Sync, S: Source, K: Sink, G: Gate + Sync>(
    rt: &R,
    alloc: Global,
    source: &mut S,
    sink: &mut K,
    gate: &G,
    releasers: Vec<Box<dyn Releaser + Send>>,
) -> Ended
    requires boxes { length releasers.items ≤ 256 }
    requires calls { All (λ b. calls_of b < 2 ^ 64 - 1) releasers.items }
    ensures says { SaysOf Run (outside S.left S.given S.faults K.held K.faults source.old source.new sink.old sink.new
        (handed_in calls_of latest_of releasers.items) (handed_in calls_of latest_of result.returned.items)) result.ending }
    ensures unrun { IsUnrun (status_of result.ending) → result.returned ≡ releasers }
{
    match feed_source(alloc, source) {
        Ok(feed) => run_fed(rt, alloc, feed, sink, gate, releasers),
        Err(refused) => Ended {
            ending: tell_unread(refused, sink),
            returned: releasers,
        },
    }
}

fn check_to_end<S: Source, K: Sink>(alloc: Global, source: &mut S, sink: &mut K) -> Ending
    ensures { (boxes : List Handed) → SaysOf Check
        (outside S.left S.given S.faults K.held K.faults source.old source.new sink.old sink.new boxes boxes) result }
{
    match feed_source(alloc, source) {
        Ok(feed) => check_fed(feed, sink),
        Err(refused) => tell_unread(refused, sink),
    }
}

/// Tells whether the bytes of the source are a script: its answer is the exit status.
pub fn check_script<S: Source, K: Sink>(alloc: Global, source: &mut S, sink: &mut K) -> u8
    ensures { (ending : Ending_value) × (result ≡ status_of ending) × SaysOf Check
        (outside S.left S.given S.faults K.held K.faults source.old source.new sink.old sink.new [] []) ending }
{
    check_to_end(alloc, source, sink).status()
}

/// Does what the words ask for, and tells how it ended.
pub fn do_asked<R: Threads + Wait + Sync, S: Source, K: Sink, G: Gate + Sync>(
    rt: &R,
    alloc: Global,
    words: &[String],
    source: &mut S,
    sink: &mut K,
    gate: &G,
    releasers: Vec<Box<dyn Releaser + Send>>,
) -> Ended
    requires boxes { length releasers.items ≤ 256 }
    requires calls { All (λ b. calls_of b < 2 ^ 64 - 1) releasers.items }
    ensures says { Says (map string_bytes words.now) (outside S.left S.given S.faults K.held K.faults source.old source.new sink.old sink.new
        (handed_in calls_of latest_of releasers.items) (handed_in calls_of latest_of result.returned.items)) result.ending }
    ensures unrun { NothingRan (map string_bytes words.now) (status_of result.ending) → result.returned ≡ releasers }
{
    match command_of(words) {
        Some(Asked::Run) => run_to_end(rt, alloc, source, sink, gate, releasers),
        Some(Asked::Check) => Ended {
            ending: check_to_end(alloc, source, sink),
            returned: releasers,
        },
        None => {
            tell(
                sink,
                b"usage: cords run | cords check | cords load SEED SESSIONS COMMANDS\n",
            );
            Ended {
                ending: Ending::Usage,
                returned: releasers,
            }
        }
    }
}

/// Does what the words ask for. `run` reads a script from the source to its end, line by line as its bytes come, runs it,
/// and writes its text to the sink; `check` tells how much the script has. The boxes come back in their order: those that an external of
/// the script used were called once, with its length, and the others are as they were; where no script was run they are the very boxes.
pub fn run_program<R: Threads + Wait + Sync, S: Source, K: Sink, G: Gate + Sync>(
    rt: &R,
    alloc: Global,
    words: &[String],
    source: &mut S,
    sink: &mut K,
    gate: &G,
    releasers: Vec<Box<dyn Releaser + Send>>,
) -> Finish
    requires boxes { length releasers.items ≤ 256 }
    requires calls { All (λ b. calls_of b < 2 ^ 64 - 1) releasers.items }
    ensures ending { (ending : Ending_value) × (result.status ≡ status_of ending) × Says (map string_bytes words.now)
        (outside S.left S.given S.faults K.held K.faults source.old source.new sink.old sink.new
        (handed_in calls_of latest_of releasers.items) (handed_in calls_of latest_of result.returned.items)) ending }
    ensures unrun { NothingRan (map string_bytes words.now) result.status → result.returned ≡ releasers }
    ensures limits { LimitsStand }
{
    let Ended { ending, returned } = do_asked(rt, alloc, words, source, sink, gate, releasers);
    Finish {
        status: ending.status(),
        returned,
    }
}
