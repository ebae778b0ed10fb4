//! The top call with a buffer before its sink.
ghost use Rattle.std.specs.Prelude.{◌≡◌, ◌≤◌, ◌<◌, ◌-◌, ◌^◌, length, map, string_bytes, All};
ghost use Rattle.cord_port.specs.Texts.{Extends};
ghost use Rattle.cord_port.specs.Buffers.{sink_below, kept_bytes};
ghost use Rattle.cord_seats.specs.Boxes.{handed_in};
ghost use Rattle.cord_sessions.specs.declared.ending.Ending.{Ending as Ending_value};
ghost use Rattle.cord_sessions.specs.Endings.{Says, LimitsStand, NothingRan, outside, status_of};
ghost use Rattle.cord_sessions.specs.Emptying.{Empties};

use crate::ending::{Ended, Ending};
use crate::top::{Finish, do_asked};
use cord_port::{Begun, BufferedSink, Gate, Releaser, Sink, Source};
use std::alloc::Global;
use std::marker::Brand;
use std::sync::Wait;
use std::thread::Threads;

/// How the program ended, and the sink that was handed in.
#[derive(Drop)]
pub struct Served<K> {
    pub finish: Finish,
    pub sink: K,
}

/// Does what `run_program` does, with a buffer before the sink, which gets the text in pieces of 65,536 bytes, the last alone
/// being smaller. Where there is no memory for the buffer, the sink gets it line by line.
pub fn run_buffered<R: Threads + Wait + Sync, S: Source, K: Sink + Drop, G: Gate + Sync>(
    rt: &R,
    alloc: Global,
    words: &[String],
    source: &mut S,
    sink: K,
    gate: &G,
    releasers: Vec<Box<dyn Releaser + Send>>,
) -> Served<K>
    requires boxes { length releasers.items ≤ 256 }
    requires calls { All (λ b. calls_of b < 2 ^ 64 - 1) releasers.items }
    ensures ending { (ending : Ending_value) × (result.finish.status ≡ status_of ending) × Says (map string_bytes words.now)
        (outside S.left S.given S.faults K.held K.faults source.old source.new sink result.sink
        (handed_in calls_of latest_of releasers.items) (handed_in calls_of latest_of result.finish.returned.items)) ending }
    ensures unrun { NothingRan (map string_bytes words.now) result.finish.status → result.finish.returned ≡ releasers }
    ensures limits { LimitsStand }
{
    serve::<R, S, K, G, Brand>(rt, alloc, words, source, sink, gate, releasers)
}

// The same, for what the sink held at its start.
fn serve<R: Threads + Wait + Sync, S: Source, K: Sink + Drop, G: Gate + Sync, N: Begun>(
    rt: &R,
    alloc: Global,
    words: &[String],
    source: &mut S,
    sink: K,
    gate: &G,
    releasers: Vec<Box<dyn Releaser + Send>>,
) -> Served<K>
    requires begun { N.begun ≡ K.held sink }
    requires boxes { length releasers.items ≤ 256 }
    requires calls { All (λ b. calls_of b < 2 ^ 64 - 1) releasers.items }
    ensures ending { (ending : Ending_value) × (result.finish.status ≡ status_of ending) × Says (map string_bytes words.now)
        (outside S.left S.given S.faults K.held K.faults source.old source.new sink result.sink
        (handed_in calls_of latest_of releasers.items) (handed_in calls_of latest_of result.finish.returned.items)) ending }
    ensures unrun { NothingRan (map string_bytes words.now) result.finish.status → result.finish.returned ≡ releasers }
{
    let made: Result<BufferedSink<K, N>, K> = BufferedSink::new(alloc, sink);
    match made {
        Ok(mut buffered) => {
            let Ended { ending, returned } = do_asked(
                rt,
                alloc,
                words,
                source,
                &mut buffered,
                gate,
                releasers,
            );
            let Emptied { ending, sink } = empty_buffer(ending, buffered);
            let finish = Finish {
                status: ending.status(),
                returned,
            };
            Served { finish, sink }
        }
        Err(mut sink) => {
            let Ended { ending, returned } = do_asked(
                rt, alloc, words, source, &mut sink, gate, releasers,
            );
            let finish = Finish {
                status: ending.status(),
                returned,
            };
            Served { finish, sink }
        }
    }
}

/// The ending that stands once the buffer was emptied, and the sink below it.
#[derive(Drop)]
struct Emptied<K> {
    ending: Ending,
    sink: K,
}

// Hands on what the buffer keeps. Where the sink failed before, or memory ran out, nothing more is written.
fn empty_buffer<K: Sink + Drop, N: Begun>(
    ending: Ending,
    mut buffered: BufferedSink<K, N>,
) -> Emptied<K>
    ensures begun { Extends N.begun (K.held (sink_below buffered)) }
    ensures empties { Empties ending (kept_bytes buffered) (K.held (sink_below buffered)) (K.faults (sink_below buffered))
        result.ending (K.held result.sink) (K.faults result.sink) }
{
    let ending = match ending {
        Ending::Memory => Ending::Memory,
        Ending::WriteFault => Ending::WriteFault,
        Ending::Done => match buffered.flush() {
            Ok(()) => Ending::Done,
            Err(_) => Ending::WriteFault,
        },
        ending => {
            // A fault of the sink at a line of refusal changes no ending.
            let _ = buffered.flush();
            ending
        }
    };
    Emptied {
        ending,
        sink: buffered.into_below(),
    }
}
