//! A script whose bytes were fed: run and written, or counted.
ghost use Rattle.std.specs.Prelude.{◌≡◌, ℕ, ◌≤◌, ◌-◌, ◌^◌, ◌<◌, ◌⊎◌, List, length, All, Err, IfOk, OnOk, OnErr};
ghost use Rattle.std.specs.List.{sum_by};
ghost use Rattle.script_words.specs.Causes.{word_of_cause};
ghost use Rattle.script_reader.specs.declared.fault.ScriptError.{ScriptError as ScriptError_value};
ghost use Rattle.script_reader.specs.Fed.{HasGot};
ghost use Rattle.script_reader.specs.ScriptSpelling.{Spells};
ghost use Rattle.script_reader.specs.Faults.{IsFirstFault};
ghost use Rattle.script_reader.specs.Limits.{IsWithinLimits};
ghost use Rattle.report_text.specs.Outputs.{IsPrintable, output_text, refusal_line};
ghost use Rattle.cord_sessions.specs.declared.asked.Asked.TheVariants as asked;
ghost use Rattle.cord_sessions.specs.Endings.{Told, IsUnrun, check_line, status_of};
ghost use Rattle.std.specs.Io.KnownBytes.{Appends};
ghost use Rattle.cord_port.specs.Causes.{Rose};
ghost use Rattle.cord_port.specs.Texts.{AppendsPart};
ghost use Rattle.pool_rule.specs.Pools.{Handed};
ghost use Rattle.cord_seats.specs.Boxes.{handed_in};
ghost use Rattle.cord_sessions.specs.Parts.{SaysOfBytes};

use crate::ending::{Ended, Ending};
use crate::running::{Run, RunRefused, run_script};
use cord_port::{Failed, Gate, Releaser, Sink};
use plain_cord::{Script, Session};
use report_text::{write_refusal, write_run, write_summary};
use run_laws::tree_runs_within_limits_are_printable;
use script_reader::{ReadRefused, ScriptFeed};
use std::alloc::Global;
use std::sync::Wait;
use std::thread::Threads;

// The line of the first fault. A fault of the sink there changes no ending.
fn tell_refusal<K: Sink>(number: u32, word: &[u8], sink: &mut K)
    requires { length word.now ≤ 16 }
    ensures { Told (K.held sink.old) (K.held sink.new) (K.faults sink.old) (K.faults sink.new) (refusal_line number word.now) }
{
    let _ = write_refusal(number, word, sink);
}

// The script that the feed got, or its first fault.
fn finish_script(feed: ScriptFeed) -> Result<Script, ReadRefused>
    requires { (bytes : List ℕ) × HasGot feed bytes }
    ensures found { (bytes : List ℕ) → HasGot feed bytes → IfOk result (λ s. Spells bytes s) }
    ensures first { (bytes : List ℕ) (e : ScriptError_value) → HasGot feed bytes → result ≡ Err (ReadRefused.Script e) → IsFirstFault bytes e }
    ensures limits { IfOk result IsWithinLimits }
    ensures unsampled { IfOk result (λ s. s.stride ≡ 0) }
{
    feed.finish()
}

/// Runs the script that the feed got, or tells its first fault.
pub fn run_fed<R: Threads + Wait + Sync, K: Sink, G: Gate + Sync>(
    rt: &R,
    alloc: Global,
    feed: ScriptFeed,
    sink: &mut K,
    gate: &G,
    releasers: Vec<Box<dyn Releaser + Send>>,
) -> Ended
    requires fed { (bytes : List ℕ) × HasGot feed bytes }
    requires boxes { length releasers.items ≤ 256 }
    requires calls { All (λ b. calls_of b < 2 ^ 64 - 1) releasers.items }
    ensures says { (bytes : List ℕ) → HasGot feed bytes → SaysOfBytes asked.Run bytes (K.held sink.old) (K.held sink.new) (K.faults sink.old) (K.faults sink.new)
        (handed_in calls_of latest_of releasers.items) (handed_in calls_of latest_of result.returned.items) result.ending }
    ensures unrun { IsUnrun (status_of result.ending) → result.returned ≡ releasers }
{
    let script = match finish_script(feed) {
        Ok(script) => script,
        Err(ReadRefused::Memory) => {
            return Ended {
                ending: Ending::Memory,
                returned: releasers,
            };
        }
        Err(ReadRefused::Script(error)) => {
            tell_refusal(error.line, error.cause.word(), sink);
            return Ended {
                ending: Ending::Refused,
                returned: releasers,
            };
        }
    };
    match run_script(rt, alloc, &script, gate, releasers) {
        Ok(run) => {
            // A law: what a run gives can be written.
            tree_runs_within_limits_are_printable();
            let ending = write_out(&script, &run, sink);
            let Run { returned, .. } = run;
            Ended { ending, returned }
        }
        Err(RunRefused { returned }) => Ended {
            ending: Ending::Memory,
            returned,
        },
    }
}

// The text of a run.
fn write_out<K: Sink>(script: &Script, run: &Run, sink: &mut K) -> Ending
    requires { IsPrintable script.now.sessions run.now.books.items run.now.history.items }
    ensures done { result ≡ Ending.Done → Appends (K.held sink.old) (K.held sink.new)
        (output_text script.now.sessions run.now.books.items run.now.history.items run.now.numbers_left script.now.pool)
        × (K.faults sink.new ≡ K.faults sink.old) }
    ensures ending { (result ≡ Ending.Done) ⊎ (result ≡ Ending.WriteFault) }
    ensures failed { result ≡ Ending.WriteFault → Rose (K.faults sink.old) (K.faults sink.new)
        × AppendsPart (K.held sink.old) (K.held sink.new)
        (output_text script.now.sessions run.now.books.items run.now.history.items run.now.numbers_left script.now.pool) }
{
    match write_run(script, &run.books, &run.history, run.numbers_left, sink) {
        Ok(()) => Ending::Done,
        Err(_) => Ending::WriteFault,
    }
}

/// Tells how much the script has that the feed got, or its first fault.
pub fn check_fed<K: Sink>(feed: ScriptFeed, sink: &mut K) -> Ending
    requires { (bytes : List ℕ) × HasGot feed bytes }
    ensures { (bytes : List ℕ) (boxes : List Handed) → HasGot feed bytes
        → SaysOfBytes asked.Check bytes (K.held sink.old) (K.held sink.new) (K.faults sink.old) (K.faults sink.new) boxes boxes result }
{
    let script = match finish_script(feed) {
        Ok(script) => script,
        Err(ReadRefused::Memory) => return Ending::Memory,
        Err(ReadRefused::Script(error)) => {
            tell_refusal(error.line, error.cause.word(), sink);
            return Ending::Refused;
        }
    };
    match write_counts(&script, sink) {
        Ok(()) => Ending::Done,
        Err(_) => Ending::WriteFault,
    }
}

fn write_counts<K: Sink>(script: &Script, sink: &mut K) -> Result<(), Failed>
    requires { IsWithinLimits script.now }
    ensures whole { OnOk result (Appends (K.held sink.old) (K.held sink.new) (check_line script.now)) }
    ensures kept { OnOk result (K.faults sink.new ≡ K.faults sink.old) }
    ensures part { AppendsPart (K.held sink.old) (K.held sink.new) (check_line script.now) }
    ensures cause { OnErr result (Rose (K.faults sink.old) (K.faults sink.new)) }
{
    let sessions = script.sessions.as_slice();
    write_summary(sessions.len() as u64, count_commands(sessions), sink)
}

fn count_commands(sessions: &[Session]) -> u64
    requires { sum_by (λ session. length session.commands) sessions.now < 2 ^ 64 }
    ensures { result ≡ sum_by (λ session. length session.commands) sessions.now }
{
    let mut count = 0;
    for session in sessions {
        count += session.commands.len() as u64;
    }
    count
}
