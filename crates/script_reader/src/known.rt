//! What the lines of a script said so far.
ghost use Rattle.std.specs.Prelude.{◌≡◌, ◌^◌, ◌-◌, ◌<◌, not, Err};
ghost use Rattle.script_reader.specs.Feeds.{line_known, number_in, nothing_known, ended, IsKnown, KnownBy};
ghost use Rattle.script_reader.specs.Goes.{Goes};
ghost use Rattle.script_reader.specs.ScriptReading.{Reads, refused_at};
ghost use Rattle.script_reader.specs.Scripts.{is_ignored, said, step, script_of, is_header_line};
ghost use Rattle.script_reader.specs.Worded.{worded};

use crate::fault::{ReadRefused, ScriptError};
use crate::lines::read_item;
use crate::progress::{Progress, Settings, enter, may_stand};
use crate::verbs::read_verb;
use plain_cord::{Items, Script};
use script_words::{Cause, Refused, all_shown};
use std::alloc::Global;

/// Whether the line is neither empty nor a comment.
fn is_said(line: &[u8]) -> bool
    ensures { result ≡ not (is_ignored line.now) }
{
    match line {
        [] => false,
        [first, ..] => *first != b'#',
    }
}

/// Adds what the words of a line say.
#[tactic(auto, unfolding(crate::specs::Worded::worded))]
fn read_words(alloc: Global, progress: &mut Progress, line: &[u8]) -> Result<(), Refused>
    ensures { Goes result progress.new (worded progress.old line.now) }
{
    let (verb, rest) = read_verb(line)?;
    if !may_stand(progress, verb) {
        return Err(Refused::Fault(Cause::Misplaced));
    }
    let item = read_item(alloc, verb, rest)?;
    enter(alloc, progress, item)
}

/// A line that says something. One that can be read has no byte that a line may not have, so its bytes are tested only where it can't be.
#[tactic(auto, using(crate::proofs::WordedLaws::worded_is_said, crate::proofs::WordedLaws::fault_is_said, crate::proofs::WordedLaws::byte_is_said))]
fn read_said(alloc: Global, progress: &mut Progress, line: &[u8]) -> Result<(), Refused>
    ensures { Goes result progress.new (said progress.old line.now) }
{
    match read_words(alloc, progress, line) {
        Ok(()) => Ok(()),
        Err(Refused::Memory) => Err(Refused::Memory),
        Err(Refused::Fault(cause)) => {
            if all_shown(line) {
                Err(Refused::Fault(cause))
            } else {
                Err(Refused::Fault(Cause::Byte))
            }
        }
    }
}

/// One line more.
#[tactic(auto, unfolding(crate::specs::Scripts::step))]
fn read_line(alloc: Global, progress: &mut Progress, line: &[u8]) -> Result<(), Refused>
    ensures { Goes result progress.new (step progress.old line.now) }
{
    if is_said(line) {
        read_said(alloc, progress, line)
    } else {
        Ok(())
    }
}

fn is_header(line: &[u8]) -> bool
    ensures { result ≡ is_header_line line.now }
{
    line == b"cords 1".as_slice()
}

/// What is known of a script by the lines so far.
#[derive(Debug, Drop)]
pub enum Known {
    /// They may stand there: the number of the next line, and what was read.
    Going { next: u32, progress: Progress },
    /// The first fault.
    Faulty(ScriptError),
    /// Memory ran out.
    Wanting,
}

/// A line's fault, with the line's number.
fn at_line(refused: Refused, line: u32) -> ReadRefused
    ensures { result ≡ refused_at line refused }
{
    match refused {
        Refused::Memory => ReadRefused::Memory,
        Refused::Fault(cause) => ReadRefused::Script(ScriptError { line, cause }),
    }
}

/// The next line.
#[tactic(auto, unfolding(crate::specs::Feeds::line_known))]
fn read_next(
    alloc: Global,
    next: &mut u32,
    progress: &mut Progress,
    line: &[u8],
) -> Result<(), ReadRefused>
    requires { next.old < 2 ^ 32 - 1 }
    ensures { KnownBy result next.new progress.new (line_known (Known.Going next.old progress.old) line.now) }
{
    if *next == 1 {
        if !is_header(line) {
            return Err(at_line(Refused::Fault(Cause::Header), 1));
        }
        *next = 2;
        return Ok(());
    }
    match read_line(alloc, progress, line) {
        Ok(()) => {
            *next += 1;
            Ok(())
        }
        Err(refused) => Err(at_line(refused, *next)),
    }
}

/// The script, where no session is open at its end.
fn finish(progress: Progress, line: u32) -> Result<Script, ReadRefused>
    ensures { Reads (λ s. s) result (script_of line progress progress.current) }
{
    let Progress {
        settings,
        done,
        current,
        commands: _,
    } = progress;
    match current {
        None => Ok(Script {
            pool: settings.pool.unwrap_or(65536),
            passes: settings.passes.unwrap_or(16384),
            stride: settings.stride.unwrap_or(0),
            sessions: done,
        }),
        Some(_) => Err(ReadRefused::Script(ScriptError {
            line,
            cause: Cause::Unended,
        })),
    }
}

impl Known {
    /// Before the first line.
    pub fn new(alloc: Global) -> Known
        ensures { result ≡ nothing_known }
    {
        let settings = Settings {
            pool: None,
            passes: None,
            stride: None,
        };
        let progress = Progress {
            settings,
            done: Items::new(alloc),
            current: None,
            commands: 0,
        };
        Known::Going { next: 1, progress }
    }

    /// Reads one line more. Behind a fault nothing changes; where memory runs out, that is all that is known.
    #[tactic(auto, unfolding(crate::specs::Feeds::line_known))]
    pub fn line(&mut self, alloc: Global, line: &[u8])
        requires { number_in self.old < 2 ^ 32 - 1 }
        ensures { IsKnown self.new (line_known self.old line.now) }
    {
        let read = match self {
            Known::Going { next, progress } => read_next(alloc, next, progress, line),
            Known::Faulty(_) => return,
            Known::Wanting => return,
        };
        match read {
            Ok(()) => {}
            Err(ReadRefused::Memory) => {
                *self = Known::Wanting;
            }
            Err(ReadRefused::Script(error)) => {
                *self = Known::Faulty(error);
            }
        }
    }

    /// The script, where the lines are all.
    pub fn end(self) -> Result<Script, ReadRefused>
        ensures read { Reads (λ s. s) result (ended self) }
        ensures wanting { self ≡ Known.Wanting → result ≡ Err ReadRefused.Memory }
    {
        match self {
            Known::Going { next, progress } => {
                if next == 1 {
                    return Err(at_line(Refused::Fault(Cause::Header), 1));
                }
                finish(progress, next)
            }
            Known::Faulty(error) => Err(ReadRefused::Script(error)),
            Known::Wanting => Err(ReadRefused::Memory),
        }
    }
}
