//! Reads a whole script.
ghost use Rattle.std.specs.Prelude.{◌≡◌, ◌≤◌, Ok, Err, IfOk, length};
ghost use Rattle.plain_cord.specs.declared.script.Script.{Script as Script_value};
ghost use Rattle.script_reader.specs.declared.fault.ScriptError.{ScriptError as ScriptError_value};
ghost use Rattle.script_reader.specs.ScriptReading.{Reads};
ghost use Rattle.script_reader.specs.Scripts.{read_of};
ghost use Rattle.script_reader.specs.ScriptSpelling.{Spells};
ghost use Rattle.script_reader.specs.Faults.{IsFirstFault};
ghost use Rattle.script_reader.specs.Limits.{IsWithinLimits};

use crate::fault::ReadRefused;
use crate::feed::{Memory, ScriptFeed};
use plain_cord::Script;
use std::alloc::Global;

/// The script, or its first fault: a feed of one piece.
fn read_all(alloc: Global, bytes: &[u8]) -> Result<Script, ReadRefused>
    requires { length bytes.now ≤ 16777216 }
    ensures { Reads (λ s. s) result (read_of bytes.now) }
{
    let mut feed = ScriptFeed::new(alloc);
    match feed.feed(bytes) {
        Ok(()) => feed.finish(),
        Err(Memory) => Err(ReadRefused::Memory),
    }
}

/// The script that the bytes spell, or its first fault: its line, counted from 1, and its cause.
/// Lines are checked from the first, and in a line the checks go in the order of the causes, words from left to right.
pub fn read_script(alloc: Global, bytes: &[u8]) -> Result<Script, ReadRefused>
    requires { length bytes.now ≤ 16777216 }
    // What is read is spelled so.
    ensures found { IfOk result (λ s. Spells bytes.now s) }
    // What is spelled so is read, unless memory runs out.
    ensures only { (s : Script_value) → Spells bytes.now s → Reads (λ s. s) result (Ok s) }
    // A fault is the first one.
    ensures first { (e : ScriptError_value) → result ≡ Err (ReadRefused.Script e) → IsFirstFault bytes.now e }
    // The first fault is told, unless memory runs out.
    ensures faulty { (e : ScriptError_value) → IsFirstFault bytes.now e → Reads {X = Script_value} (λ s. s) result (Err e) }
    // Names, texts, numbers and counts are within the limits of the format.
    ensures limits { IfOk result IsWithinLimits }
    // The script or the fault, as a function of the bytes.
    ensures exact { Reads (λ s. s) result (read_of bytes.now) }
{
    read_all(alloc, bytes)
}
