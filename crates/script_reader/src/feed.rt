//! Reads a script in pieces.
ghost use Rattle.std.specs.Prelude.{◌≡◌, ℕ, ◌+◌, ◌-◌, ◌^◌, ◌<◌, ◌≤◌, ◌++◌, ◌↔◌, List, [], length, Some, None, Err, IsErr, OnOk, OnErr};
ghost use Rattle.script_reader.specs.declared.fault.ScriptError.{ScriptError as ScriptError_value};
ghost use Rattle.script_reader.specs.Feeds.{line_known, number_in, IsKnown};
ghost use Rattle.script_reader.specs.ScriptReading.{Reads};
ghost use Rattle.script_reader.specs.Scripts.{read_of};
ghost use Rattle.script_reader.specs.Faults.{IsFirstFault};

use crate::fault::{ReadRefused, ScriptError};
use crate::known::Known;
use memchr::memchr;
use plain_cord::Script;
use std::alloc::Global;

/// Memory ran out.
#[derive(Clone, Copy, Debug, PartialEq, Eq)]
pub struct Memory;

/// A script that comes in pieces. Its lines are read as they end; of the bytes only those behind the last newline are kept.
#[derive(Drop)]
pub struct ScriptFeed {
    alloc: Global,
    known: Known,
    rest: Vec<u8>,
    fed: u32,
    ghost counted: { number_in known ≤ fed + 1 },
    ghost few: { fed ≤ 16777216 },
}

// Reads the line that the rest and these bytes are, and then there is no rest.
fn read_ended(
    alloc: Global,
    known: &mut Known,
    rest: &mut Vec<u8>,
    line: &[u8],
) -> Result<(), Memory>
    requires { number_in known.old < 2 ^ 32 - 1 }
    ensures known { OnOk result (IsKnown known.new (line_known known.old (rest.old.items ++ line.now))) }
    ensures rest { OnOk result (rest.new.items ≡ []) }
    ensures err { OnErr result (known.new ≡ Known.Wanting) }
{
    if rest.is_empty() {
        known.line(alloc, line);
        return Ok(());
    }
    if rest.extend_from_slice(line).is_err() {
        *known = Known::Wanting;
        return Err(Memory);
    }
    known.line(alloc, rest.as_slice());
    rest.clear();
    Ok(())
}

impl ScriptFeed {
    ghost use Rattle.script_reader.specs.Fed.{IsWanting, fed_of, fed_length, HasGot, IsRest, newlines, EndsLine, Keeps};

    /// No bytes came yet.
    pub fn new(alloc: Global) -> ScriptFeed
        ensures got { HasGot result [] }
        ensures empty { fed_length result ≡ 0 }
        ensures going { ¬ (IsWanting result) }
    {
        ScriptFeed {
            alloc,
            known: Known::new(alloc),
            rest: Vec::new(alloc),
            fed: 0,
        }
    }

    // Ends the line that the rest and these bytes are.
    fn end_line(&mut self, line: &[u8]) -> Result<(), Memory>
        requires going { ¬ (IsWanting self.old) }
        requires room { fed_length self.old + (length line.now + 1) ≤ 16777216 }
        ensures ok { OnOk result (EndsLine (fed_of self.old) line.now (fed_of self.new)) }
        ensures going { OnOk result (¬ (IsWanting self.new)) }
        ensures count { OnOk result (fed_length self.new ≡ fed_length self.old + (length line.now + 1)) }
        ensures err { OnErr result (IsWanting self.new) }
    {
        read_ended(self.alloc, &mut self.known, &mut self.rest, line)?;
        self.fed += line.len() as u32 + 1;
        self.told()
    }

    // Keeps bytes without a newline.
    fn keep(&mut self, bytes: &[u8]) -> Result<(), Memory>
        requires going { ¬ (IsWanting self.old) }
        requires room { fed_length self.old + length bytes.now ≤ 16777216 }
        ensures ok { OnOk result (Keeps (fed_of self.old) bytes.now (fed_of self.new)) }
        ensures going { OnOk result (¬ (IsWanting self.new)) }
        ensures count { OnOk result (fed_length self.new ≡ fed_length self.old + length bytes.now) }
        ensures err { OnErr result (IsWanting self.new) }
    {
        if self.rest.extend_from_slice(bytes).is_err() {
            self.known = Known::Wanting;
            return Err(Memory);
        }
        self.fed += bytes.len() as u32;
        Ok(())
    }

    fn told(&self) -> Result<(), Memory>
        ensures { IsErr result ↔ IsWanting self.now }
    {
        match &self.known {
            Known::Wanting => Err(Memory),
            Known::Going { .. } => Ok(()),
            Known::Faulty(_) => Ok(()),
        }
    }

    /// Adds a piece. After want of memory every later call answers that too.
    pub fn feed(&mut self, piece: &[u8]) -> Result<(), Memory>
        requires { fed_length self.old + length piece.now ≤ 16777216 }
        ensures ok { OnOk result ((bytes : List ℕ) → HasGot self.old bytes → HasGot self.new (bytes ++ piece.now)) }
        ensures going { OnOk result (¬ (IsWanting self.new)) }
        ensures count { OnOk result (fed_length self.new ≡ fed_length self.old + length piece.now) }
        ensures wanting { IsWanting self.old → IsErr result }
        ensures err { OnErr result (IsWanting self.new) }
    {
        self.told()?;
        let mut after = piece;
        while let Some(place) = memchr(b'\n', after) {
            self.end_line(&after[..place])?;
            after = &after[place + 1..];
        }
        self.keep(after)
    }

    /// The bytes behind the last newline that came.
    pub fn rest(&self) -> &[u8]
        requires { ¬ (IsWanting self.now) }
        ensures { (bytes : List ℕ) → HasGot self.now bytes → IsRest bytes result.now }
    {
        self.rest.as_slice()
    }

    /// The first fault of the lines that ended. That a session is open at the end isn't known here.
    pub fn fault(&self) -> Option<ScriptError>
        requires { ¬ (IsWanting self.now) }
        ensures some { (bytes more : List ℕ) (e : ScriptError_value) → HasGot self.now bytes → result ≡ Some e → IsFirstFault (bytes ++ more) e }
        ensures none { (bytes more : List ℕ) (e : ScriptError_value) → HasGot self.now bytes → result ≡ None → IsFirstFault (bytes ++ more) e
            → newlines bytes < e.line }
    {
        match &self.known {
            Known::Faulty(error) => Some(*error),
            Known::Going { .. } => None,
            Known::Wanting => None,
        }
    }

    /// The script that all pieces spell, or its first fault, however they were cut.
    pub fn finish(self) -> Result<Script, ReadRefused>
        ensures read { (bytes : List ℕ) → HasGot self bytes → Reads (λ s. s) result (read_of bytes) }
        ensures wanting { IsWanting self → result ≡ Err ReadRefused.Memory }
    {
        let ScriptFeed {
            alloc,
            mut known,
            rest,
            fed: _,
        } = self;
        let line = rest.as_slice();
        if line.is_empty() {
            return known.end();
        }
        known.line(alloc, line);
        known.end()
    }
}
