//! Why a script could not be read.

use script_words::Cause;

/// The first fault of a script: its line, counted from 1, and what is wrong there.
#[derive(Clone, Copy, Debug, PartialEq, Eq)]
pub struct ScriptError {
    pub line: u32,
    pub cause: Cause,
}

/// Why no script was read: memory ran out, or the script has a fault.
#[derive(Debug, Drop)]
pub enum ReadRefused {
    Memory,
    Script(ScriptError),
}
