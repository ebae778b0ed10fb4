//! Why a line of a script could not be read.
ghost use Rattle.std.specs.Prelude.{◌≡◌};
ghost use Rattle.script_words.specs.declared.fault.Refused.TheVariants.{Memory};
ghost use Rattle.script_words.specs.Causes.{word_of_cause};

use std::alloc::{AllocError, AllocFailed};

/// What is wrong with a script. The causes stand in the order in which a line is checked for them.
#[derive(Clone, Copy, Debug, PartialEq, Eq)]
pub enum Cause {
    /// Line 1 isn't exactly `cords 1`.
    Header,
    /// A byte of the line is outside 0x20 to 0x7e.
    Byte,
    /// The first word is none of the known ones.
    Command,
    /// The first word is known, and what it says isn't built yet.
    Unbuilt,
    /// An option after a session began, a command or `end` outside a session, or `session` inside one.
    Misplaced,
    /// Too few or too many words, or an empty one.
    Words,
    /// A word in a name's place is no name.
    Name,
    /// A word in a number's place is no number, or out of its range.
    Number,
    /// The last part is no text, or has a wrong length.
    Text,
    /// An option, or a session's name, for the second time.
    Duplicate,
    /// One session or one command too many.
    Many,
    /// The script ends within a session.
    Unended,
}

impl Cause {
    /// The word that names the cause.
    pub fn word(self) -> &'static [u8]
        ensures { result.now ≡ word_of_cause self }
    {
        match self {
            Cause::Header => b"header".as_slice(),
            Cause::Byte => b"byte".as_slice(),
            Cause::Command => b"command".as_slice(),
            Cause::Unbuilt => b"unbuilt".as_slice(),
            Cause::Misplaced => b"misplaced".as_slice(),
            Cause::Words => b"words".as_slice(),
            Cause::Name => b"name".as_slice(),
            Cause::Number => b"number".as_slice(),
            Cause::Text => b"text".as_slice(),
            Cause::Duplicate => b"duplicate".as_slice(),
            Cause::Many => b"many".as_slice(),
            Cause::Unended => b"unended".as_slice(),
        }
    }
}

/// Why a reader of a line gave nothing: memory ran out, or the line has a fault.
#[derive(Debug, Drop)]
pub enum Refused {
    Memory,
    Fault(Cause),
}

impl From<AllocError> for Refused {
    ghost from_gives = { λ _ e. e ≡ Memory };

    fn from(_e: AllocError) -> Refused {
        Refused::Memory
    }
}
