//! How the program ends.
ghost use Rattle.std.specs.Prelude.{◌≡◌};
ghost use Rattle.cord_sessions.specs.Endings.{status_of};

use cord_port::Releaser;

/// The most bytes that a script may have.
pub const MOST_SCRIPT: usize = 16_777_216;

/// The endings of a call, in the order of their statuses.
#[derive(Clone, Copy, Debug, PartialEq, Eq)]
pub enum Ending {
    /// The script was run and its whole text written.
    Done,
    /// The bytes are no script.
    Refused,
    /// The words are no command.
    Usage,
    /// The source failed.
    ReadFault,
    /// The sink failed while the text was written.
    WriteFault,
    /// Want of memory.
    Memory,
    /// The script has more than 16,777,216 bytes.
    TooLong,
}

/// How a command ended, and the boxes that were handed in, in their order.
#[derive(Drop)]
pub struct Ended {
    pub ending: Ending,
    pub returned: Vec<Box<dyn Releaser + Send>>,
}

impl Ending {
    /// The exit status of the program.
    pub fn status(self) -> u8
        ensures { result ≡ status_of self }
    {
        match self {
            Ending::Done => 0,
            Ending::Refused => 1,
            Ending::Usage => 2,
            Ending::ReadFault => 3,
            Ending::WriteFault => 4,
            Ending::Memory => 5,
            Ending::TooLong => 6,
        }
    }
}
