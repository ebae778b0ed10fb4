//! What the sessions of a run do.
ghost use Rattle.std.specs.Prelude.{◌<◌};

/// Where sessions act: all on cell 0, or each on a cell of its own.
#[derive(Clone, Copy, Debug, PartialEq, Eq)]
pub enum Cells {
    One,
    Own,
}

impl Cells {
    /// The cell of a session.
    pub fn of(self, session: u16) -> u8
        ensures { result < 64 }
    {
        match self {
            Cells::One => 0,
            Cells::Own => (session % 64) as u8,
        }
    }
}

/// So many sessions, each with so many actions, side by side.
#[derive(Clone, Copy)]
pub struct Plan {
    pub sessions: u16,
    pub actions: u16,
    pub cells: Cells,
}

impl Plan {
    /// The actions of all sessions.
    pub fn all(self) -> usize
        ensures { result < 4294967296 }
    {
        usize::from(self.sessions) * usize::from(self.actions)
    }
}

/// The kind of the k-th action: put, peek, swap, take, over and over.
pub enum Kind {
    Put,
    Peek,
    Swap,
    Take,
}

impl Kind {
    /// What action `k` of a plan is.
    pub fn at(k: u16) -> Kind {
        match k % 4 {
            0 => Kind::Put,
            1 => Kind::Peek,
            2 => Kind::Swap,
            _ => Kind::Take,
        }
    }
}
