//! What tokens know. No value of these types is made but of deeds.
use crate::values::Note;
use arrayvec::ArrayVec;
use cordz_core::Settled;
use node_edges::Edge;
use std::collections::LinkedList;

/// An action or a read of the registry, with its answer.
#[derive(Drop)]
pub enum Deed {
    /// A slot and its stamp.
    Reserve(u16, u64),
    /// A refused reserve.
    Full,
    Free(u16),
    Track(u16),
    Unlink(u16),
    Settle(u16, Settled),
    /// A walker's number.
    Snap(u16),
    /// A walker's number, and the slots of the records that were deleted.
    Unsnap(u16, ArrayVec<u16, 256>),
    Head(Option<u16>),
    Next(u16, Option<u16>),
}

/// Who did it, and the number of actions up to then, with this one if it is one.
pub struct LogEntry {
    pub by: u16,
    pub place: u64,
    pub deed: Deed,
}

/// A note with the tree that it was set for.
pub struct Noted {
    pub note: Note,
    pub tree: Edge,
}

/// What a token has of a slot.
pub enum Claim {
    Nothing,
    /// It is reserved, with this stamp.
    Promised(u64),
    /// Its record is written, and isn't linked yet.
    Written(u64, LinkedList<Noted>),
    /// Its record is linked; its stamp, its notes, and whether it is bare.
    Owned(u64, LinkedList<Noted>, bool),
    /// Its record was unlinked; its stamp, and whether it is bare.
    Unlinked(u64, bool),
    /// Its record is deleted; its stamp, and whether it is bare, where these are known.
    Cleared(Option<(u64, bool)>),
    /// It has no share any more, and isn't free yet.
    Emptied,
}

/// What the token of one that walks or tracks knows. All lists but the claims only grow, and begin with what came last.
pub struct TokenView {
    pub number: u16,
    /// Its own actions and reads.
    pub own: LinkedList<LogEntry>,
    /// What it has of slots; the first claim on a slot is the one that stands.
    pub claims: LinkedList<(u16, Claim)>,
    /// The notes that it read.
    pub reads: LinkedList<Noted>,
    /// Of each ticket that it untracked, the stamp and the notes.
    pub untracked: LinkedList<(u64, LinkedList<Noted>)>,
    /// The stamps and updates of the tickets that it was shown.
    pub shown: LinkedList<(u64, u64)>,
}

/// What a token of the desk knows.
pub enum DeskView {
    /// The first token: how many others it gave, and what those knew that came back.
    Root(u16, LinkedList<TokenView>),
    Token(TokenView),
    /// A tracked record's owner: its slot, its stamp, its notes, and whether it is bare.
    Ticket(u16, u64, LinkedList<Noted>, bool),
    /// A ticket that lent what it knows.
    Lent,
}
