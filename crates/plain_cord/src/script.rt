//! What a script says.
use crate::items::Items;

/// The bytes between the quotes of a text, and how often they stand: `"ab"*3` is `ab` three times.
/// A text takes memory by its own spelling, however often it is repeated.
#[derive(Debug, Drop)]
pub struct Text {
    pub piece: Items<u8>,
    pub times: u32,
}

/// One command of a session. `a` and `b` are names of cords; `pos`, `n` and `i` count bytes; a `cell` is one of the board's 64.
#[derive(Debug, Drop)]
pub enum Command {
    Let {
        a: Items<u8>,
        text: Text,
    },
    /// As `Let`; over trees of nodes the bytes are an external node with a releaser of its own.
    Ext {
        a: Items<u8>,
        text: Text,
    },
    Copy {
        a: Items<u8>,
        b: Items<u8>,
    },
    Sub {
        a: Items<u8>,
        pos: u64,
        n: u64,
        b: Items<u8>,
    },
    Clear {
        a: Items<u8>,
    },
    Append {
        a: Items<u8>,
        text: Text,
    },
    Prepend {
        a: Items<u8>,
        text: Text,
    },
    Join {
        a: Items<u8>,
        b: Items<u8>,
    },
    JoinFront {
        a: Items<u8>,
        b: Items<u8>,
    },
    CutFront {
        a: Items<u8>,
        n: u64,
    },
    CutBack {
        a: Items<u8>,
        n: u64,
    },
    SetSum {
        a: Items<u8>,
        value: u32,
    },
    Sum {
        a: Items<u8>,
    },
    Size {
        a: Items<u8>,
    },
    Print {
        a: Items<u8>,
    },
    At {
        a: Items<u8>,
        i: u64,
    },
    Find {
        a: Items<u8>,
        text: Text,
    },
    Compare {
        a: Items<u8>,
        b: Items<u8>,
    },
    Starts {
        a: Items<u8>,
        text: Text,
    },
    Ends {
        a: Items<u8>,
        text: Text,
    },
    Put {
        a: Items<u8>,
        cell: u8,
    },
    Take {
        cell: u8,
        a: Items<u8>,
    },
    Peek {
        cell: u8,
        a: Items<u8>,
    },
    Swap {
        a: Items<u8>,
        cell: u8,
    },
    /// Begins the session's snapshot of the sampled cords' records.
    Snap,
    /// Reports the records that are linked.
    Walk,
    /// Ends the snapshot.
    Unsnap,
}

/// A session's name and its commands, in order.
#[derive(Debug, Drop)]
pub struct Session {
    pub name: Items<u8>,
    pub commands: Items<Command>,
}

/// A script that was read: the size of the node pool in numbers, the limit on live passes, and how many new trees
/// come to one that is sampled (0: none); then its sessions, in order.
#[derive(Debug, Drop)]
pub struct Script {
    pub pool: u32,
    pub passes: u32,
    pub stride: u32,
    pub sessions: Items<Session>,
}
