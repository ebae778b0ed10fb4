//! The commands that are drawn.

/// The side of a cord at which something is done.
#[derive(Clone, Copy, Debug, PartialEq, Eq)]
pub enum Side {
    Front,
    Back,
}

/// A command of a session. A name is one of `n0` to `n7` and a letter one of `a` to `h`, both by their numbers; a cell is
/// one of the session's four. Lengths and places are in bytes.
#[derive(Clone, Copy, Debug, PartialEq, Eq)]
pub enum LoadCommand {
    Let {
        a: u32,
        letter: u32,
        times: u32,
    },
    Add {
        side: Side,
        a: u32,
        letter: u32,
        times: u32,
    },
    Cut {
        side: Side,
        a: u32,
        n: u32,
    },
    Join {
        side: Side,
        a: u32,
        b: u32,
    },
    Sub {
        a: u32,
        pos: u32,
        n: u32,
        b: u32,
    },
    Copy {
        a: u32,
        b: u32,
    },
    Size {
        a: u32,
    },
    Find {
        a: u32,
    },
    Compare {
        a: u32,
        b: u32,
    },
    Put {
        a: u32,
        cell: u32,
    },
    Take {
        cell: u32,
        a: u32,
    },
    Snap,
    Walk,
    Unsnap,
}
