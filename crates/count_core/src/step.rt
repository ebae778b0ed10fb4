//! The steps that a token can make.
use crate::change::TreeChange;
use crate::tree::Tree;

/// One step of a token, by the place of its view. Each kind changes at most one word and two views; where a view holds
/// a number directly more than once, the first such hold is meant, and a new direct hold stands last.
#[derive(Debug, Drop)]
pub enum Step {
    /// A free number is taken: direct holds become the children of a new direct hold, which is the tree.
    Take {
        view: u32,
        number: u32,
        tree: Tree,
    },
    /// One direct hold more of a number that occurs in a tree of the view.
    Share {
        view: u32,
        number: u32,
    },
    /// A direct hold goes; the last leaver of a number gets its children as direct holds.
    Leave {
        view: u32,
        number: u32,
    },
    /// A word is read.
    Look {
        view: u32,
        number: u32,
    },
    /// Changes in place on a lone path, which goes down from a direct hold by the places of edges. Each change stands with
    /// its depth, the root's being 0. The root then stands last.
    Mark {
        view: u32,
        number: u32,
        path: Vec<u8>,
        changes: Vec<(u8, TreeChange)>,
    },
    /// The direct holds at these places move to a new view, which comes last. Moved or not, they keep their order.
    Split {
        view: u32,
        places: Vec<u32>,
    },
    /// All direct holds of the second view move to the first.
    Merge {
        view: u32,
        other: u32,
    },
    /// One live pass more.
    Counted {
        view: u32,
    },
    /// One live pass less.
    Uncounted {
        view: u32,
    },
    /// A releaser's slot is given back.
    Home {
        view: u32,
    },
}
