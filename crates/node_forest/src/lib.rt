//! Forests of labelled nodes: what edges, shapes and the trees of the count rule are, and the laws on them.
//! The code has only the kinds of a node, the sides of a branch and a limit; the rest is definitions and lemmas.
#![tactic(auto)]

mod kind;
mod limits;
mod side;

pub use kind::Kind;
pub use limits::MOST_EDGES;
pub use side::Side;
