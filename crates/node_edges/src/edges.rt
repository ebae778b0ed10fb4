//! The edges of a node.
ghost use Rattle.std.specs.Prelude.{◌≡◌};
ghost use Rattle.node_forest.specs.Forest.{children};

use crate::edge::{Body, Edge};
use std::slice;

impl Edge {
    /// The edges in the node's body, from left to right: none of a Flat or an External, the one of a Part, and that of a Sum, if it
    /// has one.
    pub fn edges(&self) -> &[Edge]
        ensures { result.now ≡ children self.now }
    {
        match self.body() {
            Body::Part { child, .. } => slice::from_ref(child),
            Body::Sum { child, .. } => match child {
                Some(child) => slice::from_ref(child),
                None => &[],
            },
            Body::Branch { edges, .. } => edges,
            _ => &[],
        }
    }
}
