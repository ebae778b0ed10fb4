//! What stands below a Sum at the root.
ghost use Rattle.std.specs.Prelude.{◌≡◌, IfSome, option_map};
ghost use Rattle.node_edges.specs.Roots.{below_sum, text_of, IsTop};
ghost use Rattle.node_edges.specs.Text.{text};
ghost use Rattle.node_edges.specs.Trees.{IsWellFormed};

use crate::edge::{Body, Edge};

/// A Sum's child, if it has one; any other root is the tree itself (`cord_internal.h`, `SkipCrcNode`).
pub fn skip_sum(edge: &Edge) -> Option<&Edge>
    ensures is { option_map (λ r. r.now) result ≡ below_sum edge.now }
    ensures text { text edge.now ≡ text_of (option_map (λ r. r.now) result) }
    ensures tree { IsWellFormed edge.now → IfSome result (λ r. IsTop r.now) }
{
    match edge.body() {
        Body::Sum { child, .. } => match child {
            Some(child) => Some(child),
            None => None,
        },
        _ => Some(edge),
    }
}
