//! Trees that own their children.
ghost use Rattle.std.specs.Prelude.{◌≡◌, ℕ, ◌+◌, ◌<◌, ◌≤◌, ◌↔◌, [], ◌∷◌, ◌++◌, IsTrue, IfOk, MatchOption, None};
ghost use Rattle.std.specs.Option.{option_copied};
ghost use Rattle.node_forest.specs.Forest.{below};
ghost use Rattle.node_forest.specs.Counts.{first};
ghost use Rattle.count_core.specs.Search.{IsNext, lesser};

use crate::memory::Memory;
use node_forest::Kind;
use std::alloc::Global;
use std::marker::Model;

/// A node with all that lies below it. A node stands in a world under its number; `length` counts bytes.
#[derive(Debug, Drop)]
pub struct Tree {
    pub number: u32,
    pub kind: Kind,
    pub length: u64,
    pub children: Vec<Tree>,
}

impl Model for Tree {
    ghost use Rattle.node_forest.specs.Label.{Node};
    ghost use Rattle.node_forest.specs.Codes.{coded_node};

    ghost Value = { Node };

    ghost coded = { coded_node };

    ghost use Rattle.count_core.specs.TreeNode.{tree_node, most_le-node_count};
    ghost use Rattle.node_forest.specs.Forest.{node_count};

    ghost view = { tree_node };

    ghost size = { λ t. node_count t.1 };

    ghost use Rattle.std.proofs.Common.{arith};

    ghost size_decreases = { λ a h. omega (arith, most_le-node_count a.children.items) };
}

impl Tree {
    /// An equal tree.
    pub fn copied(&self, alloc: Global) -> Result<Tree, Memory>
        ensures { IfOk result (λ t. t ≡ self.now) }
    {
        let mut children = Vec::new(alloc);
        for child in &self.children {
            children.push(child.copied(alloc)?)?;
        }
        Ok(Tree {
            number: self.number,
            kind: self.kind,
            length: self.length,
            children,
        })
    }

    /// Whether the trees are equal.
    pub fn equals(&self, other: &Tree) -> bool
        ensures { IsTrue result ↔ (self.now ≡ other.now) }
    {
        if self.number != other.number || self.kind != other.kind || self.length != other.length {
            return false;
        }
        if self.children.len() != other.children.len() {
            return false;
        }
        for (i, child) in self.children.iter().enumerate() {
            if !child.equals(&other.children[i]) {
                return false;
            }
        }
        true
    }

    /// The first node of the tree, from the root on in preorder, that has the number.
    pub fn first(&self, number: u32) -> Option<&Tree>
        ensures { option_copied result ≡ first number (below self.now) }
    {
        if self.number == number {
            return Some(self);
        }
        for child in &self.children {
            if let Some(found) = child.first(number) {
                return Some(found);
            }
        }
        None
    }

    /// A number at or above the bound such that none between occurs in the tree.
    pub(crate) fn next_from(&self, from: u64) -> Option<u32>
        ensures { IsNext from (below self.now) result }
    {
        let mut next = if u64::from(self.number) >= from {
            Some(self.number)
        } else {
            None
        };
        for child in &self.children {
            next = lesser(next, child.next_from(from));
        }
        next
    }
}

/// The lesser of two numbers that may be missing.
pub(crate) fn lesser(a: Option<u32>, b: Option<u32>) -> Option<u32>
    ensures { result ≡ lesser a b }
{
    match (a, b) {
        (None, b) => b,
        (a, None) => a,
        (Some(a), Some(b)) => Some(a.min(b)),
    }
}
