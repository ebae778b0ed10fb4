//! Counting the holders of a number.
ghost use Rattle.std.specs.Prelude.{◌≡◌, ℕ, ◌+◌, ◌-◌, ◌^◌, min};
ghost use Rattle.std.specs.Option.{option_copied};
ghost use Rattle.node_forest.specs.Forest.{nodes_of};
ghost use Rattle.node_forest.specs.Counts.{times, first, edges_in};
ghost use Rattle.count_core.specs.Holders.{holders};
ghost use Rattle.count_core.specs.Search.{IsNext};
ghost use Rattle.count_core.specs.Steps.{roots};

use crate::tree::{Tree, lesser};
use crate::view::{View, times};
use crate::world::World;

impl World {
    /// The direct holds of the number over all views, and over all different numbers in their trees, how often the number
    /// is an edge of it. A count past the greatest `u64` stands still there. No step uses it: it goes through all trees
    /// once for each different number.
    pub fn holders(&self, number: u32) -> u64
        ensures { result ≡ min (holders (roots self.now.views.items) number) (2 ^ 64 - 1) }
    {
        let mut count = direct_holds(&self.views, number);
        let mut from = 0u64;
        'numbers: while let Some(next) = next_from(&self.views, from) {
            count = count.saturating_add(edges_of_first(&self.views, next, number));
            from = u64::from(next) + 1;
        }
        count
    }
}

/// How often the number is held directly.
fn direct_holds(views: &[View], number: u32) -> u64
    ensures { result ≡ min (times number (roots views.now)) (2 ^ 64 - 1) }
{
    let mut count = 0u64;
    for view in views {
        count = count.saturating_add(times(&view.holds, number) as u64);
    }
    count
}

/// How often the number is an edge of the first node that has this other number.
fn edges_of_first(views: &[View], parent: u32, number: u32) -> u64
    ensures { result ≡ edges_in number (first parent (nodes_of (roots views.now))) }
{
    match first(views, parent) {
        Some(tree) => times(&tree.children, number) as u64,
        None => 0,
    }
}

/// The first node with the number, the views and their holds in order and each tree in preorder.
fn first(views: &[View], number: u32) -> Option<&Tree>
    ensures { option_copied result ≡ first number (nodes_of (roots views.now)) }
{
    for view in views {
        if let Some(found) = view.first(number) {
            return Some(found);
        }
    }
    None
}

/// A number at or above the bound such that none between occurs in the trees of the views.
fn next_from(views: &[View], from: u64) -> Option<u32>
    ensures { IsNext from (nodes_of (roots views.now)) result }
{
    let mut next = None;
    for view in views {
        next = lesser(next, view.next_from(from));
    }
    next
}
