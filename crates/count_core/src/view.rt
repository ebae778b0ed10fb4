//! What a token holds directly.
ghost use Rattle.std.specs.Prelude.{◌≡◌, ℕ, ◌+◌, ◌<◌, ◌≤◌, ◌↔◌, Bool, true, false, [], ◌∷◌, ◌++◌, length, IsTrue, IsSome, IfOk, OnOk, OnErr, MatchOption};
ghost use Rattle.std.specs.Prelude.{None, Some, slice_get, slice_index_or, remove, if◌then◌else◌};
ghost use Rattle.std.specs.Option.{option_copied};
ghost use Rattle.node_forest.specs.Forest.{nodes_of};
ghost use Rattle.node_forest.specs.Counts.{times, first};
ghost use Rattle.count_core.specs.Marks.{CanPull, pulled, unpulled};
ghost use Rattle.count_core.specs.Search.{IsNext};
ghost use Rattle.count_core.specs.Views.{without, without_all, AreHeld, edges_of_one, AreDifferent, AreBelow, chosen, AreMarks};

use crate::memory::Memory;
use crate::tree::{Tree, lesser};
use std::alloc::Global;
use std::marker::Model;

/// The trees that a token, a worker or a pass, holds directly. A tree that it holds twice stands here twice.
#[derive(Debug, Drop)]
pub struct View {
    pub holds: Vec<Tree>,
}

impl Model for View {
    ghost use Rattle.std.specs.Prelude.{List};
    ghost use Rattle.std.specs.Coded.{coded_list};
    ghost use Rattle.node_forest.specs.Label.{Node};
    ghost use Rattle.node_forest.specs.Codes.{coded_node};

    ghost Value = { List Node };

    ghost coded = { coded_list coded_node };

    ghost view = { λ v. v.holds.items };
}

impl View {
    /// A view that holds nothing.
    pub(crate) fn new(alloc: Global) -> View
        ensures { result ≡ [] }
    {
        View {
            holds: Vec::new(alloc),
        }
    }

    /// The first direct hold with the number.
    pub(crate) fn direct(&self, number: u32) -> Option<&Tree>
        ensures { option_copied result ≡ first number self.now }
    {
        for tree in &self.holds {
            if tree.number == number {
                return Some(tree);
            }
        }
        None
    }

    /// Whether the number is held directly.
    pub(crate) fn has(&self, number: u32) -> bool
        ensures { IsTrue result ↔ IsSome (first number self.now) }
    {
        self.direct(number).is_some()
    }

    /// The first node with the number in the trees, each gone through in preorder.
    pub(crate) fn first(&self, number: u32) -> Option<&Tree>
        ensures { option_copied result ≡ first number (nodes_of self.now) }
    {
        for tree in &self.holds {
            if let Some(found) = tree.first(number) {
                return Some(found);
            }
        }
        None
    }

    /// Whether the number occurs in one of the trees.
    pub(crate) fn sees(&self, number: u32) -> bool
        ensures { IsTrue result ↔ IsSome (first number (nodes_of self.now)) }
    {
        self.first(number).is_some()
    }

    /// A number at or above the bound such that none between occurs in the trees.
    pub(crate) fn next_from(&self, from: u64) -> Option<u32>
        ensures { IsNext from (nodes_of self.now) result }
    {
        let mut next = None;
        for tree in &self.holds {
            next = lesser(next, tree.next_from(from));
        }
        next
    }

    /// Whether the trees are direct holds, each one of its own.
    pub(crate) fn holds_each(&self, trees: &[Tree]) -> bool
        ensures { IsTrue result ↔ AreHeld trees.now self.now }
    {
        for tree in trees {
            let Some(hold) = self.direct(tree.number) else {
                return false;
            };
            if !hold.equals(tree) || times(&self.holds, tree.number) < times(trees, tree.number) {
                return false;
            }
        }
        true
    }

    /// A new last hold.
    pub(crate) fn add(&mut self, tree: Tree) -> Result<(), Memory>
        ensures ok { OnOk result (self.new ≡ self.old ++ tree ∷ []) }
        ensures err { OnErr result (self.new ≡ self.old) }
    {
        self.holds.push(tree)?;
        Ok(())
    }

    /// The place of the first direct hold with the number.
    fn place_of(&self, number: u32) -> Option<usize>
        ensures { MatchOption result ((first number self.now ≡ None) × (without number self.now ≡ self.now))
            (λ i. (i < length self.now) × (slice_get self.now i ≡ first number self.now) × (without number self.now ≡ remove self.now i)) }
    {
        for (i, tree) in self.holds.iter().enumerate() {
            if tree.number == number {
                return Some(i);
            }
        }
        None
    }

    /// Takes out the first direct hold with the number, if there is one.
    fn remove(&mut self, number: u32)
        ensures { self.new ≡ without number self.old }
    {
        if let Some(i) = self.place_of(number) {
            self.holds.remove(i);
        }
    }

    /// The first direct hold with the number goes. Where this was the last hold of all, its children become direct holds.
    pub(crate) fn leave(&mut self, number: u32, last: bool) -> Result<(), Memory>
        ensures ok { OnOk result (self.new ≡ without number self.old ++ (if last then edges_of_one (first number self.old) else [])) }
        ensures err { OnErr result (self.new ≡ self.old) }
    {
        let Some(i) = self.place_of(number) else {
            return Ok(());
        };
        if !last {
            self.holds.remove(i);
            return Ok(());
        }
        let more = self.holds[i].children.len();
        self.holds.reserve(more)?;
        let Tree { mut children, .. } = self.holds.remove(i);
        self.holds.append(&mut children)?;
        Ok(())
    }

    /// A copy without the first direct hold that has the number.
    pub(crate) fn copied_without(&self, alloc: Global, number: u32) -> Result<View, Memory>
        ensures { IfOk result (λ view. view ≡ without number self.now) }
    {
        let mut holds = Vec::new(alloc);
        for tree in &self.holds {
            holds.push(tree.copied(alloc)?)?;
        }
        let mut copy = View { holds };
        copy.remove(number);
        Ok(copy)
    }

    /// Takes out the first direct hold with each of the numbers in turn; none where one of them isn't held.
    pub(crate) fn pull(
        &mut self,
        alloc: Global,
        numbers: &[u32],
    ) -> Result<Option<Vec<Tree>>, Memory>
        ensures { IfOk result (λ trees. MatchOption trees (CanPull numbers.now self.old
            → ⊥) (λ v. CanPull numbers.now self.old × (v.items ≡ pulled numbers.now self.old) × (self.new ≡ unpulled numbers.now self.old))) }
    {
        let mut out = Vec::new(alloc);
        for number in numbers {
            let Some(tree) = self.take(*number) else {
                return Ok(None);
            };
            out.push(tree)?;
        }
        Ok(Some(out))
    }

    /// Takes the first direct hold with the number.
    fn take(&mut self, number: u32) -> Option<Tree>
        ensures { MatchOption result (first number self.old ≡ None) (λ tree. (first number self.old ≡ Some tree) × (self.new ≡ without number self.old)) }
    {
        let i = self.place_of(number)?;
        Some(self.holds.remove(i))
    }

    /// Direct holds become the children of a new last hold.
    pub(crate) fn close(&mut self, children: &[Tree], tree: Tree) -> Result<(), Memory>
        requires { AreHeld children.now self.old }
        ensures ok { OnOk result (self.new ≡ without_all children.now self.old ++ tree ∷ []) }
        ensures err { OnErr result (self.new ≡ self.old) }
    {
        self.add(tree)?;
        for child in children {
            self.remove(child.number);
        }
        Ok(())
    }

    /// The holds with this mark, in their order, as a view of its own.
    pub(crate) fn part(&self, alloc: Global, marks: &[bool], wanted: bool) -> Result<View, Memory>
        requires { length marks.now ≡ length self.now }
        ensures { IfOk result (λ part. part ≡ chosen wanted marks.now self.now) }
    {
        let mut part = View::new(alloc);
        for (i, tree) in self.holds.iter().enumerate() {
            if marks[i] == wanted {
                part.add(tree.copied(alloc)?)?;
            }
        }
        Ok(part)
    }

    /// The trees become direct holds, behind these.
    pub(crate) fn gain(&mut self, mut trees: Vec<Tree>) -> Result<(), Memory>
        ensures { OnOk result (self.new ≡ self.old ++ trees.items) }
    {
        self.holds.append(&mut trees)?;
        Ok(())
    }

    /// All holds of the other view move behind these.
    pub(crate) fn append(&mut self, other: &mut View) -> Result<(), Memory>
        ensures ok { OnOk result (self.new ≡ self.old ++ other.old) }
        ensures err { OnErr result ((self.new ≡ self.old) × (other.new ≡ other.old)) }
    {
        self.holds.append(&mut other.holds)?;
        Ok(())
    }
}

/// How many of the trees have the number.
pub(crate) fn times(trees: &[Tree], number: u32) -> usize
    ensures { result ≡ times number trees.now }
{
    let mut count = 0;
    for tree in trees {
        if tree.number == number {
            count += 1;
        }
    }
    count
}

/// A mark for each of so many holds, set at these places; none where a place stands twice or is none of the holds'.
pub(crate) fn marks_of(
    alloc: Global,
    places: &[u32],
    holds: usize,
) -> Result<Option<Vec<bool>>, Memory>
    ensures { IfOk result (λ marks. MatchOption marks ((AreDifferent places.now × AreBelow holds places.now) → ⊥) (λ v. AreMarks places.now holds v.items)) }
{
    let mut marks = vec![in alloc; false; holds]?;
    for place in places {
        let place = *place as usize;
        if place >= holds || marks[place] {
            return Ok(None);
        }
        marks[place] = true;
    }
    Ok(Some(marks))
}
