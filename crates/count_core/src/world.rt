//! A world of counted nodes, and its steps.
ghost use Rattle.std.specs.Prelude.{◌≡◌, ℕ, ◌+◌, ◌<◌, ◌≤◌, ◌^◌, ◌↔◌, [], ◌∷◌, ◌++◌, length, IsTrue, IfOk, OnErr};
ghost use Rattle.count_core.specs.Steps.{CanTake, CanStep, Does, start, take, share, leave, look, mark, split, merge, counted, uncounted, home};
ghost use Rattle.count_core.specs.Terms.{state_of, step_of, changes_of};

use crate::change::TreeChange;
use crate::edit::{edits, is_lone, never_deeper, places_of};
use crate::memory::Memory;
use crate::step::Step;
use crate::tree::Tree;
use crate::view::{View, marks_of};
use std::alloc::Global;
use std::mem;

/// No step raises a word, or that of live passes, above this, which is far from the end of their type.
const WORD_LIMIT: u64 = 1 << 32;

/// The words of all numbers, the word of live passes, and the views of all tokens. A word counts the holders of its number.
#[derive(Debug, Drop)]
pub struct World {
    pub words: Vec<u64>,
    pub live: u64,
    pub views: Vec<View>,
}

impl World {
    /// All words are 0, and each worker holds nothing.
    pub fn new(alloc: Global, numbers: u32, workers: u32) -> Result<World, Memory>
        ensures { IfOk result (λ world. state_of world ≡ start numbers workers) }
    {
        let words = vec![in alloc; 0u64; numbers as usize]?;
        let mut views = Vec::new(alloc);
        for _ in 0..workers {
            views.push(View::new(alloc))?;
        }
        Ok(World {
            words,
            live: 0,
            views,
        })
    }

    /// Does the step where it is possible, and answers whether it is.
    pub fn apply(&mut self, alloc: Global, step: &Step) -> Result<bool, Memory>
        ensures done { IfOk result (λ done. Does (step_of step.now) (state_of self.old) done (state_of self.new)) }
        ensures err { OnErr result (state_of self.new ≡ state_of self.old) }
    {
        match step {
            Step::Take { view, number, tree } => self.take(alloc, *view, *number, tree),
            Step::Share { view, number } => self.share(alloc, *view, *number),
            Step::Leave { view, number } => self.leave(*view, *number),
            Step::Look { view, number } => Ok(self.can_look(*view, *number)),
            Step::Mark {
                view,
                number,
                path,
                changes,
            } => self.mark(alloc, *view, *number, path, changes),
            Step::Split { view, places } => self.split(alloc, *view, places),
            Step::Merge { view, other } => self.merge(alloc, *view, *other),
            Step::Counted { view } => Ok(self.counted(*view)),
            Step::Uncounted { view } => Ok(self.uncounted(*view)),
            Step::Home { view } => Ok(self.has_view(*view)),
        }
    }

    fn has_view(&self, view: u32) -> bool
        ensures { IsTrue result ↔ (view < length self.now.views.items) }
    {
        (view as usize) < self.views.len()
    }

    fn has_place(&self, number: u32) -> bool
        ensures { IsTrue result ↔ (number < length self.now.words.items) }
    {
        (number as usize) < self.words.len()
    }

    fn can_take(&self, view: u32, number: u32, tree: &Tree) -> bool
        ensures { IsTrue result ↔ CanTake (state_of self.now) view number tree.now }
    {
        if !self.has_view(view)
            || !self.has_place(number)
            || tree.number != number
            || self.words[number as usize] != 0
        {
            return false;
        }
        self.views[view as usize].holds_each(&tree.children)
    }

    fn take(&mut self, alloc: Global, view: u32, number: u32, tree: &Tree) -> Result<bool, Memory>
        ensures done { IfOk result (λ done. Does (take view number tree.now) (state_of self.old) done (state_of self.new)) }
        ensures err { OnErr result (state_of self.new ≡ state_of self.old) }
    {
        if !self.can_take(view, number, tree) {
            return Ok(false);
        }
        let copy = tree.copied(alloc)?;
        self.views[view as usize].close(&tree.children, copy)?;
        self.words[number as usize] = 1;
        Ok(true)
    }

    fn share(&mut self, alloc: Global, view: u32, number: u32) -> Result<bool, Memory>
        ensures done { IfOk result (λ done. Does (share view number) (state_of self.old) done (state_of self.new)) }
        ensures err { OnErr result (state_of self.new ≡ state_of self.old) }
    {
        if !self.has_view(view)
            || !self.has_place(number)
            || self.words[number as usize] >= WORD_LIMIT
        {
            return Ok(false);
        }
        let Some(tree) = self.views[view as usize].first(number) else {
            return Ok(false);
        };
        let copy = tree.copied(alloc)?;
        self.views[view as usize].add(copy)?;
        self.words[number as usize] += 1;
        Ok(true)
    }

    fn leave(&mut self, view: u32, number: u32) -> Result<bool, Memory>
        ensures done { IfOk result (λ done. Does (leave view number) (state_of self.old) done (state_of self.new)) }
        ensures err { OnErr result (state_of self.new ≡ state_of self.old) }
    {
        if !self.has_view(view)
            || !self.has_place(number)
            || !self.views[view as usize].has(number)
        {
            return Ok(false);
        }
        let word = self.words[number as usize];
        self.views[view as usize].leave(number, word == 1)?;
        self.words[number as usize] = word.saturating_sub(1);
        Ok(true)
    }

    fn can_look(&self, view: u32, number: u32) -> bool
        ensures { IsTrue result ↔ CanStep (look view number) (state_of self.now) }
    {
        self.has_view(view) && self.has_place(number) && self.views[view as usize].sees(number)
    }

    fn mark(
        &mut self,
        alloc: Global,
        view: u32,
        number: u32,
        path: &[u8],
        changes: &[(u8, TreeChange)],
    ) -> Result<bool, Memory>
        ensures done { IfOk result (λ done. Does (mark view number path.now (changes_of changes.now)) (state_of self.old) done (state_of self.new)) }
        ensures err { OnErr result (state_of self.new ≡ state_of self.old) }
    {
        if !self.has_view(view) || !self.has_place(number) || !never_deeper(changes, path.len()) {
            return Ok(false);
        }
        let own = &self.views[view as usize];
        let Some(root) = own.direct(number) else {
            return Ok(false);
        };
        if !is_lone(&self.words, root, path) {
            return Ok(false);
        }
        let tree = root.copied(alloc)?;
        let path = places_of(alloc, path)?;
        let holds = own.copied_without(alloc, number)?;
        let Some(edited) = edits(alloc, tree, path, holds, changes)? else {
            return Ok(false);
        };
        self.views[view as usize] = edited;
        Ok(true)
    }

    fn split(&mut self, alloc: Global, view: u32, places: &[u32]) -> Result<bool, Memory>
        ensures done { IfOk result (λ done. Does (split view places.now) (state_of self.old) done (state_of self.new)) }
        ensures err { OnErr result (state_of self.new ≡ state_of self.old) }
    {
        if !self.has_view(view) {
            return Ok(false);
        }
        let own = &self.views[view as usize];
        let Some(marks) = marks_of(alloc, places, own.holds.len())? else {
            return Ok(false);
        };
        let staying = own.part(alloc, &marks, false)?;
        let moving = own.part(alloc, &marks, true)?;
        self.views.push(moving)?;
        self.views[view as usize] = staying;
        Ok(true)
    }

    fn merge(&mut self, alloc: Global, view: u32, other: u32) -> Result<bool, Memory>
        ensures done { IfOk result (λ done. Does (merge view other) (state_of self.old) done (state_of self.new)) }
        ensures err { OnErr result (state_of self.new ≡ state_of self.old) }
    {
        if !self.has_view(view) || !self.has_view(other) || view == other {
            return Ok(false);
        }
        let mut moved = mem::replace(&mut self.views[other as usize], View::new(alloc));
        if let Err(error) = self.views[view as usize].append(&mut moved) {
            self.views[other as usize] = moved;
            return Err(error);
        }
        Ok(true)
    }

    fn counted(&mut self, view: u32) -> bool
        ensures { Does (counted view) (state_of self.old) result (state_of self.new) }
    {
        if !self.has_view(view) || self.live >= WORD_LIMIT {
            return false;
        }
        self.live += 1;
        true
    }

    fn uncounted(&mut self, view: u32) -> bool
        ensures { Does (uncounted view) (state_of self.old) result (state_of self.new) }
    {
        if !self.has_view(view) || self.live == 0 {
            return false;
        }
        self.live -= 1;
        true
    }
}
