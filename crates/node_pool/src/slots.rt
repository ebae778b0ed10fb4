//! The releaser slots of a worker.
ghost use Rattle.std.specs.Prelude.{◌≡◌, ◌+◌, ◌*◌, ◌<◌, ◌≤◌, List, ℕ, [], ◌∷◌, length, min, IfSome, IfNone};
ghost use Rattle.node_forest.specs.declared.kind.Kind.TheVariants.{External};
ghost use Rattle.pool_rule.specs.Notes.{uses_of};

use crate::naming::Naming;
use crate::tokens::Worker;
use node_edges::{Body, Edge};

/// The slots from `first` to below `end`. Those before `next` are used.
#[derive(Drop)]
pub(crate) struct Slots {
    pub(crate) first: u32,
    pub(crate) next: u32,
    pub(crate) end: u32,
    ghost ordered: { first ≤ next },
}

impl Slots {
    /// Those of worker `i`, of so many that all workers have.
    pub(crate) fn of_worker(i: usize, slots: usize) -> Slots
        requires few { (i < 64) × (slots ≤ 1024) }
        ensures first { result.first ≡ min (i * 16) slots }
        ensures unused { result.next ≡ result.first }
        ensures end { result.end ≡ min (i * 16 + 16) slots }
    {
        let first = (i * 16).min(slots) as u32;
        Slots {
            first,
            next: first,
            end: (i * 16 + 16).min(slots) as u32,
        }
    }

    /// A node was taken: an external uses the next slot.
    pub(crate) fn took(&mut self, edge: &Edge)
        requires { edge.now.0.kind ≡ External → self.old.next < self.old.end }
        ensures first { self.new.first ≡ self.old.first }
        ensures next { self.new.next ≡ self.old.next + length (uses_of edge.now.0.kind edge.now) }
        ensures end { self.new.end ≡ self.old.end }
    {
        match edge.body() {
            Body::External { .. } => self.next += 1,
            _ => {}
        }
    }
}

impl<P: Naming> Worker<P> {
    /// The slot that this worker's next external uses, where it has one left.
    pub fn next_slot(&self) -> Option<u32>
        ensures next { IfSome result (λ j. (later : List ℕ) × (self.now.unused ≡ j ∷ later)) }
        ensures none { IfNone result (self.now.unused ≡ []) }
    {
        let slots = &self.slots;
        if slots.next < slots.end {
            Some(slots.next)
        } else {
            None
        }
    }

    /// How many slots this worker's externals used. A slot isn't used a second time.
    pub fn used_slots(&self) -> u32
        ensures { result ≡ length self.now.used }
    {
        self.slots.next - self.slots.first
    }
}
