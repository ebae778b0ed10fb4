//! The doubly linked list of records, in arrays: what is written where a record comes or goes.
ghost use Rattle.std.specs.Prelude.{◌≡◌, ◌≤◌, ℕ, ◌<◌, length, All, IsNone, IfSome, MatchOption};
ghost use Rattle.cordz_core.specs.Contents.{entry_in};
ghost use Rattle.cordz_core.specs.Links.{pointed_back, pointed_on, head_left, cleared};
ghost use Rattle.cordz_core.specs.Limits.{most_records};

use crate::limits::MOST_RECORDS;
use crate::slot::{Entry, Slot, SlotState};

// The record of this slot points back to a newer one.
pub(crate) fn point_back(
    newer: &mut [Option<Slot>; MOST_RECORDS],
    slot: Option<Slot>,
    to: Option<Slot>,
)
    ensures { newer.new ≡ pointed_back newer.old slot to }
{
    if let Some(slot) = slot {
        newer[slot.number as usize] = to;
    }
}

// The record of this slot points on to an older one.
pub(crate) fn point_on(entries: &mut [Entry; MOST_RECORDS], slot: Option<Slot>, to: Option<Slot>)
    ensures { entries.new ≡ pointed_on entries.old slot to }
{
    if let Some(slot) = slot {
        entries[slot.number as usize].next = to;
    }
}

// The head of the list, after the record between these two left.
pub(crate) fn head_without(
    head: Option<Slot>,
    newer: Option<Slot>,
    next: Option<Slot>,
) -> Option<Slot>
    ensures { result ≡ head_left head newer next }
{
    match newer {
        None => next,
        Some(_) => head,
    }
}

// Marks slots whose records are deleted.
pub(crate) fn clear(entries: &mut [Entry; MOST_RECORDS], slots: &[u16])
    requires { All (λ s. s < most_records) slots.now }
    ensures { entries.new ≡ cleared entries.old slots.now }
{
    for slot in slots {
        entries[*slot as usize].state = SlotState::Clearing;
    }
}

// The first free slot.
pub(crate) fn first_free(entries: &[Entry; MOST_RECORDS]) -> Option<u8>
    ensures found { IfSome result (λ s. (entry_in entries.now s).state ≡ SlotState.Free) }
    ensures full { IsNone result → (s : ℕ) → s < most_records → (entry_in entries.now s).state ≡ SlotState.Free → ⊥ }
{
    for at in 0..MOST_RECORDS {
        if entries[at].state == SlotState::Free {
            return Some(at as u8);
        }
    }
    None
}
