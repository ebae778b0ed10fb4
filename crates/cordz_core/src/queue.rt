//! The deletion queue: snapshots, and the records that wait for them, in the order in which they came.
ghost use Rattle.std.specs.Prelude.{◌≡◌, ℕ, ◌+◌, ◌≤◌, ◌<◌, true, length, drop, All, remove};
ghost use Rattle.arrayvec.specs.ArrayVec.{array_vec_len};
ghost use Rattle.cordz_core.specs.Queue.{Apart, AllFit, codes, leading, without_walker, has};
ghost use Rattle.cordz_core.specs.Limits.{most_records, most_walkers};

use crate::limits::{MOST_RECORDS, QUEUE_ROOM};
use crate::slot::{Clock, Slot, Walker};
use arrayvec::ArrayVec;

/// What stands in the deletion queue, with the clock at which it came there.
#[derive(Clone, Copy, PartialEq, Eq, Debug)]
pub enum Waiting {
    Snapshot(Walker, Clock),
    Record(Slot, Clock),
}

impl Default for Waiting {
    fn default() -> Self {
        Waiting::Snapshot(Walker { number: 0 }, Clock { ticks: 0 })
    }
}

// The place of a walker's snapshot in the queue.
pub(crate) fn place_of(queue: &[Waiting], walker: u8) -> usize
    requires there { has (most_records + walker) (codes queue.now) ≡ true }
    requires fit { AllFit queue.now }
    ensures within { result < length queue.now }
    ensures place { remove queue.now result ≡ without_walker walker queue.now }
{
    for (at, waiting) in queue.iter().enumerate() {
        match waiting {
            Waiting::Snapshot(of, _) => {
                if of.number == walker {
                    return at;
                }
            }
            Waiting::Record(_, _) => {}
        }
    }
    unreachable!()
}

// The slots of the records at the front of a queue, up to the first snapshot.
pub(crate) fn leading_records(queue: &[Waiting]) -> ArrayVec<u16, MOST_RECORDS>
    requires apart { Apart (codes queue.now) }
    requires fit { AllFit queue.now }
    ensures items { result.items ≡ leading queue.now }
    ensures within { array_vec_len result ≤ length queue.now }
    ensures slots { All (λ s. s < most_records) result.items }
{
    let mut records = ArrayVec::new();
    for waiting in queue {
        match waiting {
            Waiting::Snapshot(_, _) => return records,
            Waiting::Record(slot, _) => records.push(slot.number as u16),
        }
    }
    records
}

// The queue without its first entries.
pub(crate) fn behind(queue: &[Waiting], first: usize) -> ArrayVec<Waiting, QUEUE_ROOM>
    requires fits { length queue.now ≤ most_records + most_walkers }
    requires within { first ≤ length queue.now }
    ensures { result.items ≡ drop first queue.now }
{
    let mut kept = ArrayVec::new();
    for waiting in &queue[first..] {
        kept.push(*waiting);
    }
    kept
}
