//! The registry and its calls.
ghost use Rattle.std.specs.Prelude.{◌≡◌, ◌≢◌, ◌↔◌, ◌⊎◌, ℕ, ◌+◌, ◌-◌, ◌^◌, ◌<◌, ◌≤◌, [], ◌∷◌, length, IfOk, OnOk, OnErr, IfErr, IsErr, IsSome, IsNone};
ghost use Rattle.std.specs.Prelude.{IsTrue, true, false};
ghost use Rattle.cordz_core.specs.Contents.{Contents, entry_in, state_of, birth_of};
ghost use Rattle.cordz_core.specs.History.{History, Reserves, Frees, Tracks, Unlinks, Settles, Snaps, Unsnaps, Tracked, use_of};
ghost use Rattle.cordz_core.specs.Legal.{Replays, IsDeletionOf, IsRisingFrom, head_after, next_after, settle_places};
ghost use Rattle.cordz_core.specs.Links.{Moves, Begins, Ends, moved_to};
ghost use Rattle.cordz_core.specs.Queue.{has, leading, without_walker};
ghost use Rattle.cordz_core.specs.Limits.{most_actions, most_records, most_walkers};

use crate::answers::{RecordsFull, Settled};
use crate::limits::{MOST_RECORDS, MOST_WALKERS, QUEUE_ROOM};
use crate::links::{clear, first_free, head_without, point_back, point_on};
use crate::queue::{Waiting, behind, leading_records, place_of};
use crate::slot::{Clock, Entry, Slot, SlotState, Walker};
use arrayvec::ArrayVec;
use std::marker::Model;

/// The sampled records, the snapshots and the deletion queue.
#[derive(Drop)]
pub struct Registry {
    walkers: u8,
    clock: Clock,
    stamps: u64,
    head: Option<Slot>,
    entries: [Entry; MOST_RECORDS],
    newer: [Option<Slot>; MOST_RECORDS],
    births: [Option<Clock>; MOST_WALKERS],
    queue: ArrayVec<Waiting, QUEUE_ROOM>,
}

impl Model for Registry {
    ghost use Rattle.cordz_core.specs.Contents.{Contents};

    ghost Value = { Contents };

    ghost use Rattle.cordz_core.specs.Inside.{contents_of, HasRules};

    ghost view = { contents_of };

    ghost invariant = { HasRules };
}

impl Registry {
    /// An empty registry, whose snapshots these walkers may hold: 0 to 16.
    pub fn new(walkers: u8) -> Registry
        requires { walkers ≤ most_walkers }
        ensures walkers { result.walkers ≡ walkers }
        ensures clock { result.clock ≡ 0 }
        ensures states { (s : ℕ) → state_of result s ≡ SlotState.Free }
        ensures walking { (w : ℕ) → birth_of result w ≡ None }
        ensures history { Replays [] result }
    {
        Registry {
            walkers,
            clock: Clock { ticks: 0 },
            stamps: 0,
            head: None,
            entries: [Entry::FREE; MOST_RECORDS],
            newer: [None; MOST_RECORDS],
            births: [None; MOST_WALKERS],
            queue: ArrayVec::new(),
        }
    }

    /// The number of actions that have changed it.
    pub fn clock(&self) -> u64
        ensures { result ≡ self.now.clock }
    {
        self.clock.ticks
    }

    /// Where a slot stands.
    pub fn state(&self, slot: u16) -> SlotState
        requires { slot < most_records }
        ensures { result ≡ state_of self.now slot }
    {
        self.entries[slot as usize].state
    }

    /// How many walkers may hold a snapshot.
    pub fn walkers(&self) -> u8
        ensures same { result ≡ self.now.walkers }
        ensures few { result ≤ most_walkers }
    {
        self.walkers
    }

    /// Whether a walker holds a snapshot.
    pub fn is_walking(&self, walker: u8) -> bool
        requires { walker < most_walkers }
        ensures holds { IsTrue result ↔ IsSome (birth_of self.now walker) }
        ensures none { result ≡ false → birth_of self.now walker ≡ None }
    {
        self.births[walker as usize].is_some()
    }

    /// Gives a free slot and the next stamp.
    pub fn reserve(&mut self) -> Result<(u16, u64), RecordsFull>
        requires { self.old.clock < most_actions }
        ensures free { IfOk result (λ r. (r.0 < most_records) × (state_of self.old r.0 ≡ SlotState.Free)) }
        ensures stamp { IfOk result (λ r. (r.1 ≡ self.old.stamps + 1) × (self.new.stamps ≡ r.1)) }
        ensures moves { IfOk result (λ r. Moves self.old self.new r.0 SlotState.Reserved) }
        ensures full { OnErr result ((s : ℕ) → s < most_records → state_of self.old s ≢ SlotState.Free) }
        ensures in_use { IfErr result (λ e. e.in_use ≡ most_records) }
        ensures unchanged { OnErr result (self.new ≡ self.old) }
        ensures history { IfOk result (λ r. (h : History) → Replays h self.old → Replays (Reserves r.0 ∷ h) self.new) }
    {
        let Some(at) = first_free(&self.entries) else {
            return Err(RecordsFull {
                in_use: MOST_RECORDS as u16,
            });
        };
        self.clock.ticks += 1;
        self.stamps += 1;
        let stamp = self.stamps;
        let entry = &mut self.entries[at as usize];
        entry.state = SlotState::Reserved;
        entry.stamp = stamp;
        Ok((at as u16, stamp))
    }

    /// Gives a slot back that was reserved in vain, or whose record is cleared.
    pub fn free(&mut self, slot: u16)
        requires slot { slot < most_records }
        requires clock { self.old.clock < most_actions }
        requires unused { (state_of self.old slot ≡ SlotState.Reserved) ⊎ (state_of self.old slot ≡ SlotState.Clearing) }
        ensures moves { Moves self.old self.new slot SlotState.Free }
        ensures stamps { self.new.stamps ≡ self.old.stamps }
        ensures history { (h : History) → Replays h self.old → Replays (Frees slot ∷ h) self.new }
    {
        self.clock.ticks += 1;
        self.entries[slot as usize].state = SlotState::Free;
    }

    /// Links a record as the newest.
    pub fn track(&mut self, slot: u16)
        requires slot { slot < most_records }
        requires clock { self.old.clock < most_actions }
        requires reserved { state_of self.old slot ≡ SlotState.Reserved }
        ensures moves { Moves self.old self.new slot SlotState.Linked }
        ensures stamps { self.new.stamps ≡ self.old.stamps }
        ensures history { (h : History) → Replays h self.old → Replays (Tracks slot ∷ h) self.new }
    {
        let linked = Slot { number: slot as u8 };
        let next = self.head;
        self.clock.ticks += 1;
        let now = self.clock;
        point_back(&mut self.newer, next, Some(linked));
        self.newer[slot as usize] = None;
        let entry = &mut self.entries[slot as usize];
        entry.state = SlotState::Linked;
        entry.next = next;
        entry.linked = now;
        self.head = Some(linked);
    }

    /// Takes a record out of the list. Its own next stays, so a walk that stands on it goes on.
    pub fn unlink(&mut self, slot: u16)
        requires slot { slot < most_records }
        requires clock { self.old.clock < most_actions }
        requires linked { state_of self.old slot ≡ SlotState.Linked }
        ensures moves { Moves self.old self.new slot SlotState.Leaving }
        ensures stamps { self.new.stamps ≡ self.old.stamps }
        ensures history { (h : History) → Replays h self.old → Replays (Unlinks slot ∷ h) self.new }
    {
        self.clock.ticks += 1;
        let next = self.entries[slot as usize].next;
        let newer = self.newer[slot as usize];
        self.entries[slot as usize].state = SlotState::Leaving;
        point_on(&mut self.entries, newer, next);
        point_back(&mut self.newer, next, newer);
        self.head = head_without(self.head, newer, next);
    }

    /// Gives an unlinked record up: it is deleted at once if no snapshot lives, and else waits in the queue.
    pub fn settle(&mut self, slot: u16) -> Settled
        requires slot { slot < most_records }
        requires clock { self.old.clock < most_actions }
        requires leaving { state_of self.old slot ≡ SlotState.Leaving }
        ensures deleted { (result ≡ Settled.Deleted) ↔ (self.old.queue ≡ []) }
        ensures moves { Moves self.old self.new slot (moved_to result) }
        ensures stamps { self.new.stamps ≡ self.old.stamps }
        ensures history { (h : History) → Replays h self.old → Replays (Settles slot ∷ h) self.new }
        ensures place { (h : History) → Replays h self.old → ((result ≡ Settled.Deleted) ↔ IsDeletionOf (Settles slot ∷ h) slot (length (Settles slot ∷ h))) }
    {
        self.clock.ticks += 1;
        let now = self.clock;
        let entry = &mut self.entries[slot as usize];
        if self.queue.is_empty() {
            entry.state = SlotState::Clearing;
            return Settled::Deleted;
        }
        entry.state = SlotState::Queued;
        self.queue
            .push(Waiting::Record(Slot { number: slot as u8 }, now));
        Settled::Queued
    }

    /// Begins a walker's snapshot: from now on no record that a walk of it may reach is deleted.
    pub fn snap(&mut self, walker: u8)
        requires walker { walker < self.old.walkers }
        requires clock { self.old.clock < most_actions }
        requires none { birth_of self.old walker ≡ None }
        ensures begins { Begins self.old self.new walker }
        ensures stamps { self.new.stamps ≡ self.old.stamps }
        ensures history { (h : History) → Replays h self.old → Replays (Snaps walker ∷ h) self.new }
    {
        self.clock.ticks += 1;
        let now = self.clock;
        self.births[walker as usize] = Some(now);
        self.queue
            .push(Waiting::Snapshot(Walker { number: walker }, now));
    }

    /// Ends a walker's snapshot, and gives the slots of the records that waited for it alone, in the order of their settling.
    pub fn unsnap(&mut self, walker: u8) -> ArrayVec<u16, MOST_RECORDS>
        requires walker { walker < most_walkers }
        requires clock { self.old.clock < most_actions }
        requires one { IsSome (birth_of self.old walker) }
        ensures deleted { result.items ≡ leading (without_walker walker self.old.queue) }
        ensures ends { Ends self.old self.new walker result.items }
        ensures stamps { self.new.stamps ≡ self.old.stamps }
        ensures history { (h : History) → Replays h self.old → Replays (Unsnaps walker ∷ h) self.new }
        ensures given { (h : History) → Replays h self.old → (s : ℕ)
            → ((has s result.items ≡ true) ↔ ((use_of h s ≡ Tracked) × IsDeletionOf (Unsnaps walker ∷ h) s (length (Unsnaps walker ∷ h)))) }
        ensures order { (h : History) → Replays h self.old → IsRisingFrom 0 (settle_places h result.items) }
    {
        self.clock.ticks += 1;
        self.births[walker as usize] = None;
        let place = place_of(&self.queue, walker);
        self.queue.remove(place);
        let deleted = leading_records(&self.queue);
        self.queue = behind(&self.queue, deleted.len());
        clear(&mut self.entries, &deleted);
        deleted
    }

    /// The newest linked record, where a walk begins.
    pub fn head(&self) -> Option<u16>
        ensures { (h : History) → Replays h self.now → result ≡ head_after h }
    {
        match self.head {
            Some(slot) => Some(slot.number as u16),
            None => None,
        }
    }

    /// The record behind this one in a walk.
    pub fn next(&self, slot: u16) -> Option<u16>
        requires slot { slot < most_records }
        requires walked { (state_of self.now slot ≡ SlotState.Linked)
            ⊎ ((state_of self.now slot ≡ SlotState.Leaving) ⊎ (state_of self.now slot ≡ SlotState.Queued)) }
        ensures { (h : History) → Replays h self.now → result ≡ next_after h slot }
    {
        match self.entries[slot as usize].next {
            Some(slot) => Some(slot.number as u16),
            None => None,
        }
    }
}
