//! How a pool ends.
ghost use Rattle.std.specs.Prelude.{◌≡◌, ◌≢◌, ◌+◌, ◌-◌, ◌^◌, ◌<◌, ◌≤◌, [], ◌∷◌, ◌++◌, length, map, All, vec_len, vec_capacity};
ghost use Rattle.pool_rule.specs.Pools.{made_by, ended_by, IsKnown};
ghost use Rattle.pool_rule.specs.Views.{View};
ghost use Rattle.node_pool.specs.Boxes.{handed_of};
ghost use Rattle.node_pool.specs.Closes.{AreAllEnded, numbers_in, all_holds, IsAllIdle, IsWhole, AreCountsWithin, AreTakenByWorkers, AreReturned};
ghost use Rattle.node_pool.specs.Outlets.{box_in};

use crate::naming::Naming;
use crate::outlet::Outlet;
use crate::plays::Merges;
use crate::pool::Pool;
use crate::tokens::Worker;
use crate::view::{CountRule, PoolTerms, TokenSeat, TokenView};
use atomic_table::Table;
use cord_port::Releaser;
use std::alloc::Global;

/// What is left of a pool.
#[derive(Drop)]
pub struct Closed<B> {
    /// How many numbers are in use: all that stand in the workers' trees, and those in the trees of passes that haven't ended.
    pub in_use: u32,
    /// The boxes in their first order.
    pub releasers: Vec<B>,
}

impl<P: Naming, B: Releaser> Pool<P, B> {
    /// All workers are given. The numbers that stand in their trees are in use, and no others where they ended together as many passes
    /// as they made, so none where they hold nothing. Where none is, each box whose slot an external used was called for it, and no other box was.
    pub fn close(self, workers: Vec<Worker<P>>) -> Closed<B>
        requires all { length workers.items ≡ P.workers }
        ensures idle { IsAllIdle workers.items → result.in_use ≡ 0 }
        ensures counts { AreCountsWithin workers.items }
        ensures taken { AreTakenByWorkers workers.items }
        ensures held { AreAllEnded workers.items → result.in_use ≡ numbers_in P.size (all_holds workers.items) }
        ensures least { numbers_in P.size (all_holds workers.items) ≤ result.in_use }
        ensures most { result.in_use ≤ P.size }
        ensures nothing { result.in_use ≡ 0 → All (λ (v : View). v.holds ≡ []) workers.items }
        ensures boxes { AreReturned P.boxes workers.items result.in_use
            (map (λ b. record { calls = B.calls_of b; latest = B.latest_of b }) result.releasers.items) }
    {
        let Pool {
            table,
            numbers,
            passes: _,
            returned,
            of: _,
        } = self;
        let mut workers = workers;
        let Some(first) = workers.pop() else {
            unreachable!()
        };
        let Worker {
            badge,
            next: _,
            slots: _,
            of: _,
        } = first;
        let mut seat: TokenSeat<B> = badge.into_seat();
        for worker in workers {
            let Worker {
                badge,
                next: _,
                slots: _,
                of: _,
            } = worker;
            table
                .shared
                .join_seat::<Merges<P>>(&mut seat, badge.into_seat());
        }
        let (in_use, releasers) = emptied(table, seat, numbers, returned.into_room());
        Closed { in_use, releasers }
    }
}

// How many words aren't 0, and the boxes of all slots, in their order. The seat is all workers.
pub(crate) fn emptied<B: Releaser>(
    table: Table<Option<Outlet<B>>, TokenView, PoolTerms, CountRule, Global>,
    seat: TokenSeat<B>,
    numbers: usize,
    returned: Vec<B>,
) -> (u32, Vec<B>)
    requires seat { seat.table_id ≡ table.shared.table_id }
    requires numbers { (table.shared.table_id.words ≡ numbers + 1) × (table.shared.key.numbers ≡ numbers) × (numbers < 2 ^ 32) }
    requires boxes { length table.shared.key.boxes.items ≡ table.shared.table_id.slots }
    requires room { (vec_len returned ≡ 0) × (table.shared.table_id.slots ≤ vec_capacity returned) }
    requires whole { (seat.me.0.spare ≡ table.shared.key.workers) × (seat.me.0.away ≡ []) }
    ensures idle { IsWhole table.shared.key.workers seat.me.0 → result.0 ≡ 0 }
    ensures known { IsKnown seat.me.0 }
    ensures held { seat.me.0.passes ≡ 0 → made_by seat.me.0 ≡ ended_by seat.me.0 → result.0 ≡ numbers_in numbers seat.me.0.holds }
    ensures least { numbers_in numbers seat.me.0.holds ≤ result.0 }
    ensures most { result.0 ≤ numbers }
    ensures nothing { result.0 ≡ 0 → seat.me.0.holds ≡ [] }
    ensures boxes { AreReturned (map handed_of table.shared.key.boxes.items) (seat.me.0 ∷ []) result.0
        (map (λ b. record { calls = B.calls_of b; latest = B.latest_of b }) result.1.items) }
{
    let mut returned = returned;
    let slots = table.slot_count();
    let mut closed = table.close_with(seat);
    let mut in_use = 0u32;
    for n in 0..numbers {
        in_use = in_use_with(in_use, closed.word(n));
    }
    for i in 0..slots {
        let slot = closed.take(i);
        give_back(&mut returned, slot);
    }
    closed.free();
    (in_use, returned)
}

// One more number, if its word isn't 0.
fn in_use_with(in_use: u32, word: u64) -> u32
    requires { in_use < 2 ^ 32 - 1 }
    ensures most { result ≤ in_use + 1 }
    ensures free { word ≡ 0 → result ≡ in_use }
    ensures used { word ≢ 0 → result ≡ in_use + 1 }
{
    if word == 0 { in_use } else { in_use + 1 }
}

// The box of a slot.
pub(crate) fn give_back<B: Releaser>(returned: &mut Vec<B>, slot: Option<Outlet<B>>)
    requires { vec_len returned.old < vec_capacity returned.old }
    ensures back { returned.new.items ≡ returned.old.items ++ box_in slot }
    ensures count { vec_len returned.new ≤ vec_len returned.old + 1 }
    ensures room { vec_capacity returned.new ≡ vec_capacity returned.old }
{
    if let Some(outlet) = slot {
        returned.push_reserved(outlet.into_inner());
    }
}
