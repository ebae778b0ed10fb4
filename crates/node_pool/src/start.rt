//! How a pool begins: without a name, which the program then gives it.
ghost use Rattle.std.specs.Prelude.{◌≡◌, ◌+◌, ◌-◌, ◌*◌, ◌^◌, ◌<◌, ◌≤◌, [], ◌∷◌, length, map, min, All, IfOk, IfErr, vec_len, vec_capacity, Some};
ghost use Rattle.std.specs.Option.{option_map};
ghost use Rattle.count_core.specs.Steps.{zeroes};
ghost use Rattle.pool_rule.specs.Views.{first_view};
ghost use Rattle.node_pool.specs.Boxes.{below, handed_of, fresh_of, box_of};
ghost use Rattle.node_pool.specs.Outlets.{boxes_in};
ghost use Rattle.node_pool.specs.Starts.{slot_count, new_workers};
ghost use Rattle.room_reserve.specs.Rooms.{room_of};

use crate::close::{emptied, give_back};
use crate::naming::Naming;
use crate::outlet::Outlet;
use crate::plays::Hires;
use crate::pool::Pool;
use crate::slots::Slots;
use crate::tokens::Worker;
use crate::view::{CountRule, PoolTerms, TokenSeat, TokenView};
use atomic_table::{Badge, Refused, Table};
use cord_port::Releaser;
use room_reserve::Reserve;
use std::alloc::{AllocError, Global};
use std::marker::PhantomData;

/// A pool with one token, which has no name yet.
#[derive(Drop)]
pub struct Opened<B: Releaser> {
    pub(crate) table: Table<Option<Outlet<B>>, TokenView, PoolTerms, CountRule, Global>,
    pub(crate) badge: Badge<TokenView>,
    pub(crate) numbers: usize,
    pub(crate) passes: u64,
    pub(crate) workers: usize,
    // Room for the boxes that `close` gives back.
    pub(crate) returned: Reserve<B>,
    ghost wide: { table.shared.table_id.words ≡ numbers + 1 },
    ghost keyed: { (table.shared.key.numbers ≡ numbers) × (table.shared.key.workers ≡ workers) },
    ghost slotted: { length table.shared.key.boxes.items ≡ table.shared.table_id.slots },
    ghost seated: { badge.table_id ≡ table.shared.table_id },
    ghost first: { badge.views ≡ first_view (2 ^ 24) numbers passes workers (below (slot_count workers table.shared.table_id.slots)) ∷ [] },
    ghost small: { (0 < numbers) × (numbers ≤ 2 ^ 18) × (passes ≤ 2 ^ 18) × (0 < workers) × (workers ≤ 64) },
    ghost reserved: { table.shared.table_id.slots ≤ room_of returned },
}

/// Want of memory. The boxes come back, in their order, as they were handed in.
#[derive(Drop)]
pub struct PoolRefused<B> {
    pub releasers: Vec<B>,
}

// What is reserved before the first box is touched.
struct Room<B: Releaser> {
    words: Vec<u64>,
    slots: Vec<Option<Outlet<B>>>,
    boxes: Vec<(u64, Option<u64>)>,
    returned: Reserve<B>,
}

fn reserve<B: Releaser>(alloc: Global, numbers: usize, boxes: usize) -> Result<Room<B>, AllocError>
    requires { numbers ≤ 2 ^ 18 }
    ensures words { IfOk result (λ r. r.words.items ≡ zeroes (numbers + 1)) }
    ensures slots { IfOk result (λ r. (vec_len r.slots ≡ 0) × (boxes ≤ vec_capacity r.slots)) }
    ensures boxes { IfOk result (λ r. (vec_len r.boxes ≡ 0) × (boxes ≤ vec_capacity r.boxes)) }
    ensures returned { IfOk result (λ r. room_of r.returned ≡ boxes) }
{
    Ok(Room {
        words: vec![in alloc; 0u64; numbers + 1]?,
        slots: Vec::with_capacity(alloc, boxes)?,
        boxes: Vec::with_capacity(alloc, boxes)?,
        returned: Reserve::new(alloc, boxes)?,
    })
}

// Each box goes into a slot, and what it was is noted.
fn housed<B: Releaser>(
    releasers: Vec<B>,
    slots: &mut Vec<Option<Outlet<B>>>,
    boxes: &mut Vec<(u64, Option<u64>)>,
)
    requires calls { All (λ b. B.calls_of b < 2 ^ 64 - 1) releasers.items }
    requires slots { (vec_len slots.old ≡ 0) × (length releasers.items ≤ vec_capacity slots.old) }
    requires boxes { (vec_len boxes.old ≡ 0) × (length releasers.items ≤ vec_capacity boxes.old) }
    ensures slots { vec_len slots.new ≡ length releasers.items }
    ensures count { vec_len boxes.new ≡ length releasers.items }
    ensures boxes { boxes_in slots.new.items ≡ releasers.items }
    ensures noted { map handed_of boxes.new.items ≡ map (λ b. record { calls = B.calls_of b; latest = B.latest_of b }) releasers.items }
    ensures fresh { map (option_map (λ o. box_of o.before o.latest o.length)) slots.new.items ≡ map fresh_of boxes.new.items }
{
    for releaser in releasers {
        let outlet = Outlet::new(releaser);
        boxes.push_reserved((outlet.before, outlet.latest));
        slots.push_reserved(Some(outlet));
    }
}

// The boxes in slots that no token has.
fn unhoused<B: Releaser>(slots: Vec<Option<Outlet<B>>>, mut returned: Vec<B>) -> Vec<B>
    requires { (vec_len returned ≡ 0) × (length slots.items ≤ vec_capacity returned) }
    ensures { result.items ≡ boxes_in slots.items }
{
    for slot in slots {
        give_back(&mut returned, slot);
    }
    returned
}

impl<B: Releaser> Opened<B> {
    ghost use Rattle.node_pool.specs.Opened.{opened_table, opened_numbers, opened_passes, opened_workers, opened_boxes};

    /// A pool with so many numbers, at most so many live passes, so many workers and these boxes. All room that later calls need
    /// is reserved here.
    pub fn start(
        alloc: Global,
        numbers: u32,
        passes: u32,
        workers: u32,
        releasers: Vec<B>,
    ) -> Result<Opened<B>, PoolRefused<B>>
        requires numbers { (0 < numbers) × (numbers ≤ 2 ^ 18) }
        requires passes { (0 < passes) × (passes ≤ 2 ^ 18) }
        requires workers { (0 < workers) × (workers ≤ 64) }
        requires boxes { length releasers.items ≤ 256 }
        requires calls { All (λ b. B.calls_of b < 2 ^ 64 - 1) releasers.items }
        ensures numbers { IfOk result (λ o. opened_numbers o ≡ numbers) }
        ensures passes { IfOk result (λ o. opened_passes o ≡ passes) }
        ensures workers { IfOk result (λ o. opened_workers o ≡ workers) }
        ensures slots { IfOk result (λ o. (opened_table o).slots ≡ length releasers.items) }
        ensures boxes { IfOk result (λ o. opened_boxes o ≡ map (λ b. record { calls = B.calls_of b; latest = B.latest_of b }) releasers.items) }
        ensures refused { IfErr result (λ r. r.releasers.items ≡ releasers.items) }
    {
        let count = releasers.len();
        let Ok(room) = reserve(alloc, numbers as usize, count) else {
            return Err(PoolRefused { releasers });
        };
        let Room {
            words,
            mut slots,
            mut boxes,
            returned,
        } = room;
        housed(releasers, &mut slots, &mut boxes);
        let most = workers as usize * 16;
        let terms = PoolTerms {
            numbers: numbers as usize,
            passes: passes as usize,
            workers: workers as usize,
            slots: count.min(most),
            boxes,
        };
        match Table::new(alloc, words.as_slice(), slots, &terms) {
            Ok((table, seat)) => Ok(Opened {
                table,
                badge: seat.into_badge(),
                numbers: numbers as usize,
                passes: u64::from(passes),
                workers: workers as usize,
                returned,
            }),
            Err(Refused { slots }) => Err(PoolRefused {
                releasers: unhoused(slots, returned.into_room()),
            }),
        }
    }

    /// The pool under a name, and its workers. Worker `i`, counted from 0, has the slots of the boxes `16*i` to `16*i+15`, as far
    /// as there are so many.
    pub fn named<P: Naming>(
        self,
        alloc: Global,
    ) -> Result<(Pool<P, B>, Vec<Worker<P>>), PoolRefused<B>>
        requires table { opened_table self ≡ P.table }
        requires numbers { opened_numbers self ≡ P.size }
        requires passes { opened_passes self ≡ P.limit }
        requires workers { opened_workers self ≡ P.workers }
        requires boxes { opened_boxes self ≡ P.boxes }
        ensures workers { IfOk result (λ r. r.1.items ≡ new_workers P.size P.limit P.workers (slot_count P.workers P.table.slots)) }
        ensures refused { IfErr result (λ r. map (λ b. record { calls = B.calls_of b; latest = B.latest_of b }) r.releasers.items ≡ P.boxes) }
    {
        let Opened {
            table,
            badge,
            numbers,
            passes,
            workers,
            returned,
        } = self;
        let mut seat: TokenSeat<B> = badge.into_seat();
        let Ok(mut hired) = Vec::<Worker<P>>::with_capacity(alloc, workers) else {
            let (_, releasers) = emptied(table, seat, numbers, returned.into_room());
            return Err(PoolRefused { releasers });
        };
        let apart = numbers / workers;
        let slots = table.slot_count().min(workers * 16);
        for i in 0..workers - 1 {
            let part = table.shared.split_seat::<Hires>(&mut seat);
            hired.push_reserved(Worker {
                badge: part.into_badge(),
                next: begin(i, apart, numbers),
                slots: Slots::of_worker(i, slots),
                of: PhantomData,
            });
        }
        hired.push_reserved(Worker {
            badge: seat.into_badge(),
            next: begin(workers - 1, apart, numbers),
            slots: Slots::of_worker(workers - 1, slots),
            of: PhantomData,
        });
        let pool = Pool {
            table,
            numbers,
            passes,
            returned,
            of: PhantomData,
        };
        Ok((pool, hired))
    }
}

// How many words at most lie on the two cache lines of the first one, which threads read whenever they divide or join tokens.
const FIRST_WORDS: usize = 16;

// Where a worker's search begins: apart from the others', and behind the first words where there is room.
fn begin(i: usize, apart: usize, numbers: usize) -> u32
    requires { (0 < numbers) × (numbers ≤ 2 ^ 18) }
    ensures { result < numbers }
{
    let ahead = if apart > FIRST_WORDS { FIRST_WORDS } else { 0 };
    let place = i.saturating_mul(apart).saturating_add(ahead);
    if place < numbers { place as u32 } else { 0 }
}
