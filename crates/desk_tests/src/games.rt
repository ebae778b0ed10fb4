//! Whole games: moves at one table, beside the plain registry.
ghost use Rattle.std.specs.Prelude.{◌≡◌, ◌≤◌, length, vec_len, vec_capacity, All};
ghost use Rattle.node_pool.specs.Opened.{opened_table, opened_numbers, opened_passes, opened_workers, opened_boxes};
ghost use Rattle.cordz_desk.specs.Opened.{opened_desk, opened_walkers};

use crate::moves::{Answer, Move};
use crate::plain::Plain;
use crate::tables::Table;
use cordz_desk::{CordzDesk, CordzPass, DeskNaming, OpenedDesk};
use desk_seats::{Boxes, MOST, Owned, Seat, left, seated};
use node_pool::{Closed, Naming, Opened, Pool, Worker};
use std::alloc::Global;
use std::marker::Brand;
use std::process::Abort;
use std::sync::Wait;

/// A move, and its answer where that is told beforehand. Each answer is to be that of the plain registry too.
pub type Step = (Move, Option<Answer>);

/// The first step whose answer wasn't as it should be, how many shares the desk had at its end, and how many numbers were in use.
#[derive(Clone, Copy, PartialEq, Debug)]
pub struct Played {
    pub wrong: Option<usize>,
    pub left: usize,
    pub in_use: u32,
}

impl Played {
    /// All answers were as they should be, and nothing was left.
    pub const WELL: Played = Played {
        wrong: None,
        left: 0,
        in_use: 0,
    };
}

fn play<P: Naming, D: DeskNaming, R: Wait>(
    rt: &R,
    alloc: Global,
    table: &mut Table<P, D>,
    script: &[Step],
) -> Option<usize>
    ensures { vec_len table.new.seats ≡ vec_len table.old.seats }
{
    let Ok(mut plain) = Plain::new(alloc) else {
        return Some(0);
    };
    for i in 0..script.len() {
        let (step, wanted) = script[i];
        let answer = table.act(rt, alloc, step);
        if plain.act(step) != answer || wanted.unwrap_or(answer) != answer {
            return Some(i);
        }
    }
    None
}

// Ends all snapshots.
fn end_all<P: Naming, D: DeskNaming, R: Wait>(
    rt: &R,
    desk: &CordzDesk<P, D>,
    pool: &Pool<P, Boxes>,
    seats: &mut Vec<Seat<P, D>>,
)
    ensures { vec_len seats.new ≡ vec_len seats.old }
{
    for i in 0..seats.len() {
        if let Some(seat) = seats.get_mut(i) {
            if seat.walks && seat.made < MOST {
                seat.end(rt, desk, pool);
            }
        }
    }
}

// Gives all records up.
fn untrack_all<P: Naming, D: DeskNaming, R: Wait + Abort>(
    rt: &R,
    desk: &CordzDesk<P, D>,
    pool: &Pool<P, Boxes>,
    seat: &mut Seat<P, D>,
    tickets: Vec<Owned<P, D>>,
) {
    let mut tickets = tickets;
    for _ in 0..tickets.len() {
        if let Some(owned) = tickets.pop() {
            assert!(rt; seat.made < MOST);
            seat.untrack(rt, desk, pool, owned);
        }
    }
    tickets.destroy_empty();
}

fn close_all<P: Naming, D: DeskNaming, R: Wait + Abort>(
    rt: &R,
    table: Table<P, D>,
    passes: Vec<CordzPass<P, D>>,
    back: Vec<Worker<P>>,
) -> (usize, u32)
    requires seats { (vec_len table.seats ≡ P.workers) × (vec_len table.seats ≡ 4) }
    requires back { (vec_len back ≡ 0) × (4 ≤ vec_capacity back) }
{
    let Table {
        desk,
        pool,
        mut seats,
        tickets,
    } = table;
    let mut passes = passes;
    end_all(rt, &desk, &pool, &mut seats);
    untrack_all(rt, &desk, &pool, &mut seats[0], tickets);
    let workers = left(seats, &mut passes, back);
    let shares = desk.close(passes);
    let Closed {
        in_use,
        releasers: _,
    } = pool.close(workers);
    (shares.len(), in_use)
}

fn at_desk<P: Naming, D: DeskNaming, R: Wait + Abort>(
    rt: &R,
    alloc: Global,
    opened: OpenedDesk<P>,
    pool: Pool<P, Boxes>,
    workers: Vec<Worker<P>>,
    script: &[Step],
) -> Option<Played>
    requires desk { opened_desk opened ≡ D.desk }
    requires walkers { opened_walkers opened ≡ 4 }
    requires workers { (length workers.items ≡ P.workers) × (P.workers ≡ 4) }
    requires idle { All (λ w. length w.holds ≡ 0) workers.items }
{
    let Ok((desk, mut passes)) = opened.named::<D>(alloc) else {
        return None;
    };
    let (Ok(room), Ok(back)) = (Vec::with_capacity(alloc, 4), Vec::with_capacity(alloc, 4)) else {
        desk.close(passes);
        return None;
    };
    let Some(seats) = seated(workers, &mut passes, room) else {
        desk.close(passes);
        return None;
    };
    let mut table = Table {
        desk,
        pool,
        seats,
        tickets: Vec::new(alloc),
    };
    let wrong = play(rt, alloc, &mut table, script);
    let (left, in_use) = close_all(rt, table, passes, back);
    Some(Played {
        wrong,
        left,
        in_use,
    })
}

fn at_pool<P: Naming, R: Wait + Abort>(
    rt: &R,
    alloc: Global,
    opened: Opened<Boxes>,
    script: &[Step],
) -> Option<Played>
    requires table { opened_table opened ≡ P.table }
    requires numbers { opened_numbers opened ≡ P.size }
    requires passes { opened_passes opened ≡ P.limit }
    requires boxes { opened_boxes opened ≡ P.boxes }
    requires workers { (opened_workers opened ≡ P.workers) × (P.workers ≡ 4) }
{
    let Ok((pool, workers)) = opened.named::<P>(alloc) else {
        return None;
    };
    let Ok(desk) = OpenedDesk::<P>::start(alloc, 4) else {
        return None;
    };
    at_desk::<P, Brand, R>(rt, alloc, desk, pool, workers, script)
}

/// Plays the steps at a new desk of four seats. None where memory is wanting.
pub fn game<R: Wait + Abort>(rt: &R, alloc: Global, script: &[Step]) -> Option<Played> {
    let Ok(opened) = Opened::start(alloc, 4096, 1024, 4, Vec::new(alloc)) else {
        return None;
    };
    at_pool::<Brand, R>(rt, alloc, opened, script)
}
