//! A board that is lent to threads, over items that they may not share.
ghost use Rattle.std.specs.Prelude.{◌≡◌, ◌+◌, ◌<◌, ℕ, All, length, slice_index_or};
ghost use Rattle.cord_board.specs.Passes.{board_view, IsOn};
ghost use Rattle.cord_board.specs.Views.{session_of, IsSession, CanAct};

use super::*;
use crate::tests::cleared;
use cord_port::Memory;
use std::alloc::{AllocError, Global};
use std::sync::Wait;
use std::test::Fail;
use std::thread::{self, Threads};

// A size that may be sent and not shared.
trait Measured: Drop {
    fn bytes(&self) -> u64;
}

#[derive(Drop)]
struct Bytes(u64);

impl Measured for Bytes {
    fn bytes(&self) -> u64 {
        self.0
    }
}

#[derive(Drop)]
struct Boxed {
    size: u64,
    inner: Box<dyn Measured + Send>,
}

impl BoardItem for Boxed {
    ghost length_of = { λ b. b.size };

    fn size(&self) -> u64 {
        self.size
    }
}

fn item_of(alloc: Global, size: u64) -> Result<Boxed, AllocError> {
    Ok(Boxed {
        size,
        inner: Box::new(alloc, Bytes(size))?,
    })
}

// Each session takes from the cell of its place among them. Their numbers begin with 2.
fn take_all<C: BoardItem + Drop + Send, R: Threads + Wait + Sync>(
    rt: &R,
    board: &Board<C>,
    seats: &mut [BoardPass<C>],
)
    requires few { length seats.old < 64 }
    requires on { All (λ s. IsOn board.now s) seats.old }
    requires sessions { All (λ s. CanAct (board_view s)) seats.old }
    requires numbers { (k : ℕ) (d : _) → k < length seats.old → session_of (board_view (slice_index_or seats.old k d)) ≡ k + 2 }
    ensures on { All (λ s. IsOn board.now s) seats.new }
    ensures sessions { All (λ s. IsSession (board_view s)) seats.new }
    ensures numbers { (k : ℕ) (d : _) → k < length seats.old → session_of (board_view (slice_index_or seats.new k d)) ≡ k + 2 }
    ensures len { length seats.new ≡ length seats.old }
{
    let take = |i: usize, seat: &mut BoardPass<C>|
        requires cell { i < 64 }
        requires on { IsOn board.now seat.now }
        requires session { CanAct (board_view seat.now) }
        requires number { session_of (board_view seat.now) ≡ i + 2 }
        ensures on { IsOn board.entry.now seat.exit.now }
        ensures session { IsSession (board_view seat.exit.now) }
        ensures number { session_of (board_view seat.exit.now) ≡ i + 2 }
    {
        let _ = board.take(rt, seat, i as u8);
    };
    thread::for_each_mut(rt, seats, 4, &take);
}

// Two items are put and taken by two sessions side by side. The history.
fn taken<C: BoardItem + Drop + Send, R: Threads + Wait + Sync>(
    rt: &R,
    alloc: Global,
    items: (C, C),
) -> Result<Vec<Entry>, Memory> {
    let (board, mut root) = Board::start(alloc, 4)?;
    let mut giver = board.split(&mut root, 1, 2);
    let one = board.split(&mut root, 2, 1);
    let two = board.split(&mut root, 3, 1);
    let _ = board.put(rt, &mut giver, 0, items.0);
    let _ = board.put(rt, &mut giver, 1, items.1);
    board.merge(&mut root, giver);
    let mut seats = [one, two];
    take_all(rt, &board, &mut seats);
    let [one, two] = seats;
    board.merge(&mut root, one);
    board.merge(&mut root, two);
    cleared(rt, &board, &mut root);
    Ok(board.finish(root))
}

#[test]
fn threads_share_a_board_of_items_that_they_may_not_share(rt: HostRuntime) -> Result<(), Fail> {
    let alloc = rt.alloc();
    let items = (item_of(alloc, 5)?, item_of(alloc, 6)?);
    let history = taken(&rt, alloc, items)?;
    for (session, size) in [(2, 5), (3, 6)] {
        let took = history
            .iter()
            .any(|e| e.session == session && e.was == Some(size));
        assert!(rt; took, "at {session}");
    }
    Ok(())
}
