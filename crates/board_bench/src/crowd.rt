//! Sessions that act on a board, each in a thread of its own.
ghost use Rattle.std.specs.Prelude.{◌≡◌, ◌≤◌, ◌<◌, ◌+◌, ◌-◌, ℕ, true, [], IfOk};
ghost use Rattle.std.specs.Thread.{IsSync};
ghost use Rattle.cord_board.specs.Passes.{board_view, IsOn};
ghost use Rattle.cord_board.specs.Views.{has, entries_left, session_of, cleared_of, IsSession, CanAct, IsLast};
ghost use Rattle.board_bench.specs.Crowds.{IsOpen, Returns};

use crate::item::Bytes;
use crate::plan::{Kind, Plan};
use cord_board::{Board, BoardPass, Entry};
use std::alloc::{AllocError, Global};
use std::io;
use std::sync::Wait;
use std::thread::{Threads, join_mut};
use std::time::{Clock, Duration, Instant};

/// A run: its history, how many cells had an item at the end, and the time from the first thread's start to the last one's end.
#[derive(Drop)]
pub struct Run {
    pub history: Vec<Entry>,
    pub full: usize,
    pub took: Duration,
}

fn act<R: Wait>(rt: &R, board: &Board<Bytes>, pass: &mut BoardPass<Bytes>, cell: u8, k: u16)
    requires board { IsOn board.now pass.old }
    requires cell { cell < 64 }
    requires session { CanAct (board_view pass.old) }
    ensures board { IsOn board.now pass.new }
    ensures session { IsSession (board_view pass.new) × (session_of (board_view pass.new) ≡ session_of (board_view pass.old)) }
    ensures left { entries_left (board_view pass.new) + 1 ≡ entries_left (board_view pass.old) }
{
    match Kind::at(k) {
        Kind::Put => {
            let _ = board.put(rt, pass, cell, Bytes(1));
        }
        Kind::Peek => {
            let mut asked = 0;
            let _ = board.peek(rt, pass, cell, &mut asked);
        }
        Kind::Swap => {
            let _ = board.swap(rt, pass, cell, Bytes(2));
        }
        Kind::Take => {
            let _ = board.take(rt, pass, cell);
        }
    }
}

fn act_all<R: Wait>(
    rt: &R,
    board: &Board<Bytes>,
    pass: &mut BoardPass<Bytes>,
    cell: u8,
    actions: u16,
)
    requires board { IsOn board.now pass.old }
    requires cell { cell < 64 }
    requires session { IsSession (board_view pass.old) }
    requires room { actions ≤ entries_left (board_view pass.old) }
    ensures board { IsOn board.now pass.new }
    ensures session { IsSession (board_view pass.new) × (session_of (board_view pass.new) ≡ session_of (board_view pass.old)) }
{
    for k in 0..actions {
        act(rt, board, pass, cell, k);
    }
}

// Runs a session in a new thread, beside the others in this one.
fn beside<R: Threads + Wait + Sync, G: FnMut()>(
    rt: &R,
    board: &Board<Bytes>,
    pass: &mut BoardPass<Bytes>,
    cell: u8,
    actions: u16,
    others: &mut G,
)
    requires board { IsOn board.now pass.old }
    requires cell { cell < 64 }
    requires session { IsSession (board_view pass.old) }
    requires room { actions ≤ entries_left (board_view pass.old) }
    requires others { G.pre others.old }
    ensures board { IsOn board.now pass.new }
    ensures session { IsSession (board_view pass.new) × (session_of (board_view pass.new) ≡ session_of (board_view pass.old)) }
    ensures others { G.step others.old (tt) others.new }
{
    join_mut(
        rt,
        &mut ||
            requires board { IsOn board.now pass.now }
            requires cell { cell < 64 }
            requires session { IsSession (board_view pass.now) }
            requires room { actions ≤ entries_left (board_view pass.now) }
            ensures board { IsOn board.entry.now pass.exit.now }
            ensures session { IsSession (board_view pass.exit.now) × (session_of (board_view pass.exit.now) ≡ session_of (board_view pass.entry.now)) }
        { act_all(rt, board, pass, cell, actions) },
        others,
    );
}

// Gives the sessions from 1 to the plan's number their passes, runs them side by side and takes the passes back. `left`
// entries are for them.
fn play<R: Threads + Wait + Sync>(
    rt: &R,
    board: &Board<Bytes>,
    root: &mut BoardPass<Bytes>,
    plan: Plan,
    left: usize,
)
    requires board { IsOn board.now root.old }
    requires open { IsOpen (board_view root.old) plan.sessions }
    requires left { left ≤ entries_left (board_view root.old) }
    ensures board { IsOn board.now root.new }
    ensures back { Returns (board_view root.old) (board_view root.new) }
{
    let session = plan.sessions;
    let actions = plan.actions;
    let room = usize::from(actions);
    if session == 0 || left < room {
        return;
    }
    let cell = plan.cells.of(session);
    let rest = left - room;
    let others = Plan {
        sessions: session - 1,
        ..plan
    };
    let mut pass = board.split(root, session, room);
    beside(
        rt,
        board,
        &mut pass,
        cell,
        actions,
        &mut ||
            requires sync { IsSync R.row }
            requires board { IsOn board.now root.now }
            requires open { IsOpen (board_view root.now) others.sessions }
            requires left { rest ≤ entries_left (board_view root.now) }
            ensures board { IsOn board.entry.now root.exit.now }
            ensures back { Returns (board_view root.entry.now) (board_view root.exit.now) }
        { play(rt, board, root, others, rest) },
    );
    board.merge(root, pass);
}

// Takes out what lies in the cells, and gives the number of items.
fn clear_all<R: Wait>(rt: &R, board: &Board<Bytes>, pass: &mut BoardPass<Bytes>) -> usize
    requires board { IsOn board.now pass.old }
    requires last { IsLast (board_view pass.old) }
    ensures board { IsOn board.now pass.new }
    ensures last { IsLast (board_view pass.new) }
    ensures all { (k : ℕ) → k < 64 → has k (cleared_of (board_view pass.new)) ≡ true }
    ensures few { result ≤ 64 }
{
    let mut full = 0;
    for cell in 0..64u8 {
        if board.clear(rt, pass, cell).is_some() {
            full += 1;
        }
    }
    full
}

/// Runs the plan on a new board.
pub fn on_board<R: Threads + Wait + Clock + Sync>(
    rt: &R,
    alloc: Global,
    plan: Plan,
) -> io::Result<Run> {
    let entries = plan.all();
    let (board, mut root) = Board::start(alloc, entries).map_err(|_| AllocError)?;
    let start = Instant::now(rt);
    play(rt, &board, &mut root, plan, entries);
    let end = Instant::now(rt);
    let full = clear_all(rt, &board, &mut root);
    let history = board.finish(root);
    Ok(Run {
        history,
        full,
        took: end?.duration_since(start?),
    })
}
