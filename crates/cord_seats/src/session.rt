//! One session of a script.
ghost use Rattle.std.specs.Prelude.{◌≡◌, ◌≤◌, ℕ, List, [], length, None, IfOk};
ghost use Rattle.std.specs.List.{All};
ghost use Rattle.script_words.specs.Forms.{IsWithin};
ghost use Rattle.cord_board.specs.Passes.{board_view, IsOn};
ghost use Rattle.cord_board.specs.Views.{entries_left, session_of, mine_of, IsSession};
ghost use Rattle.ordered_names.specs.Named.{named, all_in};
ghost use Rattle.cord_steps.specs.Replies.{request_of};
ghost use Rattle.cord_commands.specs.Accounts.{trees_in, IsSteady};
ghost use Rattle.cord_commands.specs.Slots.{external_by, SameSlots, Uses};
ghost use Rattle.cord_seats.specs.Causes.{AreCaused};
ghost use Rattle.cord_seats.specs.Entries.{entries_for, entries_for_all};
ghost use Rattle.cord_seats.specs.Seats.{GoesOn, Settles, StaysSteady};
ghost use Rattle.cord_seats.specs.Told.{IsToldAlone, externals_by};
ghost use Rattle.cord_seats.specs.Working.{Advances};

use crate::board_cord::BoardCord;
use crate::boarding::{put, swap, take};
use crate::peeking::peek;
use cord_board::{Board, BoardPass};
use cord_commands::{Answer, run_command};
use cord_port::{Gate, Releaser};
use cord_value::Cord;
use node_pool::{Naming, Pool, Worker};
use ordered_names::Names;
use plain_cord::{Command, Session};
use std::alloc::{AllocError, Global};
use std::sync::Wait;

// Does a command of the session that the seat is of.
fn do_command<'a, R: Wait, P: Naming, B: Releaser>(
    rt: &R,
    alloc: Global,
    pool: &Pool<P, B>,
    w: &mut Worker<P>,
    board: &Board<BoardCord<P>>,
    seat: &mut BoardPass<BoardCord<P>>,
    names: &mut Names<'a, Cord<P>>,
    command: &'a Command,
) -> Result<Answer, AllocError>
    requires runnable { IsWithin command.now }
    requires room { length w.old.holds ≤ 96 }
    requires board { IsOn board.now seat.old }
    requires session { IsSession (board_view seat.old) × (entries_for command.now ≤ entries_left (board_view seat.old)) }
    ensures board { IsOn board.now seat.new }
    ensures on { GoesOn (board_view seat.old) (board_view seat.new) (entries_for command.now) }
    ensures steady { StaysSteady w.old w.new (trees_in names.old) (trees_in names.new) (mine_of (board_view seat.old)) (mine_of (board_view seat.new)) }
    ensures slots { SameSlots w.old w.new }
    ensures uses { IfOk result (λ answer. Uses w.old w.new (external_by command.now answer)) }
    ensures told { IfOk result
        (λ answer. Advances P.size P.limit (board_view seat.old) (board_view seat.new) w.old w.new names.old names.new (request_of command.now) answer) }
{
    match command {
        Command::Put { a, cell } => {
            put(rt, alloc, pool, w, board, seat, names, a.as_slice(), *cell)
        }
        Command::Take { cell, a } => take(rt, pool, w, board, seat, names, *cell, a.as_slice()),
        Command::Peek { cell, a } => peek(rt, pool, w, board, seat, names, *cell, a.as_slice()),
        Command::Swap { a, cell } => swap(rt, alloc, board, seat, names, a.as_slice(), *cell),
        _ => run_command(alloc, pool, w, names, command),
    }
}

// All commands, until memory runs out. The place of each answer is there before its command is done.
fn do_all<'a, R: Wait, P: Naming, B: Releaser, G: Gate>(
    rt: &R,
    alloc: Global,
    pool: &Pool<P, B>,
    w: &mut Worker<P>,
    board: &Board<BoardCord<P>>,
    seat: &mut BoardPass<BoardCord<P>>,
    names: &mut Names<'a, Cord<P>>,
    commands: &'a [Command],
    gate: &G,
) -> Result<Vec<Answer>, AllocError>
    requires runnable { All IsWithin commands.now }
    requires board { IsOn board.now seat.old }
    requires fresh { IsSession (board_view seat.old) × (mine_of (board_view seat.old) ≡ []) }
    requires none { (a : List ℕ) → named names.old a ≡ None }
    requires room { entries_for_all commands.now ≤ entries_left (board_view seat.old) }
    requires holds { length w.old.holds ≤ 96 }
    ensures board { IsOn board.now seat.new }
    ensures seat { IsSession (board_view seat.new) × (session_of (board_view seat.new) ≡ session_of (board_view seat.old)) }
    ensures told { IfOk result (λ answers. IsToldAlone P.size P.limit (length w.old.unused) (session_of (board_view seat.old)) commands.now answers.items
        (mine_of (board_view seat.new))) }
    ensures caused { IfOk result (λ answers. AreCaused P.size P.limit w.old w.new answers.items) }
    ensures slots { SameSlots w.old w.new }
    ensures uses { IfOk result (λ answers. Uses w.old w.new (externals_by commands.now answers.items)) }
    ensures steady { StaysSteady w.old w.new (trees_in names.old) (trees_in names.new) (mine_of (board_view seat.old)) (mine_of (board_view seat.new)) }
{
    let number = usize::from(seat.session());
    let mut answers = Vec::with_capacity(alloc, commands.len())?;
    for (i, command) in commands.iter().enumerate() {
        gate.before(rt, number, i);
        let answer = do_command(rt, alloc, pool, w, board, seat, names, command)?;
        answers.push_reserved(answer);
    }
    gate.before(rt, number, commands.len());
    Ok(answers)
}

// Releases the cords of all names, in the order of the names' bytes.
fn clear_names<P: Naming, B: Releaser>(
    pool: &Pool<P, B>,
    w: &mut Worker<P>,
    names: &mut Names<'_, Cord<P>>,
)
    requires holds { length w.old.holds ≤ 96 }
    ensures none { all_in names.new ≡ [] }
    ensures steady { IsSteady w.old w.new (trees_in names.old) 0 }
{
    while let Some((_, cord)) = names.pop() {
        cord.release(pool, w);
    }
}

/// Runs the session that the seat is of. The gate is called with the seat's session before each command, and once more after the
/// last. At its end, also where memory ran out, its names are cleared.
pub fn run_session<R: Wait, P: Naming, B: Releaser, G: Gate>(
    rt: &R,
    alloc: Global,
    session: &Session,
    pool: &Pool<P, B>,
    w: &mut Worker<P>,
    board: &Board<BoardCord<P>>,
    seat: &mut BoardPass<BoardCord<P>>,
    gate: &G,
) -> Result<Vec<Answer>, AllocError>
    requires runnable { All IsWithin session.now.commands }
    requires board { IsOn board.now seat.old }
    requires fresh { IsSession (board_view seat.old) × (mine_of (board_view seat.old) ≡ []) }
    requires room { entries_for_all session.now.commands ≤ entries_left (board_view seat.old) }
    requires holds { length w.old.holds ≤ 96 }
    ensures board { IsOn board.now seat.new }
    ensures seat { IsSession (board_view seat.new) × (session_of (board_view seat.new) ≡ session_of (board_view seat.old)) }
    ensures settled { Settles w.old w.new (mine_of (board_view seat.new)) }
    ensures told { IfOk result (λ answers. IsToldAlone P.size P.limit (length w.old.unused) (session_of (board_view seat.old)) session.now.commands
        answers.items (mine_of (board_view seat.new))) }
    ensures caused { IfOk result (λ answers. AreCaused P.size P.limit w.old w.new answers.items) }
    ensures slots { SameSlots w.old w.new }
    ensures uses { IfOk result (λ answers. Uses w.old w.new (externals_by session.now.commands answers.items)) }
{
    let mut names = Names::new(alloc);
    let answers = do_all(
        rt,
        alloc,
        pool,
        w,
        board,
        seat,
        &mut names,
        session.commands.as_slice(),
        gate,
    );
    clear_names(pool, w, &mut names);
    answers
}
