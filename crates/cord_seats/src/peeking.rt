//! Peeks: a name is set to a copy of a cell's cord.
ghost use Rattle.std.specs.Prelude.{◌≡◌, ◌≤◌, ◌<◌, ◌+◌, [], length, IfOk, IfSome, IsNone, IsSomeAnd, MatchOption, Option, None};
ghost use Rattle.plain_cord.specs.declared.history.Act.TheVariants.{Peek};
ghost use Rattle.plain_cord.specs.declared.script.Command.TheVariants as commands;
ghost use Rattle.plain_cord.specs.Deeds.{deed};
ghost use Rattle.cord_value.specs.Views.{CordView};
ghost use Rattle.cord_steps.specs.Answers.{Plain};
ghost use Rattle.cord_board.specs.Passes.{board_view, IsOn};
ghost use Rattle.cord_board.specs.Views.{mine_of, session_of, next_place, CanAct, Did};
ghost use Rattle.cord_commands.specs.Accounts.{trees_in, IsSteady};
ghost use Rattle.cord_seats.specs.Peeks.{copied_trees, one_if};
ghost use Rattle.cord_seats.specs.Seats.{GoesOn, StaysSteady};
ghost use Rattle.cord_seats.specs.Working.{IsIdle, Advances};

use crate::board_cord::{BoardCord, Peeker};
use crate::boarding::empty;
use cord_board::{Board, BoardPass};
use cord_commands::{Answer, set_made};
use cord_port::Releaser;
use cord_value::Cord;
use node_pool::{Naming, Pass, PassLimit, Pool, Worker};
use ordered_names::Names;
use std::alloc::AllocError;
use std::sync::Wait;

// Ends a pass that is there.
fn end_pass<P: Naming, B: Releaser>(pool: &Pool<P, B>, w: &mut Worker<P>, pass: Option<Pass<P>>)
    requires empty { IfSome pass (λ p. p.holds ≡ []) }
    ensures worker { IsSteady w.old w.new (one_if pass) 0 }
{
    if let Some(pass) = pass {
        pool.end(w, pass);
    }
}

// Copies the cord of a cell under this pass, which ends where it isn't needed.
fn copy_in_cell<R: Wait, P: Naming, B: Releaser>(
    rt: &R,
    pool: &Pool<P, B>,
    w: &mut Worker<P>,
    board: &Board<BoardCord<P>>,
    seat: &mut BoardPass<BoardCord<P>>,
    cell: u8,
    pass: Pass<P>,
) -> Option<Result<BoardCord<P>, AllocError>>
    requires room { length w.old.holds ≤ 96 }
    requires pass { pass.holds ≡ [] }
    requires board { IsOn board.now seat.old }
    requires cell { cell < 64 }
    requires session { CanAct (board_view seat.old) }
    ensures board { IsOn board.now seat.new }
    ensures did { let v = board_view seat.old in (was : Option CordView) × MatchOption was (IsNone result) (λ x. IsSomeAnd result (λ y. IfOk y (λ c. c ≡ x)))
        × Did v (board_view seat.new) (deed (session_of v) (next_place v) Peek cell None was) }
    ensures steady { IsSteady w.old w.new 1 (copied_trees result) }
{
    let mut peeker = Peeker {
        pool,
        worker: w,
        pass: Some(pass),
    };
    let copied = board.peek(rt, seat, cell, &mut peeker);
    let Peeker {
        pool: _,
        worker,
        pass,
    } = peeker;
    end_pass(pool, worker, pass);
    copied
}

/// Sets a name to a copy of the cord of a cell. The pass for it is asked for before the cell is looked at.
pub fn peek<'a, R: Wait, P: Naming, B: Releaser>(
    rt: &R,
    pool: &Pool<P, B>,
    w: &mut Worker<P>,
    board: &Board<BoardCord<P>>,
    seat: &mut BoardPass<BoardCord<P>>,
    names: &mut Names<'a, Cord<P>>,
    cell: u8,
    a: &'a [u8],
) -> Result<Answer, AllocError>
    requires room { length w.old.holds ≤ 96 }
    requires board { IsOn board.now seat.old }
    requires cell { cell < 64 }
    requires session { CanAct (board_view seat.old) }
    ensures board { IsOn board.now seat.new }
    ensures on { GoesOn (board_view seat.old) (board_view seat.new) 1 }
    ensures steady { StaysSteady w.old w.new (trees_in names.old) (trees_in names.new) (mine_of (board_view seat.old)) (mine_of (board_view seat.new)) }
    ensures idle { IsIdle w.old w.new }
    ensures told { IfOk result
        (λ answer. Advances P.size P.limit (board_view seat.old) (board_view seat.new) w.old w.new names.old names.new (Plain (commands.Peek cell a.now)) answer) }
{
    let pass = match pool.pass(w) {
        Ok(pass) => pass,
        Err(PassLimit { found }) => return Ok(Answer::Cords { found }),
    };
    let Some(copied) = copy_in_cell(rt, pool, w, board, seat, cell, pass) else {
        return Ok(empty(cell));
    };
    let copy = copied?;
    let cord = copy.into_cord();
    let _ = cord.len();
    set_made(pool, w, names, a, Ok(cord))
}
