//! The commands of a session that move cords to and from the board's cells. No bytes are copied.
ghost use Rattle.std.specs.Prelude.{◌≡◌, ◌≤◌, ◌<◌, length, IfOk};
ghost use Rattle.plain_cord.specs.declared.reply.Reply.TheVariants as replies;
ghost use Rattle.plain_cord.specs.declared.script.Command.TheVariants as commands;
ghost use Rattle.pool_rule.specs.Views.{View};
ghost use Rattle.cord_steps.specs.Answers.{Plain};
ghost use Rattle.cord_board.specs.Passes.{board_view, IsOn};
ghost use Rattle.cord_board.specs.Views.{mine_of, CanAct};
ghost use Rattle.board_weights.specs.Weights.{weigh_one};
ghost use Rattle.cord_commands.specs.declared.answer.Answer.TheVariants as answers;
ghost use Rattle.cord_commands.specs.Accounts.{trees_of, trees_in, IsSteady};
ghost use Rattle.cord_seats.specs.Seats.{GoesOn, IsEven, StaysSteady};
ghost use Rattle.cord_seats.specs.Working.{IsIdle, Advances};

use crate::board_cord::BoardCord;
use cord_board::{Board, BoardPass};
use cord_commands::{Answer, done, put_back, set_made, take_out, told, unset};
use cord_port::Releaser;
use cord_value::Cord;
use node_pool::{Naming, Pool, Worker};
use ordered_names::Names;
use plain_cord::Reply;
use std::alloc::{AllocError, Global};
use std::sync::Wait;

/// The answer where a cell was found empty.
pub fn empty(cell: u8) -> Answer
    ensures { result ≡ answers.Told (replies.Empty cell) }
{
    told(Reply::Empty { cell })
}

/// Releases the cord that lay in a cell, if one did.
pub fn let_lie<P: Naming, B: Releaser>(
    pool: &Pool<P, B>,
    w: &mut Worker<P>,
    was: Option<BoardCord<P>>,
)
    requires room { length w.old.holds ≤ 96 }
    ensures worker { IsSteady w.old w.new (weigh_one trees_of was) 0 }
{
    if let Some(was) = was {
        was.into_cord().release(pool, w);
    }
}

/// Moves the cord of a name into a cell. What lay there is released.
pub fn put<R: Wait, P: Naming, B: Releaser>(
    rt: &R,
    alloc: Global,
    pool: &Pool<P, B>,
    w: &mut Worker<P>,
    board: &Board<BoardCord<P>>,
    seat: &mut BoardPass<BoardCord<P>>,
    names: &mut Names<'_, Cord<P>>,
    a: &[u8],
    cell: u8,
) -> Result<Answer, AllocError>
    requires room { length w.old.holds ≤ 96 }
    requires board { IsOn board.now seat.old }
    requires cell { cell < 64 }
    requires session { CanAct (board_view seat.old) }
    ensures board { IsOn board.now seat.new }
    ensures on { GoesOn (board_view seat.old) (board_view seat.new) 1 }
    ensures steady { StaysSteady w.old w.new (trees_in names.old) (trees_in names.new) (mine_of (board_view seat.old)) (mine_of (board_view seat.new)) }
    ensures idle { IsIdle w.old w.new }
    ensures told { IfOk result
        (λ answer. Advances P.size P.limit (board_view seat.old) (board_view seat.new) w.old w.new names.old names.new (Plain (commands.Put a.now cell)) answer) }
{
    let Some(cord) = take_out(names, a) else {
        return unset(alloc, a);
    };
    let was = board.put(rt, seat, cell, BoardCord::of(cord));
    let_lie(pool, w, was);
    Ok(done())
}

/// Moves the cord of a cell out, and sets a name to it.
pub fn take<'a, R: Wait, P: Naming, B: Releaser>(
    rt: &R,
    pool: &Pool<P, B>,
    w: &mut Worker<P>,
    board: &Board<BoardCord<P>>,
    seat: &mut BoardPass<BoardCord<P>>,
    names: &mut Names<'a, Cord<P>>,
    cell: u8,
    a: &'a [u8],
) -> Result<Answer, AllocError>
    requires room { length w.old.holds ≤ 96 }
    requires board { IsOn board.now seat.old }
    requires cell { cell < 64 }
    requires session { CanAct (board_view seat.old) }
    ensures board { IsOn board.now seat.new }
    ensures on { GoesOn (board_view seat.old) (board_view seat.new) 1 }
    ensures steady { StaysSteady w.old w.new (trees_in names.old) (trees_in names.new) (mine_of (board_view seat.old)) (mine_of (board_view seat.new)) }
    ensures idle { IsIdle w.old w.new }
    ensures told { IfOk result
        (λ answer. Advances P.size P.limit (board_view seat.old) (board_view seat.new) w.old w.new names.old names.new (Plain (commands.Take cell a.now)) answer) }
{
    let Some(found) = board.take(rt, seat, cell) else {
        return Ok(empty(cell));
    };
    let cord = found.into_cord();
    let _ = cord.len();
    set_made(pool, w, names, a, Ok(cord))
}

/// Exchanges the cord of a name for that of a cell. Where the cell is empty nothing changes.
pub fn swap<R: Wait, P: Naming>(
    rt: &R,
    alloc: Global,
    board: &Board<BoardCord<P>>,
    seat: &mut BoardPass<BoardCord<P>>,
    names: &mut Names<'_, Cord<P>>,
    a: &[u8],
    cell: u8,
) -> Result<Answer, AllocError>
    requires board { IsOn board.now seat.old }
    requires cell { cell < 64 }
    requires session { CanAct (board_view seat.old) }
    ensures board { IsOn board.now seat.new }
    ensures on { GoesOn (board_view seat.old) (board_view seat.new) 1 }
    ensures even { IsEven (trees_in names.old) (trees_in names.new) (mine_of (board_view seat.old)) (mine_of (board_view seat.new)) }
    ensures told { IfOk result (λ answer. (w : View)
        → Advances P.size P.limit (board_view seat.old) (board_view seat.new) w w names.old names.new (Plain (commands.Swap a.now cell)) answer) }
{
    let Some(cord) = take_out(names, a) else {
        return unset(alloc, a);
    };
    match board.swap(rt, seat, cell, BoardCord::of(cord)) {
        Ok(found) => {
            let cord = found.into_cord();
            let _ = cord.len();
            put_back(names, a, cord);
            Ok(done())
        }
        Err(back) => {
            put_back(names, a, back.into_cord());
            Ok(empty(cell))
        }
    }
}
