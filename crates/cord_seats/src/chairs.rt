//! What each session has while it runs, and how it is given out and collected.
ghost use Rattle.std.specs.Prelude.{◌≡◌, ◌≤◌, ◌<◌, ℕ, [], length, vec_capacity, slice_index_or, IfSome, Some, map};
ghost use Rattle.node_pool.specs.Starts.{slot_count};
ghost use Rattle.cord_commands.specs.Slots.{lengths_in};
ghost use Rattle.cord_seats.specs.Causes.{IsShown};
ghost use Rattle.cord_seats.specs.Told.{IsToldAlone, externals_by};
ghost use Rattle.plain_cord.specs.declared.script.Session.{Session as Session_value};
ghost use Rattle.pool_rule.specs.Views.{View};
ghost use Rattle.cord_board.specs.Passes.{board_view, IsOn};
ghost use Rattle.cord_board.specs.Views.{joined_of, mine_in};
ghost use Rattle.board_weights.specs.Weights.{Accounts};
ghost use Rattle.cord_seats.specs.Entries.{entries_for, entries_for_all, entries_for_sessions};
ghost use Rattle.cord_seats.specs.Chairs.{own_slots, IsNew, StartsIn, EndsIn, Seated, Joined, Came};

use crate::board_cord::BoardCord;
use cord_board::{Board, BoardPass};
use cord_commands::Answer;
use node_pool::{Naming, Worker};
use plain_cord::{Command, Session};

/// A session's worker and its pass of the board, and its answers once it has run. No answers: it hasn't run, or memory ran out.
#[derive(Drop)]
pub struct Chair<P: Naming, S> {
    pub worker: Worker<P>,
    pub seat: S,
    pub answers: Option<Vec<Answer>>,
}

/// With a pass of the board.
pub type BoardChair<P> = Chair<P, BoardPass<BoardCord<P>>>;

/// What came back of the chairs.
#[derive(Drop)]
pub struct Gathered<P: Naming> {
    pub workers: Vec<Worker<P>>,
    pub answers: Vec<Option<Vec<Answer>>>,
}

fn entries_for(command: &Command) -> usize
    ensures { result ≡ entries_for command.now }
{
    match command {
        Command::Put { .. } => 1,
        Command::Take { .. } => 1,
        Command::Peek { .. } => 1,
        Command::Swap { .. } => 1,
        _ => 0,
    }
}

fn entries_for_all(commands: &[Command]) -> usize
    ensures { result ≡ entries_for_all commands.now }
{
    let mut count = 0;
    for command in commands {
        count += entries_for(command);
    }
    count
}

/// How many entries of the board's history the sessions may need.
pub fn entries_for_sessions(sessions: &[Session]) -> usize
    requires { entries_for_sessions sessions.now ≤ 16384 }
    ensures { result ≡ entries_for_sessions sessions.now }
{
    let mut count = 0;
    for session in sessions {
        count += entries_for_all(session.commands.as_slice());
    }
    count
}

/// Gives each session a worker, and a pass with the entries that it may need.
pub fn seat_all<P: Naming>(
    board: &Board<BoardCord<P>>,
    root: &mut BoardPass<BoardCord<P>>,
    sessions: &[Session],
    workers: Vec<Worker<P>>,
    room: Vec<BoardChair<P>>,
) -> Vec<BoardChair<P>>
    requires few { length sessions.now ≤ 16 }
    requires workers { length workers.items ≡ length sessions.now }
    requires new { (p : ℕ) (w : View) → p < length workers.items
        → IsNew (slot_count P.workers P.table.slots) p (slice_index_or workers.items p w) }
    requires room { (room.items ≡ []) × (length sessions.now ≤ vec_capacity room) }
    requires board { IsOn board.now root.old }
    requires root { Seated (board_view root.old) sessions.now 0 }
    ensures len { length result.items ≡ length sessions.now }
    ensures board { IsOn board.now root.new }
    ensures root { Seated (board_view root.new) sessions.now (length sessions.now) }
    ensures starts { (p : ℕ) (s : Session_value) (c : _) → p < length sessions.now
        → StartsIn (slot_count P.workers P.table.slots) board.now (slice_index_or sessions.now p s).commands p (slice_index_or result.items p c) }
{
    let mut chairs = room;
    for worker in workers {
        let number = chairs.len();
        let entries = entries_for_all(sessions[number].commands.as_slice());
        let seat = board.split(root, number as u16, entries);
        chairs.push_reserved(Chair {
            worker,
            seat,
            answers: None,
        });
    }
    chairs
}

/// Takes the passes back, and gives the workers and the answers in the order of the sessions.
pub fn gather<P: Naming>(
    board: &Board<BoardCord<P>>,
    root: &mut BoardPass<BoardCord<P>>,
    sessions: &[Session],
    chairs: Vec<BoardChair<P>>,
    room: Gathered<P>,
) -> Gathered<P>
    requires len { length chairs.items ≡ length sessions.now }
    requires room { (room.workers.items ≡ []) × (room.answers.items ≡ []) × (length sessions.now ≤ vec_capacity room.answers)
        × (length sessions.now < vec_capacity room.workers) }
    requires board { IsOn board.now root.old }
    requires root { Seated (board_view root.old) sessions.now (length sessions.now) }
    requires ends { (p : ℕ) (s : Session_value) (c : _) → p < length sessions.now
        → EndsIn P.size P.limit (slot_count P.workers P.table.slots) board.now (slice_index_or sessions.now p s).commands p
        (slice_index_or chairs.items p c) }
    ensures len { length result.workers.items ≡ length sessions.now }
    ensures room { length result.workers.items < vec_capacity result.workers }
    ensures board { IsOn board.now root.new }
    ensures root { Joined (board_view root.new) (length sessions.now) (length sessions.now) }
    ensures answers { (length result.answers.items ≡ length sessions.now) × ((p : ℕ) (s : Session_value) (a : _) → p < length sessions.now
        → IfSome (slice_index_or result.answers.items p a) (λ rs. IsToldAlone P.size P.limit
        (length (own_slots (slot_count P.workers P.table.slots) p)) p (slice_index_or sessions.now p s).commands rs.items
        (mine_in (joined_of (board_view root.new)) p))) }
    ensures back { (p : ℕ) (w : View) → p < length sessions.now
        → Came (slot_count P.workers P.table.slots) (joined_of (board_view root.new)) p (slice_index_or result.workers.items p w) }
    ensures uses { (p : ℕ) (s : Session_value) (w : View) (a : _) → p < length sessions.now → IfSome (slice_index_or result.answers.items p a)
        (λ rs. lengths_in (slice_index_or result.workers.items p w) ≡ externals_by (slice_index_or sessions.now p s).commands rs.items) }
    ensures caused { (p : ℕ) (w : View) (a : _) → p < length sessions.now → IfSome (slice_index_or result.answers.items p a)
        (λ rs. IsShown P.size P.limit (length (own_slots (slot_count P.workers P.table.slots) p)) (slice_index_or result.workers.items p w) rs.items) }
{
    let Gathered {
        mut workers,
        mut answers,
    } = room;
    for chair in chairs {
        let Chair {
            worker,
            seat,
            answers: answered,
        } = chair;
        board.merge(root, seat);
        workers.push_reserved(worker);
        answers.push_reserved(answered);
    }
    Gathered { workers, answers }
}

/// All the answers, if each session has them.
pub fn all_answers(
    found: Vec<Option<Vec<Answer>>>,
    room: Vec<Vec<Answer>>,
) -> Option<Vec<Vec<Answer>>>
    requires { (room.items ≡ []) × (length found.items ≤ vec_capacity room) }
    ensures { IfSome result (λ all. found.items ≡ map (λ rs. Some rs) all.items) }
{
    let mut all = room;
    for answers in found {
        match answers {
            Some(answers) => all.push_reserved(answers),
            None => return None,
        }
    }
    Some(all)
}
