//! All sessions of a script, side by side over one pool and one board.
ghost use Rattle.std.specs.Prelude.{◌≡◌, ◌≤◌, ◌<◌, ◌+◌, ◌-◌, ◌^◌, ℕ, [], length, map, slice_index_or, vec_capacity, true, IfOk, IfErr, All};
ghost use Rattle.plain_cord.specs.declared.reply.Report.{Report as Report_value};
ghost use Rattle.plain_cord.specs.declared.script.Session.{Session as Session_value};
ghost use Rattle.node_pool.specs.Starts.{slot_count};
ghost use Rattle.node_pool.specs.Opened.{opened_table, opened_numbers, opened_passes, opened_workers, opened_boxes};
ghost use Rattle.cord_board.specs.Log.{cells_in};
ghost use Rattle.cord_board.specs.Passes.{board_view, IsOn};
ghost use Rattle.cord_board.specs.Views.{has, gave_of, joined_of, clearings_of, cleared_of, IsLast};
ghost use Rattle.cord_seats.specs.Causes.{AreShown};
ghost use Rattle.cord_seats.specs.Chairs.{StartsIn, EndsIn, Seated, below};
ghost use Rattle.cord_seats.specs.Clearings.{weigh_clearings};
ghost use Rattle.cord_seats.specs.Entries.{IsRunnableSession, entries_for_sessions};
ghost use Rattle.cord_commands.specs.Accounts.{trees_of, IsSteady};
ghost use Rattle.script_words.specs.Forms.{IsWithin};
ghost use Rattle.cord_commands.specs.Answers.{told_by};
ghost use Rattle.cord_steps.specs.Replies.{request_of};
ghost use Rattle.cord_runs.specs.Runs.{IsRun};
ghost use Rattle.cord_runs.specs.Scripts.{options_of, requests_of, boxes_of};
ghost use Rattle.cord_seats.specs.Boxes.{handed_in, AreCalled, AreBack};
ghost use Rattle.cord_seats.specs.Told.{AreAnswered, options_for, all_externals};

use crate::board_cord::BoardCord;
use crate::boarding::let_lie;
use crate::chairs::{BoardChair, Gathered, all_answers, entries_for_sessions, gather, seat_all};
use crate::session::run_session;
use cord_board::{Board, BoardItem, BoardPass, Entry};
use cord_commands::Answer;
use cord_port::{Gate, Memory, Releaser};
use cord_runs::sessions_alone_make_runs;
use node_pool::{Closed, Naming, Opened, Pool, PoolRefused, Worker};
use plain_cord::{Report, Script, Session};
use std::alloc::Global;
use std::marker::Brand;
use std::sync::Wait;
use std::thread;
use std::thread::Threads;

/// What a run gives.
#[derive(Drop)]
pub struct Ran<B> {
    pub answers: Vec<Vec<Answer>>,
    pub history: Vec<Entry>,
    pub numbers_left: u32,
    pub returned: Vec<B>,
}

/// Want of memory. The boxes come back.
#[derive(Drop)]
pub struct RunRefused<B> {
    pub returned: Vec<B>,
}

// What is reserved for a run.
struct Places<P: Naming>
where
    BoardCord<P>: BoardItem,
{
    chairs: Vec<BoardChair<P>>,
    gathered: Gathered<P>,
    all: Vec<Vec<Answer>>,
    board: Board<BoardCord<P>>,
    root: BoardPass<BoardCord<P>>,
}

fn reserve<P: Naming>(alloc: Global, sessions: &[Session]) -> Result<Places<P>, Memory>
    requires few { length sessions.now ≤ 16 }
    requires short { entries_for_sessions sessions.now ≤ 16384 }
    ensures chairs { IfOk result (λ r. (r.chairs.items ≡ []) × (length sessions.now ≤ vec_capacity r.chairs)) }
    ensures gathered { IfOk result (λ r. (r.gathered.workers.items ≡ []) × (r.gathered.answers.items ≡ [])
        × (length sessions.now ≤ vec_capacity r.gathered.answers) × (length sessions.now < vec_capacity r.gathered.workers)) }
    ensures all { IfOk result (λ r. (r.all.items ≡ []) × (length sessions.now ≤ vec_capacity r.all)) }
    ensures board { IfOk result (λ r. IsOn r.board r.root) }
    ensures root { IfOk result (λ r. Seated (board_view r.root) sessions.now 0) }
{
    let chairs = Vec::with_capacity(alloc, sessions.len())?;
    let workers = Vec::with_capacity(alloc, sessions.len() + 1)?;
    let answers = Vec::with_capacity(alloc, sessions.len())?;
    let all = Vec::with_capacity(alloc, sessions.len())?;
    let (board, root) = Board::start(alloc, entries_for_sessions(sessions))?;
    Ok(Places {
        chairs,
        gathered: Gathered { workers, answers },
        all,
        board,
        root,
    })
}

// Runs the sessions, each in a thread of its own where one can be started, and else here.
fn run_all<R: Threads + Wait + Sync, P: Naming + Send + Sync, B: Releaser + Send, G: Gate + Sync>(
    rt: &R,
    alloc: Global,
    pool: &Pool<P, B>,
    board: &Board<BoardCord<P>>,
    sessions: &[Session],
    gate: &G,
    chairs: &mut [BoardChair<P>],
)
    requires len { length chairs.old ≡ length sessions.now }
    requires runnable { (p : ℕ) (s : Session_value) → p < length sessions.now → All IsWithin (slice_index_or sessions.now p s).commands }
    requires starts { (p : ℕ) (s : Session_value) (c : _) → p < length sessions.now
        → StartsIn (slot_count P.workers P.table.slots) board.now (slice_index_or sessions.now p s).commands p (slice_index_or chairs.old p c) }
    ensures { (p : ℕ) (s : Session_value) (c : _) → p < length sessions.now
        → EndsIn P.size P.limit (slot_count P.workers P.table.slots) board.now (slice_index_or sessions.now p s).commands p
        (slice_index_or chairs.new p c) }
{
    let count = chairs.len();
    if count == 0 {
        return;
    }
    let session = |i: usize, chair: &mut BoardChair<P>|
        requires len { i < length sessions.now }
        requires runnable { (s : Session_value) → All IsWithin (slice_index_or sessions.now i s).commands }
        requires starts { (s : Session_value) → StartsIn (slot_count P.workers P.table.slots) board.now
            (slice_index_or sessions.now i s).commands i chair.now }
        ensures { (s : Session_value) → EndsIn P.size P.limit (slot_count P.workers P.table.slots) board.entry.now
            (slice_index_or sessions.entry.now i s).commands i chair.exit.now }
    {
        chair.answers = run_session(
            rt,
            alloc,
            &sessions[i],
            pool,
            &mut chair.worker,
            board,
            &mut chair.seat,
            gate,
        )
        .ok();
    };
    thread::for_each_mut(rt, chairs, count, &session);
}

// Empties the cells, which have no owner any more, and lets their cords go.
fn clear_cells<R: Wait, P: Naming, B: Releaser>(
    rt: &R,
    pool: &Pool<P, B>,
    w: &mut Worker<P>,
    board: &Board<BoardCord<P>>,
    root: &mut BoardPass<BoardCord<P>>,
)
    requires board { IsOn board.now root.old }
    requires last { IsLast (board_view root.old) }
    requires uncleared { clearings_of (board_view root.old) ≡ [] }
    requires room { length w.old.holds ≤ 96 }
    ensures board { IsOn board.now root.new }
    ensures last { IsLast (board_view root.new) }
    ensures same { (gave_of (board_view root.new) ≡ gave_of (board_view root.old)) × (joined_of (board_view root.new) ≡ joined_of (board_view root.old)) }
    ensures cleared { (k : ℕ) → k < 64 → has k (cleared_of (board_view root.new)) ≡ true }
    ensures cells { cells_in (clearings_of (board_view root.new)) ≡ below 64 }
    ensures steady { IsSteady w.old w.new (weigh_clearings trees_of (clearings_of (board_view root.new))) 0 }
{
    for cell in 0..64u8 {
        let was = board.clear(rt, root, cell);
        let_lie(pool, w, was);
    }
}

// Runs the sessions over a pool that gets its name here.
fn run_named<R: Threads + Wait + Sync, P: Naming + Send + Sync, B: Releaser + Send, G: Gate + Sync>(
    rt: &R,
    alloc: Global,
    sessions: &[Session],
    gate: &G,
    opened: Opened<B>,
) -> Result<Ran<B>, RunRefused<B>>
    requires few { length sessions.now ≤ 16 }
    requires short { entries_for_sessions sessions.now ≤ 16384 }
    requires runnable { All IsRunnableSession sessions.now }
    requires table { opened_table opened ≡ P.table }
    requires numbers { opened_numbers opened ≡ P.size }
    requires passes { opened_passes opened ≡ P.limit }
    requires boxes { opened_boxes opened ≡ P.boxes }
    requires workers { (opened_workers opened ≡ P.workers) × (P.workers ≡ length sessions.now + 1) }
    requires slots { P.table.slots ≡ length P.boxes }
    ensures left { IfOk result (λ run. run.numbers_left ≡ 0) }
    ensures answered { IfOk result (λ run. AreAnswered sessions.now (map (λ rs. rs.items) run.answers.items)) }
    ensures run { IfOk result (λ run. IsRun {Report = Report_value} (options_for P.size P.limit) (boxes_of (length P.boxes))
        (map (λ session. map request_of session.commands) sessions.now) (map (λ rs. map told_by rs.items) run.answers.items) run.history.items) }
    ensures caused { IfOk result (λ run. AreShown P.size P.limit (boxes_of (length P.boxes)) (map (λ rs. rs.items) run.answers.items)) }
    ensures boxes { IfOk result (λ run. AreCalled (all_externals sessions.now (map (λ rs. rs.items) run.answers.items)) P.boxes
        (handed_in B.calls_of B.latest_of run.returned.items)) }
    ensures back { IfErr result (λ refused. AreBack P.boxes (handed_in B.calls_of B.latest_of refused.returned.items)) }
{
    let (pool, mut workers) = match opened.named::<P>(alloc) {
        Ok(named) => named,
        Err(PoolRefused { releasers }) => {
            return Err(RunRefused {
                returned: releasers,
            });
        }
    };
    let Ok(places) = reserve(alloc, sessions) else {
        let closed = pool.close(workers);
        return Err(RunRefused {
            returned: closed.releasers,
        });
    };
    let Places {
        chairs,
        gathered,
        all,
        board,
        mut root,
    } = places;
    let Some(mut own) = workers.pop() else {
        unreachable!()
    };
    let mut chairs = seat_all(&board, &mut root, sessions, workers, chairs);
    run_all(
        rt,
        alloc,
        &pool,
        &board,
        sessions,
        gate,
        chairs.as_mut_slice(),
    );
    let Gathered {
        mut workers,
        answers,
    } = gather(&board, &mut root, sessions, chairs, gathered);
    clear_cells(rt, &pool, &mut own, &board, &mut root);
    let history = board.finish(root);
    workers.push_reserved(own);
    let Closed { in_use, releasers } = pool.close(workers);
    sessions_alone_make_runs::<Report>();
    match all_answers(answers, all) {
        Some(answers) => Ok(Ran {
            answers,
            history,
            numbers_left: in_use,
            returned: releasers,
        }),
        None => Err(RunRefused {
            returned: releasers,
        }),
    }
}

/// Runs a script over a new pool that has these boxes.
pub fn run_over<R: Threads + Wait + Sync, B: Releaser + Send, G: Gate + Sync>(
    rt: &R,
    alloc: Global,
    script: &Script,
    gate: &G,
    releasers: Vec<B>,
) -> Result<Ran<B>, RunRefused<B>>
    requires few { length script.now.sessions ≤ 16 }
    requires short { entries_for_sessions script.now.sessions ≤ 16384 }
    requires runnable { All IsRunnableSession script.now.sessions }
    requires stride { script.now.stride ≡ 0 }
    requires pool { (0 < script.now.pool) × (script.now.pool ≤ 2 ^ 18) × (0 < script.now.passes) × (script.now.passes ≤ 2 ^ 18) }
    requires boxes { length releasers.items ≤ 256 }
    requires calls { All (λ b. B.calls_of b < 2 ^ 64 - 1) releasers.items }
    ensures left { IfOk result (λ run. run.numbers_left ≡ 0) }
    ensures answered { IfOk result (λ run. AreAnswered script.now.sessions (map (λ rs. rs.items) run.answers.items)) }
    ensures run { IfOk result (λ run. IsRun {Report = Report_value} (options_of script.now) (boxes_of (length releasers.items)) (requests_of script.now)
        (map (λ rs. map told_by rs.items) run.answers.items) run.history.items) }
    ensures caused { IfOk result (λ run. AreShown script.now.pool script.now.passes (boxes_of (length releasers.items))
        (map (λ rs. rs.items) run.answers.items)) }
    ensures boxes { IfOk result (λ run. AreCalled (all_externals script.now.sessions (map (λ rs. rs.items) run.answers.items))
        (handed_in B.calls_of B.latest_of releasers.items) (handed_in B.calls_of B.latest_of run.returned.items)) }
    ensures back { IfErr result (λ refused. AreBack (handed_in B.calls_of B.latest_of releasers.items)
        (handed_in B.calls_of B.latest_of refused.returned.items)) }
{
    let sessions = script.sessions.as_slice();
    let workers = sessions.len() as u32 + 1;
    match Opened::start(alloc, script.pool, script.passes, workers, releasers) {
        Ok(opened) => run_named::<R, Brand, B, G>(rt, alloc, sessions, gate, opened),
        Err(PoolRefused { releasers }) => Err(RunRefused {
            returned: releasers,
        }),
    }
}

/// Runs a script with boxes of any type.
pub fn run_script<R: Threads + Wait + Sync, G: Gate + Sync>(
    rt: &R,
    alloc: Global,
    script: &Script,
    gate: &G,
    releasers: Vec<Box<dyn Releaser + Send>>,
) -> Result<Ran<Box<dyn Releaser + Send>>, RunRefused<Box<dyn Releaser + Send>>>
    requires few { length script.now.sessions ≤ 16 }
    requires short { entries_for_sessions script.now.sessions ≤ 16384 }
    requires runnable { All IsRunnableSession script.now.sessions }
    requires stride { script.now.stride ≡ 0 }
    requires pool { (0 < script.now.pool) × (script.now.pool ≤ 2 ^ 18) × (0 < script.now.passes) × (script.now.passes ≤ 2 ^ 18) }
    requires boxes { length releasers.items ≤ 256 }
    requires calls { All (λ b. calls_of b < 2 ^ 64 - 1) releasers.items }
    ensures left { IfOk result (λ run. run.numbers_left ≡ 0) }
    ensures answered { IfOk result (λ run. AreAnswered script.now.sessions (map (λ rs. rs.items) run.answers.items)) }
    ensures run { IfOk result (λ run. IsRun {Report = Report_value} (options_of script.now) (boxes_of (length releasers.items)) (requests_of script.now)
        (map (λ rs. map told_by rs.items) run.answers.items) run.history.items) }
    ensures caused { IfOk result (λ run. AreShown script.now.pool script.now.passes (boxes_of (length releasers.items))
        (map (λ rs. rs.items) run.answers.items)) }
    ensures boxes { IfOk result (λ run. AreCalled (all_externals script.now.sessions (map (λ rs. rs.items) run.answers.items))
        (handed_in calls_of latest_of releasers.items) (handed_in calls_of latest_of run.returned.items)) }
    ensures back { IfErr result (λ refused. AreBack (handed_in calls_of latest_of releasers.items)
        (handed_in calls_of latest_of refused.returned.items)) }
{
    run_over(rt, alloc, script, gate, releasers)
}
