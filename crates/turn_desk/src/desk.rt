//! The desk, its passes and its turns.
ghost use Rattle.std.specs.Prelude.{◌≡◌, ◌<◌, ◌≤◌, MatchResult};
ghost use Rattle.room_reserve.specs.Rooms.{room_of};

use crate::knowledge::{DeskTable, Knowledge};
use crate::plays::{Entering, Leave, Leaving, LeavingTo, Merging, Recalling, Splitting};
use crate::rule::DeskRule;
use crate::turn::{TakenOut, Turn};
use atomic_table::{Join, Seat, Split, Table};
use room_reserve::Reserve;
use std::alloc::Global;
use std::snapshot::Snapshot;
use std::sync::Wait;
use std::sync::atomic::{AtomicU64, Ordering};
use std::thread;

// How often a thread that waits asks again before it sleeps.
const PATIENCE: u32 = 64;

/// A token of one thread, which has at most one turn. It has no bytes.
pub type DeskPass<T> = Seat<
    Option<<T as DeskRule>::Value>,
    Knowledge<<T as DeskRule>::Value, <T as DeskRule>::View>,
>;

/// Values that threads take in turns, under the rule `T`.
pub struct Desk<T: DeskRule> {
    pub(crate) table: Table<
        Option<T::Value>,
        Knowledge<T::Value, T::View>,
        T::About,
        DeskTable<T>,
        Global,
    >,
    // How many threads sleep, or are about to: a turn that is left wakes nobody while there are none.
    pub(crate) sleepers: AtomicU64,
    // Room for the values that `close` gives.
    pub(crate) room: Reserve<Option<T::Value>>,
    ghost reserved: { table.shared.table_id.slots ≤ room_of room },
    ghost same: { table.shared.table_id.words ≡ table.shared.table_id.slots },
    ghost some: { 0 < table.shared.table_id.slots },
}

/// The turn is taken: its word, as it was found.
#[derive(Clone, Copy, Debug)]
pub struct Busy {
    pub found: u64,
}

impl<T: DeskRule> Desk<T> {
    ghost use Rattle.turn_desk.specs.Agreements.{Agreed, AgreedOnce, AgreedBoth, AgreedOut};
    ghost use Rattle.turn_desk.specs.Passes.{desk_places, desk_view, IsOf, IsSamePass, IsIdle, HasTurn, IsTurnOf};
    ghost use Rattle.turn_desk.specs.Spots.{home, out};
    ghost use Rattle.turn_desk.specs.Turns.{turn_place, turn_value, taken_value};

    /// Takes the turn of the value at this place, if it is free.
    pub fn try_enter(&self, pass: &mut DeskPass<T>, place: usize) -> Result<Turn<T>, Busy>
        requires desk { IsOf self.now pass.old }
        requires place { place < desk_places self.now }
        requires idle { IsIdle pass.old }
        ensures pass { IsSamePass pass.old pass.new × (desk_view pass.new ≡ desk_view pass.old) }
        ensures turn { MatchResult result (λ turn. IsTurnOf place pass.new turn) (λ busy. (busy.found ≡ 1) × IsIdle pass.new) }
        ensures agreed { MatchResult result
            (λ turn. Agreed T.agrees place (home (taken_value turn)) (desk_view pass.old))
            (λ _. AgreedOut T.agrees place (desk_view pass.old)) }
    {
        let found = self
            .table
            .shared
            .compare_exchange::<Entering<T>>(pass, place, 0, 1);
        if found != 0 {
            return Err(Busy { found });
        }
        let value = self.table.shared.exchange(pass, place, None).unwrap();
        let taken = Snapshot::of(&value);
        Ok(TakenOut {
            place,
            value,
            taken,
        })
    }

    /// Waits for the turn of the value at this place. A thread that waits for long sleeps until a turn of this value is left.
    pub fn enter<R: Wait>(&self, rt: &R, pass: &mut DeskPass<T>, place: usize) -> Turn<T>
        requires desk { IsOf self.now pass.old }
        requires place { place < desk_places self.now }
        requires idle { IsIdle pass.old }
        ensures pass { IsSamePass pass.old pass.new × (desk_view pass.new ≡ desk_view pass.old) }
        ensures turn { IsTurnOf place pass.new result }
        ensures agreed { Agreed T.agrees place (home (taken_value result)) (desk_view pass.old) }
    {
        let mut patience = PATIENCE;
        for _ in rt.forever() {
            match self.try_enter(pass, place) {
                Ok(turn) => return turn,
                Err(_) if patience > 0 => {
                    patience -= 1;
                    thread::yield_now();
                }
                Err(_) => {
                    self.sleepers.fetch_add(1, Ordering::SeqCst);
                    self.table.shared.park(rt, place, 1);
                    self.sleepers.fetch_sub(1, Ordering::SeqCst);
                }
            }
        }
        unreachable!()
    }

    /// Gives the value back and leaves the turn.
    pub fn exit(&self, pass: &mut DeskPass<T>, turn: Turn<T>)
        requires desk { IsOf self.now pass.old }
        requires turn { HasTurn pass.old (turn_place turn) (taken_value turn) }
        requires leaves { (w : T.View) × T.leaves (turn_place turn) (taken_value turn) (turn_value turn) (desk_view pass.old) w }
        ensures pass { IsSamePass pass.old pass.new × IsIdle pass.new }
        ensures left { T.leaves (turn_place turn) (taken_value turn) (turn_value turn) (desk_view pass.old) (desk_view pass.new) }
        ensures agreed { Agreed T.agrees (turn_place turn) (out (taken_value turn)) (desk_view pass.old) }
    {
        let TakenOut {
            place,
            value,
            taken: _,
        } = turn;
        let before = self.table.shared.exchange(pass, place, Some(value));
        let None = before else { unreachable!() };
        self.table.shared.store::<Leaving<T>>(pass, place, 0);
        // Whoever counts itself later finds the word free, and doesn't sleep.
        if self.sleepers.load(Ordering::SeqCst) > 0 {
            self.table.shared.wake_one(place);
        }
    }

    /// Gives the value back and leaves the turn. The view after it is the caller's choice, which the rule must allow.
    pub fn exit_to<M: Leave<T::View>>(&self, pass: &mut DeskPass<T>, turn: Turn<T>)
        requires desk { IsOf self.now pass.old }
        requires turn { HasTurn pass.old (turn_place turn) (taken_value turn) }
        requires leaves { T.leaves (turn_place turn) (taken_value turn) (turn_value turn) (desk_view pass.old) (M.after (desk_view pass.old)) }
        ensures pass { IsSamePass pass.old pass.new × IsIdle pass.new }
        ensures view { desk_view pass.new ≡ M.after (desk_view pass.old) }
        ensures agreed { Agreed T.agrees (turn_place turn) (out (taken_value turn)) (desk_view pass.old) }
    {
        let TakenOut {
            place,
            value,
            taken: _,
        } = turn;
        let slot = self.table.shared.exchange(pass, place, Some(value));
        let None = slot else { unreachable!() };
        self.table.shared.store::<LeavingTo<T, M>>(pass, place, 0);
        // Whoever counts itself later finds the word free, and doesn't sleep.
        if self.sleepers.load(Ordering::SeqCst) > 0 {
            self.table.shared.wake_one(place);
        }
    }

    /// Divides a pass. The views after it are the caller's choice, which the rule must allow.
    pub fn split<M: Split<T::View>>(&self, from: &mut DeskPass<T>) -> DeskPass<T>
        requires desk { IsOf self.now from.old }
        requires idle { IsIdle from.old }
        requires splits { T.splits (desk_view from.old) (M.left (desk_view from.old)) (M.right (desk_view from.old)) }
        ensures kept { IsSamePass from.old from.new × IsIdle from.new }
        ensures given { IsOf self.now result × IsIdle result }
        ensures views { (desk_view from.new ≡ M.left (desk_view from.old)) × (desk_view result ≡ M.right (desk_view from.old)) }
        ensures agreed { AgreedOnce T.agrees (desk_view from.old) }
    {
        let given = self.table.shared.split_seat::<Splitting<M>>(from);
        self.table.shared.load::<Recalling<T>>(from, 0);
        given
    }

    /// Joins the pass `other` to `into`. The view after it is the caller's choice, which the rule must allow.
    pub fn merge<M: Join<T::View>>(&self, into: &mut DeskPass<T>, other: DeskPass<T>)
        requires desk { IsOf self.now into.old × IsOf self.now other }
        requires idle { IsIdle into.old × IsIdle other }
        requires merges { T.merges (desk_view into.old) (desk_view other) (M.both (desk_view into.old) (desk_view other)) }
        ensures kept { IsSamePass into.old into.new × IsIdle into.new }
        ensures view { desk_view into.new ≡ M.both (desk_view into.old) (desk_view other) }
        ensures agreed { AgreedBoth T.agrees (desk_view into.old) (desk_view other) }
    {
        self.table.shared.join_seat::<Merging<T, M>>(into, other);
        self.table.shared.load::<Recalling<T>>(into, 0);
    }
}
