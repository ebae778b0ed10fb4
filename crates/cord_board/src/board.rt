//! The board, and how its passes are divided and joined.
ghost use Rattle.std.specs.Prelude.{◌≡◌, ◌-◌, ◌+◌, ◌≤◌, ℕ, false, [], ◌∷◌, ◌++◌};
ghost use Rattle.turn_desk.specs.Passes.{desk_places};
ghost use Rattle.cord_board.specs.Views.{has, entries_left, session_of, gave_of, joined_of, mine_of, clearings_of, IsRoot, IsSession};
ghost use Rattle.cord_board.specs.declared.view.BoardView.TheVariants.{Root, Session};

use crate::item::BoardItem;
use crate::passes::BoardPass;
use crate::rule::BoardRule;
use crate::view::BoardView;
use std::marker::{Brand, PhantomData};
use turn_desk::{Desk, Join, Split};

/// 64 cells and their history, which sessions use in turns.
pub struct Board<C: BoardItem> {
    pub(crate) desk: Desk<BoardRule<C>>,
    ghost one: { desk_places desk ≡ 1 },
}

// Which session a split gives, and how many entries, for clauses alone.
trait Share {
    ghost session: { ℕ };

    ghost entries: { ℕ };
}

impl Share for Brand {
    ghost session = { 0 };

    ghost entries = { 0 };
}

struct Dealt<B> {
    share: PhantomData<B>,
}

impl<C, B: Share> Split<BoardView<C>> for Dealt<B> {
    ghost use Rattle.cord_board.specs.Views.{rest_of};
    ghost use Rattle.std.specs.Prelude.{[]};
    ghost use Rattle.cord_board.specs.declared.view.BoardView.TheVariants.{Session};

    ghost left = { λ v. rest_of B.session B.entries v };

    ghost right = { λ v. Session B.entries B.session [] };
}

struct Gathered;

impl<C> Join<BoardView<C>> for Gathered {
    ghost use Rattle.cord_board.specs.Views.{gathered, nobody};

    ghost both = { gathered };

    ghost spent = { nobody };
}

impl<C: BoardItem> Board<C> {
    ghost use Rattle.cord_board.specs.Passes.{board_view, IsOn};

    /// Gives a new session a pass, with so many of the entries that `from` has left.
    pub fn split(&self, from: &mut BoardPass<C>, session: u16, entries: usize) -> BoardPass<C>
        requires board { IsOn self.now from.old }
        requires root { IsRoot (board_view from.old) }
        requires fresh { has session (gave_of (board_view from.old)) ≡ false }
        requires uncleared { clearings_of (board_view from.old) ≡ [] }
        requires room { entries ≤ entries_left (board_view from.old) }
        ensures board { IsOn self.now from.new × IsOn self.now result }
        ensures from { let v = board_view from.old in board_view from.new ≡ Root (entries_left v - entries) (session ∷ gave_of v) (joined_of v) [] }
        ensures given { board_view result ≡ Session entries session [] }
    {
        self.deal::<Brand>(from, session, entries)
    }

    fn deal<B: Share>(&self, from: &mut BoardPass<C>, session: u16, entries: usize) -> BoardPass<C>
        requires share { (session ≡ B.session) × (entries ≡ B.entries) }
        requires board { IsOn self.now from.old }
        requires root { IsRoot (board_view from.old) }
        requires fresh { has session (gave_of (board_view from.old)) ≡ false }
        requires uncleared { clearings_of (board_view from.old) ≡ [] }
        requires room { entries ≤ entries_left (board_view from.old) }
        ensures board { IsOn self.now from.new × IsOn self.now result }
        ensures from { let v = board_view from.old in board_view from.new ≡ Root (entries_left v - entries) (session ∷ gave_of v) (joined_of v) [] }
        ensures given { board_view result ≡ Session entries session [] }
    {
        let pass = self.desk.split::<Dealt<B>>(&mut from.pass);
        BoardPass {
            pass,
            session,
            made: 0,
        }
    }

    /// A session's pass comes back to the pass of `start`, which has its entries again.
    pub fn merge(&self, into: &mut BoardPass<C>, other: BoardPass<C>)
        requires board { IsOn self.now into.old × IsOn self.now other }
        requires root { IsRoot (board_view into.old) }
        requires session { IsSession (board_view other) }
        ensures board { IsOn self.now into.new }
        ensures into { let v = board_view into.old in let w = board_view other in board_view into.new ≡
            Root (entries_left v + entries_left w) (gave_of v) (joined_of v ++ (session_of w, mine_of w) ∷ []) (clearings_of v) }
    {
        let BoardPass {
            pass,
            session: _,
            made: _,
        } = other;
        self.desk.merge::<Gathered>(&mut into.pass, pass);
    }
}
