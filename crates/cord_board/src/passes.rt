//! The passes of a board.
ghost use Rattle.std.specs.Prelude.{◌≡◌, ◌+◌, ◌^◌, ◌<◌, length};
ghost use Rattle.turn_desk.specs.Passes.{desk_view};
ghost use Rattle.cord_board.specs.Views.{entries_left, session_of, mine_of};

use crate::item::BoardItem;
use crate::rule::BoardRule;
use turn_desk::DeskPass;

/// The pass of a session, or the pass of `start`, which has no session.
#[derive(Drop)]
pub struct BoardPass<C: BoardItem> {
    pub(crate) pass: DeskPass<BoardRule<C>>,
    pub(crate) session: u16,
    // How many actions it made.
    pub(crate) made: u32,
    ghost of_session: { session ≡ session_of (desk_view pass) },
    ghost counted: { made ≡ length (mine_of (desk_view pass)) },
    ghost few: { entries_left (desk_view pass) + length (mine_of (desk_view pass)) < 2 ^ 32 },
}

impl<C: BoardItem> BoardPass<C> {
    ghost use Rattle.cord_board.specs.Passes.{board_view};

    /// The session of a pass that `split` made.
    pub fn session(&self) -> u16
        ensures { result ≡ session_of (board_view self.now) }
    {
        self.session
    }
}
