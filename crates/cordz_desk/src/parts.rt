//! What a desk is made of, whatever its records' shares are: so it is shown once, for all shares that may be sent, that threads may
//! share it.
ghost use Rattle.turn_desk.specs.Passes.{desk_view};
ghost use Rattle.cordz_desk.specs.Keeps.{kept_in};
ghost use Rattle.cordz_desk.specs.Seeing.{IsRootView};

use crate::keeping::Kept;
use crate::rule::RecordRule;
use record_rule::Holding;
use room_reserve::Reserve;
use turn_desk::{Desk, DeskPass};

/// The turns, the first token, and room for the shares that are given back.
pub(crate) struct Parts<S: Holding> {
    pub(crate) desk: Desk<RecordRule<S>>,
    // All passes come back to it at the end.
    pub(crate) root: Kept<DeskPass<RecordRule<S>>>,
    // Room for the shares that `close` gives.
    pub(crate) shares: Reserve<S>,
    ghost first: { IsRootView (desk_view (kept_in root)) },
}
