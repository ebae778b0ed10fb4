//! The tokens of the desk, and what they reserve.
ghost use Rattle.std.specs.Prelude.{◌≡◌, ◌<◌};
ghost use Rattle.turn_desk.specs.Passes.{desk_view, IsIdle};
ghost use Rattle.record_rule.specs.Views.{token_in, IsTokenView};

use crate::naming::DeskNaming;
use crate::rule::RecordRule;
use crate::share::Share;
use node_pool::Naming;
use std::marker::PhantomData;
use turn_desk::DeskPass;

/// A token at its desk.
pub(crate) type Seated<P> = DeskPass<RecordRule<Share<P>>>;

/// The token of one that reserves slots and walks records. Contracts see what it knows.
#[derive(Drop)]
pub struct CordzPass<P: Naming, D: DeskNaming> {
    pub(crate) pass: Seated<P>,
    pub(crate) number: u16,
    pub(crate) of: PhantomData<D>,
    ghost named: { pass.table_id ≡ D.desk },
    ghost idle: { IsIdle pass },
    ghost token: { IsTokenView (desk_view pass) },
    ghost numbered: { number ≡ (token_in (desk_view pass)).number },
}

/// A slot that was reserved, and its stamp.
#[derive(Drop)]
pub struct Reserved {
    pub slot: u16,
    pub stamp: u64,
    ghost small: { slot < 256 },
}
