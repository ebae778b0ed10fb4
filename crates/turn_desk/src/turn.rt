//! A turn, which lends its value.
ghost use Rattle.std.specs.Prelude.{◌≡◌};
ghost use Rattle.std.specs.Borrow.{Lends, sem};
ghost use Rattle.turn_desk.specs.Turns.{turn_value, with_value};
ghost use Rattle.turn_desk.specs.contracts.turn.TakenOut.{the_row};

use crate::rule::DeskRule;
use std::snapshot::Snapshot;

/// A value that was taken out of its place. It goes back by `Desk::exit`.
pub struct TakenOut<X> {
    pub(crate) place: usize,
    pub(crate) value: X,
    // The value as it was taken out, for clauses alone.
    pub(crate) taken: Snapshot<X>,
}

/// A turn on a desk under the rule `T`.
pub type Turn<T> = TakenOut<<T as DeskRule>::Value>;

impl<X> TakenOut<X> {
    /// Lends the value.
    pub fn value(&mut self) -> &mut X
        ensures value { result.now ≡ turn_value self.old }
        ensures* writes_back { sem 𝓛 (Lends (the_row X.row) X.row self.entry result (λ w. with_value self.old w)) }
    {
        &mut self.value
    }
}
