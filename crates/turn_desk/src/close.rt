//! How a desk ends.
ghost use Rattle.std.specs.Prelude.{◌≡◌};
ghost use Rattle.turn_desk.specs.Passes.{IsOf, IsIdle, Ended};
ghost use Rattle.turn_desk.specs.Spots.{choice};

use crate::desk::{Desk, DeskPass};
use crate::rule::DeskRule;

impl<T: DeskRule> Desk<T>
where
    T::Value: Drop,
{
    /// The values that are at home, each at its place. A value whose turn was taken isn't given.
    pub fn close(self, pass: DeskPass<T>) -> Vec<Option<T::Value>>
        requires desk { IsOf self pass }
        requires idle { IsIdle pass }
        ensures { Ended T.agrees pass result.items }
    {
        let Desk {
            table,
            sleepers: _,
            room: reserve,
        } = self;
        let mut room = reserve.into_room();
        let count = table.slot_count();
        let mut closed = table.close_with(pass);
        for i in 0..count {
            let slot = closed.take(i);
            let word = closed.word(i);
            room.push_reserved(chosen(word, slot));
        }
        closed.free();
        room
    }
}

// The slot, if its turn is free.
fn chosen<X: Drop>(word: u64, slot: Option<X>) -> Option<X>
    ensures { result ≡ choice word slot }
{
    if word == 0 { slot } else { None }
}
