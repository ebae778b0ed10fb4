//! A value that nobody reads before it is taken out.
ghost use Rattle.std.specs.Prelude.{◌≡◌, [], ◌∷◌, length, IfOk, IfErr};

use atomic_table::{Refused, Table, TableRule};
use std::alloc::Global;
use std::snapshot::Snapshot;

/// The rule of the table: its one slot has the value that was put in.
pub(crate) struct Untouched;

impl<X> TableRule<X, (), Snapshot<X>> for Untouched {
    ghost use Rattle.cordz_desk.specs.Untouched.{IsUntouched};

    ghost holds = { IsUntouched };

    ghost first = { λ _. tt };
}

/// A value that may only be sent. Kept so, it doesn't keep threads from sharing what it is a part of.
pub(crate) struct Kept<X> {
    table: Table<X, (), Snapshot<X>, Untouched, Global>,
    ghost one: { table.shared.table_id.slots ≡ 1 },
}

impl<X: Drop> Kept<X> {
    ghost use Rattle.cordz_desk.specs.Keeps.{kept_in};

    /// Keeps a value. Where memory is wanting it comes back.
    pub(crate) fn new(alloc: Global, value: X) -> Result<Kept<X>, X>
        ensures kept { IfOk result (λ k. kept_in k ≡ value) }
        ensures back { IfErr result (λ x. x ≡ value) }
    {
        let Ok(mut slots) = Vec::with_capacity(alloc, 1) else {
            return Err(value);
        };
        let seen = Snapshot::of(&value);
        slots.push_reserved(value);
        match Table::new(alloc, &[], slots, &seen) {
            Ok((table, _)) => Ok(Kept { table }),
            Err(Refused { slots }) => Err(only(slots)),
        }
    }

    /// The value that was put in.
    pub(crate) fn into_value(self) -> X
        ensures { result ≡ kept_in self }
    {
        let Kept { table } = self;
        let mut closed = table.close();
        let value = closed.take(0);
        closed.free();
        value
    }
}

// The one item of a list.
fn only<X: Drop>(items: Vec<X>) -> X
    requires one { length items.items ≡ 1 }
    ensures { items.items ≡ result ∷ [] }
{
    let mut items = items;
    match items.pop() {
        Some(item) => item,
        None => unreachable!(),
    }
}
