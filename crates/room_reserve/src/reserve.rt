//! The reserve.
ghost use Rattle.std.specs.Prelude.{◌≡◌, ◌≤◌, vec_len, vec_capacity, IfOk};

use atomic_table::{Table, TableRule};
use std::alloc::{AllocError, Global};

/// The rule of a reserve's table: its one slot holds an empty list with so much room.
pub struct Untouched;

impl<X> TableRule<Vec<X>, (), usize> for Untouched {
    ghost use Rattle.room_reserve.specs.Untouched.{IsUntouched};

    ghost holds = { IsUntouched };

    ghost first = { λ _. tt };
}

/// Room for so many items. Nobody reads it before it is taken out, so threads may share it where its items may only be sent.
#[derive(Drop)]
pub struct Reserve<X> {
    table: Table<Vec<X>, (), usize, Untouched, Global>,
    ghost one: { table.shared.table_id.slots ≡ 1 },
}

impl<X: Drop> Reserve<X> {
    ghost use Rattle.room_reserve.specs.Rooms.{room_of};

    /// Room for `most` items. Its error is want of memory.
    pub fn new(alloc: Global, most: usize) -> Result<Reserve<X>, AllocError>
        ensures { IfOk result (λ r. room_of r ≡ most) }
    {
        let mut slots = Vec::with_capacity(alloc, 1)?;
        slots.push_reserved(Vec::with_capacity(alloc, most)?);
        match Table::new(alloc, &[], slots, &most) {
            Ok((table, _)) => Ok(Reserve { table }),
            Err(_) => Err(AllocError),
        }
    }

    /// The empty list with that room. No memory is taken.
    pub fn into_room(self) -> Vec<X>
        ensures empty { vec_len result ≡ 0 }
        ensures room { room_of self ≤ vec_capacity result }
    {
        let Reserve { table } = self;
        let mut closed = table.close();
        let room = closed.take(0);
        closed.free();
        room
    }
}
