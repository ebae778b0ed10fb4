//! The pool.
ghost use Rattle.std.specs.Prelude.{◌≡◌, ◌+◌, ◌^◌, ◌<◌, ◌≤◌, length, map};
ghost use Rattle.room_reserve.specs.Rooms.{room_of};
ghost use Rattle.node_pool.specs.Boxes.{handed_of};

use crate::naming::Naming;
use crate::outlet::Outlet;
use crate::view::{CountRule, PoolTerms, TokenView};
use atomic_table::Table;
use cord_port::Releaser;
use room_reserve::Reserve;
use std::alloc::Global;
use std::marker::PhantomData;

/// A word for each number, one for the live passes, and a slot for each releaser.
#[derive(Drop)]
pub struct Pool<P: Naming, B: Releaser> {
    pub(crate) table: Table<Option<Outlet<B>>, TokenView, PoolTerms, CountRule, Global>,
    pub(crate) numbers: usize,
    pub(crate) passes: u64,
    // Room for the boxes that `close` gives back.
    pub(crate) returned: Reserve<B>,
    pub(crate) of: PhantomData<P>,
    ghost named: { table.shared.table_id ≡ P.table },
    ghost wide: { table.shared.table_id.words ≡ P.size + 1 },
    ghost sized: { (numbers ≡ P.size) × (table.shared.key.numbers ≡ P.size) },
    ghost limited: { passes ≡ P.limit },
    ghost workers: { table.shared.key.workers ≡ P.workers },
    ghost boxed: { map handed_of table.shared.key.boxes.items ≡ P.boxes },
    ghost slotted: { length table.shared.key.boxes.items ≡ table.shared.table_id.slots },
    ghost small: { P.size ≤ 2 ^ 18 },
    ghost some: { 0 < P.workers },
    ghost reserved: { table.shared.table_id.slots ≤ room_of returned },
}
