//! What a desk of records is called in contracts.
ghost use Rattle.atomic_table.specs.Seated.{TableId};

use std::marker::Brand;

/// Which desk it is. Its passes and tickets carry it in their types; the call that names a desk picks it.
pub trait DeskNaming {
    ghost desk: { TableId };
}

impl DeskNaming for Brand {
    ghost use Rattle.std.specs.Prelude.{[]};

    ghost desk = { record { words = 0; slots = 0; views_name = 0; atom = 0; block = 0; offset = 0; slot_names = [] } };
}
