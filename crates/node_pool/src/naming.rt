//! What a pool is called in contracts, and which node a step is about.
ghost use Rattle.std.specs.Prelude.{ℕ, List};
ghost use Rattle.atomic_table.specs.Seated.{TableId};
ghost use Rattle.node_forest.specs.Label.{Node};
ghost use Rattle.pool_rule.specs.Pools.{Handed};

use std::marker::Brand;

/// Which pool it is, and what it was started with. Workers and passes carry it in their types; the call that names a pool picks it.
pub trait Naming {
    ghost table: { TableId };

    // How many numbers and workers there are, and the most live passes.
    ghost size: { ℕ };

    ghost workers: { ℕ };

    ghost limit: { ℕ };

    // The boxes as they were handed in.
    ghost boxes: { List Handed };
}

impl Naming for Brand {
    ghost use Rattle.std.specs.Prelude.{[]};

    ghost table = { record { words = 0; slots = 0; views_name = 0; atom = 0; block = 0; offset = 0; slot_names = [] } };

    ghost size = { 0 };

    ghost workers = { 0 };

    ghost limit = { 0 };

    ghost boxes = { [] };
}

/// Which node a step is about. A word's step carries its number alone, so the call that makes it picks the node.
pub trait Chosen {
    ghost node: { Node };
}

impl Chosen for Brand {
    ghost use Rattle.std.specs.Prelude.{[]};
    ghost use Rattle.node_forest.specs.Forest.{empty};
    ghost use Rattle.node_forest.specs.declared.kind.Kind.TheVariants.{Flat};

    ghost node = { (record { number = 0; kind = Flat; length = 0; bytes = []; more = 0 }, empty) };
}
