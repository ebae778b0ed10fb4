//! What a token knows, and the rule of the table under a pool.
use crate::outlet::Outlet;
use atomic_table::{Seat, TableRule};
use cord_port::Releaser;
use std::marker::Model;

/// What a token knows. No value of it is made; contracts see it as a view of the rule.
pub struct TokenView {
    none: (),
}

impl Model for TokenView {
    ghost use Rattle.pool_rule.specs.Views.{View, blank, coded_view};

    ghost Value = { View };

    ghost coded = { coded_view };

    ghost view = { λ _. blank 0 0 0 0 };
}

/// What the table is told when it is made: how many numbers, live passes and workers, how many slots are the workers', and of each
/// box how often it was called and the latest length.
#[derive(Drop)]
pub struct PoolTerms {
    pub numbers: usize,
    pub passes: usize,
    pub workers: usize,
    pub slots: usize,
    pub boxes: Vec<(u64, Option<u64>)>,
}

/// The rule of the pool's table: each word is the number of its node's holders.
pub struct CountRule;

impl<B: Releaser> TableRule<Option<Outlet<B>>, TokenView, PoolTerms> for CountRule {
    ghost use Rattle.std.specs.Prelude.{◌^◌};
    ghost use Rattle.std.specs.Option.{option_map};
    ghost use Rattle.pool_rule.specs.Pools.{Kept};
    ghost use Rattle.pool_rule.specs.Views.{first_view};
    ghost use Rattle.node_pool.specs.Boxes.{box_of, terms_of, below};

    ghost holds = { λ key. Kept (terms_of key.numbers key.workers key.boxes.items (option_map (λ o. box_of o.before o.latest o.length))) };

    ghost first = { λ key. first_view (2 ^ 24) key.numbers key.passes key.workers (below key.slots) };
}

/// A token at its table.
pub type TokenSeat<B> = Seat<Option<Outlet<B>>, TokenView>;
