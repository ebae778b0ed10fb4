//! The tokens of threads, and of what keeps a tree.
ghost use Rattle.pool_rule.specs.Rules.{Narrow};

use crate::naming::Naming;
use crate::slots::Slots;
use crate::view::TokenView;
use atomic_table::Badge;
use std::marker::{Model, PhantomData};

/// The token of one thread. It has no bytes but where its next take begins and which of its releaser slots are used. Contracts
/// see what it knows: its direct holds, its lone numbers, its releaser slots, and what its steps found.
#[derive(Drop)]
pub struct Worker<P: Naming> {
    pub(crate) badge: Badge<TokenView>,
    pub(crate) next: u32,
    pub(crate) slots: Slots,
    pub(crate) of: PhantomData<P>,
}

impl<P: Naming> Model for Worker<P> {
    ghost use Rattle.std.specs.Prelude.{◌≡◌, ◌<◌};
    ghost use Rattle.pool_rule.specs.Views.{View, coded_view};
    ghost use Rattle.node_pool.specs.Tokens.{only, IsToken, IsWorkerView, HasSlots};

    ghost Value = { View };

    ghost coded = { coded_view };

    ghost view = { λ w. only w.badge.views };

    ghost invariant = { λ w. (w.next < P.size) × IsToken (IsWorkerView P.size P.limit) P.table w.badge.table_id w.badge.views
        × HasSlots w.slots (only w.badge.views) };
}

impl<P: Naming> Worker<P> {
    /// No node in the trees that it holds has more than 6 edges.
    pub(crate) fn nodes_are_narrow(&self)
        ensures { Narrow self.now.holds }
    {
        let _next = self.next;
    }
}

/// The token of one cord or one record. It holds one tree or none.
#[derive(Drop)]
pub struct Pass<P: Naming> {
    pub(crate) badge: Badge<TokenView>,
    pub(crate) of: PhantomData<P>,
}

impl<P: Naming> Model for Pass<P> {
    ghost use Rattle.pool_rule.specs.Views.{View, coded_view};
    ghost use Rattle.node_pool.specs.Tokens.{only, IsToken, IsPassView};

    ghost Value = { View };

    ghost coded = { coded_view };

    ghost view = { λ p. only p.badge.views };

    ghost invariant = { λ p. IsToken (IsPassView P.size P.limit) P.table p.badge.table_id p.badge.views };
}
