//! What each kind of step tells, and how tokens are divided and joined.
use crate::naming::{Chosen, Naming};
use crate::outlet::Outlet;
use crate::view::TokenView;
use atomic_table::{Join, Play, Split};
use cord_port::Releaser;
use std::marker::PhantomData;

/// The play of a take: a word is raised from 0 to 1, or found not 0.
pub struct Takes<T> {
    node: PhantomData<T>,
}

impl<S, T: Chosen> Play<S, TokenView> for Takes<T> {
    ghost use Rattle.pool_rule.specs.Plays.{taken};

    ghost then = { taken T.node };
}

/// The play of a share: a node's word is raised by one.
pub struct Shares<T> {
    node: PhantomData<T>,
}

impl<S, T: Chosen> Play<S, TokenView> for Shares<T> {
    ghost use Rattle.pool_rule.specs.Plays.{shared};

    ghost then = { shared T.node };
}

/// Of the pool it names the boxes, as the last leaver of an external gets one.
pub struct Leaves<T, P> {
    node: PhantomData<(T, P)>,
}

impl<B: Releaser, T: Chosen, P: Naming> Play<Option<Outlet<B>>, TokenView> for Leaves<T, P> {
    ghost use Rattle.std.specs.Option.{option_map};
    ghost use Rattle.pool_rule.specs.Plays.{left};
    ghost use Rattle.node_pool.specs.Boxes.{box_of, pool_terms};

    ghost then = { left (pool_terms P.size P.workers P.boxes (option_map (λ o. box_of o.before o.latest o.length))) T.node };
}

/// A slot is given back.
pub struct Homes;

impl<S> Play<S, TokenView> for Homes {
    ghost use Rattle.pool_rule.specs.Plays.{homed};

    ghost then = { homed };
}

/// The play of a counted step: the word of live passes is raised by one.
pub struct Counts;

impl<S> Play<S, TokenView> for Counts {
    ghost use Rattle.pool_rule.specs.Plays.{Told};
    ghost use Rattle.pool_rule.specs.Views.{counting};

    ghost then = { λ _ m n m2. Told (counting n m.0) m m2 };
}

/// The play of an uncounted step: the word of live passes is lowered by one.
pub struct Ends;

impl<S> Play<S, TokenView> for Ends {
    ghost use Rattle.pool_rule.specs.Plays.{Told};
    ghost use Rattle.pool_rule.specs.Views.{ending};

    ghost then = { λ _ m n m2. Told (ending m.0) m m2 };
}

/// The play by which a counted step that found the limit reached is taken back.
pub struct Undoes;

impl<S> Play<S, TokenView> for Undoes {
    ghost use Rattle.pool_rule.specs.Plays.{Told};
    ghost use Rattle.pool_rule.specs.Views.{undoing};

    ghost then = { λ _ m n m2. Told (undoing m.0) m m2 };
}

/// A pass of a worker becomes a token of its own.
pub struct Parts;

impl Split<TokenView> for Parts {
    ghost use Rattle.pool_rule.specs.Views.{parting, empty_pass};

    ghost left = { parting };

    ghost right = { empty_pass };
}

/// The same, with a direct hold.
pub struct Hands<T> {
    node: PhantomData<T>,
}

impl<T: Chosen> Split<TokenView> for Hands<T> {
    ghost use Rattle.pool_rule.specs.Views.{giving, holder};

    ghost left = { giving T.node };

    ghost right = { holder T.node };
}

/// A pass goes back to a worker.
pub struct Draws<P> {
    of: PhantomData<P>,
}

impl<P: Naming> Join<TokenView> for Draws<P> {
    ghost use Rattle.pool_rule.specs.Views.{drawing, blank};

    ghost both = { drawing };

    ghost spent = { blank 0 P.size P.limit 0 };
}

/// A worker is made out of the pool's first token, with its room and its slots.
pub struct Hires;

impl Split<TokenView> for Hires {
    ghost use Rattle.pool_rule.specs.Views.{narrower, part_of};

    ghost left = { narrower 256 16 };

    ghost right = { part_of 256 16 };
}

/// Two workers become one, when the pool is closed.
pub struct Merges<P> {
    of: PhantomData<P>,
}

impl<P: Naming> Join<TokenView> for Merges<P> {
    ghost use Rattle.pool_rule.specs.Views.{merged, blank};

    ghost both = { merged };

    ghost spent = { blank 0 P.size P.limit 0 };
}

/// The play of a look: a node's word is loaded.
pub struct Looks<T> {
    node: PhantomData<T>,
}

impl<S, T: Chosen> Play<S, TokenView> for Looks<T> {
    ghost use Rattle.pool_rule.specs.Plays.{looked};

    ghost then = { looked T.node };
}
