//! What each step on the table tells, and how it changes what the seats know.
use crate::knowledge::Knowledge;
use crate::rule::DeskRule;
use atomic_table::Play;
pub use atomic_table::{Join, Split};
use std::marker::PhantomData;

/// The exchange of a turn's word that takes the turn, or finds it taken.
pub struct Entering<T> {
    rule: PhantomData<T>,
}

impl<T: DeskRule> Play<Option<T::Value>, Knowledge<T::Value, T::View>> for Entering<T> {
    ghost use Rattle.turn_desk.specs.Steps.{entered};

    ghost then = { entered T.agrees };
}

/// The store that frees a turn's word.
pub struct Leaving<T> {
    rule: PhantomData<T>,
}

impl<T: DeskRule> Play<Option<T::Value>, Knowledge<T::Value, T::View>> for Leaving<T> {
    ghost use Rattle.turn_desk.specs.Steps.{left};

    ghost then = { left T.agrees T.leaves };
}

/// Which view the leaver of a turn has then.
pub trait Leave<V> {
    ghost after: { V → V };
}

/// The same, to a view that the caller chose.
pub struct LeavingTo<T, M> {
    rule: PhantomData<T>,
    leave: PhantomData<M>,
}

impl<T: DeskRule, M: Leave<T::View>> Play<Option<T::Value>, Knowledge<T::Value, T::View>>
    for LeavingTo<T, M> {
    ghost use Rattle.turn_desk.specs.Steps.{left_to};

    ghost then = { left_to T.agrees T.leaves M.after };
}

/// The division of a pass, whose views the caller chose.
pub struct Splitting<M> {
    split: PhantomData<M>,
}

impl<X, V, M: Split<V>> Split<Knowledge<X, V>> for Splitting<M> {
    ghost use Rattle.turn_desk.specs.Table.{knowledge_of};
    ghost use Rattle.turn_desk.specs.declared.knowledge.Held.TheVariants.{Nothing};
    ghost use Rattle.turn_desk.specs.declared.knowledge.Past.TheVariants.{Cut};

    ghost left = { λ d. knowledge_of d.held (M.left d.view) (Cut d.view) };

    ghost right = { λ d. knowledge_of Nothing (M.right d.view) (Cut d.view) };
}

/// The joining of two passes, whose view the caller chose.
pub struct Merging<T, M> {
    rule: PhantomData<T>,
    join: PhantomData<M>,
}

impl<T: DeskRule, M: Join<T::View>> Join<Knowledge<T::Value, T::View>> for Merging<T, M> {
    ghost use Rattle.turn_desk.specs.Table.{knowledge_of};
    ghost use Rattle.turn_desk.specs.declared.knowledge.Held.TheVariants.{Gone};
    ghost use Rattle.turn_desk.specs.declared.knowledge.Past.TheVariants.{Fresh, Joined};

    ghost both = { λ d e. knowledge_of d.held (M.both d.view e.view) (Joined d.view e.view) };

    ghost spent = { knowledge_of Gone T.nobody Fresh };
}

/// A load after a split or a merge, which tells what was so at it.
pub struct Recalling<T> {
    rule: PhantomData<T>,
}

impl<T: DeskRule> Play<Option<T::Value>, Knowledge<T::Value, T::View>> for Recalling<T> {
    ghost use Rattle.turn_desk.specs.Steps.{recalled};

    ghost then = { recalled T.agrees };
}
