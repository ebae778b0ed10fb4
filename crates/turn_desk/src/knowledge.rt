//! What a seat at the table knows. No value of these types is made.
use crate::rule::DeskRule;
use atomic_table::TableRule;
use std::marker::PhantomData;

/// The turn that a pass has: its place, and the value as it was taken out.
pub enum Held<X> {
    Nothing,
    Turn(usize, X),
    /// The pass was merged into another.
    Gone,
}

/// The last split or merge of a pass, by the views before it.
pub enum Past<V> {
    Fresh,
    Cut(V),
    Joined(V, V),
}

/// A seat's turn, its view under the desk's rule, and its last split or merge.
pub struct Knowledge<X, V> {
    pub held: Held<X>,
    pub view: V,
    pub past: Past<V>,
}

/// The rule of the table under a desk.
pub struct DeskTable<T> {
    rule: PhantomData<T>,
}

impl<T: DeskRule> TableRule<Option<T::Value>, Knowledge<T::Value, T::View>, T::About>
    for DeskTable<T> {
    ghost use Rattle.turn_desk.specs.Table.{Kept, idle};

    ghost holds = { λ _. Kept T.agrees };

    ghost first = { λ about. idle (T.first about) };
}
