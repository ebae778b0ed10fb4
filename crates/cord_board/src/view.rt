//! What a pass knows. No value of this type is made.
use plain_cord::Deed;
use std::collections::LinkedList;

/// What a pass knows; the first number is that of the entries left.
pub enum BoardView<C> {
    /// The pass of `start`: the sessions that it gave, what each that came back did, and the cells that were cleared, with
    /// what lay in them, the last one first.
    Root(
        usize,
        LinkedList<u16>,
        LinkedList<(u16, LinkedList<Deed<C>>)>,
        LinkedList<(u8, Option<C>)>,
    ),
    /// The pass of a session, and what it did.
    Session(usize, u16, LinkedList<Deed<C>>),
}
