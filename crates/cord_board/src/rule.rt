//! The rule of a board.
use crate::cells::Cells;
use crate::item::BoardItem;
use crate::view::BoardView;
use std::marker::PhantomData;
use turn_desk::DeskRule;

/// The cells are what the history makes of the items handed in, and the passes know the history's parts.
pub struct BoardRule<C> {
    item: PhantomData<C>,
}

impl<C: BoardItem> DeskRule for BoardRule<C> {
    ghost use Rattle.std.specs.Prelude.{[]};
    ghost use Rattle.cord_board.specs.Rule.{Stands, Leaves, Gives, Joins};
    ghost use Rattle.cord_board.specs.Laws.{takes, leaves, gives, joins};
    ghost use Rattle.cord_board.specs.Views.{nobody as spent};
    ghost use Rattle.cord_board.specs.declared.view.BoardView.TheVariants.{Root};

    type Value = Cells<C>;

    type View = BoardView<C>;

    type About = usize;

    ghost first = { λ entries. Root entries [] [] [] };

    ghost nobody = { spent };

    ghost agrees = { Stands C.length_of };

    ghost leaves = { Leaves C.length_of };

    ghost splits = { Gives };

    ghost merges = { Joins };

    ghost taking_agrees = { takes C.length_of };

    ghost leaving_agrees = { leaves C.length_of };

    ghost split_agrees = { gives C.length_of };

    ghost merge_agrees = { joins C.length_of };
}
