//! The rule of the desk of records.
use record_rule::{DeskValue, DeskView, Holding};
use std::marker::PhantomData;
use turn_desk::DeskRule;

/// The rule of a desk whose records have shares of this kind.
pub struct RecordRule<S> {
    share: PhantomData<S>,
}

impl<S: Holding> DeskRule for RecordRule<S> {
    ghost use Rattle.std.specs.Prelude.{[]};
    ghost use Rattle.record_rule.specs.World.{Stands};
    ghost use Rattle.record_rule.specs.Steps.{Leaves, Splits, Merges};
    ghost use Rattle.record_rule.proofs.Laws.{takes_out, gives_back, splits, merges};
    ghost use Rattle.record_rule.specs.declared.views.DeskView.TheVariants.{Root};

    type Value = DeskValue<S>;

    type View = DeskView;

    type About = u8;

    ghost first = { λ _. Root 0 [] };

    ghost nobody = { Root 0 [] };

    ghost agrees = { Stands S.tree_of S.fits };

    ghost leaves = { Leaves S.tree_of S.fits };

    ghost splits = { Splits };

    ghost merges = { Merges };

    ghost taking_agrees = { takes_out S.tree_of S.fits };

    ghost leaving_agrees = { gives_back S.tree_of S.fits };

    ghost split_agrees = { splits S.tree_of S.fits };

    ghost merge_agrees = { merges S.tree_of S.fits };
}
