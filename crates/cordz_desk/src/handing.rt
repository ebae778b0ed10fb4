//! How tokens hand a record's claim to one another.
use record_rule::DeskView;
use turn_desk::{Join, Split};

// The claim that a token had last goes to a ticket.
pub(crate) struct Issuing;

impl Split<DeskView> for Issuing {
    ghost use Rattle.cordz_desk.specs.Owners.{issuing_view, issued_view};

    ghost left = { issuing_view };

    ghost right = { issued_view };
}

// A token takes a ticket back.
pub(crate) struct Redeeming;

impl Join<DeskView> for Redeeming {
    ghost use Rattle.std.specs.Prelude.{[]};
    ghost use Rattle.record_rule.specs.declared.views.DeskView.TheVariants.{Root};
    ghost use Rattle.cordz_desk.specs.Owners.{redeeming_view};

    ghost both = { redeeming_view };

    ghost spent = { Root 0 [] };
}

// A token comes back to the first one.
pub(crate) struct Returning;

impl Join<DeskView> for Returning {
    ghost use Rattle.std.specs.Prelude.{[]};
    ghost use Rattle.record_rule.specs.declared.views.DeskView.TheVariants.{Root};
    ghost use Rattle.cordz_desk.specs.Closed.{returning_view};

    ghost both = { returning_view };

    ghost spent = { Root 0 [] };
}

// A ticket lends what it knows.
pub(crate) struct Lending;

impl Split<DeskView> for Lending {
    ghost use Rattle.record_rule.specs.declared.views.DeskView.TheVariants.{Lent};

    ghost left = { λ _. Lent };

    ghost right = { λ v. v };
}

// A token takes a ticket, and sees its update.
pub(crate) struct Seeing;

impl Join<DeskView> for Seeing {
    ghost use Rattle.std.specs.Prelude.{[]};
    ghost use Rattle.record_rule.specs.declared.views.DeskView.TheVariants.{Root};
    ghost use Rattle.cordz_desk.specs.Owners.{seeing_view};

    ghost both = { seeing_view };

    ghost spent = { Root 0 [] };
}

// What was lent comes back.
pub(crate) struct Filling;

impl Join<DeskView> for Filling {
    ghost use Rattle.std.specs.Prelude.{[]};
    ghost use Rattle.record_rule.specs.declared.views.DeskView.TheVariants.{Root};

    ghost both = { λ _ w. w };

    ghost spent = { Root 0 [] };
}
