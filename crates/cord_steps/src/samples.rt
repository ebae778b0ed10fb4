//! The answers of a few commands, worked out by hand.
ghost use Rattle.std.specs.Prelude.{ℕ, [], ◌∷◌, Option, Some, None, false};
ghost use Rattle.plain_cord.specs.declared.script.Command.TheVariants.{Let, Copy, Append, CutBack, SetSum};
ghost use Rattle.cord_steps.specs.Answers.{External, Releasers, Cords, Pool};
ghost use Rattle.cord_steps.specs.Samples.{each_sampled, x, letters, ok, noted, start, after, MayAnswer};
ghost use Rattle.cord_steps.specs.Steps.{IsAnswer};

/// Fifteen bytes are inline and have no mark; one more makes a new tree, which is sampled, and not without a mark; one less makes it
/// inline again, and its record goes.
pub fn records_come_and_go_with_trees()
    ensures inline { MayAnswer start (Let x (letters 15)) (ok None) }
    ensures tree { MayAnswer (after start (Let x (letters 15)) (ok None)) (Append x (letters 1)) (noted 1 0 16 None) }
    ensures marked { ¬ (MayAnswer (after start (Let x (letters 15)) (ok None)) (Append x (letters 1)) (ok None)) }
    ensures gone { MayAnswer
        (after (after start (Let x (letters 15)) (ok None)) (Append x (letters 1)) (noted 1 0 16 None)) (CutBack x 1) (ok (Some 1)) }
    ensures copied { MayAnswer (after start (Let x (letters 20)) (noted 1 0 20 None)) (Copy x x) (noted 2 0 20 (Some 1)) }
    ensures changed { MayAnswer (after start (Let x (letters 20)) (noted 1 0 20 None)) (SetSum x 7) (noted 1 1 20 None) }
    ensures unchanged { MayAnswer (after start (Let x (letters 20)) (noted 1 0 20 None)) (CutBack x 0) (ok None) }
{}

/// A new tree may be refused for want of a pass or of a number; an inline cord of neither, and a copy of no number. Without a box no
/// external is made.
pub fn refusals_come_to_what_needs_something()
    ensures cords { MayAnswer start (Let x (letters 16)) (Cords 2) }
    ensures few { ¬ (MayAnswer start (Let x (letters 16)) (Cords 1)) }
    ensures pool { MayAnswer start (Let x (letters 16)) (Pool 8) }
    ensures size { ¬ (MayAnswer start (Let x (letters 16)) (Pool 7)) }
    ensures inline { ¬ (MayAnswer start (Let x (letters 15)) (Cords 2)) }
    ensures no_number { ¬ (MayAnswer start (Let x (letters 15)) (Pool 8)) }
    ensures copy { ¬ (MayAnswer (after start (Let x (letters 20)) (noted 1 0 20 None)) (Copy x x) (Pool 8)) }
    ensures copy_pass { MayAnswer (after start (Let x (letters 20)) (noted 1 0 20 None)) (Copy x x) (Cords 3) }
    ensures releasers { IsAnswer {Report = ℕ} false each_sampled start [] (External x (letters 20)) Releasers }
{}
