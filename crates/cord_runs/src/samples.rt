//! A few runs of two sessions, worked out by hand.
ghost use Rattle.std.specs.Prelude.{◌≡◌, [], ◌∷◌, Some, None};
ghost use Rattle.plain_cord.specs.declared.history.Act.TheVariants.{Take, Peek};
ghost use Rattle.plain_cord.specs.declared.reply.NewMark.TheVariants as marks;
ghost use Rattle.plain_cord.specs.declared.reply.Reply.TheVariants as replies;
ghost use Rattle.plain_cord.specs.declared.script.Command.TheVariants.{Let, Ext};
ghost use Rattle.cord_steps.specs.Answers.{Plain, External, Walk, NoSnapshot, Pool};
ghost use Rattle.cord_steps.specs.Runs.{kept};
ghost use Rattle.cord_steps.specs.Samples.{x, letters, noted};
ghost use Rattle.cord_runs.specs.Samples.{taking, peeking, taken_book, empty_book, peeked_book, first_action, put_entry, MayRun};

/// Where the put comes first, the take finds its cord, with its record; where the take comes first, it finds an empty cell.
pub fn takes_find_what_was_put_before()
    ensures behind { MayRun taking taken_book (put_entry ∷ first_action 1 Take None (Some 20) ∷ []) }
    ensures before { MayRun taking empty_book (first_action 1 Take None None ∷ put_entry ∷ []) }
    ensures never { ¬ (MayRun taking taken_book (first_action 1 Take None None ∷ put_entry ∷ [])) }
{}

/// A peek that is refused for want of a pass is no action: the next one is the first of its session. Its copy has a record of its
/// own, as the cord in the cell is sampled.
pub fn refused_peeks_are_no_actions()
    ensures { MayRun peeking peeked_book (put_entry ∷ first_action 1 Peek None (Some 20) ∷ []) }
{}

/// Of a text that was refused for want of a number and of a walk nothing is kept, and an external is kept as the command that it is on
/// byte strings, without its mark.
pub fn kept_lines_are_those_on_byte_strings()
    ensures { kept ((Plain (Let x (letters 16)), Pool 8) ∷ (External x (letters 20), noted 1 0 20 None) ∷ (Walk, NoSnapshot) ∷ [])
        ≡ (Ext x (letters 20), replies.Done marks.Plain None) ∷ [] }
{}
