//! What a command changes, and what it leaves.
ghost use Rattle.std.specs.Prelude.{◌≡◌, ◌≢◌, ◌+◌, ◌-◌, ◌≤◌, ◌++◌, ℕ, List, Some, length, take, drop};
ghost use Rattle.plain_cord.specs.declared.script.Command.{Command as Command_value};
ghost use Rattle.plain_cord.specs.declared.reply.Reply.{Reply as Reply_value};
ghost use Rattle.plain_cord.specs.States.{CordState, Environment, SameNames};
ghost use Rattle.plain_cord.specs.Outcomes.{cut_front, cut_back};
ghost use Rattle.plain_cord.specs.Steps.{PlainStep};
ghost use Rattle.plain_laws.specs.Targets.{target};
ghost use Rattle.plain_laws.specs.Refusals.{IsRefusal};

/// A command touches no name but the one that it sets.
pub fn other_names_stay()
    ensures { (names now : Environment) (command : Command_value) (reply : Reply_value) (name : List ℕ) → PlainStep names command now reply
        → target command ≢ Some name → now name ≡ names name }
{}

/// A refused command changes nothing.
pub fn refusals_change_nothing()
    ensures { (names now : Environment) (command : Command_value) (reply : Reply_value) → PlainStep names command now reply → IsRefusal reply
        → SameNames now names }
{}

/// Cutting in front and behind leaves the part between, and the two cuts of a text at one place join to the text.
pub fn cuts_are_parts()
    ensures between { (cord : CordState) (m n : ℕ) → m + n ≤ length cord.bytes
        → (cut_back (cut_front cord m).cord n).cord.bytes ≡ take (length cord.bytes - m - n) (drop m cord.bytes) }
    ensures joined { (cord : CordState) (n : ℕ) → n ≤ length cord.bytes
        → (cut_back cord (length cord.bytes - n)).cord.bytes ++ (cut_front cord n).cord.bytes ≡ cord.bytes }
{}
