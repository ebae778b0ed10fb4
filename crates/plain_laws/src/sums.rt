//! Expected sums: carried, kept by a copy, lost by a change, and seen by no other answer.
ghost use Rattle.std.specs.Prelude.{◌≡◌, ◌≢◌, ◌⊎◌, ℕ, List, Some, None};
ghost use Rattle.plain_cord.specs.declared.script.Command.{Command as Command_value};
ghost use Rattle.plain_cord.specs.declared.script.Command.TheVariants as commands;
ghost use Rattle.plain_cord.specs.declared.reply.Reply.{Reply as Reply_value};
ghost use Rattle.std.specs.List.{All};
ghost use Rattle.plain_cord.specs.States.{CordState, Environment};
ghost use Rattle.plain_cord.specs.Steps.{PlainStep, PlainRun};
ghost use Rattle.plain_laws.specs.Sums.{SameBytes, AsksSum, GivesSum};
ghost use Rattle.plain_laws.specs.Targets.{target};

/// A copy has the sum of what it copies.
pub fn copies_keep_sums()
    ensures { (names now : Environment) (a b : List ℕ) (cord : CordState) (reply : Reply_value) → PlainStep names (commands.Copy a b) now reply
        → names a ≡ Some cord → now b ≡ Some cord }
{}

/// A command that leaves a name with other bytes leaves it without a sum, a copy onto the name apart.
pub fn changes_lose_sums()
    ensures { (names now : Environment) (command : Command_value) (reply : Reply_value) (name : List ℕ) (old new : CordState)
        → PlainStep names command now reply → ((a : List ℕ) → command ≢ commands.Copy a name)
        → names name ≡ Some old → now name ≡ Some new → new.bytes ≢ old.bytes → new.sum ≡ None }
{}

/// Over any commands, a name that none of them sets keeps its cord, sum included; a name to which none of them gives a
/// sum keeps its cord or has no sum.
pub fn sums_are_carried_or_lost()
    ensures carried { (names now : Environment) (said : List Command_value) (replies : List Reply_value) (name : List ℕ) → PlainRun names said replies now
        → All (λ command. target command ≢ Some name) said → now name ≡ names name }
    ensures lost { (names now : Environment) (said : List Command_value) (replies : List Reply_value) (name : List ℕ) (old new : CordState)
        → PlainRun names said replies now → All (λ command. ¬ (GivesSum name command)) said
        → names name ≡ Some old → now name ≡ Some new → (new ≡ old) ⊎ (new.sum ≡ None) }
{}

/// Sums are seen by the command `sum` alone: over any other commands, environments that differ in their sums give the
/// same answers.
pub fn sums_are_not_seen()
    ensures { (names others now then : Environment) (said : List Command_value) (replies answers : List Reply_value) → SameBytes names others
        → All (λ command. ¬ (AsksSum command)) said
        → PlainRun names said replies now → PlainRun others said answers then → (replies ≡ answers) × SameBytes now then }
{}
