//! What a session does by itself, request by request, whatever the others do.
ghost use Rattle.std.specs.Prelude.{◌≡◌, ℕ, ◌+◌, ◌≤◌, List, [], ◌∷◌, ◌++◌, Option, Some, None, option_map};
ghost use Rattle.plain_cord.specs.declared.deed.Deed.{Deed as Deed_value};
ghost use Rattle.plain_cord.specs.declared.history.Act.TheVariants.{Put, Take, Peek, Swap};
ghost use Rattle.plain_cord.specs.declared.reply.Reply.{Reply as Reply_value};
ghost use Rattle.plain_cord.specs.declared.reply.Reply.TheVariants as replies;
ghost use Rattle.plain_cord.specs.declared.script.Command.TheVariants as commands;
ghost use Rattle.plain_cord.specs.Deeds.{deed};
ghost use Rattle.cord_steps.specs.Answers.{Request, Plain, Answer, Told, Cords};
ghost use Rattle.cord_steps.specs.Boarding.{left, given, brought, noted_by, gave_up, unless_empty, IsPeekReply};
ghost use Rattle.cord_steps.specs.Cords.{Cord, Names, no_bytes, naming, stamp_in};
ghost use Rattle.cord_steps.specs.Runs.{Line};
ghost use Rattle.cord_steps.specs.Sessions.{Options, Session};
ghost use Rattle.cord_steps.specs.Steps.{IsStep};
ghost use Rattle.cord_runs.specs.Alone.{acted_with, AreNames, StepsAlone, RunsAlone};
ghost use Rattle.cord_runs.specs.Runs.{IsApart};

/// A request that asks for nothing on the board does the same over any cells, so also over none. A command on a cell does nothing
/// there where its name was never set, or where a peek finds no pass.
pub fn requests_apart_from_the_board_stand_alone<R>()
    ensures apart { (options : Options) (p : ℕ) (s : Session) (request : Request) (answer : Answer R) (after : Session) → IsApart request
        → IsStep options p s [] request answer (left after []) → StepsAlone options p s (request, answer) [] after }
    ensures put { (options : Options) (p : ℕ) (s : Session) (a : List ℕ) (cell : ℕ) → s.names a ≡ None
        → StepsAlone {Report = R} options p s (Plain (commands.Put a cell), Told (replies.Unset a)) [] s }
    ensures swap { (options : Options) (p : ℕ) (s : Session) (a : List ℕ) (cell : ℕ) → s.names a ≡ None
        → StepsAlone {Report = R} options p s (Plain (commands.Swap a cell), Told (replies.Unset a)) [] s }
    ensures peek { (options : Options) (p : ℕ) (s : Session) (cell : ℕ) (a : List ℕ) (found : ℕ) → options.passes ≤ found
        → StepsAlone {Report = R} options p s (Plain (commands.Peek cell a), Cords found) [] s }
{}

/// A command on a cell that found `was` there: what its session answers, and which names it has afterwards.
pub fn actions_stand_alone<R>()
    ensures put { (options : Options) (p : ℕ) (s : Session) (a : List ℕ) (cell : ℕ) (c : Cord) (was : Option Cord) (names : Names)
        → s.names a ≡ Some c → AreNames names (naming s.names a (Some no_bytes))
        → StepsAlone {Report = R} options p s (Plain (commands.Put a cell), Told (gave_up (stamp_in was)))
        (deed p (s.acted + 1) Put cell (Some c) was ∷ []) (acted_with s names) }
    ensures take { (options : Options) (p : ℕ) (s : Session) (cell : ℕ) (a : List ℕ) (was : Option Cord) (names : Names)
        → AreNames names (given s.names a was)
        → StepsAlone {Report = R} options p s (Plain (commands.Take cell a), Told (unless_empty cell was (stamp_in (s.names a))))
        (deed p (s.acted + 1) Take cell None was ∷ []) (acted_with s names) }
    ensures peek { (options : Options) (p : ℕ) (s : Session) (cell : ℕ) (a : List ℕ) (was : Option Cord) (reply : Reply_value) (names : Names)
        → IsPeekReply cell was (stamp_in (s.names a)) reply → AreNames names (given s.names a (option_map (noted_by reply) was))
        → StepsAlone {Report = R} options p s (Plain (commands.Peek cell a), Told reply)
        (deed p (s.acted + 1) Peek cell None was ∷ []) (acted_with s names) }
    ensures swap { (options : Options) (p : ℕ) (s : Session) (a : List ℕ) (cell : ℕ) (c : Cord) (was : Option Cord) (names : Names)
        → s.names a ≡ Some c → AreNames names (given s.names a was)
        → StepsAlone {Report = R} options p s (Plain (commands.Swap a cell), Told (unless_empty cell was None))
        (deed p (s.acted + 1) Swap cell (brought c was) was ∷ []) (acted_with s names) }
{}

/// A session goes on by one line.
pub fn sessions_go_on_alone<R>()
    ensures { (options : Options) (p : ℕ) (s : Session) (said : List (Line R)) (did : List (Deed_value Cord)) (mid : Session) (line : Line R)
        (now : List (Deed_value Cord)) (after : Session) → RunsAlone options p s said did mid → StepsAlone options p mid line now after
        → RunsAlone options p s (said ++ line ∷ []) (did ++ now) after }
{}
