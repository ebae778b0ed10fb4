//! What the plain step promises, of every session.
ghost use Rattle.std.specs.Prelude.{◌≡◌, ◌⊎◌, ℕ, List};
ghost use Rattle.plain_cord.specs.declared.script.Command.{Command as Command_value};
ghost use Rattle.plain_cord.specs.declared.reply.Reply.{Reply as Reply_value};
ghost use Rattle.plain_cord.specs.declared.reply.Report.{Report as Report_value};
ghost use Rattle.plain_cord.specs.declared.history.Entry.{Entry as Entry_value};
ghost use Rattle.plain_cord.specs.Deeds.{empty_cells};
ghost use Rattle.plain_cord.specs.Effects as bytes;
ghost use Rattle.plain_cord.specs.Effects.{PlainEffect};
ghost use Rattle.plain_cord.specs.Runs as plain;
ghost use Rattle.cord_steps.specs.Answers.{Request, Plain, Answer, Told, IsTold, IsResourceRefusal, unmarked};
ghost use Rattle.cord_steps.specs.Causes.{ShowsCause};
ghost use Rattle.cord_steps.specs.Notes.{HaveNoNotes, HasNoMark};
ghost use Rattle.cord_steps.specs.Replies.{request_of, answer_of, reply_of};
ghost use Rattle.cord_steps.specs.Runs.{Line, Plays, new_session, kept_lines};
ghost use Rattle.cord_steps.specs.Boarding.{left};
ghost use Rattle.cord_steps.specs.Sessions.{Options, Session, Cells, Effect, plain_session, plain_cells, plain_effect};
ghost use Rattle.cord_steps.specs.Steps.{IsStep};
ghost use Rattle.cord_steps.specs.Whole.{AreWhole, IsWithin};

/// A command that is refused for want of a height, a pass or a number changes nothing: not its session, no cell, not the history.
pub fn resource_refusals_change_nothing<R>()
    ensures { (options : Options) (p : ℕ) (s : Session) (cells : Cells) (request : Request) (answer : Answer R) (e : Effect)
        → IsStep options p s cells request answer e → IsResourceRefusal answer → e ≡ left s cells }
{}

/// A refusal for want of a pass tells at least as many live passes as the limit, and one for want of a number all that the pool has.
pub fn resource_refusals_show_their_cause<R>()
    ensures { (options : Options) (p : ℕ) (s : Session) (cells : Cells) (request : Request) (answer : Answer R) (e : Effect)
        → IsStep options p s cells request answer e → ShowsCause options answer }
{}

/// A command that isn't refused for want of a height, a pass or a number does to bytes, sums, cells and the history what it does on
/// byte strings, and its reply is the same but for its marks.
pub fn steps_follow_bytes<R>()
    ensures { (options : Options) (p : ℕ) (s : Session) (cells : Cells) (command : Command_value) (reply : Reply_value) (e : Effect)
        → IsStep {Report = R} options p s cells (Plain command) (Told reply) e
        → PlainEffect p (plain_session s) (plain_cells cells) command (plain_effect e (unmarked reply)) }
{}

/// A command on byte strings and cells is answered as on byte strings, but for marks, or refused for want of a height, a pass or a
/// number.
pub fn commands_are_answered_or_refused<R>()
    ensures { (options : Options) (p : ℕ) (s : Session) (cells : Cells) (command : Command_value) (answer : Answer R) (e : Effect)
        → IsStep options p s cells (Plain command) answer e → IsTold answer ⊎ IsResourceRefusal answer }
{}

/// A run over trees is a run on byte strings with the same history: without the lines that were refused for want of a height, a
/// pass, a number or a box, those of the profiler, and marks.
pub fn runs_without_refusals_are_plain_runs<R>()
    ensures lines { (options : Options) (xs : List (ℕ × Line R)) (states : ℕ → Session) (cells : Cells) (history : List Entry_value)
        → Plays options states cells xs history
        → plain.Plays (λ p. plain_session (states p)) (plain_cells cells) (kept_lines xs) history }
    ensures whole { (options : Options) (boxes : ℕ → ℕ) (xs : List (ℕ × Line R)) (history : List Entry_value)
        → Plays options (λ p. new_session (boxes p)) empty_cells xs history
        → plain.Plays (λ p. bytes.new_session) empty_cells (kept_lines xs) history }
{
    resource_refusals_change_nothing::<R>();
}

/// Cords stay whole: each has a tree exactly where it has more than 15 bytes or a sum, well formed, of as many bytes as the byte
/// string has and with its sum, and only a tree has a note.
pub fn steps_keep_cords_whole<R>()
    ensures { (options : Options) (p : ℕ) (s : Session) (cells : Cells) (request : Request) (answer : Answer R) (e : Effect)
        → IsStep options p s cells request answer e → IsWithin request → AreWhole s cells → AreWhole e.state e.cells }
{}

/// Where the stride is 0 and no cord is sampled, no answer has a mark, and no cord is sampled afterwards.
pub fn steps_without_a_stride_have_no_marks<R>()
    ensures answer { (options : Options) (p : ℕ) (s : Session) (cells : Cells) (request : Request) (answer : Answer R) (e : Effect)
        → options.stride ≡ 0 → IsStep options p s cells request answer e → HaveNoNotes s cells → HasNoMark answer }
    ensures notes { (options : Options) (p : ℕ) (s : Session) (cells : Cells) (request : Request) (answer : Answer R) (e : Effect)
        → options.stride ≡ 0 → IsStep options p s cells request answer e → HaveNoNotes s cells → HaveNoNotes e.state e.cells }
{}

/// A book's replies tell the answers of its session: different replies tell different answers, different commands are different
/// requests, and the reply by which an answer of a step is told tells that answer.
pub fn replies_tell_answers()
    ensures differ { (x : Reply_value) (y : Reply_value) → answer_of x ≡ answer_of y → x ≡ y }
    ensures requests { (x : Command_value) (y : Command_value) → request_of x ≡ request_of y → x ≡ y }
    ensures back { (reply : Reply_value) → reply_of (answer_of reply) ≡ reply }
    ensures told { (options : Options) (p : ℕ) (s : Session) (cells : Cells) (request : Request) (answer : Answer Report_value) (e : Effect)
        → IsStep options p s cells request answer e → answer ≡ answer_of (reply_of answer) }
{}
