//! What a session answers where its cords are trees.
ghost use Rattle.std.specs.Prelude.{◌≡◌, Some, None, IfOk, OnErr};
ghost use Rattle.plain_cord.specs.declared.reply.Reply.TheVariants as replies;
ghost use Rattle.cord_value.specs.declared.refusals.CordError.TheVariants as errors;
ghost use Rattle.cord_commands.specs.declared.answer.Answer.TheVariants as answers;
ghost use Rattle.cord_commands.specs.Answers.{ok, refusal_of};

use cord_value::CordError;
use plain_cord::{Items, NewMark, Reply};
use std::alloc::{AllocError, Global};

/// An answer as on byte strings, or one that only trees can have.
#[derive(Debug, Drop)]
pub enum Answer {
    Told { reply: Reply },
    /// All boxes of releasers that the session owns were used before.
    Releasers,
    /// The tree would need a Branch of height 12, which is one too high.
    Height,
    /// A counted step found so many live passes, at least the limit.
    Cords { found: u64 },
    /// Each of so many numbers, which are all, was found in use.
    Pool { size: u32 },
}

/// An answer as on byte strings.
pub fn told(reply: Reply) -> Answer
    ensures { result ≡ answers.Told reply }
{
    Answer::Told { reply }
}

/// `ok` with no mark.
pub fn done() -> Answer
    ensures { result ≡ ok }
{
    told(Reply::Done {
        new: NewMark::Plain,
        gone: None,
    })
}

/// The command reads a name that was never set.
pub fn unset(alloc: Global, name: &[u8]) -> Result<Answer, AllocError>
    ensures { IfOk result (λ answer. answer ≡ answers.Told (replies.Unset name.now)) }
{
    let name = Items::from_slice(alloc, name)?;
    Ok(told(Reply::Unset { name }))
}

/// The answer to a refused call on a cord. Its error is want of memory.
pub fn refusal(error: CordError) -> Result<Answer, AllocError>
    ensures answer { IfOk result (λ answer. Some answer ≡ refusal_of error) }
    ensures memory { OnErr result (error ≡ errors.Memory) }
{
    match error {
        CordError::Position { asked, size } => Ok(told(Reply::Position { asked, size })),
        CordError::LengthLimit { asked } => Ok(told(Reply::Length { asked })),
        CordError::HeightLimit { height: _ } => Ok(Answer::Height),
        CordError::PassLimit { found } => Ok(Answer::Cords { found }),
        CordError::NoNumber { seen } => Ok(Answer::Pool { size: seen }),
        CordError::NoReleaser { used: _ } => Ok(Answer::Releasers),
        CordError::Memory => Err(AllocError),
    }
}
