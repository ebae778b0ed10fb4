//! What a session answers where its cords are trees, of which some are sampled.
ghost use Rattle.std.specs.Prelude.{◌≡◌, Some, None, IfOk, OnErr};
ghost use Rattle.plain_cord.specs.declared.reply.Reply.TheVariants as replies;
ghost use Rattle.cord_value.specs.declared.refusals.CordError.TheVariants as errors;
ghost use Rattle.sampled_commands.specs.declared.answer.Answer.TheVariants as answers;
ghost use Rattle.sampled_commands.specs.Answers.{ok_with, new_mark, gone_of, refusal_of};

use cord_sampled::Mark;
use cord_value::CordError;
use plain_cord::{Items, NewMark, Reply, Report};
use std::alloc::{AllocError, Global};

/// An answer as on byte strings, or one that only trees can have.
#[derive(Debug, Drop)]
pub enum Answer {
    Told { reply: Reply },
    /// All boxes of releasers that the session owns were used before.
    Releasers,
    /// The tree would need a Branch of height 12, which is one too high.
    Height,
    /// A counted step found so many live passes, at least the limit.
    Cords { found: u64 },
    /// Each of so many numbers, which are all, was found in use.
    Pool { size: u32 },
    /// The session has a snapshot.
    HasSnapshot,
    /// The session has no snapshot.
    NoSnapshot,
    /// What a walk found, the newest record first.
    Walked { reports: Items<Report> },
    /// A snapshot was ended, and so many records were deleted with it.
    Ended { deleted: u64 },
}

/// An answer as on byte strings.
pub fn told(reply: Reply) -> Answer
    ensures { result ≡ answers.Told reply }
{
    Answer::Told { reply }
}

/// `ok`, with the mark of the cord that was made or changed and that of a record that was given up.
pub fn done(new: Mark, gone: Mark) -> Answer
    ensures { result ≡ ok_with (new_mark new) (gone_of gone) }
{
    let new = match new {
        Mark::Noted(note) => NewMark::Noted {
            stamp: note.stamp,
            update: note.update,
            length: note.length,
        },
        Mark::Full { .. } => NewMark::Full,
        _ => NewMark::Plain,
    };
    let gone = match gone {
        Mark::Gone { stamp } => Some(stamp),
        _ => None,
    };
    told(Reply::Done { new, gone })
}

/// The command reads a name that was never set.
pub fn unset(alloc: Global, name: &[u8]) -> Result<Answer, AllocError>
    ensures { IfOk result (λ answer. answer ≡ answers.Told (replies.Unset name.now)) }
{
    let name = Items::from_slice(alloc, name)?;
    Ok(told(Reply::Unset { name }))
}

/// The answer to a refused call on a cord. Its error is want of memory.
pub fn refusal(error: CordError) -> Result<Answer, AllocError>
    ensures answer { IfOk result (λ answer. Some answer ≡ refusal_of error) }
    ensures memory { OnErr result (error ≡ errors.Memory) }
{
    match error {
        CordError::Position { asked, size } => Ok(told(Reply::Position { asked, size })),
        CordError::LengthLimit { asked } => Ok(told(Reply::Length { asked })),
        CordError::HeightLimit { height: _ } => Ok(Answer::Height),
        CordError::PassLimit { found } => Ok(Answer::Cords { found }),
        CordError::NoNumber { seen } => Ok(Answer::Pool { size: seen }),
        CordError::NoReleaser { used: _ } => Ok(Answer::Releasers),
        CordError::Memory => Err(AllocError),
    }
}
