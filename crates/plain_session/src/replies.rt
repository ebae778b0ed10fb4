//! Answers that several commands give.
ghost use Rattle.std.specs.Prelude.{◌≡◌, IfOk};
ghost use Rattle.plain_cord.specs.declared.reply.Reply.TheVariants as replies;
ghost use Rattle.plain_cord.specs.declared.reply.NewMark.TheVariants as marks;

use plain_cord::{Items, NewMark, Reply};
use std::alloc::{AllocError, Global};

/// `ok` with no mark.
pub fn done() -> Reply
    ensures { result ≡ replies.Done marks.Plain None }
{
    Reply::Done {
        new: NewMark::Plain,
        gone: None,
    }
}

/// The command reads a name that was never set.
pub fn unset(alloc: Global, name: &[u8]) -> Result<Reply, AllocError>
    ensures { IfOk result (λ reply. reply ≡ replies.Unset name.now) }
{
    let name = Items::from_slice(alloc, name)?;
    Ok(Reply::Unset { name })
}
