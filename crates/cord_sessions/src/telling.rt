//! Books of what sessions on cords answered.
ghost use Rattle.std.specs.Prelude.{◌≡◌, map, IfOk};
ghost use Rattle.cord_sessions.specs.Telling.{reply_to, book_of};

use cord_commands::Answer;
use plain_cord::{Book, Items, Reply};
use std::alloc::{AllocError, Global};

// The reply by which an answer is told.
fn reply_to(answer: Answer) -> Reply
    ensures { result ≡ reply_to answer }
{
    match answer {
        Answer::Told { reply } => reply,
        Answer::Releasers => Reply::Releasers,
        Answer::Height => Reply::Height,
        Answer::Cords { found } => Reply::Cords { found },
        Answer::Pool { size } => Reply::Pool { size },
    }
}

// The book of a session.
fn book_of(alloc: Global, answers: Vec<Answer>) -> Result<Book, AllocError>
    ensures { IfOk result (λ book. book ≡ book_of answers.items) }
{
    let mut replies = Items::new(alloc);
    for answer in answers {
        replies.push(reply_to(answer))?;
    }
    Ok(Book { replies })
}

/// The books of sessions that have these answers, in their order.
pub fn books_of(alloc: Global, all: Vec<Vec<Answer>>) -> Result<Vec<Book>, AllocError>
    ensures { IfOk result (λ books. books.items ≡ map (λ answers. book_of answers.items) all.items) }
{
    let mut books = Vec::with_capacity(alloc, all.len())?;
    for answers in all {
        let book = book_of(alloc, answers)?;
        books.push_reserved(book);
    }
    Ok(books)
}
