//! A run, to a sink: its books, its history and its pool.
ghost use Rattle.std.specs.Prelude.{◌≡◌, ◌≤◌, ◌<◌, ◌∷◌, [], length};
ghost use Rattle.std.specs.List.{All};
ghost use Rattle.report_text.specs.Writings.{Wrote};
ghost use Rattle.report_text.specs.Replies.{line_of, last_text, IsShortReply};
ghost use Rattle.report_text.specs.Outputs.{session_line, reply_line, reply_lines, session_text, books_text, output_text, IsPrintable};
ghost use Rattle.report_text.specs.Lines.{line_bytes, line_length};

use crate::history::write_history;
use crate::line::{LINE, Line};
use crate::pool::write_pool;
use crate::replies::{push_last, reports_of};
use crate::reports::write_reports;
use cord_port::{Failed, Sink, write_all};
use plain_cord::{Book, Entry, Reply, Script, Session};

/// Ends the line and hands it to the sink.
pub fn write_line<K: Sink>(line: &mut Line, sink: &mut K) -> Result<(), Failed>
    requires { line_length line.old < LINE }
    ensures { Wrote (K.held sink.old) (K.held sink.new) (K.faults sink.old) (K.faults sink.new) result (line_of (line_bytes line.old)) }
{
    line.push(b'\n');
    write_all(sink, line.as_slice())
}

fn write_session_line<K: Sink>(line: &mut Line, name: &[u8], sink: &mut K) -> Result<(), Failed>
    requires { length name.now ≤ 16 }
    ensures { Wrote (K.held sink.old) (K.held sink.new) (K.faults sink.old) (K.faults sink.new) result (session_line name.now) }
{
    line.clear();
    line.push_text(b"session ");
    line.push_text(name);
    write_line(line, sink)
}

fn write_last<K: Sink>(line: &mut Line, reply: &Reply, sink: &mut K) -> Result<(), Failed>
    requires { IsShortReply reply.now }
    ensures { Wrote (K.held sink.old) (K.held sink.new) (K.faults sink.old) (K.faults sink.new) result (line_of (last_text reply.now)) }
{
    line.clear();
    push_last(line, reply);
    write_line(line, sink)
}

fn write_reply<K: Sink>(line: &mut Line, reply: &Reply, sink: &mut K) -> Result<(), Failed>
    requires { IsShortReply reply.now }
    ensures { Wrote (K.held sink.old) (K.held sink.new) (K.faults sink.old) (K.faults sink.new) result (reply_line reply.now) }
{
    write_reports(line, reports_of(reply), sink)?;
    write_last(line, reply, sink)
}

fn write_replies<K: Sink>(line: &mut Line, replies: &[Reply], sink: &mut K) -> Result<(), Failed>
    requires { All IsShortReply replies.now }
    ensures { Wrote (K.held sink.old) (K.held sink.new) (K.faults sink.old) (K.faults sink.new) result (reply_lines replies.now) }
{
    for reply in replies {
        write_reply(line, reply, sink)?;
    }
    Ok(())
}

fn write_session<K: Sink>(
    line: &mut Line,
    session: &Session,
    book: &Book,
    sink: &mut K,
) -> Result<(), Failed>
    requires name { length session.now.name ≤ 16 }
    requires short { All IsShortReply book.now.replies }
    ensures { Wrote (K.held sink.old) (K.held sink.new) (K.faults sink.old) (K.faults sink.new) result (session_text (session.now, book.now)) }
{
    write_session_line(line, session.name.as_slice(), sink)?;
    write_replies(line, book.replies.as_slice(), sink)
}

fn write_sessions<K: Sink>(
    line: &mut Line,
    sessions: &[Session],
    books: &[Book],
    sink: &mut K,
) -> Result<(), Failed>
    requires paired { length books.now ≡ length sessions.now }
    requires names { All (λ session. length session.name ≤ 16) sessions.now }
    requires replies { All (λ book. All IsShortReply book.replies) books.now }
    ensures { Wrote (K.held sink.old) (K.held sink.new) (K.faults sink.old) (K.faults sink.new) result (books_text sessions.now books.now) }
{
    for i in 0..books.len() {
        write_session(line, &sessions[i], &books[i], sink)?;
    }
    Ok(())
}

/// Writes a run: for each session the line of its name and those of its answers, then the history, and how many of
/// the pool's numbers are left in use. After a failure the sink got a beginning of the text.
pub fn write_run<K: Sink>(
    script: &Script,
    books: &[Book],
    history: &[Entry],
    left: u32,
    sink: &mut K,
) -> Result<(), Failed>
    requires { IsPrintable script.now.sessions books.now history.now }
    ensures { Wrote (K.held sink.old) (K.held sink.new) (K.faults sink.old) (K.faults sink.new) result
        (output_text script.now.sessions books.now history.now left script.now.pool) }
{
    let sessions = script.sessions.as_slice();
    let mut line = Line::new();
    write_sessions(&mut line, sessions, books, sink)?;
    write_history(&mut line, sessions, history, sink)?;
    write_pool(&mut line, left, script.pool, sink)
}
