//! The board's history, to a sink.
ghost use Rattle.std.specs.Prelude.{◌≡◌, ◌+◌, ◌≤◌, ◌<◌, ◌++◌, length};
ghost use Rattle.std.specs.List.{All};
ghost use Rattle.report_text.specs.Writings.{Wrote};
ghost use Rattle.report_text.specs.Replies.{line_of};
ghost use Rattle.report_text.specs.Histories.{act_word, length_text, lengths_text, entry_text, name_at, entry_line, count_line, entry_lines, history_text};
ghost use Rattle.report_text.specs.Outputs.{IsProperEntry};
ghost use Rattle.report_text.specs.Lines.{line_bytes, line_length};

use crate::line::{LINE, Line};
use crate::writing::write_line;
use cord_port::{Failed, Sink};
use plain_cord::{Act, Entry, Session};

fn act_word(act: Act) -> &'static [u8]
    ensures word { result.now ≡ act_word act }
    ensures short { length result.now ≤ 4 }
{
    match act {
        Act::Put => b"put",
        Act::Take => b"take",
        Act::Peek => b"peek",
        Act::Swap => b"swap",
    }
}

fn push_length(line: &mut Line, length: Option<u64>)
    requires { line_length line.old + 21 ≤ LINE }
    ensures bytes { line_bytes line.new ≡ line_bytes line.old ++ length_text length }
    ensures len { line_length line.new ≤ line_length line.old + 21 }
{
    if let Some(n) = length {
        line.push(b' ');
        line.push_number(n);
    }
}

fn push_lengths(line: &mut Line, came: Option<u64>, was: Option<u64>)
    requires { line_length line.old + 50 ≤ LINE }
    ensures bytes { line_bytes line.new ≡ line_bytes line.old ++ lengths_text came was }
    ensures len { line_length line.new ≤ line_length line.old + 50 }
{
    if came.is_none() && was.is_none() {
        line.push_text(b"empty");
    } else {
        line.push_text(b"ok");
        push_length(line, came);
        push_length(line, was);
    }
}

// An action of the session of this name, without its newline, on an empty line.
fn push_entry(line: &mut Line, name: &[u8], entry: &Entry)
    requires empty { line_length line.old ≡ 0 }
    requires name { length name.now ≤ 16 }
    ensures bytes { line_bytes line.new ≡ entry_text name.now entry.now }
    ensures len { line_length line.new < LINE }
{
    line.push_text(name);
    line.push(b' ');
    line.push_number(entry.place as u64);
    line.push(b' ');
    line.push_text(act_word(entry.act));
    line.push(b' ');
    line.push_number(entry.cell as u64);
    line.push(b' ');
    push_lengths(line, entry.came, entry.was);
}

fn write_entry<K: Sink>(
    line: &mut Line,
    sessions: &[Session],
    entry: &Entry,
    sink: &mut K,
) -> Result<(), Failed>
    requires names { All (λ session. length session.name ≤ 16) sessions.now }
    requires session { entry.now.session < length sessions.now }
    ensures { Wrote (K.held sink.old) (K.held sink.new) (K.faults sink.old) (K.faults sink.new) result (entry_line sessions.now entry.now) }
{
    line.clear();
    push_entry(
        line,
        sessions[entry.session as usize].name.as_slice(),
        entry,
    );
    write_line(line, sink)
}

fn write_entries<K: Sink>(
    line: &mut Line,
    sessions: &[Session],
    history: &[Entry],
    sink: &mut K,
) -> Result<(), Failed>
    requires names { All (λ session. length session.name ≤ 16) sessions.now }
    requires history { All (IsProperEntry (length sessions.now)) history.now }
    ensures { Wrote (K.held sink.old) (K.held sink.new) (K.faults sink.old) (K.faults sink.new) result (entry_lines sessions.now history.now) }
{
    for entry in history {
        write_entry(line, sessions, entry, sink)?;
    }
    Ok(())
}

fn write_count<K: Sink>(line: &mut Line, count: u64, sink: &mut K) -> Result<(), Failed>
    ensures { Wrote (K.held sink.old) (K.held sink.new) (K.faults sink.old) (K.faults sink.new) result (count_line count) }
{
    line.clear();
    line.push_text(b"history ");
    line.push_number(count);
    write_line(line, sink)
}

/// Writes how many actions there were, and a line for each.
pub fn write_history<K: Sink>(
    line: &mut Line,
    sessions: &[Session],
    history: &[Entry],
    sink: &mut K,
) -> Result<(), Failed>
    requires names { All (λ session. length session.name ≤ 16) sessions.now }
    requires history { All (IsProperEntry (length sessions.now)) history.now }
    ensures { Wrote (K.held sink.old) (K.held sink.new) (K.faults sink.old) (K.faults sink.new) result (history_text sessions.now history.now) }
{
    write_count(line, history.len() as u64, sink)?;
    write_entries(line, sessions, history, sink)
}
