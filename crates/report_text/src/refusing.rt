//! The line of a script that is refused, to a sink.
ghost use Rattle.std.specs.Prelude.{◌≤◌, ◌<◌, length};
ghost use Rattle.report_text.specs.Writings.{Wrote};
ghost use Rattle.report_text.specs.Outputs.{refusal_line};

use crate::line::Line;
use crate::writing::write_line;
use cord_port::{Failed, Sink};

/// Writes in which line of the script its first fault is, and the word for its cause.
pub fn write_refusal<K: Sink>(number: u32, word: &[u8], sink: &mut K) -> Result<(), Failed>
    requires { length word.now ≤ 16 }
    ensures { Wrote (K.held sink.old) (K.held sink.new) (K.faults sink.old) (K.faults sink.new) result (refusal_line number word.now) }
{
    let mut line = Line::new();
    line.push_text(b"refused at line ");
    line.push_number(number as u64);
    line.push_text(b": ");
    line.push_text(word);
    write_line(&mut line, sink)
}
