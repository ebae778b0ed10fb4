//! The line of a script that is well formed, to a sink.
ghost use Rattle.report_text.specs.Writings.{Wrote};
ghost use Rattle.report_text.specs.Summaries.{summary_line};

use crate::line::Line;
use crate::writing::write_line;
use cord_port::{Failed, Sink};

/// Writes how many sessions a script has, and how many commands in all.
pub fn write_summary<K: Sink>(sessions: u64, commands: u64, sink: &mut K) -> Result<(), Failed>
    ensures { Wrote (K.held sink.old) (K.held sink.new) (K.faults sink.old) (K.faults sink.new) result (summary_line sessions commands) }
{
    let mut line = Line::new();
    line.push_text(b"ok ");
    line.push_number(sessions);
    line.push_text(b" sessions ");
    line.push_number(commands);
    line.push_text(b" commands");
    write_line(&mut line, sink)
}
