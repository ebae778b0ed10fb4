//! The line of the pool, to a sink.
ghost use Rattle.report_text.specs.Writings.{Wrote};
ghost use Rattle.report_text.specs.Histories.{pool_line};

use crate::line::Line;
use crate::writing::write_line;
use cord_port::{Failed, Sink};

/// Writes how many of the pool's numbers are in use, and how many it has.
pub fn write_pool<K: Sink>(
    line: &mut Line,
    left: u32,
    pool: u32,
    sink: &mut K,
) -> Result<(), Failed>
    ensures { Wrote (K.held sink.old) (K.held sink.new) (K.faults sink.old) (K.faults sink.new) result (pool_line left pool) }
{
    line.clear();
    line.push_text(b"pool ");
    line.push_number(left as u64);
    line.push_text(b" of ");
    line.push_number(pool as u64);
    write_line(line, sink)
}
