//! The reports of a walk, to a sink.
ghost use Rattle.std.specs.Prelude.{◌≡◌, ◌+◌, ◌*◌, ◌≤◌, ◌<◌, ◌++◌, length};
ghost use Rattle.report_text.specs.Writings.{Wrote};
ghost use Rattle.report_text.specs.Reports.{numbers_text, statistics_text, report_text};
ghost use Rattle.report_text.specs.Replies.{report_line, report_lines};
ghost use Rattle.report_text.specs.Lines.{line_bytes, line_length};

use crate::line::{LINE, Line};
use crate::writing::write_line;
use cord_port::{Failed, Sink};
use plain_cord::{Report, Statistics};

// Numbers, a space in front of each.
fn push_numbers(line: &mut Line, numbers: &[u64])
    requires { line_length line.old + 21 * length numbers.now ≤ LINE }
    ensures bytes { line_bytes line.new ≡ line_bytes line.old ++ numbers_text numbers.now }
    ensures len { line_length line.new ≤ line_length line.old + 21 * length numbers.now }
{
    for n in numbers {
        line.push(b' ');
        line.push_number(*n);
    }
}

// What the nodes add up to.
fn push_statistics(line: &mut Line, statistics: &Statistics)
    requires { line_length line.old + 400 ≤ LINE }
    ensures bytes { line_bytes line.new ≡ line_bytes line.old ++ statistics_text statistics.now }
    ensures len { line_length line.new ≤ line_length line.old + 400 }
{
    line.push_named_number(b" size ", statistics.size);
    line.push_named_number(b" nodes ", statistics.nodes);
    line.push_named_number(b" flat ", statistics.flat);
    line.push_named_number(b" external ", statistics.external);
    line.push_named_number(b" part ", statistics.part);
    line.push_named_number(b" sum ", statistics.sum);
    line.push_named_number(b" branch ", statistics.branch);
    line.push_text(b" buckets");
    push_numbers(line, &statistics.buckets);
    line.push_named_number(b" memory ", statistics.memory);
}

fn write_report<K: Sink>(line: &mut Line, report: &Report, sink: &mut K) -> Result<(), Failed>
    ensures { Wrote (K.held sink.old) (K.held sink.new) (K.faults sink.old) (K.faults sink.new) result (report_line report.now) }
{
    line.clear();
    line.push_named_number(b"record ", report.stamp);
    line.push_named_number(b".", report.update);
    push_statistics(line, &report.statistics);
    write_line(line, sink)
}

/// Writes a line for each report.
pub fn write_reports<K: Sink>(
    line: &mut Line,
    reports: &[Report],
    sink: &mut K,
) -> Result<(), Failed>
    ensures { Wrote (K.held sink.old) (K.held sink.new) (K.faults sink.old) (K.faults sink.new) result (report_lines reports.now) }
{
    for report in reports {
        write_report(line, report, sink)?;
    }
    Ok(())
}
