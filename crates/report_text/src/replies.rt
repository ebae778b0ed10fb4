//! One answer: the reports in it, and the text of its last line.
ghost use Rattle.std.specs.Prelude.{◌≡◌, ◌+◌, ◌≤◌, ◌<◌, ◌++◌, [], length};
ghost use Rattle.report_text.specs.Replies.{mark_text, gone_text, more_text, reports_of, last_text, IsShortReply};
ghost use Rattle.report_text.specs.Lines.{line_bytes, line_length};

use crate::line::{LINE, Line};
use crate::quoting::push_quoted;
use plain_cord::{NewMark, Reply, Report};

fn push_mark(line: &mut Line, mark: NewMark)
    requires { line_length line.old + 80 ≤ LINE }
    ensures bytes { line_bytes line.new ≡ line_bytes line.old ++ mark_text mark }
    ensures len { line_length line.new ≤ line_length line.old + 80 }
{
    match mark {
        NewMark::Plain => {}
        NewMark::Noted {
            stamp,
            update,
            length,
        } => {
            line.push_text(b" ~");
            line.push_number(stamp);
            line.push(b'.');
            line.push_number(update);
            line.push(b' ');
            line.push_number(length);
        }
        NewMark::Full => line.push_text(b" ~full"),
    }
}

fn push_gone(line: &mut Line, gone: Option<u64>)
    requires { line_length line.old + 40 ≤ LINE }
    ensures bytes { line_bytes line.new ≡ line_bytes line.old ++ gone_text gone }
    ensures len { line_length line.new ≤ line_length line.old + 40 }
{
    if let Some(stamp) = gone {
        line.push_text(b" ~");
        line.push_number(stamp);
        line.push_text(b" gone");
    }
}

fn push_more(line: &mut Line, more: u64)
    requires { line_length line.old + 22 ≤ LINE }
    ensures bytes { line_bytes line.new ≡ line_bytes line.old ++ more_text more }
    ensures len { line_length line.new ≤ line_length line.old + 22 }
{
    if more > 0 {
        line.push_text(b" +");
        line.push_number(more);
    }
}

/// The reports in the answer.
pub fn reports_of(reply: &Reply) -> &[Report]
    ensures { result.now ≡ reports_of reply.now }
{
    match reply {
        Reply::Walked { reports } => reports.as_slice(),
        _ => &[],
    }
}

/// The answer's last line, without its newline, on an empty line.
pub fn push_last(line: &mut Line, reply: &Reply)
    requires empty { line_bytes line.old ≡ [] }
    requires short { IsShortReply reply.now }
    ensures bytes { line_bytes line.new ≡ last_text reply.now }
    ensures len { line_length line.new < LINE }
{
    match reply {
        Reply::Done { new, gone } => {
            line.push_text(b"ok");
            push_mark(line, *new);
            push_gone(line, *gone);
        }
        Reply::Number { value } => line.push_number(*value),
        Reply::Sum { value } => line.push_named_number(b"sum ", *value as u64),
        Reply::None => line.push_text(b"none"),
        Reply::Shown { text, more } => {
            push_quoted(line, text.as_slice());
            push_more(line, *more);
        }
        Reply::Less => line.push_text(b"less"),
        Reply::Equal => line.push_text(b"equal"),
        Reply::Greater => line.push_text(b"greater"),
        Reply::Yes => line.push_text(b"yes"),
        Reply::No => line.push_text(b"no"),
        Reply::Unset { name } => {
            line.push_text(b"! unset ");
            line.push_text(name.as_slice());
        }
        Reply::NoBytes => line.push_text(b"! no bytes"),
        Reply::Position { asked, size } => {
            line.push_named_number(b"! position ", *asked);
            line.push_named_number(b" ", *size);
        }
        Reply::Length { asked } => line.push_named_number(b"! length ", *asked),
        Reply::Empty { cell } => line.push_named_number(b"! empty ", *cell as u64),
        Reply::Releasers => line.push_text(b"! releasers"),
        Reply::Height => line.push_text(b"! height 12"),
        Reply::HasSnapshot => line.push_text(b"! snapshot"),
        Reply::NoSnapshot => line.push_text(b"! no snapshot"),
        Reply::Walked { reports } => line.push_named_number(b"walked ", reports.len() as u64),
        Reply::Ended { deleted } => line.push_named_number(b"ok ", *deleted),
        Reply::Cords { found } => line.push_named_number(b"! cords ", *found),
        Reply::Pool { size } => line.push_named_number(b"! pool ", *size as u64),
    }
}
