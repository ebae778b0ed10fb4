//! Bytes within quotes.
ghost use Rattle.std.specs.Prelude.{◌≡◌, ◌+◌, ◌*◌, ◌≤◌, ◌<◌, ◌++◌, ◌∷◌, [], length, take};
ghost use Rattle.report_text.specs.Quotes.{hex_digit, quoted_byte, quoted_bytes, quoted};
ghost use Rattle.report_text.specs.Lines.{line_bytes, line_length};

use crate::line::{LINE, Line};

fn hex_digit(n: u8) -> u8
    requires { n < 16 }
    ensures { result ≡ hex_digit n }
{
    if n < 10 { b'0' + n } else { b'a' + (n - 10) }
}

fn push_quoted_byte(line: &mut Line, b: u8)
    requires { line_length line.old + 4 ≤ LINE }
    ensures bytes { line_bytes line.new ≡ line_bytes line.old ++ quoted_byte b }
    ensures len { line_length line.new ≤ line_length line.old + 4 }
{
    match b {
        b'"' => line.push_text(b"\\\""),
        b'\\' => line.push_text(b"\\\\"),
        b'\n' => line.push_text(b"\\n"),
        32..=126 => line.push(b),
        _ => line.push_text(&[b'\\', b'x', hex_digit(b / 16), hex_digit(b % 16)]),
    }
}

/// The bytes within quotes.
pub fn push_quoted(line: &mut Line, bytes: &[u8])
    requires { line_length line.old + 4 * length bytes.now + 2 ≤ LINE }
    ensures bytes { line_bytes line.new ≡ line_bytes line.old ++ quoted bytes.now }
    ensures len { line_length line.new ≤ line_length line.old + 4 * length bytes.now + 2 }
{
    line.push(b'"');
    push_quoted_bytes(line, bytes);
    line.push(b'"');
}

fn push_quoted_bytes(line: &mut Line, bytes: &[u8])
    requires { line_length line.old + 4 * length bytes.now ≤ LINE }
    ensures bytes { line_bytes line.new ≡ line_bytes line.old ++ quoted_bytes bytes.now }
    ensures len { line_length line.new ≤ line_length line.old + 4 * length bytes.now }
{
    for b in bytes {
        push_quoted_byte(line, *b);
    }
}
