//! A line that is being written.
ghost use Rattle.std.specs.Prelude.{◌≡◌, ◌+◌, ◌≤◌, ◌<◌, ◌++◌, ◌∷◌, [], length};
ghost use Rattle.std.specs.Fmt.{decimal};

use arrayvec::ArrayVec;
use itoa::Buffer;

/// The most bytes that a line can have: 4,096 shown bytes of four bytes each, two quotes, how many bytes more there
/// are, and the newline, with some to spare.
pub const LINE: usize = 16_448;

/// Its bytes so far. A line that is done is cleared and used again.
#[derive(Drop)]
pub struct Line {
    bytes: ArrayVec<u8, LINE>,
}

impl Line {
    ghost use Rattle.report_text.specs.Lines.{line_bytes, line_length};

    /// An empty line.
    pub fn new() -> Line
        ensures { line_bytes result ≡ [] }
    {
        Line {
            bytes: ArrayVec::new(),
        }
    }

    /// Empties the line.
    pub fn clear(&mut self)
        ensures { line_bytes self.new ≡ [] }
    {
        self.bytes.clear();
    }

    /// The line's bytes, borrowed.
    pub fn as_slice(&self) -> &[u8]
        ensures { result.now ≡ line_bytes self.now }
    {
        self.bytes.as_slice()
    }

    /// Adds a byte behind the others, for which there is room.
    pub fn push(&mut self, byte: u8)
        requires { line_length self.old < LINE }
        ensures bytes { line_bytes self.new ≡ line_bytes self.old ++ byte ∷ [] }
        ensures len { line_length self.new ≡ line_length self.old + 1 }
    {
        self.bytes.push(byte);
    }

    /// Adds bytes behind the others, for which there is room.
    pub fn push_text(&mut self, text: &[u8])
        requires { line_length self.old + length text.now ≤ LINE }
        ensures bytes { line_bytes self.new ≡ line_bytes self.old ++ text.now }
        ensures len { line_length self.new ≡ line_length self.old + length text.now }
    {
        if self.bytes.try_extend_from_slice(text).is_err() {
            unreachable!();
        }
    }

    /// A number in decimal, of at most 20 digits.
    pub fn push_number(&mut self, n: u64)
        requires { line_length self.old + 20 ≤ LINE }
        ensures bytes { line_bytes self.new ≡ line_bytes self.old ++ decimal n }
        ensures len { line_length self.new ≤ line_length self.old + 20 }
    {
        let mut buffer = Buffer::new();
        let digits = buffer.format(n);
        self.push_text(digits.as_bytes());
    }

    /// A text, and a number behind it.
    pub fn push_named_number(&mut self, text: &[u8], n: u64)
        requires { line_length self.old + length text.now + 20 ≤ LINE }
        ensures bytes { line_bytes self.new ≡ line_bytes self.old ++ text.now ++ decimal n }
        ensures len { line_length self.new ≤ line_length self.old + length text.now + 20 }
    {
        self.push_text(text);
        self.push_number(n);
    }
}
