//! The bytes of a text.
ghost use Rattle.std.specs.Prelude.{◌≡◌, IfOk};
ghost use Rattle.plain_cord.specs.Texts.{text_bytes};
ghost use Rattle.sampled_commands.specs.Texts.{bytes_in};

use plain_cord::Text;
use std::alloc::{AllocError, Global};

/// Borrowed where the piece stands once, and else built once.
#[derive(Drop)]
pub enum TextBytes<'b> {
    Borrowed(&'b [u8]),
    Built(Vec<u8>),
}

impl<'b> TextBytes<'b> {
    /// The bytes of the text; they are copied only where the text repeats its piece.
    pub fn of_text(alloc: Global, text: &'b Text) -> Result<TextBytes<'b>, AllocError>
        ensures { IfOk result (λ bytes. bytes_in bytes ≡ text_bytes text.now) }
    {
        let piece = text.piece.as_slice();
        if text.times == 1 {
            return Ok(TextBytes::Borrowed(piece));
        }
        let bytes = piece.repeat(alloc, text.times as usize)?;
        Ok(TextBytes::Built(bytes))
    }

    /// The bytes, borrowed.
    pub fn as_slice(&self) -> &[u8]
        ensures { result.now ≡ bytes_in self.now }
    {
        match self {
            TextBytes::Borrowed(bytes) => *bytes,
            TextBytes::Built(bytes) => bytes.as_slice(),
        }
    }
}
