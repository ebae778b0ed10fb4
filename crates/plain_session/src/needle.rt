//! A text that is looked for.
ghost use Rattle.std.specs.Prelude.{◌≡◌, IfOk};
ghost use Rattle.plain_cord.specs.Texts.{text_bytes};
ghost use Rattle.script_words.specs.Forms.{IsShort};
ghost use Rattle.plain_session.specs.Needles.{needle_bytes};

use crate::pieces::push_repeated;
use plain_cord::Text;
use std::alloc::{AllocError, Global};

/// The bytes of a text: borrowed where the piece stands once, and else built once.
#[derive(Drop)]
pub enum Needle<'b> {
    Borrowed(&'b [u8]),
    Built(Vec<u8>),
}

impl<'b> Needle<'b> {
    /// The bytes of the text; they are copied only where the text repeats its piece.
    pub fn of_text(alloc: Global, text: &'b Text) -> Result<Needle<'b>, AllocError>
        requires { IsShort 0 text.now }
        ensures { IfOk result (λ needle. needle_bytes needle ≡ text_bytes text.now) }
    {
        if text.times == 1 {
            return Ok(Needle::Borrowed(text.piece.as_slice()));
        }
        let piece = text.piece.as_slice();
        let mut bytes = Vec::with_capacity(alloc, piece.len() * text.times as usize)?;
        push_repeated(&mut bytes, piece, text.times);
        Ok(Needle::Built(bytes))
    }

    /// The bytes, borrowed.
    pub fn as_slice(&self) -> &[u8]
        ensures { result.now ≡ needle_bytes self.now }
    {
        match self {
            Needle::Borrowed(bytes) => *bytes,
            Needle::Built(bytes) => bytes.as_slice(),
        }
    }
}
