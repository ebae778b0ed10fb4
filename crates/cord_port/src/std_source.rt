//! std's reader as a source.
ghost use Rattle.std.specs.Prelude.{◌≡◌, ◌≢◌, IfErr};
ghost use Rattle.std.specs.IoError.{error_kind};
ghost use Rattle.std.specs.Io.{ReadsAtMost};
ghost use Rattle.std.specs.Io.KnownBytes.{ReadConsumes};

use crate::interruptions::is_interruption;
use crate::{Failed, Source};
use std::io::{self, ErrorKind, Read};

/// A source over a reader. It tells the bytes that are left where the reader does. A read that a signal interrupts is
/// made again. It gives fewer than 2^64 bytes in all: a read that might pass this fails.
#[derive(Drop)]
pub struct StdSource<R> {
    reader: R,
    given: u64,
    faults: u64,
}

impl<R: Read + Drop> StdSource<R> {
    /// A source over the reader, with no fault yet.
    pub fn new(reader: R) -> StdSource<R>
        ensures left { ⟦<StdSource<R> as Source>⟧.left result ≡ R.remaining reader }
        ensures given { ⟦<StdSource<R> as Source>⟧.given result ≡ 0 }
        ensures faults { ⟦<StdSource<R> as Source>⟧.faults result ≡ 0 }
    {
        StdSource {
            reader,
            given: 0,
            faults: 0,
        }
    }
}

impl<R: Read + Drop> Source for StdSource<R> {
    ghost left = { λ s. R.remaining s.reader };

    ghost given = { λ s. s.given };

    ghost faults = { λ s. s.faults };

    fn read(&mut self, buf: &mut [u8]) -> Result<usize, Failed> {
        if buf.len() as u64 <= u64::MAX - self.given {
            if let Ok(count) = read_uninterrupted(&mut self.reader, buf) {
                self.given += count as u64;
                return Ok(count);
            }
        }
        self.faults = self.faults.saturating_add(1);
        Err(Failed)
    }
}

// One read, made again where a signal interrupts it. An error is the reader's own, or says that 2^64 reads were interrupted.
fn read_uninterrupted<R: Read>(reader: &mut R, buf: &mut [u8]) -> io::Result<usize>
    ensures bound { ReadsAtMost result buf.new }
    ensures bytes { ReadConsumes (R.remaining reader.old) (R.remaining reader.new) result buf.new }
    ensures own { IfErr result (λ error. error_kind error ≢ ErrorKind.Interrupted) }
{
    for _ in 0..u64::MAX {
        match reader.read(buf) {
            Ok(count) => return Ok(count),
            Err(error) => {
                if !is_interruption(&error) {
                    return Err(error);
                }
            }
        }
    }
    Err(io::Error::from(ErrorKind::Other))
}
