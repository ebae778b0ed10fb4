//! All bytes of a source, up to a limit.
ghost use Rattle.std.specs.Prelude.{◌≡◌, ◌≢◌, ℕ, ◌+◌, ◌^◌, ◌≤◌, ◌<◌, ◌++◌, List, [], length, IfOk, OnOk, OnErr, Err};
ghost use Rattle.std.specs.Io.KnownBytes.{IsAtEnd};
ghost use Rattle.cord_port.specs.Causes.{Rose};
ghost use Rattle.cord_port.specs.Texts.{Gave};
ghost use Rattle.cord_port.specs.declared.reading.ReadRefused.TheVariants.{TooLong, Fault};

use crate::Source;
use std::alloc::Global;

// How many bytes one read asks for.
const PIECE: usize = 65_536;

/// Why the bytes of a source were not read to their end.
#[derive(Clone, Copy, Debug)]
pub enum ReadRefused {
    /// There is at least one byte more than the limit.
    TooLong,
    /// The source failed.
    Fault,
    /// Want of memory.
    Memory,
}

/// Reads all bytes that are left, if there are at most `limit`. At most one byte more than the limit is read.
pub fn read_all<S: Source>(
    alloc: Global,
    source: &mut S,
    limit: usize,
) -> Result<Vec<u8>, ReadRefused>
    requires { limit < 2 ^ 62 }
    ensures whole { IfOk result (λ v. Gave (S.left source.old) (S.left source.new) (S.given source.old) (S.given source.new) v.items) }
    ensures end { OnOk result (IsAtEnd (S.left source.new)) }
    ensures within { IfOk result (λ v. length v.items ≤ limit) }
    ensures lost { OnErr result ((bytes : List ℕ) × Gave (S.left source.old) (S.left source.new) (S.given source.old) (S.given source.new) bytes) }
    ensures long { result ≡ Err TooLong → S.given source.new ≡ S.given source.old + (limit + 1) }
    ensures short { result ≢ Err TooLong → S.given source.new ≤ S.given source.old + limit }
    ensures fault { result ≡ Err Fault → Rose (S.faults source.old) (S.faults source.new) }
    ensures kept { result ≢ Err Fault → S.faults source.new ≡ S.faults source.old }
    ensures later { S.faults source.old ≤ S.faults source.new }
{
    let mut bytes = Vec::new(alloc);
    while bytes.len() <= limit {
        let most = limit + 1 - bytes.len();
        if read_piece(source, &mut bytes, most)? == 0 {
            return Ok(bytes);
        }
    }
    Err(ReadRefused::TooLong)
}

// The next bytes go behind those that were read.
fn read_piece<S: Source>(
    source: &mut S,
    bytes: &mut Vec<u8>,
    most: usize,
) -> Result<usize, ReadRefused>
    requires some { 0 < most }
    requires room { length bytes.old.items + most < 2 ^ 63 }
    ensures more { IfOk result (λ n. (more : List ℕ) × (bytes.new.items ≡ bytes.old.items ++ more) × (length more ≡ n)
        × (n ≤ most) × Gave (S.left source.old) (S.left source.new) (S.given source.old) (S.given source.new) more) }
    ensures end { IfOk result (λ n. n ≡ 0 → IsAtEnd (S.left source.new)) }
    ensures none { OnErr result (Gave (S.left source.old) (S.left source.new) (S.given source.old) (S.given source.new) []) }
    ensures fault { result ≡ Err Fault → Rose (S.faults source.old) (S.faults source.new) }
    ensures kept { result ≢ Err Fault → S.faults source.new ≡ S.faults source.old }
    ensures later { S.faults source.old ≤ S.faults source.new }
    ensures long { result ≢ Err TooLong }
{
    let start = bytes.len();
    if bytes.resize(start + most.min(PIECE), 0).is_err() {
        return Err(ReadRefused::Memory);
    }
    let (_, room) = bytes.as_mut_slice().split_at_mut(start);
    match source.read(room) {
        Ok(count) => {
            bytes.truncate(start + count);
            Ok(count)
        }
        Err(_) => Err(ReadRefused::Fault),
    }
}
