//! Texts in one piece, and what is asked of them.
ghost use Rattle.std.specs.Prelude.{◌<◌, ◌≤◌};

use crate::plan::Question;
use cord_port::{MemorySink, Sink};
use memchr::memchr;
use std::alloc::{AllocError, Global};
use std::cmp::Ordering;

/// How many bytes a block has.
pub const BLOCK: usize = 65_536;

/// How many places are asked for.
pub const PLACES: u64 = 1000;

/// `aaab`, and a longer needle of its kind.
pub const RUN: &[u8] = b"aaab";

/// The next number of a simple course (Knuth's multiplier).
pub fn drawn(seed: &mut u64) -> u64 {
    *seed = seed
        .wrapping_mul(6_364_136_223_846_793_005)
        .wrapping_add(1_442_695_040_888_963_407);
    *seed >> 33
}

/// A drawn place of so many bytes, behind which 100 bytes stand in a block.
pub fn place_of(seed: &mut u64, size: u64) -> u64 {
    let kinds = (size / 128).max(1);
    (drawn(seed) % kinds).saturating_mul(128)
}

/// A block of letters from `a` on, of so many kinds.
pub fn block(alloc: Global, letters: u8) -> Result<Vec<u8>, AllocError>
    requires some { 0 < letters }
    requires few { letters ≤ 25 }
{
    let mut bytes = Vec::with_capacity(alloc, BLOCK)?;
    let mut seed = 1;
    for _ in 0..BLOCK {
        bytes.push(b'a' + (drawn(&mut seed) % u64::from(letters)) as u8)?;
    }
    Ok(bytes)
}

/// The block so many times.
pub fn repeated(alloc: Global, block: &[u8], times: u32) -> Result<Vec<u8>, AllocError> {
    let mut bytes = Vec::new(alloc);
    for _ in 0..times {
        bytes.extend_from_slice(block)?;
    }
    Ok(bytes)
}

/// 300 `a` and a `b`.
pub fn long_run(alloc: Global) -> Result<Vec<u8>, AllocError> {
    let mut bytes = vec![in alloc; b'a'; 300]?;
    bytes.push(b'b')?;
    Ok(bytes)
}

/// An order as a number.
pub fn code(order: Ordering) -> u64 {
    match order {
        Ordering::Less => 0,
        Ordering::Equal => 1,
        Ordering::Greater => 2,
    }
}

// A place in one piece as a number.
fn found(at: Option<usize>) -> u64 {
    match at {
        Some(at) => place_code(Some(at as u64)),
        None => place_code(None),
    }
}

/// A place as a number: 0 for none, and else one more.
pub fn place_code(place: Option<u64>) -> u64 {
    match place {
        Some(place) => place.saturating_add(1),
        None => 0,
    }
}

// 100 bytes from a place on: how many there are, and the first.
fn piece(text: &[u8], place: u64) -> u64 {
    let within = place % (text.len() as u64).max(1);
    let (_, back) = text.split_at((within as usize).min(text.len()));
    let (front, _) = back.split_at(back.len().min(100));
    let first = front.first().copied().unwrap_or(0);
    (front.len() as u64).saturating_add(u64::from(first))
}

// The answers at all places of so many bytes, added up; the text is repeated.
fn all_places(text: &[u8], size: u64, question: Question) -> u64 {
    let mut seed = 5;
    let mut sum = 0u64;
    let some = size.max(1);
    for i in 0..PLACES {
        let answer = match question {
            Question::At => {
                let place = drawn(&mut seed) % some % (text.len() as u64).max(1);
                u64::from(text.get(place as usize).copied().unwrap_or(0))
            }
            Question::SeekDrawn => piece(text, place_of(&mut seed, size)),
            _ => piece(text, i * 128 % some),
        };
        sum = sum.wrapping_add(answer);
    }
    sum
}

/// Asks the bytes in one piece: for a needle by `memchr` of a letter of it that they don't have.
pub fn ask(
    alloc: Global,
    text: &[u8],
    other: &[u8],
    size: u64,
    question: Question,
) -> Result<u64, AllocError> {
    Ok(match question {
        Question::FindNone => found(memchr(b'y', text)),
        Question::FindRun | Question::FindLong => found(memchr(b'b', text)),
        Question::Compare | Question::CompareCopy => code(text.cmp(&other)),
        Question::Starts => u64::from(text.starts_with(other)),
        Question::Ends => u64::from(text.ends_with(other)),
        Question::Write => {
            let Ok(mut sink) = MemorySink::new(alloc, text.len(), usize::MAX, Vec::new(alloc))
            else {
                return Err(AllocError);
            };
            let _ = sink.write(text);
            sink.bytes().len() as u64
        }
        _ => all_places(text, size, question),
    })
}
