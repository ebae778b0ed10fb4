//! Cords of a block that is doubled, and what is asked of them.
ghost use Rattle.std.specs.Prelude.{◌≡◌, ◌≤◌, length};
ghost use Rattle.pool_rule.specs.Trades.{SameHolds};

use crate::plan::{Kind, Question};
use crate::texts::{PLACES, RUN, code, drawn, place_code, place_of};
use chunk_reader::Chunks;
use cord_port::{CountReleaser, MemorySink, Sink};
use cord_query::{at, compare, ends_with, find, starts_with, write_to};
use cord_value::{Cord, CordError};
use node_pool::{Naming, Pool, Worker};
use std::alloc::Global;

/// The boxes of the pools here, of which there are none.
pub type Boxes = CountReleaser;

// The bytes from a place on, at most so many.
fn some_of(bytes: &[u8], start: usize, most: usize) -> &[u8] {
    let (_, back) = bytes.split_at(start.min(bytes.len()));
    let (front, _) = back.split_at(most.min(back.len()));
    front
}

// Adds the block 100 bytes at a time.
fn add_small<P: Naming>(
    alloc: Global,
    pool: &Pool<P, Boxes>,
    w: &mut Worker<P>,
    cord: &mut Cord<P>,
    block: &[u8],
) -> Result<(), CordError>
    requires room { length w.old.holds ≤ 96 }
    ensures same { SameHolds w.old.holds w.new.holds }
{
    for i in 0..656usize {
        match cord.append_bytes(alloc, pool, w, some_of(block, i * 100, 100)) {
            Ok(()) => {}
            Err(error) => return Err(error),
        }
    }
    Ok(())
}

// Adds a range of a cord to another one.
fn add_part<P: Naming>(
    alloc: Global,
    pool: &Pool<P, Boxes>,
    w: &mut Worker<P>,
    cord: &mut Cord<P>,
    source: &mut Cord<P>,
    start: u64,
) -> Result<(), CordError>
    requires room { length w.old.holds ≤ 96 }
    ensures same { SameHolds w.old.holds w.new.holds }
{
    let mut part = match source.sub(alloc, pool, w, start, 600) {
        Ok(part) => part,
        Err(error) => return Err(error),
    };
    let answer = cord.append_cord(alloc, pool, w, &mut part);
    part.release(pool, w);
    answer
}

// Adds the block as parts of another cord.
fn add_parts<P: Naming>(
    alloc: Global,
    pool: &Pool<P, Boxes>,
    w: &mut Worker<P>,
    cord: &mut Cord<P>,
    source: &mut Cord<P>,
) -> Result<(), CordError>
    requires room { length w.old.holds ≤ 96 }
    ensures same { SameHolds w.old.holds w.new.holds }
{
    for i in 0..110u64 {
        match add_part(alloc, pool, w, cord, source, i * 600) {
            Ok(()) => {}
            Err(error) => return Err(error),
        }
    }
    Ok(())
}

// Adds the block in nodes of this kind.
fn add_block<P: Naming>(
    alloc: Global,
    pool: &Pool<P, Boxes>,
    w: &mut Worker<P>,
    cord: &mut Cord<P>,
    kind: Kind,
    block: &[u8],
) -> Result<(), CordError>
    requires room { length w.old.holds ≤ 96 }
    ensures same { SameHolds w.old.holds w.new.holds }
{
    match kind {
        Kind::Full => cord.append_bytes(alloc, pool, w, block),
        Kind::Small => add_small(alloc, pool, w, cord, block),
        Kind::Parts => {
            let mut source = match Cord::from_bytes(alloc, pool, w, block) {
                Ok(source) => source,
                Err(error) => return Err(error),
            };
            let answer = add_parts(alloc, pool, w, cord, &mut source);
            source.release(pool, w);
            answer
        }
    }
}

// Doubles the cord so often.
fn double_all<P: Naming>(
    alloc: Global,
    pool: &Pool<P, Boxes>,
    w: &mut Worker<P>,
    cord: &mut Cord<P>,
    times: u32,
) -> Result<(), CordError>
    requires room { length w.old.holds ≤ 96 }
    ensures same { SameHolds w.old.holds w.new.holds }
{
    for _ in 0..times {
        match cord.double(alloc, pool, w) {
            Ok(()) => {}
            Err(error) => return Err(error),
        }
    }
    Ok(())
}

/// A cord of the block in nodes of this kind, doubled so often.
pub fn cord_of<P: Naming>(
    alloc: Global,
    pool: &Pool<P, Boxes>,
    w: &mut Worker<P>,
    kind: Kind,
    block: &[u8],
    times: u32,
) -> Result<Cord<P>, CordError>
    requires room { length w.old.holds ≤ 96 }
    ensures same { SameHolds w.old.holds w.new.holds }
{
    let mut cord = Cord::new();
    let added = match add_block(alloc, pool, w, &mut cord, kind, block) {
        Ok(()) => double_all(alloc, pool, w, &mut cord, times),
        Err(error) => Err(error),
    };
    match added {
        Ok(()) => Ok(cord),
        Err(error) => {
            cord.release(pool, w);
            Err(error)
        }
    }
}

// 100 bytes from a place on: how many there are, and the first.
fn piece(chunks: &mut Chunks<'_>, size: u64, place: u64) -> u64
    requires size { size ≡ length chunks.old.bytes }
    ensures same { chunks.new.bytes ≡ chunks.old.bytes }
{
    chunks.seek(place.min(size));
    let front = chunks.read(100);
    let first = front.first().copied().unwrap_or(0);
    let next = chunks.read(100usize.saturating_sub(front.len()));
    let some = front.len().saturating_add(next.len());
    let last = chunks.read(100usize.saturating_sub(some));
    (some.saturating_add(last.len()) as u64).saturating_add(u64::from(first))
}

// The answers at all places, added up.
fn all_places<P: Naming>(cord: &Cord<P>, question: Question) -> u64 {
    let mut chunks = cord.chunks();
    let mut seed = 5;
    let mut sum = 0u64;
    let size = cord.len();
    let some = size.max(1);
    for i in 0..PLACES {
        let answer = match question {
            Question::At => match at(cord, drawn(&mut seed) % some) {
                Ok(byte) => u64::from(byte),
                Err(_) => 0,
            },
            Question::SeekDrawn => { piece(&mut chunks, size, place_of(&mut seed, size)) }
            _ => piece(&mut chunks, size, i * 128 % some),
        };
        sum = sum.wrapping_add(answer);
    }
    sum
}

/// A cord, one that it is compared with, its bytes in one piece, and a long needle.
#[derive(Drop)]
pub struct Subject<'a, P: Naming> {
    pub cord: &'a Cord<P>,
    pub other: &'a Cord<P>,
    pub text: &'a [u8],
    pub long: &'a [u8],
}

/// Asks the cord.
pub fn ask<P: Naming>(alloc: Global, subject: &Subject<'_, P>, question: Question) -> u64 {
    let (cord, other) = (subject.cord, subject.other);
    let (text, long) = (subject.text, subject.long);
    match question {
        Question::FindNone => place_code(find(cord, b"yz")),
        Question::FindRun => place_code(find(cord, RUN)),
        Question::FindLong => place_code(find(cord, long)),
        Question::Compare | Question::CompareCopy => code(compare(cord, other)),
        Question::Starts => u64::from(starts_with(cord, text)),
        Question::Ends => u64::from(ends_with(cord, text)),
        Question::Write => written(alloc, cord),
        _ => all_places(cord, question),
    }
}

// How many bytes a sink in memory gets.
fn written<P: Naming>(alloc: Global, cord: &Cord<P>) -> u64 {
    let room = cord.len() as usize;
    let Ok(mut sink) = MemorySink::new(alloc, room, usize::MAX, Vec::new(alloc)) else {
        return 0;
    };
    let _ = write_to(cord, &mut sink);
    sink.bytes().len() as u64
}
