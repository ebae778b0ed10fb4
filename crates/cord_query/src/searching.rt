//! The least place of a needle.
ghost use Rattle.std.specs.Prelude.{◌≡◌, ◌+◌, ◌-◌, ◌<◌, ◌≤◌, length, take, drop};
ghost use Rattle.memchr.specs.Find.{OccursAt, IsFirst};
ghost use Rattle.plain_cord.specs.Texts.{place_of};
ghost use Rattle.plain_cord.specs.Places.{IsFirstPlace};
ghost use Rattle.cord_query.specs.Readers.{SameText};

use crate::border::{LARGE_ROOM, SMALL_ROOM, over_border};
use crate::reading::{next_chunk, stands_at};
use chunk_reader::Chunks;
use cord_value::Cord;
use memchr::memchr;
use memchr::memmem::Finder;
use node_pool::Naming;

/// The least place of the needle, counted in bytes from 0 (`cord.h`, `Find`); an empty needle has place 0. Needles may lie over any
/// number of chunks.
pub fn find<P: Naming>(cord: &Cord<P>, needle: &[u8]) -> Option<u64>
    ensures relation { IsFirstPlace cord.now.bytes needle.now result }
    ensures value { result ≡ place_of cord.now.bytes needle.now }
{
    if needle.is_empty() {
        return Some(0);
    }
    let longer = needle.len() as u64 > cord.len();
    if longer {
        return None;
    }
    let small = needle.len() <= SMALL_ROOM / 2;
    if small {
        find_with(cord, needle, &mut [0; SMALL_ROOM])
    } else {
        find_with(cord, needle, &mut [0; LARGE_ROOM])
    }
}

/// The same of a needle that isn't empty, with this room for what lies around borders.
fn find_with<P: Naming>(cord: &Cord<P>, needle: &[u8], room: &mut [u8]) -> Option<u64>
    requires some { 0 < length needle.now }
    ensures relation { IsFirstPlace cord.now.bytes needle.now result }
    ensures value { result ≡ place_of cord.now.bytes needle.now }
{
    let size = cord.len();
    let finder = Finder::new(needle);
    let mut ahead = cord.chunks();
    let mut rest = cord.chunks();
    let mut start = 0;
    while let Some(chunk) = next_chunk(&mut rest) {
        if let Some(place) = in_chunk(&finder, &mut ahead, size, start, chunk, needle, room) {
            return Some(place);
        }
        start += chunk.len() as u64;
    }
    None
}

/// The least place of the needle that lies in the chunk, of which `start` bytes are in front. The needle may go on behind the chunk.
fn in_chunk(
    finder: &Finder<'_>,
    ahead: &mut Chunks<'_>,
    size: u64,
    start: u64,
    chunk: &[u8],
    needle: &[u8],
    room: &mut [u8],
) -> Option<u64>
    requires size { size ≡ length ahead.old.bytes }
    requires some { 0 < length needle.now }
    requires finder { finder.now ≡ needle.now }
    requires short { size < 2147483648 }
    requires ends { start + length chunk.now ≤ size }
    requires chunk { chunk.now ≡ take (length chunk.now) (drop start ahead.old.bytes) }
    ensures first { IsFirst (OccursAt ahead.old.bytes needle.now) start (start + length chunk.now) result }
    ensures same { SameText ahead.old ahead.new }
{
    if let Some(at) = finder.find(chunk) {
        return Some(start + at as u64);
    }
    behind(finder, ahead, size, start, chunk, needle, room)
}

/// The least place in the chunk from which the needle goes on behind the chunk. Where its first byte stands at none, no byte is copied.
fn behind(
    finder: &Finder<'_>,
    ahead: &mut Chunks<'_>,
    size: u64,
    start: u64,
    chunk: &[u8],
    needle: &[u8],
    room: &mut [u8],
) -> Option<u64>
    requires size { size ≡ length ahead.old.bytes }
    requires some { 0 < length needle.now }
    requires finder { finder.now ≡ needle.now }
    requires short { size < 2147483648 }
    requires ends { start + length chunk.now ≤ size }
    requires chunk { chunk.now ≡ take (length chunk.now) (drop start ahead.old.bytes) }
    ensures first { IsFirst (OccursAt ahead.old.bytes needle.now) (start + (length chunk.now + 1 - length needle.now)) (start + length chunk.now) result }
    ensures same { SameText ahead.old ahead.new }
{
    let from = (chunk.len() + 1).saturating_sub(needle.len());
    let Some(next) = memchr(needle[0], &chunk[from..]) else {
        return None;
    };
    let fits = needle.len() <= room.len() / 2;
    if fits {
        over_border(finder, ahead, start, chunk, from + next, needle, room)
    } else {
        across(ahead, size, start, chunk, needle)
    }
}

/// The least place in the chunk from which the needle goes on behind the chunk.
fn across(ahead: &mut Chunks<'_>, size: u64, start: u64, chunk: &[u8], needle: &[u8]) -> Option<u64>
    requires size { size ≡ length ahead.old.bytes }
    requires some { 0 < length needle.now }
    requires ends { start + length chunk.now ≤ size }
    requires chunk { chunk.now ≡ take (length chunk.now) (drop start ahead.old.bytes) }
    ensures first { IsFirst (OccursAt ahead.old.bytes needle.now) (start + (length chunk.now + 1 - length needle.now)) (start + length chunk.now) result }
    ensures same { SameText ahead.old ahead.new }
{
    let first = needle[0];
    let mut from = (chunk.len() + 1).saturating_sub(needle.len());
    while let Some(next) = memchr(first, &chunk[from..]) {
        let place = start + (from + next) as u64;
        if stands_at(ahead, size, place, needle) {
            return Some(place);
        }
        from += next + 1;
    }
    None
}
