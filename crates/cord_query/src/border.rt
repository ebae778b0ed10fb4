//! A needle that lies over the border of a chunk.
ghost use Rattle.std.specs.Prelude.{◌≡◌, ◌+◌, ◌-◌, ◌<◌, ◌≤◌, length, min, take, drop};
ghost use Rattle.memchr.specs.Find.{OccursAt, IsFirst};
ghost use Rattle.cord_query.specs.Readers.{SameText};

use chunk_reader::Chunks;
use memchr::memmem::Finder;

/// Room for what lies around a border: twice as much as a needle of at most 256 bytes has.
pub(crate) const SMALL_ROOM: usize = 512;

/// The same for a needle of at most 4096 bytes.
pub(crate) const LARGE_ROOM: usize = 8192;

/// Copies what stands from a place on, at most so many bytes. How many these are.
fn copy_from(chunks: &mut Chunks<'_>, place: u64, most: usize, room: &mut [u8]) -> usize
    requires within { place ≤ length chunks.old.bytes }
    requires room { most ≤ length room.old }
    ensures count { result ≡ min most (length (drop place chunks.old.bytes)) }
    ensures bytes { take result room.new ≡ take result (drop place chunks.old.bytes) }
    ensures same { SameText chunks.old chunks.new }
{
    chunks.seek(place);
    let mut filled = 0;
    while filled < most {
        let piece = chunks.read(most - filled);
        if piece.is_empty() {
            return filled;
        }
        let end = filled + piece.len();
        room[filled..end].copy_from_slice(piece);
        filled = end;
    }
    filled
}

/// The least place from `from` on in the chunk from which the needle goes on behind the chunk. What lies around the border is copied, and
/// searched in one go, so that the time is linear in the needle's length.
pub(crate) fn over_border(
    finder: &Finder<'_>,
    ahead: &mut Chunks<'_>,
    start: u64,
    chunk: &[u8],
    from: usize,
    needle: &[u8],
    room: &mut [u8],
) -> Option<u64>
    requires few { length needle.now + length needle.now ≤ length room.old }
    requires behind { length chunk.now + 1 ≤ from + length needle.now }
    requires within { from ≤ length chunk.now }
    requires some { 0 < length needle.now }
    requires finder { finder.now ≡ needle.now }
    requires ends { start + length chunk.now ≤ length ahead.old.bytes }
    requires short { length ahead.old.bytes < 2147483648 }
    ensures first { IsFirst (OccursAt ahead.old.bytes needle.now) (start + from) (start + length chunk.now) result }
    ensures same { SameText ahead.old ahead.new }
{
    let place = start + from as u64;
    let most = chunk.len() - from + (needle.len() - 1);
    let filled = copy_from(ahead, place, most, room);
    match finder.find(&room[..filled]) {
        Some(at) => Some(place + at as u64),
        None => None,
    }
}
