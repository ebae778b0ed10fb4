//! Texts beside what comes next in a reading.
ghost use Rattle.std.specs.Prelude.{◌≡◌, ◌↔◌, ◌≤◌, [], IsTrue, MatchOption, length, take};
ghost use Rattle.std.specs.Ordering.{nat_cmp};
ghost use Rattle.std.specs.Cmp.Lexicographic.{slice_cmp};
ghost use Rattle.memchr.specs.Find.{OccursAt};
ghost use Rattle.chunk_reader.specs.Readings.{left, passed};
ghost use Rattle.cord_query.specs.Readers.{IsNext, SameText};

use chunk_reader::Chunks;
use std::cmp::Ordering;

/// The next chunk as it is, which is passed. There is none only at the end.
pub(crate) fn next_chunk<'a>(chunks: &mut Chunks<'a>) -> Option<&'a [u8]>
    ensures { MatchOption result (left chunks.old ≡ []) (λ chunk. IsNext chunk.now chunks.old chunks.new) }
{
    let chunk = chunks.read(usize::MAX);
    if chunk.is_empty() { None } else { Some(chunk) }
}

/// How the text stands to as many of the bytes that come next, or to all where there are fewer. These are passed where they are the same.
pub(crate) fn compare_next(chunks: &mut Chunks<'_>, text: &[u8]) -> Ordering
    ensures order { result ≡ slice_cmp nat_cmp text.now (take (length text.now) (left chunks.old)) }
    ensures passed { result ≡ Ordering.Equal → chunks.new ≡ passed (length text.now) chunks.old }
    ensures same { SameText chunks.old chunks.new }
{
    let mut rest = text;
    while !rest.is_empty() {
        let piece = chunks.read(rest.len());
        if piece.is_empty() {
            return Ordering::Greater;
        }
        let (front, back) = rest.split_at(piece.len());
        match front.cmp(&piece) {
            Ordering::Equal => rest = back,
            order => return order,
        }
    }
    Ordering::Equal
}

/// Whether the text stands at the place, in bytes, of a reading of `size` bytes.
pub(crate) fn stands_at(chunks: &mut Chunks<'_>, size: u64, place: u64, text: &[u8]) -> bool
    requires size { size ≡ length chunks.old.bytes }
    requires within { place ≤ size }
    ensures stands { IsTrue result ↔ OccursAt chunks.old.bytes text.now place }
    ensures same { SameText chunks.old chunks.new }
{
    if size - place < text.len() as u64 {
        return false;
    }
    chunks.seek(place);
    matches!(compare_next(chunks, text), Ordering::Equal)
}
