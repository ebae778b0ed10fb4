//! The bytes of a cord without a tree.
ghost use Rattle.std.specs.Prelude.{◌≡◌, ◌+◌, ◌≤◌, length, take, drop};

use arrayvec::ArrayVec;
use chunk_reader::Chunks;

/// The most bytes that a cord has without a tree (`cord_internal.h`).
pub(crate) const MOST_INLINE: usize = 15;

/// A copy of the bytes.
pub(crate) fn inline_of(bytes: &[u8]) -> ArrayVec<u8, MOST_INLINE>
    requires { length bytes.now ≤ 15 }
    ensures { result.items ≡ bytes.now }
{
    let mut inline = ArrayVec::new();
    let Ok(()) = inline.try_extend_from_slice(bytes) else {
        unreachable!()
    };
    inline
}

/// The most bytes of a source that is copied; the tree of a longer one is shared (`cord_internal.h`, `kMaxBytesToCopy`).
pub(crate) const MOST_COPIED: usize = 511;

/// The next bytes of a reading, copied.
pub(crate) fn copied_bytes(reading: &mut Chunks<'_>, n: usize) -> ArrayVec<u8, MOST_COPIED>
    requires few { n ≤ 511 }
    requires within { reading.old.at + n ≤ length reading.old.bytes }
    ensures { result.items ≡ take n (drop reading.old.at reading.old.bytes) }
{
    let mut copy = ArrayVec::new();
    while copy.len() < n {
        let chunk = reading.read(n - copy.len());
        let Ok(()) = copy.try_extend_from_slice(chunk) else {
            unreachable!()
        };
    }
    copy
}
