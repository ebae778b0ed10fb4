//! Ranges of bytes.
ghost use Rattle.std.specs.Prelude.{◌≡◌, take, drop};

/// So many of the bytes from the start on, as far as there are so many.
pub(crate) fn range_of(bytes: &[u8], start: u64, length: u64) -> &[u8]
    ensures { result.now ≡ take length (drop start bytes.now) }
{
    front(behind(bytes, start), length)
}

/// The bytes behind the first `n`, if there are so many.
fn behind(bytes: &[u8], n: u64) -> &[u8]
    ensures { result.now ≡ drop n bytes.now }
{
    let size = bytes.len() as u64;
    if n >= size {
        return &[];
    }
    &bytes[n as usize..]
}

/// The first `n` bytes, or all, if there are fewer.
fn front(bytes: &[u8], n: u64) -> &[u8]
    ensures { result.now ≡ take n bytes.now }
{
    let size = bytes.len() as u64;
    if n >= size {
        return bytes;
    }
    &bytes[..n as usize]
}
