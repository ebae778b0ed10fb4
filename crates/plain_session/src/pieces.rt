//! Parts of byte strings, and a piece that stands several times.
ghost use Rattle.std.specs.Prelude.{◌≡◌, ℕ, ◌+◌, ◌*◌, ◌^◌, ◌<◌, ◌≤◌, ◌++◌, ◌∷◌, [], length, replicate, vec_len, vec_capacity, take, drop};
ghost use Rattle.plain_cord.specs.Texts.{repeated};

/// Adds the piece so many times, where there is room for it.
pub fn push_repeated(bytes: &mut Vec<u8>, piece: &[u8], times: u32)
    requires { vec_len bytes.old + length piece.now * times ≤ vec_capacity bytes.old }
    ensures items { bytes.new.items ≡ bytes.old.items ++ repeated piece.now times }
    ensures len { vec_len bytes.new ≡ vec_len bytes.old + length piece.now * times }
{
    match piece {
        [byte] => fill(bytes, *byte, times),
        _ => push_copies(bytes, piece, times),
    }
}

// One byte so many times.
fn fill(bytes: &mut Vec<u8>, byte: u8, times: u32)
    requires { vec_len bytes.old + times ≤ vec_capacity bytes.old }
    ensures items { bytes.new.items ≡ bytes.old.items ++ repeated (byte ∷ []) times }
    ensures len { vec_len bytes.new ≡ vec_len bytes.old + times }
{
    let most = bytes.len() + times as usize;
    if bytes.resize(most, byte).is_err() {
        unreachable!();
    }
}

fn push_copies(bytes: &mut Vec<u8>, piece: &[u8], times: u32)
    requires { vec_len bytes.old + length piece.now * times ≤ vec_capacity bytes.old }
    ensures items { bytes.new.items ≡ bytes.old.items ++ repeated piece.now times }
    ensures len { vec_len bytes.new ≡ vec_len bytes.old + length piece.now * times }
{
    for _i in 0..times {
        if bytes.extend_from_slice(piece).is_err() {
            unreachable!();
        }
    }
}

/// The bytes behind the first `n`, if there are so many.
pub fn behind(bytes: &[u8], n: u64) -> &[u8]
    ensures { result.now ≡ drop n bytes.now }
{
    let size = bytes.len() as u64;
    if n >= size {
        return &[];
    }
    &bytes[n as usize..]
}

/// The first `n` bytes, or all, if there are fewer.
pub fn front(bytes: &[u8], n: u64) -> &[u8]
    ensures { result.now ≡ take n bytes.now }
{
    let size = bytes.len() as u64;
    if n >= size {
        return bytes;
    }
    &bytes[..n as usize]
}
