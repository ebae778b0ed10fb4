//! Names that are set, exchanged and taken out.
use super::*;
use std::alloc::AllocError;

// What `set` gives, where memory is enough.
fn set<'a>(
    names: &mut Names<'a, u32>,
    name: &'a [u8],
    value: u32,
) -> Result<Option<u32>, AllocError> {
    match names.set(name, value) {
        Ok(old) => Ok(old),
        Err(_) => Err(AllocError),
    }
}

#[test]
fn names_leave_in_the_order_of_their_bytes(rt: HostRuntime) -> Result<(), AllocError> {
    let mut names = Names::new(rt.alloc());
    for (name, value, old) in [
        (b"b".as_slice(), 1, None),
        (b"a".as_slice(), 2, None),
        (b"ab".as_slice(), 3, None),
        (b"".as_slice(), 4, None),
        (b"a".as_slice(), 5, Some(2)),
        (b"\xff".as_slice(), 6, None),
    ] {
        assert_eq!(rt; set(&mut names, name, value)?, old);
    }
    assert_eq!(rt; names.exchange(b"b", 7), Ok(1));
    assert_eq!(rt; names.exchange(b"c", 8), Err(8));
    assert_eq!(rt; names.find(b"ab"), Some(&3));
    assert_eq!(rt; names.find(b"c"), None);
    for wanted in [
        (b"".as_slice(), 4),
        (b"a".as_slice(), 5),
        (b"ab".as_slice(), 3),
        (b"b".as_slice(), 7),
        (b"\xff".as_slice(), 6),
    ] {
        assert_eq!(rt; names.pop(), Some(wanted));
    }
    assert_eq!(rt; names.pop(), None);
    Ok(())
}
