use super::*;
use std::cmp::Ordering;
use std::test::Fail;

#[test]
fn byte_strings_are_ordered_by_unsigned_bytes(rt: HostRuntime) {
    for (a, b, order) in [
        (b"".as_slice(), b"".as_slice(), Ordering::Equal),
        (b"".as_slice(), b"\x00".as_slice(), Ordering::Less),
        (b"\x7f".as_slice(), b"\x80".as_slice(), Ordering::Less),
        (b"abc".as_slice(), b"ab".as_slice(), Ordering::Greater),
        (b"b".as_slice(), b"aaaa".as_slice(), Ordering::Greater),
        (b"same".as_slice(), b"same".as_slice(), Ordering::Equal),
    ] {
        assert!(rt; compare_bytes(a, b) == order);
    }
}

#[test]
fn needles_are_found_at_their_least_place(rt: HostRuntime) {
    for (text, needle, place) in [
        (b"".as_slice(), b"".as_slice(), Some(0)),
        (b"abc".as_slice(), b"".as_slice(), Some(0)),
        (b"".as_slice(), b"a".as_slice(), None),
        (b"aaab".as_slice(), b"aab".as_slice(), Some(1)),
        (b"abab".as_slice(), b"ab".as_slice(), Some(0)),
        (b"abcabd".as_slice(), b"abd".as_slice(), Some(3)),
        (b"abc".as_slice(), b"abcd".as_slice(), None),
    ] {
        assert_eq!(rt; first_place(text, needle), place);
    }
}

#[test]
fn items_keep_their_order(rt: HostRuntime) -> Result<(), Fail> {
    let mut items = Items::from_slice(rt.alloc(), &[1u8, 2])?;
    assert!(rt; !items.is_empty());
    items.push(3)?;
    assert_eq!(rt; items.as_slice(), [1u8, 2, 3].as_slice());
    assert_eq!(rt; items.len(), 3);
    assert!(rt; Items::<u8>::new(rt.alloc()).is_empty());
    Ok(())
}
