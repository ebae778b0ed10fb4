//! What numbers, texts and names are, at their edges.
use super::*;
use plain_cord::Text;
use std::test::*;

fn number(word: &[u8]) -> Option<u64> {
    match read_number(2, 1000, word) {
        Ok(n) => Some(n),
        Err(_) => None,
    }
}

fn any_number(word: &[u8]) -> Option<u64> {
    match read_number(0, u64::MAX, word) {
        Ok(n) => Some(n),
        Err(_) => None,
    }
}

#[test]
fn numbers_are_decimal_and_in_range(rt: HostRuntime) {
    for (word, want) in [
        (b"2".as_slice(), Some(2)),
        (b"1000".as_slice(), Some(1000)),
        (b"1".as_slice(), None),
        (b"1001".as_slice(), None),
        (b"02".as_slice(), None),
        (b"-2".as_slice(), None),
        (b"2x".as_slice(), None),
        (b"".as_slice(), None),
    ] {
        assert_eq!(rt; number(word), want);
    }
    assert_eq!(rt; any_number(b"0"), Some(0));
    assert_eq!(rt; any_number(b"00"), None);
    assert_eq!(rt; any_number(b"18446744073709551615"), Some(u64::MAX));
    assert_eq!(rt; any_number(b"18446744073709551616"), None);
}

/// The length of the piece and the count of a text that is read.
fn text(rt: &HostRuntime, least: u64, part: &[u8]) -> Option<(usize, u32)> {
    match read_text(rt.alloc(), least, part) {
        Ok(Text { piece, times }) => Some((piece.len(), times)),
        Err(_) => None,
    }
}

#[test]
fn texts_are_quoted_and_short(rt: HostRuntime) {
    for (part, want) in [
        (b"\"\"".as_slice(), Some((0, 1))),
        (b"\"a b\"*1".as_slice(), Some((3, 1))),
        (b"\"\\\"\\\\\\n\\x0f\"*7".as_slice(), Some((4, 7))),
        (b"\"ab\\ncd\"*2".as_slice(), Some((5, 2))),
        (b"\"a\"*1048576".as_slice(), Some((1, 1048576))),
        (b"\"\"*1048576".as_slice(), Some((0, 1048576))),
        (b"\"ab\"*524288".as_slice(), Some((2, 524288))),
        (b"\"ab\"*524289".as_slice(), None),
        (b"\"a\"*1048577".as_slice(), None),
        (b"\"a\"*0".as_slice(), None),
        (b"\"a\"*01".as_slice(), None),
        (b"\"a\"*".as_slice(), None),
        (b"\"a\" ".as_slice(), None),
    ] {
        assert_eq!(rt; text(&rt, 0, part), want);
    }
}

#[test]
fn broken_texts_are_refused(rt: HostRuntime) {
    for part in [
        b"".as_slice(),
        b"a".as_slice(),
        b"\"a".as_slice(),
        b"\"a\\\"".as_slice(),
        b"\"a\"b".as_slice(),
        b"\"\\q\"".as_slice(),
        b"\"\\x4\"".as_slice(),
        b"\"\\xAB\"".as_slice(),
        b"\"\x7f\"".as_slice(),
        b"\"a\"*18446744073709551617".as_slice(),
        b" \"a\"".as_slice(),
    ] {
        assert!(rt; text(&rt, 0, part).is_none());
    }
    assert_eq!(rt; text(&rt, 16, b"\"123456789012345\""), None);
    assert_eq!(rt; text(&rt, 16, b"\"1234\"*4"), Some((4, 4)));
}

#[test]
fn names_have_a_letter_first(rt: HostRuntime) {
    for (word, want) in [
        (b"a".as_slice(), true),
        (b"z9z".as_slice(), true),
        (b"abcdefghijklmnop".as_slice(), true),
        (b"abcdefghijklmnopq".as_slice(), false),
        (b"9a".as_slice(), false),
        (b"aB".as_slice(), false),
        (b"a-".as_slice(), false),
        (b"".as_slice(), false),
    ] {
        assert_eq!(rt; is_name(word), want);
        assert_eq!(rt; read_name(rt.alloc(), word).is_ok(), want);
    }
}

#[test]
fn words_stand_between_single_spaces(rt: HostRuntime) {
    for (rest, want) in [
        (Some(b"ab cd".as_slice()), 2),
        (Some(b"abc".as_slice()), 3),
        (Some(b" ab".as_slice()), 0),
        (Some(b"".as_slice()), 0),
        (None, 0),
    ] {
        let length = match take_word(rest) {
            Ok((word, _)) => word.len(),
            Err(_) => 0,
        };
        assert_eq!(rt; length, want);
    }
    let (first, behind) = first_part(b"ab;c", b';');
    assert!(rt; first.len() == 2 && behind.is_some());
    let (word, others) = first_word(b"ab c d");
    assert!(rt; word.len() == 2 && others == Some(b"c d".as_slice()));
    assert!(rt; take_last_word(Some(b"ab")).is_ok());
    assert!(rt; take_last_word(Some(b"ab ")).is_err());
    assert!(rt; take_part(Some(b" ")).is_ok());
    assert!(rt; take_part(Some(b"")).is_err());
    assert!(rt; all_shown(b" ~"));
    assert!(rt; !all_shown(b"a\x0d"));
    assert!(rt; Cause::Unended.word() == b"unended".as_slice());
}
