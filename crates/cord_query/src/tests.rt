//! Cords of several shapes beside the plain answers on their bytes.
ghost use Rattle.std.specs.Prelude.{◌≡◌, ◌<◌, ◌≤◌, length};
ghost use Rattle.pool_rule.specs.Trades.{SameHolds};
ghost use Rattle.node_pool.specs.Opened.{opened_table, opened_numbers, opened_passes, opened_workers, opened_boxes};

use super::*;
use cord_port::{LogReleaser, MemorySink, Sink};
use cord_value::{Cord, CordError};
use node_pool::{Naming, Opened, Pool, Worker};
use plain_cord::{compare_bytes, first_place};
use std::alloc::Global;
use std::cmp::Ordering;
use std::marker::Brand;
use std::test::Fail;

type Boxes = LogReleaser;

/// The cord with a part more behind it; after a refusal it is released.
fn with_behind<P: Naming>(
    alloc: Global,
    pool: &Pool<P, Boxes>,
    w: &mut Worker<P>,
    mut cord: Cord<P>,
    part: &[u8],
) -> Result<Cord<P>, CordError>
    requires room { length w.old.holds ≤ 96 }
    ensures same { SameHolds w.old.holds w.new.holds }
{
    match cord.append_bytes(alloc, pool, w, part) {
        Ok(()) => Ok(cord),
        Err(error) => {
            cord.release(pool, w);
            Err(error)
        }
    }
}

/// The same in front.
fn with_in_front<P: Naming>(
    alloc: Global,
    pool: &Pool<P, Boxes>,
    w: &mut Worker<P>,
    mut cord: Cord<P>,
    part: &[u8],
) -> Result<Cord<P>, CordError>
    requires room { length w.old.holds ≤ 96 }
    ensures same { SameHolds w.old.holds w.new.holds }
{
    match cord.prepend_bytes(alloc, pool, w, part) {
        Ok(()) => Ok(cord),
        Err(error) => {
            cord.release(pool, w);
            Err(error)
        }
    }
}

/// The cord with a text more behind it, `piece` bytes at a time.
fn with_all_behind<P: Naming>(
    alloc: Global,
    pool: &Pool<P, Boxes>,
    w: &mut Worker<P>,
    mut cord: Cord<P>,
    text: &[u8],
    piece: usize,
) -> Result<Cord<P>, CordError>
    requires room { length w.old.holds ≤ 96 }
    requires some { 0 < piece }
    ensures same { SameHolds w.old.holds w.new.holds }
{
    for part in text.chunks(piece) {
        cord = match with_behind(alloc, pool, w, cord, part) {
            Ok(cord) => cord,
            Err(error) => return Err(error),
        };
    }
    Ok(cord)
}

/// The same in front.
fn with_all_in_front<P: Naming>(
    alloc: Global,
    pool: &Pool<P, Boxes>,
    w: &mut Worker<P>,
    mut cord: Cord<P>,
    text: &[u8],
    piece: usize,
) -> Result<Cord<P>, CordError>
    requires room { length w.old.holds ≤ 96 }
    requires some { 0 < piece }
    ensures same { SameHolds w.old.holds w.new.holds }
{
    for part in text.rchunks(piece) {
        cord = match with_in_front(alloc, pool, w, cord, part) {
            Ok(cord) => cord,
            Err(error) => return Err(error),
        };
    }
    Ok(cord)
}

/// A cord of the bytes from `first` on, `piece` of them, which grows by as many at a time up to the end, and then down to the front.
fn cord_of<P: Naming>(
    alloc: Global,
    pool: &Pool<P, Boxes>,
    w: &mut Worker<P>,
    text: &[u8],
    shape: Shape,
) -> Result<Cord<P>, CordError>
    requires room { length w.old.holds ≤ 96 }
    ensures same { SameHolds w.old.holds w.new.holds }
{
    let Shape { first, piece } = shape;
    let piece = piece.max(1);
    let (front, back) = text.split_at(first.min(text.len()));
    let (middle, behind) = back.split_at(piece.min(back.len()));
    let cord = match Cord::from_bytes(alloc, pool, w, middle) {
        Ok(cord) => cord,
        Err(error) => return Err(error),
    };
    let cord = match with_all_behind(alloc, pool, w, cord, behind, piece) {
        Ok(cord) => cord,
        Err(error) => return Err(error),
    };
    with_all_in_front(alloc, pool, w, cord, front, piece)
}

/// Where a cord begins to grow, and by how many bytes at a time.
#[derive(Clone, Copy, Debug)]
struct Shape {
    first: usize,
    piece: usize,
}

/// Whether the needle's place is that in the bytes.
fn finds<P: Naming>(cord: &Cord<P>, text: &[u8], needle: &[u8]) -> bool {
    let place = match first_place(text, needle) {
        Some(place) => Some(place as u64),
        None => None,
    };
    find(cord, needle) == place
}

/// Whether the answers on a place, on what stands in front of it and on what stands behind it are those on the bytes.
fn agrees_at<P: Naming>(cord: &Cord<P>, text: &[u8], place: usize) -> bool {
    let place = place.min(text.len());
    let (front, back) = text.split_at(place);
    let byte = match back.first() {
        Some(byte) => Ok(*byte),
        None => Err(CordError::Position {
            asked: place as u64,
            size: text.len() as u64,
        }),
    };
    for size in [1usize, 2, 3, 5, 40, 300, 5000] {
        let (needle, _) = back.split_at(size.min(back.len()));
        if !finds(cord, text, needle) {
            return false;
        }
    }
    at(cord, place as u64) == byte
        && starts_with(cord, front)
        && starts_with(cord, back) == text.starts_with(back)
        && ends_with(cord, back)
        && ends_with(cord, front) == text.ends_with(front)
}

/// Whether that is so at and beside each border of chunks. How many borders there are.
fn agrees_everywhere<P: Naming>(cord: &Cord<P>, text: &[u8]) -> Option<u32> {
    let mut borders = 0u32;
    let mut end = 0usize;
    for chunk in cord.chunks() {
        end = end.saturating_add(chunk.len());
        borders = borders.saturating_add(1);
        let lowest = end.saturating_sub(2);
        for beside in 0..5usize {
            if !agrees_at(cord, text, lowest.saturating_add(beside)) {
                return None;
            }
        }
    }
    Some(borders)
}

/// Bytes of few letters, so that much of what is looked for stands nearly everywhere.
fn letters(alloc: Global, seed: &mut u64, size: usize, kinds: u8) -> Result<Vec<u8>, CordError>
    requires some { 0 < kinds }
    requires few { kinds ≤ 26 }
{
    let Ok(mut bytes) = Vec::with_capacity(alloc, size) else {
        return Err(CordError::Memory);
    };
    for _ in 0..size {
        let letter = b'a' + (drawn(seed) % u64::from(kinds)) as u8;
        if bytes.push(letter).is_err() {
            return Err(CordError::Memory);
        }
    }
    Ok(bytes)
}

/// The next number of a simple course (Knuth's multiplier).
fn drawn(seed: &mut u64) -> u64 {
    *seed = seed
        .wrapping_mul(6_364_136_223_846_793_005)
        .wrapping_add(1_442_695_040_888_963_407);
    *seed >> 33
}

/// How many chunks a cord of so many letters in this shape has, if each answer at and beside their borders is that on its bytes.
fn bordered<P: Naming>(
    alloc: Global,
    opened: Opened<Boxes>,
    shape: Shape,
    size: usize,
) -> Result<Option<u32>, CordError>
    requires table { opened_table opened ≡ P.table }
    requires numbers { opened_numbers opened ≡ P.size }
    requires passes { opened_passes opened ≡ P.limit }
    requires boxes { opened_boxes opened ≡ P.boxes }
    requires workers { (opened_workers opened ≡ P.workers) × (P.workers ≡ 1) }
{
    let Ok((pool, mut workers)) = opened.named::<P>(alloc) else {
        return Err(CordError::Memory);
    };
    let mut seed = 7;
    let text = match letters(alloc, &mut seed, size, 3) {
        Ok(text) => text,
        Err(error) => return Err(error),
    };
    let cord = match cord_of(alloc, &pool, &mut workers[0], text.as_slice(), shape) {
        Ok(cord) => cord,
        Err(error) => return Err(error),
    };
    Ok(agrees_everywhere(&cord, text.as_slice()))
}

#[test]
fn answers_at_and_beside_each_border_are_those_on_the_bytes(rt: HostRuntime) {
    let alloc = rt.alloc();
    for (first, piece, size, chunks) in [
        (0usize, 1usize, 0usize, 0u32),
        (7, 4, 15, 1),
        (0, 16, 16, 1),
        (0, 16, 17, 2),
        (40, 1, 60, 45),
        (0, 7, 200, 27),
        (200, 7, 200, 27),
        (100, 30, 300, 11),
        (5000, 1000, 9000, 9),
        (0, 4083, 9000, 3),
        (0, 9000, 9000, 3),
        (4083, 4083, 12_249, 3),
    ] {
        let Ok(opened) = Opened::start(alloc, 4096, 1, 1, Vec::new(alloc)) else {
            assert!(&rt; false, "memory");
            return;
        };
        let shape = Shape { first, piece };
        let answer = bordered::<Brand>(alloc, opened, shape, size);
        assert_eq!(rt; answer, Ok(Some(chunks)), "at {shape:?}");
    }
}

/// Bytes that begin with a beginning of the text, and are a few letters longer.
fn like(alloc: Global, seed: &mut u64, text: &[u8]) -> Result<Vec<u8>, CordError> {
    let (front, _) = text.split_at(((drawn(seed) % 60) as usize).min(text.len()));
    let more = (drawn(seed) % 4) as usize;
    let bytes = match letters(alloc, seed, more, 2) {
        Ok(bytes) => bytes,
        Err(error) => return Err(error),
    };
    let Ok(whole) = [front, bytes.as_slice()].concat(alloc) else {
        return Err(CordError::Memory);
    };
    Ok(whole)
}

/// A cord of the bytes in some shape.
fn drawn_cord<P: Naming>(
    alloc: Global,
    pool: &Pool<P, Boxes>,
    w: &mut Worker<P>,
    seed: &mut u64,
    text: &[u8],
) -> Result<Cord<P>, CordError>
    requires room { length w.old.holds ≤ 96 }
    ensures same { SameHolds w.old.holds w.new.holds }
{
    let shape = Shape {
        first: (drawn(seed) % 60) as usize,
        piece: (drawn(seed) % 9) as usize + 1,
    };
    cord_of(alloc, pool, w, text, shape)
}

/// Whether two cords of such bytes stand to each other as these do, and the first answers as its bytes do where the second begins to differ.
fn two_agree<P: Naming>(
    alloc: Global,
    pool: &Pool<P, Boxes>,
    w: &mut Worker<P>,
    seed: &mut u64,
    text: &[u8],
    other_text: &[u8],
) -> Result<bool, CordError>
    requires room { length w.old.holds ≤ 96 }
    ensures same { SameHolds w.old.holds w.new.holds }
{
    let cord = match drawn_cord(alloc, pool, w, seed, text) {
        Ok(cord) => cord,
        Err(error) => return Err(error),
    };
    let other = match drawn_cord(alloc, pool, w, seed, other_text) {
        Ok(other) => other,
        Err(error) => {
            cord.release(pool, w);
            return Err(error);
        }
    };
    let (_, needle) = other_text.split_at(((drawn(seed) % 60) as usize).min(other_text.len()));
    let agree = compare(&cord, &other) == compare_bytes(text, other_text)
        && compare(&other, &cord) == compare_bytes(other_text, text)
        && finds(&cord, text, needle)
        && agrees_at(&cord, text, needle.len());
    cord.release(pool, w);
    other.release(pool, w);
    Ok(agree)
}

/// How many of so many rounds agree.
fn rounds_agree<P: Naming>(
    alloc: Global,
    pool: &Pool<P, Boxes>,
    w: &mut Worker<P>,
    rounds: u32,
) -> Result<u32, CordError>
    requires room { length w.old.holds ≤ 96 }
{
    let mut agreed = 0u32;
    let mut seed = 1;
    for _ in 0..rounds {
        let size = (drawn(&mut seed) % 60) as usize;
        let text = match letters(alloc, &mut seed, size, 2) {
            Ok(text) => text,
            Err(error) => return Err(error),
        };
        let other = match like(alloc, &mut seed, text.as_slice()) {
            Ok(other) => other,
            Err(error) => return Err(error),
        };
        match two_agree(alloc, pool, w, &mut seed, text.as_slice(), other.as_slice()) {
            Ok(agree) => agreed = agreed.saturating_add(u32::from(agree)),
            Err(error) => return Err(error),
        }
    }
    Ok(agreed)
}

fn generated_agree<P: Naming>(
    alloc: Global,
    opened: Opened<Boxes>,
    rounds: u32,
) -> Result<u32, CordError>
    requires table { opened_table opened ≡ P.table }
    requires numbers { opened_numbers opened ≡ P.size }
    requires passes { opened_passes opened ≡ P.limit }
    requires boxes { opened_boxes opened ≡ P.boxes }
    requires workers { (opened_workers opened ≡ P.workers) × (P.workers ≡ 1) }
{
    let Ok((pool, mut workers)) = opened.named::<P>(alloc) else {
        return Err(CordError::Memory);
    };
    rounds_agree(alloc, &pool, &mut workers[0], rounds)
}

#[test]
fn generated_cords_and_needles_agree_with_their_bytes(rt: HostRuntime) {
    let alloc = rt.alloc();
    let Ok(opened) = Opened::start(alloc, 1024, 2, 1, Vec::new(alloc)) else {
        assert!(&rt; false, "memory");
        return;
    };
    assert_eq!(rt; generated_agree::<Brand>(alloc, opened, 10_000), Ok(10_000));
}

/// How two cords compare, each of a text that grows by another.
fn order_of<P: Naming>(
    alloc: Global,
    opened: Opened<Boxes>,
    p: (&[u8], &[u8]),
    q: (&[u8], &[u8]),
) -> Result<Ordering, CordError>
    requires table { opened_table opened ≡ P.table }
    requires numbers { opened_numbers opened ≡ P.size }
    requires passes { opened_passes opened ≡ P.limit }
    requires boxes { opened_boxes opened ≡ P.boxes }
    requires workers { (opened_workers opened ≡ P.workers) × (P.workers ≡ 1) }
{
    let Ok((pool, mut workers)) = opened.named::<P>(alloc) else {
        return Err(CordError::Memory);
    };
    let w = &mut workers[0];
    let mut first = Cord::from_bytes(alloc, &pool, w, p.0)?;
    first.append_bytes(alloc, &pool, w, p.1)?;
    let mut second = Cord::from_bytes(alloc, &pool, w, q.0)?;
    second.append_bytes(alloc, &pool, w, q.1)?;
    Ok(compare(&first, &second))
}

#[test]
fn order_is_that_of_unsigned_bytes_in_any_shape(rt: HostRuntime) {
    let alloc = rt.alloc();
    for (p, q, order) in [
        (
            (b"\x7f".as_slice(), b"".as_slice()),
            (b"\x80".as_slice(), b"".as_slice()),
            Ordering::Less,
        ),
        ((b"abc", b""), (b"ab", b""), Ordering::Greater),
        (
            (b"aaaaaaaaaaaaaaaaaaaa", b""),
            (b"aaaaaaaaaaaaaaaaaaa", b"a"),
            Ordering::Equal,
        ),
    ] {
        let Ok(opened) = Opened::start(alloc, 16, 2, 1, Vec::new(alloc)) else {
            assert!(&rt; false, "memory");
            return;
        };
        assert_eq!(rt; order_of::<Brand>(alloc, opened, p, q), Ok(order));
    }
}

/// The bytes at three places of 4083 `a` and some more, the places of three needles, and what it begins and ends with.
type Told = ([Result<u8, CordError>; 3], [Option<u64>; 3], [bool; 3]);

fn told<P: Naming>(alloc: Global, opened: Opened<Boxes>, more: &[u8]) -> Result<Told, CordError>
    requires table { opened_table opened ≡ P.table }
    requires numbers { opened_numbers opened ≡ P.size }
    requires passes { opened_passes opened ≡ P.limit }
    requires boxes { opened_boxes opened ≡ P.boxes }
    requires workers { (opened_workers opened ≡ P.workers) × (P.workers ≡ 1) }
{
    let (Ok(full), Ok((pool, mut workers))) = (vec![in alloc; b'a'; 4083], opened.named::<P>(alloc))
    else {
        return Err(CordError::Memory);
    };
    let w = &mut workers[0];
    let mut cord = Cord::from_bytes(alloc, &pool, w, full.as_slice())?;
    cord.append_bytes(alloc, &pool, w, more)?;
    Ok((
        [at(&cord, 4082), at(&cord, 4083), at(&cord, 4084)],
        [find(&cord, b""), find(&cord, b"ab"), find(&cord, b"ca")],
        [
            starts_with(&cord, b"aa"),
            ends_with(&cord, b"abc"),
            ends_with(&cord, b"bb"),
        ],
    ))
}

#[test]
fn what_lies_over_two_flats_is_told_as_of_one(rt: HostRuntime) {
    let alloc = rt.alloc();
    let behind = Err(CordError::Position {
        asked: 4084,
        size: 4084,
    });
    for (more, told_of) in [
        (
            b"b".as_slice(),
            (
                [Ok(97), Ok(98), behind],
                [Some(0), Some(4082), None],
                [true, false, false],
            ),
        ),
        (
            b"bc",
            (
                [Ok(97), Ok(98), Ok(99)],
                [Some(0), Some(4082), None],
                [true, true, false],
            ),
        ),
    ] {
        let Ok(opened) = Opened::start(alloc, 16, 1, 1, Vec::new(alloc)) else {
            assert!(&rt; false, "memory");
            return;
        };
        assert_eq!(rt; told::<Brand>(alloc, opened, more), Ok(told_of));
    }
}

/// Whether a cord of 8,176 bytes in flats of 4083 was written to a sink, how many bytes this got, and whether they are its beginning.
fn written<P: Naming>(
    alloc: Global,
    opened: Opened<Boxes>,
    sink: &mut MemorySink,
) -> Result<(bool, usize, bool), CordError>
    requires table { opened_table opened ≡ P.table }
    requires numbers { opened_numbers opened ≡ P.size }
    requires passes { opened_passes opened ≡ P.limit }
    requires boxes { opened_boxes opened ≡ P.boxes }
    requires workers { (opened_workers opened ≡ P.workers) × (P.workers ≡ 1) }
{
    let Ok((pool, mut workers)) = opened.named::<P>(alloc) else {
        return Err(CordError::Memory);
    };
    let mut seed = 3;
    let text = letters(alloc, &mut seed, 8176, 26)?;
    let cord = Cord::from_bytes(alloc, &pool, &mut workers[0], text.as_slice())?;
    let done = write_to(&cord, sink).is_ok();
    let got = sink.bytes();
    Ok((done, got.len(), text.as_slice().starts_with(got)))
}

#[test]
fn a_sink_gets_all_bytes_or_a_beginning_of_them(rt: HostRuntime) -> Result<(), Fail> {
    let alloc = rt.alloc();
    for (room, most, failing, seen) in [
        (9000usize, 5000usize, 0u32, (true, 8176usize, true)),
        (9000, 1000, 0, (true, 8176, true)),
        (9000, 5000, 1, (false, 0, true)),
        (9000, 5000, 2, (false, 4083, true)),
        (9000, 1000, 7, (false, 5083, true)),
        (5000, 5000, 0, (false, 5000, true)),
    ] {
        let fails = vec![in alloc; failing]?;
        let mut sink = MemorySink::new(alloc, room, most, fails)?;
        let Ok(opened) = Opened::start(alloc, 16, 1, 1, Vec::new(alloc)) else {
            assert!(&rt; false, "memory");
            return Ok(());
        };
        assert_eq!(rt; written::<Brand>(alloc, opened, &mut sink), Ok(seen));
    }
    Ok(())
}
