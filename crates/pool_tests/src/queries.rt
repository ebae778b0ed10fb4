//! Questions to cords in many shapes, beside the plain answers on their bytes.
ghost use Rattle.std.specs.Prelude.{◌≡◌, ◌<◌, ◌≤◌, length};
ghost use Rattle.pool_rule.specs.Trades.{SameHolds};
ghost use Rattle.node_pool.specs.Opened.{opened_table, opened_numbers, opened_passes, opened_workers, opened_boxes};

use crate::slots::boxes;
use crate::steps::{Boxes, From, Step, bytes_of, letters, stepped, taken};
use cord_port::{MemorySink, Sink};
use cord_query::{at, compare, ends_with, find, starts_with, write_to};
use cord_value::{Cord, CordError};
use node_pool::{Naming, Opened, Pool, Worker};
use plain_cord::{compare_bytes, first_place};
use rand_core::utils::NextWord;
use rand_pcg::Lcg64Xsh32;
use std::alloc::Global;
use std::marker::Brand;

/// Whether the needle's place is that in the bytes.
fn finds<P: Naming>(cord: &Cord<P>, text: &[u8], needle: &[u8]) -> bool {
    let place = match first_place(text, needle) {
        Some(place) => Some(place as u64),
        None => None,
    };
    find(cord, needle) == place
}

/// Whether the answers on a place, on what stands in front of it and on what stands behind it are those on the bytes.
fn tells<P: Naming>(cord: &Cord<P>, text: &[u8], place: usize) -> bool {
    let (front, back) = text.split_at(place.min(text.len()));
    let byte = match back.first() {
        Some(byte) => Ok(*byte),
        None => Err(CordError::Position {
            asked: front.len() as u64,
            size: text.len() as u64,
        }),
    };
    for size in [1usize, 2, 5, 40, 300, 5000] {
        let (needle, _) = back.split_at(size.min(back.len()));
        if !finds(cord, text, needle) {
            return false;
        }
    }
    at(cord, front.len() as u64) == byte
        && starts_with(cord, front)
        && starts_with(cord, back) == text.starts_with(back)
        && ends_with(cord, back)
        && ends_with(cord, front) == text.ends_with(front)
}

/// Whether a sink with room for so many bytes gets all of them, or as many as it has room for.
fn writes<P: Naming>(
    alloc: Global,
    cord: &Cord<P>,
    text: &[u8],
    room: usize,
) -> Result<bool, CordError> {
    let Ok(mut sink) = MemorySink::new(alloc, room, 1000, Vec::new(alloc)) else {
        return Err(CordError::Memory);
    };
    let all = write_to(cord, &mut sink).is_ok();
    let (front, behind) = text.split_at(room.min(text.len()));
    Ok(all == behind.is_empty() && sink.bytes() == front)
}

/// Whether the cord stands to a cord of these bytes as its bytes do, and that to it.
fn orders<P: Naming>(
    alloc: Global,
    pool: &Pool<P, Boxes>,
    w: &mut Worker<P>,
    cord: &Cord<P>,
    text: &[u8],
    other_text: &[u8],
) -> Result<bool, CordError>
    requires room { length w.old.holds ≤ 96 }
    ensures same { SameHolds w.old.holds w.new.holds }
{
    let other = match Cord::from_bytes(alloc, pool, w, other_text) {
        Ok(other) => other,
        Err(error) => return Err(error),
    };
    let forth = compare(cord, &other) == compare_bytes(text, other_text);
    let back = compare(&other, cord) == compare_bytes(other_text, text);
    other.release(pool, w);
    Ok(forth && back)
}

/// Whether all answers on a place are those on the bytes: also beside a cord that ends there, and one that has another byte there.
fn agrees_at<P: Naming>(
    alloc: Global,
    pool: &Pool<P, Boxes>,
    w: &mut Worker<P>,
    cord: &Cord<P>,
    text: &[u8],
    place: usize,
) -> Result<bool, CordError>
    requires room { length w.old.holds ≤ 96 }
    ensures same { SameHolds w.old.holds w.new.holds }
{
    let (front, _) = text.split_at(place.min(text.len()));
    let Ok(mut other) = Vec::from_slice(alloc, text) else {
        return Err(CordError::Memory);
    };
    if let Some(byte) = other.get_mut(place) {
        *byte = byte.wrapping_add(128);
    }
    let written = match writes(alloc, cord, text, place) {
        Ok(written) => written,
        Err(error) => return Err(error),
    };
    let shorter = match orders(alloc, pool, w, cord, text, front) {
        Ok(shorter) => shorter,
        Err(error) => return Err(error),
    };
    match orders(alloc, pool, w, cord, text, other.as_slice()) {
        Ok(changed) => Ok(changed && shorter && written && tells(cord, text, place)),
        Err(error) => Err(error),
    }
}

/// How many chunks there are, and at how many of the five places at and beside each chunk's end the answers agree.
fn agreed<P: Naming>(
    alloc: Global,
    pool: &Pool<P, Boxes>,
    w: &mut Worker<P>,
    cord: &Cord<P>,
) -> Result<(u32, u32), CordError>
    requires room { length w.old.holds ≤ 96 }
    ensures same { SameHolds w.old.holds w.new.holds }
{
    let text = match bytes_of(alloc, cord) {
        Ok(text) => text,
        Err(error) => return Err(error),
    };
    let mut chunks = 0u32;
    let mut agreed = 0u32;
    let mut end = 0usize;
    for chunk in cord.chunks() {
        end = end.saturating_add(chunk.len());
        chunks = chunks.saturating_add(1);
        for place in end.saturating_sub(2)..end.saturating_add(3) {
            match agrees_at(alloc, pool, w, cord, text.as_slice(), place) {
                Ok(agree) => agreed = agreed.saturating_add(u32::from(agree)),
                Err(error) => return Err(error),
            }
        }
    }
    Ok((chunks, agreed))
}

/// Makes a cord of so many rounds' height: in each it is doubled twice, and cut across the two halves.
fn raised<P: Naming>(
    alloc: Global,
    pool: &Pool<P, Boxes>,
    w: &mut Worker<P>,
    cord: &mut Cord<P>,
    rounds: u32,
)
    requires room { length w.old.holds ≤ 96 }
    ensures same { SameHolds w.old.holds w.new.holds }
{
    for _ in 0..rounds {
        let _ = taken(alloc, pool, w, cord, Step::Double);
        let _ = taken(alloc, pool, w, cord, Step::Double);
        let _ = taken(alloc, pool, w, cord, Step::Range(12_249, 8166));
    }
}

/// What a cord of so many letters is made of, and what becomes of it.
#[derive(Clone, Copy, Debug)]
struct Recipe {
    from: From,
    size: usize,
    steps: [Step; 3],
    rounds: u32,
}

/// How many Branches stand over its first byte, how many chunks it has, and whether all answers agree.
fn asked<P: Naming>(
    alloc: Global,
    opened: Opened<Boxes>,
    recipe: Recipe,
) -> Result<(usize, u32, bool), CordError>
    requires table { opened_table opened ≡ P.table }
    requires numbers { opened_numbers opened ≡ P.size }
    requires passes { opened_passes opened ≡ P.limit }
    requires boxes { opened_boxes opened ≡ P.boxes }
    requires workers { (opened_workers opened ≡ P.workers) × (P.workers ≡ 1) }
{
    let text = letters(alloc, &mut Lcg64Xsh32::new(2, 0), recipe.size, 3)?;
    let Ok((pool, mut workers)) = opened.named::<P>(alloc) else {
        return Err(CordError::Memory);
    };
    let w = &mut workers[0];
    let mut cord = stepped(alloc, &pool, w, text.as_slice(), recipe.from, recipe.steps)?;
    raised(alloc, &pool, w, &mut cord, recipe.rounds);
    let (chunks, agree) = agreed(alloc, &pool, w, &cord)?;
    let branches = cord.chunks().path().len();
    cord.release(&pool, w);
    Ok((branches, chunks, agree == chunks.saturating_mul(5)))
}

#[test]
fn all_questions_agree_at_and_beside_each_border_in_all_shapes(rt: HostRuntime) {
    let alloc = rt.alloc();
    let (flats, external, nothing) = (From::Flats, From::External, Step::Copy);
    for (from, size, steps, rounds, seen) in [
        (
            flats,
            15usize,
            [nothing, nothing, nothing],
            0u32,
            (0usize, 1u32),
        ),
        (flats, 15, [Step::SetSum(7), nothing, nothing], 0, (0, 1)),
        (flats, 16, [nothing, nothing, nothing], 0, (0, 1)),
        (flats, 4084, [nothing, Step::SetSum(7), nothing], 0, (1, 2)),
        (flats, 28_581, [nothing, nothing, nothing], 0, (2, 7)),
        (external, 100, [nothing, nothing, nothing], 0, (0, 1)),
        (
            external,
            100,
            [Step::Range(10, 50), Step::Range(5, 30), Step::SetSum(1)],
            0,
            (0, 1),
        ),
        (
            external,
            5000,
            [Step::CutFront(1), Step::CutBack(1), Step::Append(b"abcab")],
            0,
            (1, 2),
        ),
        (
            flats,
            9000,
            [
                Step::Range(1000, 7000),
                Step::CutFront(100),
                Step::Prepend(b"ab"),
            ],
            0,
            (1, 3),
        ),
        (
            flats,
            600,
            [Step::Double, Step::Double, Step::Double],
            0,
            (2, 8),
        ),
        (
            external,
            600,
            [Step::Join(600), Step::JoinFront(600), Step::Range(500, 900)],
            0,
            (1, 3),
        ),
        (
            flats,
            28_581,
            [Step::Range(20_415, 8166), nothing, nothing],
            10,
            (12, 2),
        ),
        (
            flats,
            28_581,
            [Step::Range(20_415, 8166), nothing, nothing],
            3,
            (5, 2),
        ),
    ] {
        let boxes = boxes(alloc, 1).expect(&rt, "memory");
        let Ok(opened) = Opened::start(alloc, 1024, 3, 1, boxes) else {
            assert!(&rt; false, "memory");
            return;
        };
        let recipe = Recipe {
            from,
            size,
            steps,
            rounds,
        };
        let (branches, chunks) = seen;
        let answer = asked::<Brand>(alloc, opened, recipe);
        assert_eq!(rt; answer, Ok((branches, chunks, true)), "{recipe:?}");
    }
}

/// A step with small numbers.
fn drawn_step(random: &mut Lcg64Xsh32) -> Step {
    let kind = random.next_word() % 9;
    let some = u64::from(random.next_word() % 20);
    match kind {
        0 => Step::Append(b"abbabaaab"),
        1 => Step::Prepend(b"baab"),
        2 => Step::CutFront(some),
        3 => Step::CutBack(some),
        4 => Step::Range(some, 200),
        5 => Step::SetSum(9),
        6 => Step::Join(some as usize),
        7 => Step::Double,
        _ => Step::Copy,
    }
}

/// A cord of few letters after three drawn steps, with its bytes.
fn drawn_cord<P: Naming>(
    alloc: Global,
    pool: &Pool<P, Boxes>,
    w: &mut Worker<P>,
    random: &mut Lcg64Xsh32,
) -> Result<Cord<P>, CordError>
    requires room { length w.old.holds ≤ 96 }
    ensures same { SameHolds w.old.holds w.new.holds }
{
    let size = (random.next_word() % 60) as usize;
    let text = match letters(alloc, random, size, 2) {
        Ok(text) => text,
        Err(error) => return Err(error),
    };
    let from = if w.next_slot().is_some() {
        From::External
    } else {
        From::Flats
    };
    let steps = [drawn_step(random), drawn_step(random), drawn_step(random)];
    stepped(alloc, pool, w, text.as_slice(), from, steps)
}

/// Whether the questions to a cord agree with those to its bytes, with a needle and a place out of the second cord, and the order of the two.
fn two_agree<P: Naming>(
    alloc: Global,
    random: &mut Lcg64Xsh32,
    cord: &Cord<P>,
    other: &Cord<P>,
) -> Result<bool, CordError> {
    let text = bytes_of(alloc, cord)?;
    let other_text = bytes_of(alloc, other)?;
    let (text, other_text) = (text.as_slice(), other_text.as_slice());
    let from = (random.next_word() % 60) as usize;
    let size = (random.next_word() % 12) as usize;
    let (_, back) = other_text.split_at(from.min(other_text.len()));
    let (needle, _) = back.split_at(size.min(back.len()));
    let written = writes(alloc, cord, text, from)?;
    Ok(
        written
            && finds(cord, text, needle)
            && tells(cord, text, from)
            && starts_with(cord, needle) == text.starts_with(needle)
            && ends_with(cord, back) == text.ends_with(back)
            && compare(cord, other) == compare_bytes(text, other_text),
    )
}

/// The same of two drawn cords.
fn round_agrees<P: Naming>(
    alloc: Global,
    pool: &Pool<P, Boxes>,
    w: &mut Worker<P>,
    random: &mut Lcg64Xsh32,
) -> Result<bool, CordError>
    requires room { length w.old.holds ≤ 96 }
    ensures same { SameHolds w.old.holds w.new.holds }
{
    let cord = match drawn_cord(alloc, pool, w, random) {
        Ok(cord) => cord,
        Err(error) => return Err(error),
    };
    let other = match drawn_cord(alloc, pool, w, random) {
        Ok(other) => other,
        Err(error) => {
            cord.release(pool, w);
            return Err(error);
        }
    };
    let agree = two_agree(alloc, random, &cord, &other);
    cord.release(pool, w);
    other.release(pool, w);
    agree
}

/// How many of so many rounds agree.
fn rounds_agree<P: Naming>(
    alloc: Global,
    pool: &Pool<P, Boxes>,
    w: &mut Worker<P>,
    random: &mut Lcg64Xsh32,
    rounds: u32,
) -> Result<u32, CordError>
    requires room { length w.old.holds ≤ 96 }
{
    let mut agreed = 0u32;
    for _ in 0..rounds {
        match round_agrees(alloc, pool, w, random) {
            Ok(agree) => agreed = agreed.saturating_add(u32::from(agree)),
            Err(error) => return Err(error),
        }
    }
    Ok(agreed)
}

fn seed_agrees<P: Naming>(
    alloc: Global,
    opened: Opened<Boxes>,
    seed: u64,
    rounds: u32,
) -> Result<u32, CordError>
    requires table { opened_table opened ≡ P.table }
    requires numbers { opened_numbers opened ≡ P.size }
    requires passes { opened_passes opened ≡ P.limit }
    requires boxes { opened_boxes opened ≡ P.boxes }
    requires workers { (opened_workers opened ≡ P.workers) × (P.workers ≡ 1) }
{
    let Ok((pool, mut workers)) = opened.named::<P>(alloc) else {
        return Err(CordError::Memory);
    };
    let mut random = Lcg64Xsh32::new(seed, 0);
    rounds_agree(alloc, &pool, &mut workers[0], &mut random, rounds)
}

/// Each pool has 16 externals, which its first cords use.
#[test]
fn questions_to_generated_cords_of_parts_sums_and_externals_agree(rt: HostRuntime) {
    let alloc = rt.alloc();
    for seed in 0..100u64 {
        let boxes = boxes(alloc, 16).expect(&rt, "memory");
        let Ok(opened) = Opened::start(alloc, 256, 4, 1, boxes) else {
            assert!(&rt; false, "memory");
            return;
        };
        let seen = seed_agrees::<Brand>(alloc, opened, seed, 100);
        assert_eq!(rt; seen, Ok(100), "seed {seed}");
    }
}
