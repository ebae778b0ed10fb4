//! Steps on cords, and what is seen of a cord then.
ghost use Rattle.std.specs.Prelude.{◌≡◌, ◌<◌, ◌≤◌, length};
ghost use Rattle.pool_rule.specs.Trades.{SameHolds};

use cord_port::LogReleaser;
use cord_value::{Cord, CordError};
use node_pool::{Naming, Pool, Worker};
use rand_core::utils::NextWord;
use rand_pcg::Lcg64Xsh32;
use std::alloc::Global;
use std::mem;

pub(crate) type Boxes = LogReleaser;

/// A step on a cord.
#[derive(Clone, Copy, Debug)]
pub(crate) enum Step {
    Append(&'static [u8]),
    Prepend(&'static [u8]),
    CutFront(u64),
    CutBack(u64),
    Range(u64, u64),
    SetSum(u32),
    Copy,
    /// A cord of so many `s` is added behind.
    Join(usize),
    JoinFront(usize),
    Double,
}

/// What a cord's first bytes stand in.
#[derive(Clone, Copy, Debug)]
pub(crate) enum From {
    Flats,
    External,
}

/// How long the cord is, whether it is a tree, its sum, and its first and its last byte.
pub(crate) type Seen = (u64, bool, Option<u32>, Option<u8>, Option<u8>);

/// What came of a step, and what is seen then.
pub(crate) type Outcome = (Result<(), CordError>, Seen);

/// A byte of a cord.
fn byte_at<P: Naming>(cord: &Cord<P>, at: u64) -> Option<u8>
    requires within { at ≤ length cord.now.bytes }
{
    let mut reading = cord.chunks();
    reading.seek(at);
    reading.read(1).first().copied()
}

pub(crate) fn seen_of<P: Naming>(cord: &Cord<P>) -> Seen {
    let size = cord.len();
    let last = match size.checked_sub(1) {
        Some(last) => byte_at(cord, last),
        None => None,
    };
    (size, cord.is_tree(), cord.sum(), byte_at(cord, 0), last)
}

/// The cord in the place of another one, which is released.
fn replace<P: Naming>(
    pool: &Pool<P, Boxes>,
    w: &mut Worker<P>,
    cord: &mut Cord<P>,
    made: Result<Cord<P>, CordError>,
) -> Result<(), CordError>
    requires room { length w.old.holds ≤ 96 }
    ensures same { SameHolds w.old.holds w.new.holds }
{
    match made {
        Ok(other) => {
            mem::replace(cord, other).release(pool, w);
            Ok(())
        }
        Err(error) => Err(error),
    }
}

/// Adds a cord of so many `s`, which is released then.
fn join<P: Naming>(
    alloc: Global,
    pool: &Pool<P, Boxes>,
    w: &mut Worker<P>,
    cord: &mut Cord<P>,
    size: usize,
    in_front: bool,
) -> Result<(), CordError>
    requires room { length w.old.holds ≤ 96 }
    ensures same { SameHolds w.old.holds w.new.holds }
{
    let Ok(bytes) = vec![in alloc; b's'; size] else {
        return Err(CordError::Memory);
    };
    let mut other = match Cord::from_bytes(alloc, pool, w, bytes.as_slice()) {
        Ok(other) => other,
        Err(error) => return Err(error),
    };
    let answer = if in_front {
        cord.prepend_cord(alloc, pool, w, &mut other)
    } else {
        cord.append_cord(alloc, pool, w, &mut other)
    };
    other.release(pool, w);
    answer
}

/// Adds what the step adds.
fn added<P: Naming>(
    alloc: Global,
    pool: &Pool<P, Boxes>,
    w: &mut Worker<P>,
    cord: &mut Cord<P>,
    step: Step,
) -> Result<(), CordError>
    requires room { length w.old.holds ≤ 96 }
    ensures same { SameHolds w.old.holds w.new.holds }
{
    match step {
        Step::Append(bytes) => cord.append_bytes(alloc, pool, w, bytes),
        Step::Prepend(bytes) => cord.prepend_bytes(alloc, pool, w, bytes),
        Step::Join(size) => join(alloc, pool, w, cord, size, false),
        Step::JoinFront(size) => join(alloc, pool, w, cord, size, true),
        Step::Double => cord.double(alloc, pool, w),
        _ => Ok(()),
    }
}

/// Takes the step.
pub(crate) fn taken<P: Naming>(
    alloc: Global,
    pool: &Pool<P, Boxes>,
    w: &mut Worker<P>,
    cord: &mut Cord<P>,
    step: Step,
) -> Outcome
    requires room { length w.old.holds ≤ 96 }
    ensures same { SameHolds w.old.holds w.new.holds }
{
    let answer = match step {
        Step::CutFront(n) => cord.cut_front(alloc, pool, w, n),
        Step::CutBack(n) => cord.cut_back(alloc, pool, w, n),
        Step::SetSum(value) => cord.set_sum(alloc, pool, w, value),
        Step::Range(pos, n) => {
            let made = cord.sub(alloc, pool, w, pos, n);
            replace(pool, w, cord, made)
        }
        Step::Copy => {
            let made = cord.copy(pool, w);
            replace(pool, w, cord, made)
        }
        _ => added(alloc, pool, w, cord, step),
    };
    (answer, seen_of(cord))
}

/// Whether the cord's chunks are these bytes, one after another.
pub(crate) fn has_bytes<P: Naming>(cord: &Cord<P>, bytes: &[u8]) -> bool {
    let mut rest = bytes;
    for chunk in cord.chunks() {
        if chunk.len() > rest.len() {
            return false;
        }
        let (front, behind) = rest.split_at(chunk.len());
        if chunk != front {
            return false;
        }
        rest = behind;
    }
    rest.is_empty()
}

/// The bytes between two places, as far as there are so many.
pub(crate) fn between(bytes: &[u8], start: u64, end: u64) -> &[u8] {
    let (front, _) = bytes.split_at((end as usize).min(bytes.len()));
    let (_, back) = front.split_at((start as usize).min(front.len()));
    back
}

/// Letters of so many kinds, which repeat after a long while only.
pub(crate) fn letters(
    alloc: Global,
    random: &mut Lcg64Xsh32,
    size: usize,
    kinds: u32,
) -> Result<Vec<u8>, CordError>
    requires some { 0 < kinds }
    requires few { kinds ≤ 26 }
{
    let Ok(mut bytes) = Vec::with_capacity(alloc, size) else {
        return Err(CordError::Memory);
    };
    for _ in 0..size {
        let letter = b'a' + (random.next_word() % kinds) as u8;
        if bytes.push(letter).is_err() {
            return Err(CordError::Memory);
        }
    }
    Ok(bytes)
}

/// A cord of the bytes, as flats or as an external, after three steps.
pub(crate) fn stepped<P: Naming>(
    alloc: Global,
    pool: &Pool<P, Boxes>,
    w: &mut Worker<P>,
    text: &[u8],
    from: From,
    steps: [Step; 3],
) -> Result<Cord<P>, CordError>
    requires room { length w.old.holds ≤ 96 }
    ensures same { SameHolds w.old.holds w.new.holds }
{
    let made = match from {
        From::External if text.len() >= 16 => Cord::from_external(alloc, pool, w, text),
        _ => Cord::from_bytes(alloc, pool, w, text),
    };
    let mut cord = match made {
        Ok(cord) => cord,
        Err(error) => return Err(error),
    };
    let [one, two, three] = steps;
    let _ = taken(alloc, pool, w, &mut cord, one);
    let _ = taken(alloc, pool, w, &mut cord, two);
    let _ = taken(alloc, pool, w, &mut cord, three);
    Ok(cord)
}

/// All bytes of a cord.
pub(crate) fn bytes_of<P: Naming>(alloc: Global, cord: &Cord<P>) -> Result<Vec<u8>, CordError> {
    let mut bytes = Vec::new(alloc);
    for chunk in cord.chunks() {
        if bytes.extend_from_slice(chunk).is_err() {
            return Err(CordError::Memory);
        }
    }
    Ok(bytes)
}
