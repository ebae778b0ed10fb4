//! Cords of each size that tells something, their copies, and what is left of a pool after them.
ghost use Rattle.std.specs.Prelude.{◌≡◌, ◌<◌, ◌≤◌, length, IfOk, IfErr};
ghost use Rattle.pool_rule.specs.Trades.{SameHolds};
ghost use Rattle.node_pool.specs.Opened.{opened_table, opened_numbers, opened_passes, opened_workers, opened_boxes};

use crate::cord::{Cord, Form};
use crate::refusals::{CopyRefused, CordError};
use cord_port::LogReleaser;
use node_pool::{Closed, Naming, Opened, PassLimit, Pool, Worker};
use std::alloc::Global;
use std::marker::Brand;

type Boxes = LogReleaser;

/// The number of a cord's tree.
fn number_of<P: Naming>(cord: &Cord<P>) -> Option<u32> {
    match &cord.form {
        Form::Inline(_) => None,
        Form::Tree { root, .. } => Some(root.number()),
    }
}

/// A byte of a cord.
fn byte_at<P: Naming>(cord: &Cord<P>, at: u64) -> Option<u8>
    requires within { at ≤ length cord.now.bytes }
{
    let mut reading = cord.chunks();
    reading.seek(at);
    reading.read(1).first().copied()
}

/// What a cord is seen to be: its length, whether it is a tree, and the bytes at both ends.
type Seen = (u64, bool, Option<u8>, Option<u8>);

fn seen_in<P: Naming>(cord: &Cord<P>) -> Seen {
    let size = cord.len();
    let last = match size.checked_sub(1) {
        Some(last) => byte_at(cord, last),
        None => None,
    };
    (size, cord.is_tree(), byte_at(cord, 0), last)
}

/// A cord of so many `m`, which gets so many `f` in front and so many `b` behind. It is released then.
fn made_and_gone<P: Naming>(
    alloc: Global,
    pool: &Pool<P, Boxes>,
    w: &mut Worker<P>,
    sizes: (usize, usize, usize),
) -> Result<Seen, CordError>
    requires room { length w.old.holds ≤ 96 }
    ensures same { SameHolds w.old.holds w.new.holds }
{
    let (in_front, size, behind) = sizes;
    let (Ok(front), Ok(bytes), Ok(back)) = (
        vec![in alloc; b'f'; in_front],
        vec![in alloc; b'm'; size],
        vec![in alloc; b'b'; behind],
    ) else {
        return Err(CordError::Memory);
    };
    let mut cord = match Cord::from_bytes(alloc, pool, w, bytes.as_slice()) {
        Ok(cord) => cord,
        Err(error) => return Err(error),
    };
    let grown = match cord.prepend_bytes(alloc, pool, w, front.as_slice()) {
        Ok(()) => cord.append_bytes(alloc, pool, w, back.as_slice()),
        Err(error) => Err(error),
    };
    let seen = match grown {
        Ok(()) => Ok(seen_in(&cord)),
        Err(error) => Err(error),
    };
    cord.release(pool, w);
    seen
}

fn seen_of<P: Naming>(
    alloc: Global,
    opened: Opened<Boxes>,
    sizes: (usize, usize, usize),
) -> Option<(Result<Seen, CordError>, u32)>
    requires table { opened_table opened ≡ P.table }
    requires numbers { opened_numbers opened ≡ P.size }
    requires passes { opened_passes opened ≡ P.limit }
    requires boxes { opened_boxes opened ≡ P.boxes }
    requires workers { (opened_workers opened ≡ P.workers) × (P.workers ≡ 1) }
{
    let Ok((pool, mut workers)) = opened.named::<P>(alloc) else {
        return None;
    };
    let seen = made_and_gone(alloc, &pool, &mut workers[0], sizes);
    let Closed {
        in_use,
        releasers: _,
    } = pool.close(workers);
    Some((seen, in_use))
}

#[test]
fn cords_take_a_number_for_each_node_and_one_too_few_is_told(rt: HostRuntime) {
    let alloc = rt.alloc();
    for (numbers, sizes, seen) in [
        (
            1u32,
            (0usize, 0usize, 0usize),
            Ok((0u64, false, None, None)),
        ),
        (1, (0, 15, 0), Ok((15, false, Some(b'm'), Some(b'm')))),
        (1, (0, 16, 0), Ok((16, true, Some(b'm'), Some(b'm')))),
        (1, (0, 4083, 0), Ok((4083, true, Some(b'm'), Some(b'm')))),
        (3, (0, 4084, 0), Ok((4084, true, Some(b'm'), Some(b'm')))),
        (2, (0, 4084, 0), Err(CordError::NoNumber { seen: 2 })),
        (
            10,
            (0, 28_581, 0),
            Ok((28_581, true, Some(b'm'), Some(b'm'))),
        ),
        (9, (0, 28_581, 0), Err(CordError::NoNumber { seen: 9 })),
    ] {
        let Ok(opened) = Opened::start(alloc, numbers, 1, 1, Vec::new(alloc)) else {
            assert!(&rt; false, "memory");
            return;
        };
        let answer = seen_of::<Brand>(alloc, opened, sizes);
        assert_eq!(rt; answer, Some((seen, 0)), "at {sizes:?}");
    }
}

#[test]
fn bytes_added_stand_at_their_side_and_a_refusal_keeps_the_cord(rt: HostRuntime) {
    let alloc = rt.alloc();
    for (numbers, sizes, seen) in [
        (
            1u32,
            (0usize, 0usize, 3usize),
            Ok((3u64, false, Some(b'b'), Some(b'b'))),
        ),
        (1, (1, 13, 1), Ok((15, false, Some(b'f'), Some(b'b')))),
        (1, (1, 15, 0), Ok((16, true, Some(b'f'), Some(b'm')))),
        (1, (0, 15, 1), Ok((16, true, Some(b'm'), Some(b'b')))),
        (3, (1, 16, 0), Ok((17, true, Some(b'f'), Some(b'm')))),
        (2, (1, 16, 0), Err(CordError::NoNumber { seen: 2 })),
        (3, (0, 16, 1), Ok((17, true, Some(b'm'), Some(b'b')))),
        (2, (0, 16, 1), Err(CordError::NoNumber { seen: 2 })),
    ] {
        let Ok(opened) = Opened::start(alloc, numbers, 1, 1, Vec::new(alloc)) else {
            assert!(&rt; false, "memory");
            return;
        };
        let answer = seen_of::<Brand>(alloc, opened, sizes);
        assert_eq!(rt; answer, Some((seen, 0)), "at {sizes:?}");
    }
}

/// Of a cord of seven flats: the places of the two Branches over the byte at 24,498, and how many bytes a reading of one byte gives there.
fn read_behind_six_flats<P: Naming>(
    alloc: Global,
    opened: Opened<Boxes>,
) -> Option<(usize, usize, usize)>
    requires table { opened_table opened ≡ P.table }
    requires numbers { opened_numbers opened ≡ P.size }
    requires passes { opened_passes opened ≡ P.limit }
    requires boxes { opened_boxes opened ≡ P.boxes }
    requires workers { (opened_workers opened ≡ P.workers) × (P.workers ≡ 1) }
{
    let bytes = vec![in alloc; 120u8; 28_581].ok()?;
    let (pool, mut workers) = opened.named::<P>(alloc).ok()?;
    let cord = Cord::from_bytes(alloc, &pool, &mut workers[0], bytes.as_slice()).ok()?;
    let mut reading = cord.chunks();
    reading.seek(24_498.min(cord.len()));
    let path = reading.path();
    if path.len() != 2 {
        return None;
    }
    let (_, upper) = path[0];
    let (_, lower) = path[1];
    Some((upper, lower, reading.read(1).len()))
}

#[test]
fn path_leads_to_the_seventh_flat(rt: HostRuntime) {
    let alloc = rt.alloc();
    let Ok(opened) = Opened::start(alloc, 16, 1, 1, Vec::new(alloc)) else {
        assert!(&rt; false, "memory");
        return;
    };
    let seen = read_behind_six_flats::<Brand>(alloc, opened);
    assert_eq!(rt; seen, Some((1, 0, 1)));
}

/// The numbers of a cord and of its copy, after the cord went.
fn numbers<P: Naming>(
    alloc: Global,
    pool: &Pool<P, Boxes>,
    w: &mut Worker<P>,
    bytes: &[u8],
) -> Result<(Option<u32>, Option<u32>, u64), CordError>
    requires room { length w.old.holds ≤ 96 }
    ensures same { SameHolds w.old.holds w.new.holds }
{
    let mut cord = match Cord::from_bytes(alloc, pool, w, bytes) {
        Ok(cord) => cord,
        Err(error) => return Err(error),
    };
    let copy = match cord.copy(pool, w) {
        Ok(copy) => copy,
        Err(error) => {
            cord.release(pool, w);
            return Err(error);
        }
    };
    let first = number_of(&cord);
    cord.release(pool, w);
    let second = number_of(&copy);
    let length = copy.len();
    copy.release(pool, w);
    Ok((first, second, length))
}

/// Whether a pass for a copy came back, and how long the copy is.
fn copied_into<P: Naming>(
    alloc: Global,
    pool: &Pool<P, Boxes>,
    w: &mut Worker<P>,
    bytes: &[u8],
) -> Result<(bool, u64), CordError>
    requires room { length w.old.holds ≤ 96 }
    ensures same { SameHolds w.old.holds w.new.holds }
{
    let mut cord = match Cord::from_bytes(alloc, pool, w, bytes) {
        Ok(cord) => cord,
        Err(error) => return Err(error),
    };
    let pass = match pool.pass(w) {
        Ok(pass) => pass,
        Err(PassLimit { found }) => {
            cord.release(pool, w);
            return Err(CordError::PassLimit { found });
        }
    };
    match cord.copy_into(pool, w, pass) {
        Ok((copy, back)) => {
            let seen = (back.is_some(), copy.len());
            if let Some(pass) = back {
                pool.end(w, pass);
            }
            copy.release(pool, w);
            cord.release(pool, w);
            Ok(seen)
        }
        Err(CopyRefused { pass }) => {
            pool.end(w, pass);
            cord.release(pool, w);
            Err(CordError::Memory)
        }
    }
}

const LONG: &[u8] = b"more than fifteen bytes";

/// What copies of a tree and of an inline cord are, in a pool for so many live passes.
#[derive(Debug, PartialEq, Eq, Drop)]
struct Copies {
    same_number: Result<bool, CordError>,
    inline: Result<(Option<u32>, Option<u32>, u64), CordError>,
    tree_into: Result<(bool, u64), CordError>,
    inline_into: Result<(bool, u64), CordError>,
    in_use: u32,
}

fn all_copied<P: Naming>(alloc: Global, opened: Opened<Boxes>) -> Option<Copies>
    requires table { opened_table opened ≡ P.table }
    requires numbers { opened_numbers opened ≡ P.size }
    requires passes { opened_passes opened ≡ P.limit }
    requires boxes { opened_boxes opened ≡ P.boxes }
    requires workers { (opened_workers opened ≡ P.workers) × (P.workers ≡ 4) }
{
    let Ok((pool, mut workers)) = opened.named::<P>(alloc) else {
        return None;
    };
    let same_number = match numbers(alloc, &pool, &mut workers[0], LONG) {
        Ok((first, second, length)) => {
            Ok(first.is_some() && first == second && length == LONG.len() as u64)
        }
        Err(error) => Err(error),
    };
    let inline = numbers(alloc, &pool, &mut workers[1], b"few");
    let tree_into = copied_into(alloc, &pool, &mut workers[2], LONG);
    let inline_into = copied_into(alloc, &pool, &mut workers[3], b"few");
    let Closed {
        in_use,
        releasers: _,
    } = pool.close(workers);
    Some(Copies {
        same_number,
        inline,
        tree_into,
        inline_into,
        in_use,
    })
}

#[test]
fn a_copy_has_the_same_number_and_all_are_given_back(rt: HostRuntime) {
    let alloc = rt.alloc();
    let Ok(opened) = Opened::start(alloc, 1, 2, 4, Vec::new(alloc)) else {
        assert!(&rt; false, "memory");
        return;
    };
    let seen = all_copied::<Brand>(alloc, opened);
    let wanted = Copies {
        same_number: Ok(true),
        inline: Ok((None, None, 3)),
        tree_into: Ok((false, 23)),
        inline_into: Ok((true, 3)),
        in_use: 0,
    };
    assert_eq!(rt; seen, Some(wanted));
}

#[test]
fn a_copy_beyond_the_limit_on_passes_is_refused(rt: HostRuntime) {
    let alloc = rt.alloc();
    let Ok(opened) = Opened::start(alloc, 1, 1, 4, Vec::new(alloc)) else {
        assert!(&rt; false, "memory");
        return;
    };
    let seen = all_copied::<Brand>(alloc, opened);
    let refused = CordError::PassLimit { found: 1 };
    let wanted = Copies {
        same_number: Err(refused),
        inline: Ok((None, None, 3)),
        tree_into: Err(refused),
        inline_into: Ok((true, 3)),
        in_use: 0,
    };
    assert_eq!(rt; seen, Some(wanted));
}
