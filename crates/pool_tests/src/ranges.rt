//! Ranges of a cord of 28,581 bytes in seven flats, beside its bytes.
ghost use Rattle.std.specs.Prelude.{◌≡◌, ◌≤◌, length};
ghost use Rattle.pool_rule.specs.Trades.{SameHolds};
ghost use Rattle.node_pool.specs.Opened.{opened_table, opened_numbers, opened_passes, opened_workers, opened_boxes};

use crate::steps::{Boxes, between, has_bytes, letters};
use cord_value::{Cord, CordError};
use node_pool::{Closed, Naming, Opened, Pool, Worker};
use rand_pcg::Lcg64Xsh32;
use std::alloc::Global;
use std::marker::Brand;

const SIZE: usize = 28_581;

/// The places at and beside each end of a chunk, and the cord's first ones.
fn places_of<P: Naming>(alloc: Global, cord: &Cord<P>) -> Result<Vec<u64>, CordError> {
    let mut places = vec![in alloc; 0u64, 1].map_err(|_| CordError::Memory)?;
    let mut end = 0u64;
    for chunk in cord.chunks() {
        end = end.saturating_add(chunk.len() as u64);
        for place in [end.saturating_sub(1), end, end.saturating_add(1)] {
            if place <= cord.len() && places.push(place).is_err() {
                return Err(CordError::Memory);
            }
        }
    }
    Ok(places)
}

/// Whether the cord of a range, and a copy of which the rest is cut off, have the range's bytes.
fn agrees<P: Naming>(
    alloc: Global,
    pool: &Pool<P, Boxes>,
    w: &mut Worker<P>,
    cord: &mut Cord<P>,
    text: &[u8],
    ends: (u64, u64),
) -> Result<bool, CordError>
    requires room { length w.old.holds ≤ 96 }
    ensures same { SameHolds w.old.holds w.new.holds }
{
    let (start, end) = ends;
    let bytes = between(text, start, end);
    let part = match cord.sub(alloc, pool, w, start, end.saturating_sub(start)) {
        Ok(part) => part,
        Err(error) => return Err(error),
    };
    let same = has_bytes(&part, bytes);
    part.release(pool, w);
    let mut copy = match cord.copy(pool, w) {
        Ok(copy) => copy,
        Err(error) => return Err(error),
    };
    let front = copy.cut_front(alloc, pool, w, start);
    let behind = cord.len().saturating_sub(end);
    let back = copy.cut_back(alloc, pool, w, behind);
    let cut = front.is_ok() && back.is_ok() && has_bytes(&copy, bytes);
    copy.release(pool, w);
    Ok(same && cut)
}

/// How many ranges from a place on agree.
fn from_place<P: Naming>(
    alloc: Global,
    pool: &Pool<P, Boxes>,
    w: &mut Worker<P>,
    cord: &mut Cord<P>,
    text: &[u8],
    start: u64,
    places: &[u64],
) -> Result<(u32, u32), CordError>
    requires room { length w.old.holds ≤ 96 }
    ensures same { SameHolds w.old.holds w.new.holds }
{
    let mut agreed = 0u32;
    let mut tried = 0u32;
    for end in places {
        if *end < start {
            continue;
        }
        match agrees(alloc, pool, w, cord, text, (start, *end)) {
            Ok(same) => agreed = agreed.saturating_add(u32::from(same)),
            Err(error) => return Err(error),
        }
        tried = tried.saturating_add(1);
    }
    Ok((agreed, tried))
}

/// How many ranges between the places agree, and how many there are.
fn all_places<P: Naming>(
    alloc: Global,
    pool: &Pool<P, Boxes>,
    w: &mut Worker<P>,
    cord: &mut Cord<P>,
    text: &[u8],
    places: &[u64],
) -> Result<(u32, u32), CordError>
    requires room { length w.old.holds ≤ 96 }
    ensures same { SameHolds w.old.holds w.new.holds }
{
    let mut agreed = 0u32;
    let mut tried = 0u32;
    for start in places {
        let (some, more) = match from_place(alloc, pool, w, cord, text, *start, places) {
            Ok(counts) => counts,
            Err(error) => return Err(error),
        };
        agreed = agreed.saturating_add(some);
        tried = tried.saturating_add(more);
    }
    Ok((agreed, tried))
}

/// The same of a new cord, and whether it still has its bytes then. It is released.
fn ranges_agree<P: Naming>(
    alloc: Global,
    pool: &Pool<P, Boxes>,
    w: &mut Worker<P>,
    text: &[u8],
) -> Result<(u32, u32, bool), CordError>
    requires room { length w.old.holds ≤ 96 }
{
    let mut cord = Cord::from_bytes(alloc, pool, w, text)?;
    let places = places_of(alloc, &cord)?;
    let (agreed, tried) = all_places(alloc, pool, w, &mut cord, text, places.as_slice())?;
    let whole = has_bytes(&cord, text);
    cord.release(pool, w);
    Ok((agreed, tried, whole))
}

fn agreed<P: Naming>(
    alloc: Global,
    opened: Opened<Boxes>,
) -> Result<((u32, u32, bool), u32), CordError>
    requires table { opened_table opened ≡ P.table }
    requires numbers { opened_numbers opened ≡ P.size }
    requires passes { opened_passes opened ≡ P.limit }
    requires boxes { opened_boxes opened ≡ P.boxes }
    requires workers { (opened_workers opened ≡ P.workers) × (P.workers ≡ 1) }
{
    let text = letters(alloc, &mut Lcg64Xsh32::new(1, 0), SIZE, 26)?;
    let Ok((pool, mut workers)) = opened.named::<P>(alloc) else {
        return Err(CordError::Memory);
    };
    let seen = ranges_agree(alloc, &pool, &mut workers[0], text.as_slice())?;
    let Closed {
        in_use,
        releasers: _,
    } = pool.close(workers);
    Ok((seen, in_use))
}

#[test]
fn each_range_that_begins_and_ends_at_or_beside_a_border_has_its_bytes(rt: HostRuntime) {
    let alloc = rt.alloc();
    let Ok(opened) = Opened::start(alloc, 64, 2, 1, Vec::new(alloc)) else {
        assert!(&rt; false, "memory");
        return;
    };
    let seen = agreed::<Brand>(alloc, opened);
    assert_eq!(rt; seen, Ok(((253, 253, true), 0)));
}
