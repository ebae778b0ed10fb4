//! Cords of which ranges are taken, and which are cut, and the yardstick: slices that are copied.
ghost use Rattle.std.specs.Prelude.{◌≡◌, ◌≤◌, length};
ghost use Rattle.pool_rule.specs.Trades.{SameHolds};

use crate::cords::Boxes;
use crate::plan::Change;
use cord_value::{Cord, CordError};
use node_pool::{Naming, Pool, Worker};
use std::alloc::{AllocError, Global};

// How many bytes are cut off at a time.
const CUT: usize = 100;

// The half in the middle becomes a cord, which is released.
fn take_half<P: Naming>(
    alloc: Global,
    pool: &Pool<P, Boxes>,
    w: &mut Worker<P>,
    cord: &mut Cord<P>,
) -> Result<u64, CordError>
    requires room { length w.old.holds ≤ 96 }
    ensures same { SameHolds w.old.holds w.new.holds }
{
    let size = cord.len();
    match cord.sub(alloc, pool, w, size / 4, size / 2) {
        Ok(half) => {
            let size = half.len();
            half.release(pool, w);
            Ok(size)
        }
        Err(error) => Err(error),
    }
}

// Cuts so many bytes off, or all that there are.
fn cut<P: Naming>(
    alloc: Global,
    pool: &Pool<P, Boxes>,
    w: &mut Worker<P>,
    cord: &mut Cord<P>,
    front: bool,
) -> Result<(), CordError>
    requires room { length w.old.holds ≤ 96 }
    ensures same { SameHolds w.old.holds w.new.holds }
{
    let most = cord.len().min(CUT as u64);
    if front {
        cord.cut_front(alloc, pool, w, most)
    } else {
        cord.cut_back(alloc, pool, w, most)
    }
}

// Cuts the cord to nothing. What is left.
fn cut_all<P: Naming>(
    alloc: Global,
    pool: &Pool<P, Boxes>,
    w: &mut Worker<P>,
    cord: &mut Cord<P>,
    front: bool,
) -> Result<u64, CordError>
    requires room { length w.old.holds ≤ 96 }
    ensures same { SameHolds w.old.holds w.new.holds }
{
    for _ in 0..cord.len() / CUT as u64 + 1 {
        match cut(alloc, pool, w, cord, front) {
            Ok(()) => {}
            Err(error) => return Err(error),
        }
    }
    Ok(cord.len())
}

/// Changes the cord, or a copy of it. How many bytes are left.
pub fn change<P: Naming>(
    alloc: Global,
    pool: &Pool<P, Boxes>,
    w: &mut Worker<P>,
    cord: &mut Cord<P>,
    change: Change,
) -> Result<u64, CordError>
    requires room { length w.old.holds ≤ 96 }
    ensures same { SameHolds w.old.holds w.new.holds }
{
    if change == Change::Half {
        return take_half(alloc, pool, w, cord);
    }
    let mut copy = match cord.copy(pool, w) {
        Ok(copy) => copy,
        Err(error) => return Err(error),
    };
    let left = cut_all(alloc, pool, w, &mut copy, change == Change::Front);
    copy.release(pool, w);
    left
}

/// The same of bytes in one piece, of which what is kept is copied each time.
pub fn change_text(alloc: Global, text: &[u8], change: Change) -> Result<u64, AllocError> {
    if change == Change::Half {
        let (_, back) = text.split_at(text.len() / 4);
        let (half, _) = back.split_at((text.len() / 2).min(back.len()));
        return Ok(Vec::from_slice(alloc, half)?.len() as u64);
    }
    let mut rest = Vec::from_slice(alloc, text)?;
    for _ in 0..text.len() / CUT + 1 {
        let size = rest.len();
        let kept = if change == Change::Front {
            let (_, back) = rest.as_slice().split_at(CUT.min(size));
            back
        } else {
            let (front, _) = rest.as_slice().split_at(size.saturating_sub(CUT));
            front
        };
        rest = Vec::from_slice(alloc, kept)?;
    }
    Ok(rest.len() as u64)
}
