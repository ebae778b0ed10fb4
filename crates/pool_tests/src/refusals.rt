//! Cords that find no number free.
ghost use Rattle.std.specs.Prelude.{◌≡◌, ◌≤◌, length};
ghost use Rattle.pool_rule.specs.Trades.{SameHolds};
ghost use Rattle.node_pool.specs.Opened.{opened_table, opened_numbers, opened_passes, opened_workers, opened_boxes};

use cord_port::LogReleaser;
use cord_value::{Cord, CordError};
use node_pool::{Closed, Naming, Opened, Pool, Worker};
use std::alloc::Global;
use std::marker::Brand;

type Boxes = LogReleaser;

const LONG: &[u8] = b"more than fifteen bytes";

/// The refusal of one cord more, if it is refused.
fn refusal<P: Naming>(alloc: Global, pool: &Pool<P, Boxes>, w: &mut Worker<P>) -> Option<CordError>
    requires room { length w.old.holds ≤ 96 }
    ensures same { SameHolds w.old.holds w.new.holds }
{
    match Cord::from_bytes(alloc, pool, w, LONG) {
        Ok(cord) => {
            cord.release(pool, w);
            None
        }
        Err(error) => Some(error),
    }
}

/// The refusals of a third cord, asked for three times, and one time more when the first has gone.
fn third_cord<P: Naming>(
    alloc: Global,
    pool: &Pool<P, Boxes>,
    w: &mut Worker<P>,
) -> Result<[Option<CordError>; 4], CordError>
    requires room { length w.old.holds ≤ 96 }
    ensures same { SameHolds w.old.holds w.new.holds }
{
    let first = match Cord::from_bytes(alloc, pool, w, LONG) {
        Ok(cord) => cord,
        Err(error) => return Err(error),
    };
    let second = match Cord::from_bytes(alloc, pool, w, LONG) {
        Ok(cord) => cord,
        Err(error) => {
            first.release(pool, w);
            return Err(error);
        }
    };
    let once = refusal(alloc, pool, w);
    let twice = refusal(alloc, pool, w);
    let thrice = refusal(alloc, pool, w);
    first.release(pool, w);
    let later = refusal(alloc, pool, w);
    second.release(pool, w);
    Ok([once, twice, thrice, later])
}

fn all_refused<P: Naming>(
    alloc: Global,
    opened: Opened<Boxes>,
) -> Option<(Result<[Option<CordError>; 4], CordError>, u32)>
    requires table { opened_table opened ≡ P.table }
    requires numbers { opened_numbers opened ≡ P.size }
    requires passes { opened_passes opened ≡ P.limit }
    requires boxes { opened_boxes opened ≡ P.boxes }
    requires workers { (opened_workers opened ≡ P.workers) × (P.workers ≡ 1) }
{
    let Ok((pool, mut workers)) = opened.named::<P>(alloc) else {
        return None;
    };
    let refusals = third_cord(alloc, &pool, &mut workers[0]);
    let Closed {
        in_use,
        releasers: _,
    } = pool.close(workers);
    Some((refusals, in_use))
}

/// A third pass is just possible. So it is found free each time, and no refusal keeps one.
#[test]
fn a_third_cord_finds_both_numbers_in_use_until_one_is_released(rt: HostRuntime) {
    let alloc = rt.alloc();
    let Ok(opened) = Opened::start(alloc, 2, 3, 1, Vec::new(alloc)) else {
        assert!(&rt; false, "memory");
        return;
    };
    let seen = all_refused::<Brand>(alloc, opened);
    let full = Some(CordError::NoNumber { seen: 2 });
    assert_eq!(rt; seen, Some((Ok([full, full, full, None]), 0)));
}
