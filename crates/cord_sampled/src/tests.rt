//! Sampled cords, their records and marks, and what is left of a pool and a desk after them.
ghost use Rattle.std.specs.Prelude.{◌≡◌, ◌+◌, ◌-◌, ◌<◌, ◌≤◌, ◌^◌, length};
ghost use Rattle.pool_rule.specs.Trades.{SameHolds};
ghost use Rattle.record_rule.specs.Log.{made_of};
ghost use Rattle.cordz_desk.specs.Tokens.{token_of};
ghost use Rattle.node_pool.specs.Starts.{new_workers, slot_count};
ghost use Rattle.node_pool.specs.Opened.{opened_table, opened_numbers, opened_passes, opened_workers, opened_boxes};
ghost use Rattle.cordz_desk.specs.Opened.{opened_desk, opened_walkers};

use crate::cord::SampledCord;
use crate::edits::Edit;
use crate::hand::Hand;
use crate::mark::Mark;
use cord_port::LogReleaser;
use cord_value::CordError;
use cordz_desk::{DeskNaming, OpenedDesk};
use node_pool::{Closed, Naming, Opened, Pool, Side, Worker};
use record_rule::Note;
use std::alloc::Global;
use std::marker::Brand;
use std::sync::Wait;

type Boxes = LogReleaser;

const LONG: &[u8] = b"more than fifteen bytes";

/// The marks of a cord that is made, copied, changed, cut to few bytes and released, and of its copy that is released.
type Marks = (Mark, Mark, Mark, Mark, Mark);

fn marks<R: Wait, P: Naming, D: DeskNaming>(
    alloc: Global,
    rt: &R,
    hand: &mut Hand<'_, P, D, Boxes>,
) -> Result<Marks, CordError>
    requires room { length hand.old.worker.holds ≤ 96 }
    requires few { made_of (token_of hand.old.pass).own + 32 ≤ 2 ^ 34 }
    requires count { hand.old.made + 8 < 2 ^ 64 - 1 }
    ensures holds { SameHolds hand.old.worker.holds hand.new.worker.holds }
    ensures acted { made_of (token_of hand.new.pass).own ≤ made_of (token_of hand.old.pass).own + 16 }
    ensures made { hand.new.made ≤ hand.old.made + 3 }
{
    let (mut cord, made) = match SampledCord::from_bytes(alloc, rt, hand, LONG) {
        Ok(made) => made,
        Err(error) => return Err(error),
    };
    let (copy, copied) = match cord.copy(rt, hand) {
        Ok(copied) => copied,
        Err(error) => {
            cord.release(rt, hand);
            return Err(error);
        }
    };
    let changed = cord.change(alloc, rt, hand, Edit::AppendBytes(b"!"));
    let cut = match changed {
        Ok(_) => cord.change(alloc, rt, hand, Edit::CutBack(20)),
        Err(error) => Err(error),
    };
    cord.release(rt, hand);
    let gone = copy.release(rt, hand);
    match (changed, cut) {
        (Ok(changed), Ok(cut)) => Ok((made, copied, changed, cut, gone)),
        _ => Err(CordError::Memory),
    }
}

/// The marks of a cord to which few bytes of another are added, of that other when it gets all those bytes, and when it is released.
type Joins = (Mark, Mark, Mark);

fn joins<R: Wait, P: Naming, D: DeskNaming>(
    alloc: Global,
    rt: &R,
    hand: &mut Hand<'_, P, D, Boxes>,
) -> Result<Joins, CordError>
    requires room { length hand.old.worker.holds ≤ 96 }
    requires few { made_of (token_of hand.old.pass).own + 16 ≤ 2 ^ 34 }
    requires count { hand.old.made + 8 < 2 ^ 64 - 1 }
    ensures holds { SameHolds hand.old.worker.holds hand.new.worker.holds }
{
    let (mut few, _) = match SampledCord::from_bytes(alloc, rt, hand, b"few") {
        Ok(made) => made,
        Err(error) => return Err(error),
    };
    let (mut cord, _) = match SampledCord::from_bytes(alloc, rt, hand, LONG) {
        Ok(made) => made,
        Err(error) => {
            few.release(rt, hand);
            return Err(error);
        }
    };
    let told = cord.join(alloc, rt, hand, &mut few, Side::Front);
    let rooted = match told {
        Ok(_) => few.join(alloc, rt, hand, &mut cord, Side::Back),
        Err(error) => Err(error),
    };
    cord.release(rt, hand);
    let gone = few.release(rt, hand);
    match (told, rooted) {
        (Ok(told), Ok(rooted)) => Ok((told, rooted, gone)),
        _ => Err(CordError::Memory),
    }
}

/// What was seen of a run: its marks, how many new trees it counted, how many shares the desk had left, and how many numbers were in use.
type Seen = (
    Result<Marks, CordError>,
    Result<Joins, CordError>,
    u64,
    usize,
    u32,
);

fn with_desk<R: Wait, P: Naming, D: DeskNaming>(
    alloc: Global,
    rt: &R,
    pool: Pool<P, Boxes>,
    mut workers: Vec<Worker<P>>,
    desk: OpenedDesk<P>,
    stride: u32,
) -> Option<Seen>
    requires desk { opened_desk desk ≡ D.desk }
    requires walkers { opened_walkers desk ≡ 0 }
    requires workers { workers.items ≡ new_workers P.size P.limit P.workers (slot_count P.workers P.table.slots) }
    requires one { P.workers ≡ 1 }
{
    let (desk, mut passes) = desk.named::<D>(alloc).ok()?;
    let (Some(worker), Some(pass)) = (workers.pop(), passes.pop()) else {
        desk.close(passes);
        return None;
    };
    let mut hand = Hand {
        pool: &pool,
        cordz: &desk,
        worker,
        pass,
        stride,
        made: 0,
    };
    let marks = marks(alloc, rt, &mut hand);
    let joins = joins(alloc, rt, &mut hand);
    let Hand {
        worker,
        pass,
        made,
        ..
    } = hand;
    let _ = passes.push(pass);
    let left = desk.close(passes).len();
    let Ok(()) = workers.push(worker) else {
        return None;
    };
    let Closed {
        in_use,
        releasers: _,
    } = pool.close(workers);
    Some((marks, joins, made, left, in_use))
}

fn with_pool<R: Wait, P: Naming>(
    alloc: Global,
    rt: &R,
    pool: Opened<Boxes>,
    stride: u32,
) -> Option<Seen>
    requires table { opened_table pool ≡ P.table }
    requires numbers { opened_numbers pool ≡ P.size }
    requires passes { opened_passes pool ≡ P.limit }
    requires boxes { opened_boxes pool ≡ P.boxes }
    requires workers { (opened_workers pool ≡ P.workers) × (P.workers ≡ 1) }
{
    let (pool, workers) = pool.named::<P>(alloc).ok()?;
    let desk = OpenedDesk::<P>::start(alloc, 0).ok()?;
    with_desk::<R, P, Brand>(alloc, rt, pool, workers, desk, stride)
}

#[test]
fn sampled_cords_tell_what_becomes_of_their_records(rt: HostRuntime) {
    let alloc = rt.alloc();
    let note = |stamp, update, length| {
        Mark::Noted(Note {
            stamp,
            update,
            length,
        })
    };
    for (stride, wanted, joined) in [
        (
            1u32,
            (
                note(1, 0, 23),
                note(2, 0, 23),
                note(1, 1, 24),
                Mark::Gone { stamp: 1 },
                Mark::Gone { stamp: 2 },
            ),
            (note(3, 1, 26), note(4, 0, 29), Mark::Gone { stamp: 4 }),
        ),
        (
            0,
            (
                Mark::Plain,
                Mark::Plain,
                Mark::Plain,
                Mark::Plain,
                Mark::Plain,
            ),
            (Mark::Plain, Mark::Plain, Mark::Plain),
        ),
        (
            2,
            (
                Mark::Plain,
                Mark::Plain,
                Mark::Plain,
                Mark::Plain,
                Mark::Plain,
            ),
            (note(1, 1, 26), Mark::Plain, Mark::Plain),
        ),
    ] {
        let Ok(pool) = Opened::start(alloc, 16, 8, 1, Vec::new(alloc)) else {
            assert!(&rt; false, "memory");
            return;
        };
        let seen = with_pool::<HostRuntime, Brand>(alloc, &rt, pool, stride);
        assert_eq!(rt;
            seen,
            Some((Ok(wanted), Ok(joined), 3, 0, 0)),
            "stride {stride}"
        );
    }
}
