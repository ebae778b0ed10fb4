//! A session walks over the records of another session's cords, of which one changes meanwhile and one is released.
ghost use Rattle.std.specs.Prelude.{◌≡◌, ◌+◌, ◌-◌, ◌<◌, ◌≤◌, ◌^◌, false, length};
ghost use Rattle.pool_rule.specs.Trades.{SameHolds};
ghost use Rattle.record_rule.specs.Log.{made_of, is_walking};
ghost use Rattle.cordz_desk.specs.Tokens.{token_of};
ghost use Rattle.node_pool.specs.Starts.{new_workers, slot_count};
ghost use Rattle.node_pool.specs.Opened.{opened_table, opened_numbers, opened_passes, opened_workers, opened_boxes};
ghost use Rattle.cordz_desk.specs.Opened.{opened_desk, opened_walkers};

use crate::snapshots::{begin, end};
use crate::walking::walk;
use cord_port::LogReleaser;
use cord_sampled::{Edit, Hand, SampledCord};
use cordz_desk::{CordzDesk, CordzPass, DeskNaming, OpenedDesk};
use node_pool::{Closed, Naming, Opened, Pool, Worker};
use plain_cord::Report;
use std::alloc::{AllocError, Global};
use std::marker::Brand;
use std::sync::Wait;

type Boxes = LogReleaser;

const LONG: &[u8] = b"more than fifteen bytes";

/// Of a report the stamp, the update, the bytes and the nodes.
type Row = (u64, u64, u64, u64);

type Rows = (Option<Row>, Option<Row>, Option<Row>);

/// What the walks before and after the changes told, and how many records were deleted with the snapshot.
type Told = (Rows, Rows, Option<u64>);

fn row(report: Option<&Report>) -> Option<Row> {
    let report = report?;
    let sums = report.statistics;
    Some((report.stamp, report.update, sums.size, sums.nodes))
}

fn rows(reports: &[Report]) -> Rows {
    (
        row(reports.get(0)),
        row(reports.get(1)),
        row(reports.get(2)),
    )
}

// A sampled cord.
fn cord<R: Wait, P: Naming, D: DeskNaming>(
    alloc: Global,
    rt: &R,
    owner: &mut Hand<'_, P, D, Boxes>,
) -> Option<SampledCord<P, D>>
    requires room { length owner.old.worker.holds ≤ 96 }
    requires few { made_of (token_of owner.old.pass).own + 2 ≤ 2 ^ 34 }
    requires count { owner.old.made < 2 ^ 64 - 1 }
    ensures holds { SameHolds owner.old.worker.holds owner.new.worker.holds }
    ensures acted { made_of (token_of owner.new.pass).own ≤ made_of (token_of owner.old.pass).own + 2 }
    ensures made { owner.new.made ≤ owner.old.made + 1 }
{
    match SampledCord::from_bytes(alloc, rt, owner, LONG) {
        Ok((cord, _)) => Some(cord),
        Err(_) => None,
    }
}

fn release<R: Wait, P: Naming, D: DeskNaming>(
    rt: &R,
    owner: &mut Hand<'_, P, D, Boxes>,
    cord: Option<SampledCord<P, D>>,
)
    requires room { length owner.old.worker.holds ≤ 96 }
    requires few { made_of (token_of owner.old.pass).own + 3 ≤ 2 ^ 34 }
    ensures holds { SameHolds owner.old.worker.holds owner.new.worker.holds }
    ensures acted { made_of (token_of owner.new.pass).own ≤ made_of (token_of owner.old.pass).own + 3 }
{
    if let Some(cord) = cord {
        cord.release(rt, owner);
    }
}

// Adds a byte to the cord, if there is one.
fn change<R: Wait, P: Naming, D: DeskNaming>(
    alloc: Global,
    rt: &R,
    owner: &mut Hand<'_, P, D, Boxes>,
    cord: &mut Option<SampledCord<P, D>>,
)
    requires room { length owner.old.worker.holds ≤ 96 }
    requires few { made_of (token_of owner.old.pass).own + 3 ≤ 2 ^ 34 }
    requires count { owner.old.made < 2 ^ 64 - 1 }
    ensures holds { SameHolds owner.old.worker.holds owner.new.worker.holds }
    ensures acted { made_of (token_of owner.new.pass).own ≤ made_of (token_of owner.old.pass).own + 3 }
{
    if let Some(cord) = cord {
        let _ = cord.change(alloc, rt, owner, Edit::AppendBytes(b"!"));
    }
}

// What a walk told, or nothing.
fn told(reports: Result<Vec<Report>, AllocError>) -> Rows {
    match reports {
        Ok(reports) => rows(&reports),
        Err(_) => (None, None, None),
    }
}

/// A worker and a pass.
type Pair<P, D> = (Worker<P>, CordzPass<P, D>);

fn seen<'a, R: Wait, P: Naming, D: DeskNaming>(
    alloc: Global,
    rt: &R,
    pool: &'a Pool<P, Boxes>,
    cordz: &'a CordzDesk<P, D>,
    owner: Pair<P, D>,
    walker: Pair<P, D>,
) -> (Told, Pair<P, D>, Pair<P, D>)
    requires owner_room { length owner.0.holds ≤ 80 }
    requires owner_few { made_of (token_of owner.1).own + 64 ≤ 2 ^ 34 }
    requires room { length walker.0.holds ≤ 80 }
    requires few { made_of (token_of walker.1).own + 300 ≤ 2 ^ 34 }
    requires number { (token_of walker.1).number < 16 }
    requires none { is_walking (token_of walker.1).own ≡ false }
{
    let (worker, pass) = owner;
    let mut owner = Hand {
        pool,
        cordz,
        worker,
        pass,
        stride: 1,
        made: 0,
    };
    let (worker, pass) = walker;
    let mut walker = Hand {
        pool,
        cordz,
        worker,
        pass,
        stride: 1,
        made: 0,
    };
    let first = cord(alloc, rt, &mut owner);
    let mut second = cord(alloc, rt, &mut owner);
    let third = cord(alloc, rt, &mut owner);
    begin(rt, &mut walker);
    let before = told(walk(alloc, rt, &mut walker));
    change(alloc, rt, &mut owner, &mut second);
    release(rt, &mut owner, first);
    let after = told(walk(alloc, rt, &mut walker));
    let ended = end(rt, &mut walker).ok();
    release(rt, &mut owner, second);
    release(rt, &mut owner, third);
    (
        (before, after, ended),
        (owner.worker, owner.pass),
        (walker.worker, walker.pass),
    )
}

/// What was told, how many shares the desk had left, and how many numbers were in use.
type Seen = (Told, usize, u32);

fn with_desk<R: Wait, P: Naming, D: DeskNaming>(
    alloc: Global,
    rt: &R,
    pool: Pool<P, Boxes>,
    mut workers: Vec<Worker<P>>,
    desk: OpenedDesk<P>,
) -> Option<Seen>
    requires desk { opened_desk desk ≡ D.desk }
    requires walkers { opened_walkers desk ≡ 1 }
    requires workers { workers.items ≡ new_workers P.size P.limit P.workers (slot_count P.workers P.table.slots) }
    requires two { P.workers ≡ 2 }
{
    let (desk, mut passes) = desk.named::<D>(alloc).ok()?;
    let (Some(worker), Some(pass)) = (workers.pop(), passes.pop()) else {
        desk.close(passes);
        return None;
    };
    let (Some(other_worker), Some(other_pass)) = (workers.pop(), passes.pop()) else {
        let _ = passes.push(pass);
        desk.close(passes);
        return None;
    };
    let (told, owner, walker) = seen(
        alloc,
        rt,
        &pool,
        &desk,
        (worker, pass),
        (other_worker, other_pass),
    );
    let _ = passes.push(owner.1);
    let _ = passes.push(walker.1);
    let left = desk.close(passes).len();
    let (Ok(()), Ok(())) = (workers.push(owner.0), workers.push(walker.0)) else {
        return None;
    };
    let Closed {
        in_use,
        releasers: _,
    } = pool.close(workers);
    Some((told, left, in_use))
}

fn with_pool<R: Wait, P: Naming>(alloc: Global, rt: &R, pool: Opened<Boxes>) -> Option<Seen>
    requires table { opened_table pool ≡ P.table }
    requires numbers { opened_numbers pool ≡ P.size }
    requires passes { opened_passes pool ≡ P.limit }
    requires boxes { opened_boxes pool ≡ P.boxes }
    requires workers { (opened_workers pool ≡ P.workers) × (P.workers ≡ 2) }
{
    let (pool, workers) = pool.named::<P>(alloc).ok()?;
    let desk = OpenedDesk::<P>::start(alloc, 1).ok()?;
    with_desk::<R, P, Brand>(alloc, rt, pool, workers, desk)
}

#[test]
fn a_walk_goes_on_while_a_record_changes_and_one_is_released(rt: HostRuntime) {
    let alloc = rt.alloc();
    let Ok(pool) = Opened::start(alloc, 16, 16, 2, Vec::new(alloc)) else {
        assert!(&rt; false, "memory");
        return;
    };
    let seen = with_pool::<HostRuntime, Brand>(alloc, &rt, pool);
    let before = (
        Some((3, 0, 23, 1)),
        Some((2, 0, 23, 1)),
        Some((1, 0, 23, 1)),
    );
    // The record shares the flat, so the byte that is added stands in one of its own, below a branch.
    let after = (Some((3, 0, 23, 1)), Some((2, 1, 24, 3)), None);
    assert_eq!(rt; seen, Some(((before, after, Some(1)), 0, 0)));
}
