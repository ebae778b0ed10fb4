//! Walks over the records that are linked.
ghost use Rattle.std.specs.Prelude.{◌≡◌, ◌<◌, ◌≤◌, ◌^◌, [], true, length, IfOk, IfErr};
ghost use Rattle.cordz_core.specs.Queue.{has};
ghost use Rattle.record_rule.specs.Log.{made_of, is_walking, walk_of};
ghost use Rattle.cord_value.specs.Workers.{Keeps};
ghost use Rattle.cordz_desk.specs.Tokens.{token_of};
ghost use Rattle.record_walks.specs.Reports.{HasReported};
ghost use Rattle.record_walks.specs.Walks.{IsWalk};
ghost use Rattle.record_walks.specs.Works.{HasOnlyRead};

use cord_port::Releaser;
use cord_sampled::Hand;
use cordz_desk::DeskNaming;
use cordz_stats::statistics;
use node_pool::Naming;
use plain_cord::Report;
use std::alloc::{AllocError, Global};
use std::sync::Wait;

// What is told of the record of a slot that the walk gave. Its tree is left again.
fn report<R: Wait, P: Naming, D: DeskNaming, B: Releaser>(
    rt: &R,
    hand: &mut Hand<'_, P, D, B>,
    slot: u16,
) -> Result<Report, AllocError>
    requires room { length hand.old.worker.holds ≤ 96 }
    requires walking { is_walking (token_of hand.old.pass).own ≡ true }
    requires given { has slot (walk_of (token_of hand.old.pass).own) ≡ true }
    requires slot { slot < 256 }
    ensures told { IfOk result (λ r. HasReported r (token_of hand.old.pass) (token_of hand.new.pass)) }
    ensures same { IfErr result (λ _. token_of hand.new.pass ≡ token_of hand.old.pass) }
    ensures worker { Keeps P.limit [] 0 0 hand.old.worker hand.new.worker }
    ensures counts { (hand.new.stride ≡ hand.old.stride) × (hand.new.made ≡ hand.old.made) }
{
    match hand
        .cordz
        .read_record(rt, &mut hand.pass, slot, hand.pool, &mut hand.worker)
    {
        Ok((note, edge)) => {
            let statistics = statistics(&edge);
            hand.pool.finish(&mut hand.worker, &edge);
            Ok(Report {
                stamp: note.stamp,
                update: note.update,
                statistics,
            })
        }
        Err(_) => Err(AllocError),
    }
}

/// Reads each record that is linked, the newest first, and goes on from each record to its next one, whatever happens meanwhile. A record
/// that a failed change left without a share counts as want of memory.
pub fn walk<R: Wait, P: Naming, D: DeskNaming, B: Releaser>(
    alloc: Global,
    rt: &R,
    hand: &mut Hand<'_, P, D, B>,
) -> Result<Vec<Report>, AllocError>
    requires room { length hand.old.worker.holds ≤ 96 }
    requires few { made_of (token_of hand.old.pass).own < 2 ^ 34 }
    requires walking { is_walking (token_of hand.old.pass).own ≡ true }
    ensures told { IfOk result (λ reports. IsWalk reports.items (token_of hand.old.pass) (token_of hand.new.pass)) }
    ensures token { HasOnlyRead (token_of hand.old.pass) (token_of hand.new.pass) }
    ensures worker { Keeps P.limit [] 0 0 hand.old.worker hand.new.worker }
    ensures acted { made_of (token_of hand.new.pass).own ≡ made_of (token_of hand.old.pass).own }
    ensures counts { (hand.new.stride ≡ hand.old.stride) × (hand.new.made ≡ hand.old.made) }
{
    let mut reports = Vec::new(alloc);
    let mut at = hand.cordz.first(rt, &mut hand.pass);
    for _ in rt.forever() {
        let Some(slot) = at else {
            return Ok(reports);
        };
        reports.push(report(rt, hand, slot)?)?;
        at = hand.cordz.next(rt, &mut hand.pass, slot);
    }
    unreachable!()
}
