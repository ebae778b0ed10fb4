//! The box of an external is called once, when the last hold goes, also where a part has it.
ghost use Rattle.std.specs.Prelude.{◌≡◌, ◌+◌, ◌<◌, ◌≤◌, [], ◌∷◌, IfSome};
ghost use Rattle.node_pool.specs.Opened.{opened_table, opened_numbers, opened_passes, opened_workers, opened_boxes};

use crate::{new_external, part_of};
use cord_port::{LogReleaser, Releaser};
use node_pool::{Closed, Naming, Opened, Pool, Worker};
use std::alloc::Global;
use std::marker::Brand;

type Boxes = LogReleaser;

/// A pool of 8 numbers with one worker and one box.
fn with_box(alloc: Global) -> Option<Opened<Boxes>>
    ensures numbers { IfSome result (λ o. opened_numbers o ≡ 8) }
    ensures workers { IfSome result (λ o. opened_workers o ≡ 1) }
    ensures slots { IfSome result (λ o. (opened_table o).slots ≡ 1) }
{
    let Ok(log) = LogReleaser::new(alloc, 4) else {
        return None;
    };
    let mut releasers = Vec::new(alloc);
    let Ok(()) = releasers.push(log) else {
        return None;
    };
    let Ok(opened) = Opened::start(alloc, 8, 1, 1, releasers) else {
        return None;
    };
    Some(opened)
}

/// An external of 20 bytes is made, and a range of it is left. The text of the range.
fn made_and_gone<P: Naming>(
    alloc: Global,
    pool: &Pool<P, Boxes>,
    w: &mut Worker<P>,
    start: u64,
    n: u64,
) -> Option<Vec<u8>>
    requires empty { w.old.holds ≡ [] }
    requires slot { w.old.unused ≡ 0 ∷ [] }
    requires some { 0 < n }
    requires within { start + n ≤ 20 }
{
    let Ok(external) = new_external(alloc, pool, w, b"twenty bytes of text") else {
        return None;
    };
    let Ok(piece) = part_of(alloc, pool, w, &external, start, n) else {
        return None;
    };
    let Ok(text) = piece.text(alloc) else {
        return None;
    };
    pool.finish(w, &piece);
    Some(text)
}

/// What was read, how many numbers are in use, how often the box was called, and its latest length.
fn ended<P: Naming>(
    alloc: Global,
    opened: Opened<Boxes>,
    parted: bool,
) -> Option<(Vec<u8>, u32, u64, Option<u64>)>
    requires table { (opened_table opened ≡ P.table) × (P.table.slots ≡ 1) }
    requires numbers { opened_numbers opened ≡ P.size }
    requires passes { opened_passes opened ≡ P.limit }
    requires workers { (opened_workers opened ≡ P.workers) × (P.workers ≡ 1) }
    requires boxes { opened_boxes opened ≡ P.boxes }
{
    let Ok((pool, mut workers)) = opened.named::<P>(alloc) else {
        return None;
    };
    let text = match parted {
        true => made_and_gone(alloc, &pool, &mut workers[0], 7, 5)?,
        false => made_and_gone(alloc, &pool, &mut workers[0], 0, 20)?,
    };
    let Closed { in_use, releasers } = pool.close(workers);
    let Some(first) = releasers.first() else {
        return None;
    };
    Some((text, in_use, first.calls(), first.latest()))
}

#[test]
fn the_box_of_an_external_is_called_once_when_its_last_part_goes(rt: HostRuntime) {
    for (parted, wanted) in [
        (false, b"twenty bytes of text".as_slice()),
        (true, b"bytes"),
    ] {
        let opened = with_box(rt.alloc()).expect(&rt, "memory");
        let (text, in_use, calls, latest) = ended::<Brand>(rt.alloc(), opened, parted).expect(
            &rt, "memory",
        );
        assert_eq!(rt; text.as_slice(), wanted);
        assert_eq!(rt; (in_use, calls, latest), (0, 1, Some(20)));
    }
}
