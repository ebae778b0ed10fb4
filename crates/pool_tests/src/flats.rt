//! Flats of each size that tells something, and what is no flat.
ghost use Rattle.std.specs.Prelude.{◌≡◌, ◌<◌, ◌≤◌, length};
ghost use Rattle.node_pool.specs.Opened.{opened_table, opened_numbers, opened_passes, opened_workers, opened_boxes};

use cord_port::LogReleaser;
use flat_nodes::{new_flat, room_of};
use node_pool::{Body, Closed, Edge, Left, Naming, NodeError, Opened, Pool, Worker};
use std::alloc::Global;
use std::marker::Brand;

type Boxes = LogReleaser;

/// What is seen of a flat of so many bytes: its length, its room, and whether its leaver was the last.
fn made_and_left<P: Naming>(
    alloc: Global,
    pool: &Pool<P, Boxes>,
    w: &mut Worker<P>,
    size: usize,
) -> Option<(u64, u32, bool)>
    requires size { (0 < size) × (size ≤ 4083) }
    requires empty { length w.old.holds ≡ 0 }
{
    let Ok(bytes) = vec![in alloc; 120u8; size] else {
        return None;
    };
    let Ok(edge) = new_flat(alloc, pool, w, bytes.as_slice()) else {
        return None;
    };
    let seen = (edge.length(), room_of(&edge));
    let last = pool.leave(w, &edge) == Left::Last;
    Some((seen.0, seen.1, last))
}

fn seen_of<P: Naming>(
    alloc: Global,
    opened: Opened<Boxes>,
    size: usize,
) -> Option<((u64, u32, bool), u32)>
    requires table { opened_table opened ≡ P.table }
    requires numbers { opened_numbers opened ≡ P.size }
    requires passes { opened_passes opened ≡ P.limit }
    requires boxes { opened_boxes opened ≡ P.boxes }
    requires workers { (opened_workers opened ≡ P.workers) × (P.workers ≡ 1) }
{
    if size == 0 || size > 4083 {
        return None;
    }
    let Ok((pool, mut workers)) = opened.named::<P>(alloc) else {
        return None;
    };
    let seen = made_and_left(alloc, &pool, &mut workers[0], size)?;
    let Closed {
        in_use,
        releasers: _,
    } = pool.close(workers);
    Some((seen, in_use))
}

#[test]
fn a_flat_has_the_room_that_its_capacity_leaves(rt: HostRuntime) {
    let alloc = rt.alloc();
    for (size, room) in [
        (1usize, 18u32),
        (19, 0),
        (20, 31),
        (51, 0),
        (52, 63),
        (116, 127),
        (499, 0),
        (500, 511),
        (2036, 2047),
        (4083, 0),
    ] {
        let Ok(opened) = Opened::start(alloc, 2, 1, 1, Vec::new(alloc)) else {
            assert!(&rt; false, "memory");
            return;
        };
        let seen = seen_of::<Brand>(alloc, opened, size);
        assert_eq!(rt; seen, Some(((size as u64, room, true), 0)), "at {size}");
    }
}

/// The refusal of a third flat.
fn third_flat<P: Naming>(
    alloc: Global,
    pool: &Pool<P, Boxes>,
    w: &mut Worker<P>,
) -> Option<NodeError>
    requires empty { length w.old.holds ≡ 0 }
{
    for i in 0..3u32 {
        match new_flat(alloc, pool, w, b"some bytes") {
            Ok(_) => {}
            Err(error) => return if i == 2 { Some(error) } else { None },
        }
    }
    None
}

fn refusal<P: Naming>(alloc: Global, opened: Opened<Boxes>) -> Option<NodeError>
    requires table { opened_table opened ≡ P.table }
    requires numbers { opened_numbers opened ≡ P.size }
    requires passes { opened_passes opened ≡ P.limit }
    requires boxes { opened_boxes opened ≡ P.boxes }
    requires workers { (opened_workers opened ≡ P.workers) × (P.workers ≡ 1) }
{
    let Ok((pool, mut workers)) = opened.named::<P>(alloc) else {
        return None;
    };
    third_flat(alloc, &pool, &mut workers[0])
}

#[test]
fn a_third_flat_finds_both_numbers_in_use(rt: HostRuntime) {
    let alloc = rt.alloc();
    let Ok(opened) = Opened::start(alloc, 2, 1, 1, Vec::new(alloc)) else {
        assert!(&rt; false, "memory");
        return;
    };
    let refused = refusal::<Brand>(alloc, opened);
    assert_eq!(rt; refused, Some(NodeError::NoNumber { seen: 2 }));
}

#[test]
fn no_room_in_what_is_no_flat(rt: HostRuntime) {
    let alloc = rt.alloc();
    let bytes = Vec::from_slice(alloc, b"from outside").expect(&rt, "memory");
    let external = Edge::new(alloc, 0, Body::External { bytes, slot: 3 }).expect(&rt, "memory");
    assert_eq!(rt; room_of(&external), 0);
    let bytes = Vec::from_slice(alloc, b"own").expect(&rt, "memory");
    let flat = Edge::new(alloc, 1, Body::Flat { bytes, room: 16 }).expect(&rt, "memory");
    assert_eq!(rt; room_of(&flat), 16);
}
