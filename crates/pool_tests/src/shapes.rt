//! Which shapes ranges of cords have.
ghost use Rattle.std.specs.Prelude.{◌≡◌, ◌≤◌, length};
ghost use Rattle.node_pool.specs.Opened.{opened_table, opened_numbers, opened_passes, opened_workers, opened_boxes};

use crate::slots::boxes;
use crate::steps::{Boxes, From, Step, stepped};
use cord_value::{Cord, CordError};
use node_pool::{Body, Closed, Edge, Naming, Opened};
use std::alloc::Global;
use std::fmt::Write;
use std::marker::Brand;

/// Writes a flat as `f`, an external as `e`, each with its length; of a part of one, its start and a `+` stand in front of its length.
fn write_data(edge: &Edge, out: &mut String) -> Result<(), CordError> {
    let size = edge.length();
    let written = match edge.body() {
        Body::Flat { .. } => write!(out, "f{size}"),
        Body::External { .. } => write!(out, "e{size}"),
        Body::Part { start, child, .. } => match child.body() {
            Body::External { .. } => write!(out, "e{start}+{size}"),
            _ => write!(out, "f{start}+{size}"),
        },
        _ => write!(out, "?"),
    };
    match written {
        Ok(()) => Ok(()),
        Err(_) => Err(CordError::Memory),
    }
}

/// Writes a Branch as its edges in brackets, so many levels down.
fn write_shape(edge: &Edge, levels: u32, out: &mut String) -> Result<(), CordError> {
    let Body::Branch { edges, .. } = edge.body() else {
        return write_data(edge, out);
    };
    if levels == 0 {
        return write_data(edge, out);
    }
    let mut first = true;
    for edge in edges {
        let written = if first {
            write!(out, "[")
        } else {
            write!(out, " ")
        };
        if written.is_err() {
            return Err(CordError::Memory);
        }
        write_shape(edge, levels - 1, out)?;
        first = false;
    }
    match write!(out, "]") {
        Ok(()) => Ok(()),
        Err(_) => Err(CordError::Memory),
    }
}

/// The shape of a cord's tree that has a Branch at its root.
fn shape_of<P: Naming>(alloc: Global, cord: &Cord<P>) -> Result<String, CordError> {
    let mut shape = String::new(alloc);
    let reading = cord.chunks();
    if let Some((root, _)) = reading.path().first() {
        write_shape(root, 12, &mut shape)?;
    }
    Ok(shape)
}

/// The shape of a cord of 28,581 bytes after three steps, and how many numbers are in use when it was released.
fn shaped<P: Naming>(
    alloc: Global,
    opened: Opened<Boxes>,
    from: From,
    steps: [Step; 3],
) -> Result<(String, u32), CordError>
    requires table { opened_table opened ≡ P.table }
    requires numbers { opened_numbers opened ≡ P.size }
    requires passes { opened_passes opened ≡ P.limit }
    requires boxes { opened_boxes opened ≡ P.boxes }
    requires workers { (opened_workers opened ≡ P.workers) × (P.workers ≡ 1) }
{
    let Ok(text) = vec![in alloc; b'a'; 28_581] else {
        return Err(CordError::Memory);
    };
    let Ok((pool, mut workers)) = opened.named::<P>(alloc) else {
        return Err(CordError::Memory);
    };
    let cord = stepped(alloc, &pool, &mut workers[0], text.as_slice(), from, steps)?;
    let shape = shape_of(alloc, &cord)?;
    cord.release(&pool, &mut workers[0]);
    let Closed {
        in_use,
        releasers: _,
    } = pool.close(workers);
    Ok((shape, in_use))
}

/// What is one edge is seen beside a flat of 600 bytes.
#[test]
fn ranges_share_whole_edges_and_cut_the_outer_ones(rt: HostRuntime) {
    let alloc = rt.alloc();
    let (nothing, seen) = (Step::Copy, Step::Join(600));
    for (from, steps, shape) in [
        (
            From::Flats,
            [nothing, nothing, nothing],
            "[[f4083 f4083 f4083 f4083 f4083 f4083] [f4083]]",
        ),
        (
            From::Flats,
            [Step::Range(1, 28_580), nothing, nothing],
            "[[f1+4082 f4083 f4083 f4083 f4083 f4083] [f4083]]",
        ),
        (
            From::Flats,
            [Step::Range(4082, 24_499), nothing, nothing],
            "[[f4082+1 f4083 f4083 f4083 f4083 f4083] [f4083]]",
        ),
        (
            From::Flats,
            [Step::Range(4083, 24_498), nothing, nothing],
            "[[f4083 f4083 f4083 f4083 f4083] [f4083]]",
        ),
        (
            From::Flats,
            [Step::CutFront(4084), nothing, nothing],
            "[[f1+4082 f4083 f4083 f4083 f4083] [f4083]]",
        ),
        (
            From::Flats,
            [Step::Range(0, 24_498), nothing, nothing],
            "[f4083 f4083 f4083 f4083 f4083 f4083]",
        ),
        (
            From::Flats,
            [Step::CutBack(4083), nothing, nothing],
            "[f4083 f4083 f4083 f4083 f4083 f4083]",
        ),
        (
            From::Flats,
            [Step::Range(0, 24_497), nothing, nothing],
            "[f4083 f4083 f4083 f4083 f4083 f0+4082]",
        ),
        (
            From::Flats,
            [Step::Range(0, 24_499), nothing, nothing],
            "[[f4083 f4083 f4083 f4083 f4083 f4083] [f0+1]]",
        ),
        (
            From::Flats,
            [Step::Range(24_497, 4084), nothing, nothing],
            "[[f4082+1] [f4083]]",
        ),
        (
            From::Flats,
            [Step::Range(4000, 166), nothing, nothing],
            "[f4000+83 f0+83]",
        ),
        (
            From::Flats,
            [Step::Range(20_415, 8166), nothing, nothing],
            "[[f4083] [f4083]]",
        ),
        (
            From::Flats,
            [Step::Range(8166, 8166), nothing, nothing],
            "[f4083 f4083]",
        ),
        (
            From::Flats,
            [Step::Range(24_498, 4083), seen, nothing],
            "[f4083 f600]",
        ),
        (
            From::Flats,
            [Step::Range(100, 3000), Step::Range(50, 2000), seen],
            "[f150+2000 f600]",
        ),
        (
            From::Flats,
            [
                Step::SetSum(7),
                Step::Range(1, 28_579),
                Step::Range(1, 28_577),
            ],
            "[[f2+4081 f4083 f4083 f4083 f4083 f4083] [f0+4081]]",
        ),
        (
            From::External,
            [Step::SetSum(7), seen, nothing],
            "[e28581 f600]",
        ),
        (
            From::External,
            [Step::Range(100, 3000), Step::Range(50, 2000), seen],
            "[e150+2000 f600]",
        ),
        (
            From::External,
            [seen, Step::Range(1, 29_179), Step::Range(1, 29_177)],
            "[e2+28579 f0+598]",
        ),
    ] {
        let boxes = boxes(alloc, 1).expect(&rt, "memory");
        let Ok(opened) = Opened::start(alloc, 32, 2, 1, boxes) else {
            assert!(&rt; false, "memory");
            return;
        };
        let answer = shaped::<Brand>(alloc, opened, from, steps);
        let Ok((seen, in_use)) = answer else {
            assert!(&rt; false, "memory");
            return;
        };
        assert_eq!(rt;
            (seen.as_str(), in_use),
            (shape, 0),
            "{steps:?} of {from:?}"
        );
    }
}
