//! Edges by their numbers, lengths and texts.
ghost use Rattle.std.specs.Prelude.{◌≡◌, ◌+◌, ◌≤◌, length, IfOk};

use crate::edge::{Body, Edge};
use crate::memory::Memory;
use std::alloc::Global;

fn flat(alloc: Global, number: u32, bytes: &[u8]) -> Result<Edge, Memory>
    requires { length bytes.now ≤ 100 }
    ensures { IfOk result (λ e. e.0.length ≡ length bytes.now) }
{
    let bytes = Vec::from_slice(alloc, bytes)?;
    Edge::new(alloc, number, Body::Flat { bytes, room: 7 })
}

fn part(alloc: Global, number: u32, child: &Edge, start: u64, count: u64) -> Result<Edge, Memory>
    requires { count ≤ 100 }
    ensures { IfOk result (λ e. e.0.length ≡ count) }
{
    let child = child.again()?;
    Edge::new(
        alloc,
        number,
        Body::Part {
            start,
            length: count,
            child,
        },
    )
}

fn sum(alloc: Global, number: u32, child: &Edge) -> Result<Edge, Memory>
    requires { child.now.0.length ≤ 100 }
    ensures { IfOk result (λ e. e.0.length ≡ child.now.0.length) }
{
    let child = Some(child.again()?);
    Edge::new(alloc, number, Body::Sum { value: 9, child })
}

fn branch(alloc: Global, number: u32, height: u8, left: &Edge, right: &Edge) -> Result<Edge, Memory>
    requires { left.now.0.length + right.now.0.length ≤ 100 }
    ensures { IfOk result (λ e. e.0.length ≡ left.now.0.length + right.now.0.length) }
{
    let mut edges = Vec::new(alloc);
    edges.push(left.again()?)?;
    edges.push(right.again()?)?;
    Edge::new(alloc, number, Body::Branch { height, edges })
}

/// A Branch over one edge.
fn above(alloc: Global, number: u32, height: u8, edge: Edge) -> Result<Edge, Memory>
    requires { edge.0.length ≤ 100 }
    ensures { IfOk result (λ e. e.0.length ≡ edge.0.length) }
{
    let mut edges = Vec::new(alloc);
    edges.push(edge)?;
    Edge::new(alloc, number, Body::Branch { height, edges })
}

#[test]
fn each_kind_has_its_text(rt: HostRuntime) {
    let alloc = rt.alloc();
    let flat = flat(alloc, 10, b"hello world").expect(&rt, "memory");
    let bytes = Vec::from_slice(alloc, b"from outside").expect(&rt, "memory");
    let external = Edge::new(alloc, 11, Body::External { bytes, slot: 3 }).expect(&rt, "memory");
    let of_flat = part(alloc, 12, &flat, 6, 5).expect(&rt, "memory");
    let of_external = part(alloc, 13, &external, 0, 5).expect(&rt, "memory");
    let both = branch(alloc, 14, 0, &of_external, &of_flat).expect(&rt, "memory");
    let twice = branch(alloc, 15, 1, &both, &both).expect(&rt, "memory");
    let summed = sum(alloc, 16, &twice).expect(&rt, "memory");
    let child = None;
    let nothing = Edge::new(alloc, 17, Body::Sum { value: 9, child }).expect(&rt, "memory");
    for (edge, number, wanted) in [
        (&flat, 10, b"hello world".as_slice()),
        (&external, 11, b"from outside".as_slice()),
        (&of_flat, 12, b"world".as_slice()),
        (&of_external, 13, b"from ".as_slice()),
        (&both, 14, b"from world".as_slice()),
        (&twice, 15, b"from worldfrom world".as_slice()),
        (&summed, 16, b"from worldfrom world".as_slice()),
        (&nothing, 17, b"".as_slice()),
    ] {
        let text = edge.text(alloc).expect(&rt, "memory");
        assert_eq!(rt; text.as_slice(), wanted, "at {number}");
        assert_eq!(rt; edge.number(), number);
        assert_eq!(rt; edge.length(), wanted.len() as u64, "at {number}");
    }
}

#[test]
fn an_edge_again_is_equal_and_outlives_the_first(rt: HostRuntime) {
    let alloc = rt.alloc();
    let first = flat(alloc, 4, b"kept").expect(&rt, "memory");
    let mut second = first.again().expect(&rt, "memory");
    assert_eq!(rt; second.number(), 4);
    assert_eq!(rt; second.length(), 4);
    drop(first);
    second.renumber(5);
    assert_eq!(rt; second.number(), 5);
    match second.body() {
        Body::Flat { bytes, room } => {
            assert_eq!(rt; bytes.as_slice(), b"kept".as_slice());
            assert_eq!(rt; *room, 7);
        }
        _ => assert!(rt; false, "another kind"),
    }
}

/// 12 Branches, one over another, the lowest over two parts of a flat.
fn highest(alloc: Global) -> Result<Edge, Memory> {
    let flat = flat(alloc, 0, b"deep down")?;
    let left = part(alloc, 1, &flat, 0, 4)?;
    let right = part(alloc, 2, &flat, 4, 5)?;
    let mut tree = branch(alloc, 3, 0, &left, &right)?;
    for height in 1..12u8 {
        tree = above(alloc, 3 + u32::from(height), height, tree)?;
    }
    Ok(tree)
}

#[test]
fn the_highest_tree_is_dropped_node_by_node(rt: HostRuntime) {
    let alloc = rt.alloc();
    let tree = highest(alloc).expect(&rt, "memory");
    assert_eq!(rt; tree.number(), 14);
    let copy = tree.again().expect(&rt, "memory");
    drop(tree);
    let text = copy.text(alloc).expect(&rt, "memory");
    assert_eq!(rt; text.as_slice(), b"deep down".as_slice());
    drop(copy);
}

fn crosses<T: Send + Sync>(_value: &T) {}

#[test]
fn edges_cross_threads(rt: HostRuntime) {
    let edge = flat(rt.alloc(), 0, b"shared").expect(&rt, "memory");
    crosses(&edge);
    assert_eq!(rt; edge.length(), 6);
}
