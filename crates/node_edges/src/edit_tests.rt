//! Changes in place, by the texts, numbers and edges that they leave.
ghost use Rattle.std.specs.Prelude.{◌≡◌, ◌≤◌, [], ◌∷◌, length, IfOk};
ghost use Rattle.node_edges.specs.Body.{flat_node, branch_node};

use crate::change::Change;
use crate::edge::{Body, Edge};
use crate::memory::Memory;
use node_forest::Side;
use std::alloc::Global;

fn flat(alloc: Global, number: u32, bytes: &[u8]) -> Result<Edge, Memory>
    requires { length bytes.now ≤ 100 }
    ensures { IfOk result (λ e. e ≡ flat_node number bytes.now 31) }
{
    let bytes = Vec::from_slice(alloc, bytes)?;
    Edge::new(alloc, number, Body::Flat { bytes, room: 31 })
}

fn branch(alloc: Global, number: u32, height: u8, left: Edge, right: Edge) -> Result<Edge, Memory>
    requires left { left.0.length ≤ 400 }
    requires right { right.0.length ≤ 400 }
    ensures { IfOk result (λ e. e ≡ branch_node number height (left ∷ right ∷ [])) }
{
    let mut edges = Vec::new(alloc);
    edges.push(left)?;
    edges.push(right)?;
    Edge::new(alloc, number, Body::Branch { height, edges })
}

fn only(alloc: Global, edge: Edge) -> Result<Vec<Edge>, Memory>
    ensures { IfOk result (λ v. v.items ≡ edge ∷ []) }
{
    let mut edges = Vec::new(alloc);
    edges.push(edge)?;
    Ok(edges)
}

#[test]
fn a_flat_of_20_bytes_is_filled_to_51_under_its_number(rt: HostRuntime) {
    let alloc = rt.alloc();
    let mut edge = flat(alloc, 7, &[b'a'; 20]).expect(&rt, "memory");
    let bytes = Vec::from_slice(alloc, &[b'b'; 31]).expect(&rt, "memory");
    let changes = [(0, Change::Fill { bytes })];
    let removed = edge.edit(alloc, &[], &changes).expect(&rt, "memory");
    assert!(rt; removed.is_empty());
    assert_eq!(rt; edge.number(), 7);
    assert_eq!(rt; edge.length(), 51);
    let text = edge.text(alloc).expect(&rt, "memory");
    assert_eq!(rt;
        text.as_slice(),
        b"aaaaaaaaaaaaaaaaaaaabbbbbbbbbbbbbbbbbbbbbbbbbbbbbbb".as_slice()
    );
}

#[test]
fn a_branch_gets_edges_at_its_sides_and_loses_some(rt: HostRuntime) {
    let alloc = rt.alloc();
    let left = flat(alloc, 1, b"one").expect(&rt, "memory");
    let right = flat(alloc, 2, b"two").expect(&rt, "memory");
    let first = only(alloc, flat(alloc, 3, b"three").expect(&rt, "memory")).expect(&rt, "memory");
    let last = only(alloc, flat(alloc, 4, b"four").expect(&rt, "memory")).expect(&rt, "memory");
    let other = flat(alloc, 5, b"five").expect(&rt, "memory");
    let mut root = branch(alloc, 9, 0, left, right).expect(&rt, "memory");
    let changes = [
        (
            0,
            Change::Add {
                side: Side::Front,
                edges: first,
            },
        ),
        (
            0,
            Change::Add {
                side: Side::Back,
                edges: last,
            },
        ),
        (
            0,
            Change::Drop {
                side: Side::Back,
                count: 2,
            },
        ),
        (
            0,
            Change::Swap {
                side: Side::Front,
                edge: other,
            },
        ),
    ];
    let removed = root.edit(alloc, &[], &changes).expect(&rt, "memory");
    assert_eq!(rt; removed.len(), 3);
    for (edge, number) in removed.iter().zip([2, 4, 3]) {
        assert_eq!(rt; edge.number(), number);
    }
    assert_eq!(rt; root.number(), 9);
    assert_eq!(rt; root.length(), 7);
    let text = root.text(alloc).expect(&rt, "memory");
    assert_eq!(rt; text.as_slice(), b"fiveone".as_slice());
}

/// A Branch over two Branches, each over two flats.
fn four_flats(alloc: Global) -> Result<Edge, Memory>
    ensures { IfOk result (λ e. e ≡ branch_node 9 1 (branch_node 7 0 (flat_node 1 (97 ∷ []) 31 ∷ flat_node 2 (98 ∷ []) 31 ∷ [])
        ∷ branch_node 8 0 (flat_node 3 (99 ∷ []) 31 ∷ flat_node 4 (100 ∷ []) 31 ∷ []) ∷ [])) }
{
    let left = branch(alloc, 7, 0, flat(alloc, 1, b"a")?, flat(alloc, 2, b"b")?)?;
    let right = branch(alloc, 8, 0, flat(alloc, 3, b"c")?, flat(alloc, 4, b"d")?)?;
    branch(alloc, 9, 1, left, right)
}

/// Whether the flat two levels down, the first of the second Branch, has these bytes, and the lengths above it follow.
fn has_third(root: &Edge, bytes: &[u8]) -> bool {
    let Body::Branch { edges, .. } = root.body() else {
        return false;
    };
    if edges.len() != 2 || edges[1].number() != 8 {
        return false;
    }
    let Body::Branch { edges: flats, .. } = edges[1].body() else {
        return false;
    };
    if flats.len() != 2 || flats[0].number() != 3 {
        return false;
    }
    let Body::Flat { bytes: own, .. } = flats[0].body() else {
        return false;
    };
    let below = bytes.len() as u64;
    let lengths = [flats[0].length(), edges[1].length(), root.length()];
    own.as_slice() == bytes && lengths == [below, below.saturating_add(1), below.saturating_add(3)]
}

#[test]
fn lengths_follow_a_fill_two_levels_down_and_a_copy_stays(rt: HostRuntime) {
    let alloc = rt.alloc();
    let mut root = four_flats(alloc).expect(&rt, "memory");
    let copy = root.again().expect(&rt, "memory");
    let bytes = Vec::from_slice(alloc, b"xyz").expect(&rt, "memory");
    let changes = [(2, Change::Fill { bytes })];
    let removed = root.edit(alloc, &[1, 0], &changes).expect(&rt, "memory");
    assert!(rt; removed.is_empty());
    assert!(rt; has_third(&root, b"cxyz"));
    assert!(rt; has_third(&copy, b"c"));
}

/// An allocation that fails, whichever it is, leaves the edge as it was.
#[test]
fn want_of_memory_leaves_the_edge(rt: HostRuntime) {
    let alloc = rt.alloc();
    let Ok(mut root) = four_flats(alloc) else {
        return;
    };
    let Ok(copy) = root.again() else {
        return;
    };
    let Ok(bytes) = Vec::from_slice(alloc, b"xyz") else {
        return;
    };
    let changes = [(2, Change::Fill { bytes })];
    match root.edit(alloc, &[1, 0], &changes) {
        Ok(_) => assert!(rt; has_third(&root, b"cxyz")),
        Err(Memory) => assert!(rt; has_third(&root, b"c")),
    }
    assert!(rt; has_third(&copy, b"c"));
}
