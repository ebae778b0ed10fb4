//! Ranges of a tree of seven flats, beside its plain bytes.
ghost use Rattle.std.specs.Prelude.{◌≡◌, ◌+◌, ◌*◌, ◌<◌, ◌≤◌, [], ◌∷◌, length, IfSome};
ghost use Rattle.tree_shapes.specs.Shape.{IsTree};
ghost use Rattle.node_edges.specs.Trees.{shape_of, IsFilled, IsTreeAt};
ghost use Rattle.pool_rule.specs.Trades.{HasHolds, SameHolds, Trades};
ghost use Rattle.node_pool.specs.Opened.{opened_table, opened_numbers, opened_passes, opened_workers, opened_boxes};

use crate::{cut_back, cut_front, sub_tree};
use btree_node::new_branch;
use cord_port::LogReleaser;
use flat_nodes::new_flat;
use node_pool::{Closed, Edge, Naming, NodeError, Opened, Pool, Worker};
use std::alloc::Global;
use std::marker::Brand;

type Boxes = LogReleaser;

/// The tree's bytes, of which each flat has six.
fn plain() -> &'static [u8]
    ensures { length result.now ≡ 42 }
{
    b"abcdefghijklmnopqrstuvwxyzABCDEFGHIJKLMNOP"
}

/// A pool of so many numbers with one worker.
fn opened(alloc: Global, numbers: u32) -> Option<Opened<Boxes>>
    requires numbers { (0 < numbers) × (numbers ≤ 1024) }
    ensures numbers { IfSome result (λ o. opened_numbers o ≡ numbers) }
    ensures workers { IfSome result (λ o. opened_workers o ≡ 1) }
{
    let Ok(opened) = Opened::start(alloc, numbers, 1, 1, Vec::new(alloc)) else {
        return None;
    };
    Some(opened)
}

/// A flat of six bytes from a place on.
fn flat<P: Naming>(
    alloc: Global,
    pool: &Pool<P, Boxes>,
    w: &mut Worker<P>,
    place: usize,
) -> Option<Edge>
    requires within { place + 6 ≤ 42 }
    requires room { length w.old.holds ≤ 8 }
    ensures tree { IfSome result (IsTreeAt 0) }
    ensures long { IfSome result (λ e. e.0.length ≡ 6) }
    ensures traded { IfSome result (λ e. Trades w.old.holds [] (e ∷ []) w.new.holds) }
{
    match new_flat(alloc, pool, w, &plain()[place..place + 6]) {
        Ok(flat) => Some(flat),
        Err(_) => None,
    }
}

/// A leaf of so many flats, from a place of the bytes on.
fn leaf<P: Naming>(
    alloc: Global,
    pool: &Pool<P, Boxes>,
    w: &mut Worker<P>,
    from: usize,
    count: usize,
) -> Option<Edge>
    requires some { 0 < count }
    requires few { count ≤ 6 }
    requires within { from + 6 * count ≤ 42 }
    requires room { length w.old.holds ≤ 2 }
    ensures tree { IfSome result (IsTreeAt 1) }
    ensures long { IfSome result (λ e. e.0.length ≡ 6 * count) }
    ensures traded { IfSome result (λ e. Trades w.old.holds [] (e ∷ []) w.new.holds) }
{
    let Ok(mut flats) = Vec::with_capacity(alloc, 6) else {
        return None;
    };
    for i in 0..count {
        let flat = flat(alloc, pool, w, from + 6 * i)?;
        flats.push_reserved(flat);
    }
    let Ok(leaf) = new_branch(alloc, pool, w, 0, &flats) else {
        return None;
    };
    Some(leaf)
}

/// Seven flats in two leaves under a root.
fn seven_flats<P: Naming>(alloc: Global, pool: &Pool<P, Boxes>, w: &mut Worker<P>) -> Option<Edge>
    requires empty { w.old.holds ≡ [] }
    ensures tree { IfSome result (λ e. IsTree (shape_of e)) }
    ensures filled { IfSome result IsFilled }
    ensures long { IfSome result (λ e. e.0.length ≡ 42) }
    ensures held { IfSome result (λ e. SameHolds (e ∷ []) w.new.holds) }
{
    let first = leaf(alloc, pool, w, 0, 6)?;
    let second = leaf(alloc, pool, w, 36, 1)?;
    let Ok(root) = new_branch(alloc, pool, w, 1, &[first, second]) else {
        return None;
    };
    Some(root)
}

/// Whether a range of the tree has those of the tree's bytes.
fn range_is<P: Naming>(
    alloc: Global,
    pool: &Pool<P, Boxes>,
    w: &mut Worker<P>,
    tree: &Edge,
    start: u64,
    n: u64,
    bytes: &[u8],
) -> Option<bool>
    requires held { HasHolds w.old.holds (tree.now ∷ []) }
    requires tree { IsTree (shape_of tree.now) }
    requires filled { IsFilled tree.now }
    requires some { 0 < n }
    requires within { start + n ≤ tree.now.0.length }
    requires long { (tree.now.0.length ≡ length bytes.now) × (length bytes.now ≤ 42) }
    requires room { length w.old.holds ≤ 4 }
    ensures same { IfSome result (λ _. SameHolds w.old.holds w.new.holds) }
{
    let Ok(range) = sub_tree(alloc, pool, w, tree, start, n) else {
        return None;
    };
    let text = range.text(alloc);
    pool.finish(w, &range);
    let Ok(text) = text else {
        return None;
    };
    Some(text.as_slice() == &bytes[start as usize..(start + n) as usize])
}

/// The same of the range, and of what the range has but for its first and last byte.
fn ranges_are<P: Naming>(
    alloc: Global,
    pool: &Pool<P, Boxes>,
    w: &mut Worker<P>,
    tree: &Edge,
    start: u64,
    n: u64,
) -> Option<bool>
    requires held { HasHolds w.old.holds (tree.now ∷ []) }
    requires tree { IsTree (shape_of tree.now) }
    requires filled { IsFilled tree.now }
    requires some { 2 < n }
    requires within { start + n ≤ tree.now.0.length }
    requires long { tree.now.0.length ≡ 42 }
    requires room { length w.old.holds ≤ 2 }
    ensures same { IfSome result (λ _. SameHolds w.old.holds w.new.holds) }
{
    let outer = range_is(alloc, pool, w, tree, start, n, plain())?;
    let Ok(range) = sub_tree(alloc, pool, w, tree, start, n) else {
        return None;
    };
    let bytes = &plain()[start as usize..(start + n) as usize];
    let inner = range_is(alloc, pool, w, &range, 1, n - 2, bytes)?;
    pool.finish(w, &range);
    Some(outer && inner)
}

/// Whether this holds of each range from a start on.
fn ranges_from<P: Naming>(
    alloc: Global,
    pool: &Pool<P, Boxes>,
    w: &mut Worker<P>,
    tree: &Edge,
    start: u64,
) -> Option<bool>
    requires held { HasHolds w.old.holds (tree.now ∷ []) }
    requires tree { IsTree (shape_of tree.now) }
    requires filled { IsFilled tree.now }
    requires within { start ≤ 39 }
    requires long { tree.now.0.length ≡ 42 }
    requires room { length w.old.holds ≤ 2 }
    ensures same { IfSome result (λ _. SameHolds w.old.holds w.new.holds) }
{
    let mut same = true;
    for n in 3..43 - start {
        same = ranges_are(alloc, pool, w, tree, start, n)? && same;
    }
    Some(same)
}

/// Whether it holds of all ranges of three bytes or more.
fn all_ranges<P: Naming>(
    alloc: Global,
    pool: &Pool<P, Boxes>,
    w: &mut Worker<P>,
    tree: &Edge,
) -> Option<bool>
    requires held { HasHolds w.old.holds (tree.now ∷ []) }
    requires tree { IsTree (shape_of tree.now) }
    requires filled { IsFilled tree.now }
    requires long { tree.now.0.length ≡ 42 }
    requires room { length w.old.holds ≤ 2 }
    ensures same { IfSome result (λ _. SameHolds w.old.holds w.new.holds) }
{
    let mut same = true;
    for start in 0..40 {
        same = ranges_from(alloc, pool, w, tree, start)? && same;
    }
    Some(same)
}

/// What is left in turn where the tree is cut at both ends, down to a piece of one flat.
fn cut_down<P: Naming>(
    alloc: Global,
    pool: &Pool<P, Boxes>,
    w: &mut Worker<P>,
    root: &mut Edge,
) -> Option<Vec<u8>>
    requires held { HasHolds w.old.holds (root.old ∷ []) }
    requires tree { IsTree (shape_of root.old) }
    requires filled { IsFilled root.old }
    requires long { root.old.0.length ≡ 42 }
    requires room { length w.old.holds ≤ 2 }
    ensures tree { IfSome result (λ _. IsTree (shape_of root.new)) }
    ensures filled { IfSome result (λ _. IsFilled root.new) }
    ensures traded { IfSome result (λ _. Trades w.old.holds (root.old ∷ []) (root.new ∷ []) w.new.holds) }
{
    let Ok(()) = cut_front(alloc, pool, w, root, 13) else {
        return None;
    };
    let Ok(()) = cut_back(alloc, pool, w, root, 10) else {
        return None;
    };
    let Ok(()) = cut_front(alloc, pool, w, root, 6) else {
        return None;
    };
    let Ok(()) = cut_back(alloc, pool, w, root, 8) else {
        return None;
    };
    match root.text(alloc) {
        Ok(text) => Some(text),
        Err(_) => None,
    }
}

/// Whether all ranges have their bytes, what cuts leave, and how many numbers are in use when the tree was left.
fn ended<P: Naming>(alloc: Global, opened: Opened<Boxes>) -> Option<(bool, Vec<u8>, u32)>
    requires table { opened_table opened ≡ P.table }
    requires numbers { opened_numbers opened ≡ P.size }
    requires passes { opened_passes opened ≡ P.limit }
    requires workers { (opened_workers opened ≡ P.workers) × (P.workers ≡ 1) }
    requires boxes { opened_boxes opened ≡ P.boxes }
{
    let Ok((pool, mut workers)) = opened.named::<P>(alloc) else {
        return None;
    };
    let w = &mut workers[0];
    let mut root = seven_flats(alloc, &pool, w)?;
    let same = all_ranges(alloc, &pool, w, &root)?;
    let left = cut_down(alloc, &pool, w, &mut root)?;
    pool.finish(w, &root);
    let Closed { in_use, .. } = pool.close(workers);
    Some((same, left, in_use))
}

#[test]
fn ranges_have_their_bytes_and_leave_no_number_in_use(rt: HostRuntime) {
    let opened = opened(rt.alloc(), 100).expect(&rt, "memory");
    let (same, left, in_use) = ended::<Brand>(rt.alloc(), opened).expect(&rt, "memory");
    assert_eq!(rt; (same, in_use), (true, 0));
    assert_eq!(rt; left.as_slice(), b"tuvwx".as_slice());
}

/// How many numbers a refused range found in use, and whether the tree still has its bytes.
fn refused<P: Naming>(alloc: Global, opened: Opened<Boxes>) -> Option<(u32, bool)>
    requires table { opened_table opened ≡ P.table }
    requires numbers { opened_numbers opened ≡ P.size }
    requires passes { opened_passes opened ≡ P.limit }
    requires workers { (opened_workers opened ≡ P.workers) × (P.workers ≡ 1) }
    requires boxes { opened_boxes opened ≡ P.boxes }
{
    let Ok((pool, mut workers)) = opened.named::<P>(alloc) else {
        return None;
    };
    let w = &mut workers[0];
    let root = seven_flats(alloc, &pool, w)?;
    let Err(NodeError::NoNumber { seen }) = sub_tree(alloc, &pool, w, &root, 1, 40) else {
        return None;
    };
    let same = range_is(alloc, &pool, w, &root, 0, 42, plain())?;
    Some((seen, same))
}

#[test]
fn a_range_of_five_new_nodes_is_refused_where_four_numbers_are_free(rt: HostRuntime) {
    let opened = opened(rt.alloc(), 14).expect(&rt, "memory");
    let answer = refused::<Brand>(rt.alloc(), opened);
    assert_eq!(rt; answer, Some((14, true)));
}
