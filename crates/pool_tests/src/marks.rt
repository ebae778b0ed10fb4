//! Changes in place at a Branch of flats, and below it.
ghost use Rattle.std.specs.Prelude.{◌≡◌, ◌+◌, ◌<◌, ◌≤◌, [], ◌∷◌, length, All, IfSome, IsTrue};
ghost use Rattle.node_forest.specs.Forest.{children};
ghost use Rattle.node_forest.specs.Paths.{Leads, NeverDeeper};
ghost use Rattle.node_forest.specs.Changes.{site};
ghost use Rattle.node_edges.specs.Body.{flat_node, branch_node};
ghost use Rattle.node_edges.specs.Changes.{FitEach};
ghost use Rattle.pool_rule.specs.EdgeMarks.{all_new, changed_root};
ghost use Rattle.pool_rule.specs.Marks.{IsLonePath};
ghost use Rattle.pool_rule.specs.Trades.{HasHolds, Trades};
ghost use Rattle.node_pool.specs.Opened.{opened_table, opened_numbers, opened_passes, opened_workers, opened_boxes};

use cord_port::LogReleaser;
use node_pool::{
    Body, Change, Closed, Edge, Left, Naming, Opened, Pool, Side, Worker,
    paths_that_looks_find_are_lone,
};
use pool_rule::held_edges_may_come;
use std::alloc::Global;
use std::marker::Brand;

type Boxes = LogReleaser;

fn opened(alloc: Global) -> Option<Opened<Boxes>>
    ensures numbers { IfSome result (λ o. opened_numbers o ≡ 5) }
    ensures workers { IfSome result (λ o. opened_workers o ≡ 1) }
{
    let Ok(opened) = Opened::start(alloc, 5, 1, 1, Vec::new(alloc)) else {
        return None;
    };
    Some(opened)
}

fn flat<P: Naming>(
    alloc: Global,
    pool: &Pool<P, Boxes>,
    w: &mut Worker<P>,
    bytes: &[u8],
) -> Option<Edge>
    requires short { length bytes.now ≤ 100 }
    requires room { length w.old.holds < 256 }
    ensures edge { IfSome result (λ e. e ≡ flat_node e.0.number bytes.now 15) }
    ensures traded { IfSome result (λ e. Trades w.old.holds [] (e ∷ []) w.new.holds) }
{
    let Ok(bytes) = Vec::from_slice(alloc, bytes) else {
        return None;
    };
    let Ok(edge) = pool.take(alloc, w, Body::Flat { bytes, room: 15 }) else {
        return None;
    };
    Some(edge)
}

fn branch<P: Naming>(
    alloc: Global,
    pool: &Pool<P, Boxes>,
    w: &mut Worker<P>,
    left: Edge,
    right: Edge,
) -> Option<Edge>
    requires short { (left.0.length ≤ 100) × (right.0.length ≤ 100) }
    requires held { HasHolds w.old.holds (left ∷ right ∷ []) }
    requires room { length w.old.holds < 256 }
    ensures edge { IfSome result (λ e. e ≡ branch_node e.0.number 0 (left ∷ right ∷ [])) }
    ensures traded { IfSome result (λ e. Trades w.old.holds (left ∷ right ∷ []) (e ∷ []) w.new.holds) }
{
    let mut edges = Vec::new(alloc);
    let Ok(()) = edges.push(left) else {
        return None;
    };
    let Ok(()) = edges.push(right) else {
        return None;
    };
    let Ok(edge) = pool.take(alloc, w, Body::Branch { height: 0, edges }) else {
        return None;
    };
    Some(edge)
}

/// Whether looks find the root lone, and then its edge at a place.
fn lone_down<P: Naming>(pool: &Pool<P, Boxes>, w: &mut Worker<P>, root: &Edge, place: u8) -> bool
    requires held { HasHolds w.old.holds (root.now ∷ []) }
    requires place { place < length (children root.now) }
    ensures lone { IsTrue result → IsLonePath root.now (place ∷ []) w.new }
    ensures holds { w.new.holds ≡ w.old.holds }
{
    if !pool.look(w, root, &[]) {
        return false;
    }
    paths_that_looks_find_are_lone();
    pool.look(w, root, &[place])
}

/// Whether a Branch has edges of these numbers and lengths.
fn shows(root: &Edge, wanted: &[(u32, u64)]) -> bool {
    let Body::Branch { edges, .. } = root.body() else {
        return false;
    };
    if edges.len() != wanted.len() {
        return false;
    }
    for (edge, pair) in edges.iter().zip(wanted) {
        if edge.number() != pair.0 || edge.length() != pair.1 {
            return false;
        }
    }
    true
}

fn one(alloc: Global, edge: Edge) -> Option<Vec<Edge>>
    ensures { IfSome result (λ v. v.items ≡ edge ∷ []) }
{
    let mut edges = Vec::new(alloc);
    let Ok(()) = edges.push(edge) else {
        return None;
    };
    Some(edges)
}

/// Does changes at a lone edge of a lone root, or at the root, of which none takes an edge off.
fn changed_below<P: Naming>(
    alloc: Global,
    pool: &Pool<P, Boxes>,
    w: &mut Worker<P>,
    root: &mut Edge,
    place: u8,
    changes: &[(u8, Change)],
) -> Option<()>
    requires held { HasHolds w.old.holds (root.old ∷ all_new changes.now) }
    requires leads { Leads root.old (place ∷ []) }
    requires few { length changes.now ≤ 26 }
    requires order { NeverDeeper 1 changes.now }
    requires fit { FitEach changes.now (site root.old (place ∷ []) []) }
    requires room { length w.old.holds ≤ 10 }
    requires none { (changed_root root.old (place ∷ []) changes.now).out ≡ [] }
    ensures changed { IfSome result (λ _. root.new ≡ (changed_root root.old (place ∷ []) changes.now).tree) }
    ensures traded { IfSome result (λ _. Trades w.old.holds (root.old ∷ all_new changes.now) (root.new ∷ []) w.new.holds) }
    ensures held { IfSome result (λ _. HasHolds w.new.holds (root.new ∷ [])) }
{
    if !lone_down(pool, w, root, place) {
        return None;
    }
    held_edges_may_come();
    let Ok(_gone) = pool.mark(alloc, w, root, &[place], changes) else {
        return None;
    };
    Some(())
}

/// A Branch over flats of 4 and 5 bytes. The first is filled as an edge comes in front of it, and the second shortened as one comes
/// behind it. Whether the edges are right before, between and after.
fn grown<P: Naming>(alloc: Global, pool: &Pool<P, Boxes>, w: &mut Worker<P>) -> Option<[bool; 3]>
    requires empty { w.old.holds ≡ [] }
    ensures empty { IfSome result (λ _. length w.new.holds ≡ 0) }
{
    let left = flat(alloc, pool, w, b"left")?;
    let right = flat(alloc, pool, w, b"right")?;
    let mut root = branch(alloc, pool, w, left, right)?;
    let made = shows(&root, &[(0, 4), (1, 5)]);
    let first = flat(alloc, pool, w, b"first")?;
    let Ok(bytes) = Vec::from_slice(alloc, b" side") else {
        return None;
    };
    let edges = one(alloc, first)?;
    let side = Side::Front;
    let changes = [
        (1, Change::Fill { bytes }),
        (0, Change::Add { side, edges }),
    ];
    changed_below(alloc, pool, w, &mut root, 0, &changes)?;
    let filled = shows(&root, &[(3, 5), (0, 9), (1, 5)]);
    let last = flat(alloc, pool, w, b"last")?;
    let edges = one(alloc, last)?;
    let side = Side::Back;
    let changes = [
        (1, Change::Shorten { length: 2 }),
        (0, Change::Add { side, edges }),
    ];
    changed_below(alloc, pool, w, &mut root, 2, &changes)?;
    let shortened = shows(&root, &[(3, 5), (0, 9), (1, 2), (4, 4)]);
    pool.finish(w, &root);
    Some([made, filled, shortened])
}

fn all_grown<P: Naming>(alloc: Global, opened: Opened<Boxes>) -> Option<([bool; 3], u32)>
    requires table { opened_table opened ≡ P.table }
    requires numbers { opened_numbers opened ≡ P.size }
    requires passes { opened_passes opened ≡ P.limit }
    requires boxes { opened_boxes opened ≡ P.boxes }
    requires workers { (opened_workers opened ≡ P.workers) × (P.workers ≡ 1) }
{
    let Ok((pool, mut workers)) = opened.named::<P>(alloc) else {
        return None;
    };
    let answer = grown(alloc, &pool, &mut workers[0])?;
    let Closed {
        in_use,
        releasers: _,
    } = pool.close(workers);
    Some((answer, in_use))
}

#[test]
fn edges_come_beside_a_path_whose_numbers_stay(rt: HostRuntime) {
    let opened = opened(rt.alloc()).expect(&rt, "memory");
    let answer = all_grown::<Brand>(rt.alloc(), opened);
    assert_eq!(rt; answer, Some(([true; 3], 0)));
}

/// Leaves edges of a Branch that went. Whether they have these numbers, in this order, and each was left by its last leaver.
fn left_in_order<P: Naming>(
    pool: &Pool<P, Boxes>,
    w: &mut Worker<P>,
    gone: &[Edge],
    numbers: &[u32],
) -> bool
    requires held { HasHolds w.old.holds gone.now }
    requires leaves { All (λ e. children e ≡ []) gone.now }
    requires few { length w.old.holds ≤ 100 }
    ensures traded { Trades w.old.holds gone.now [] w.new.holds }
{
    let mut same = gone.len() == numbers.len();
    for i in 0..gone.len() {
        let last = pool.leave(w, &gone[i]) == Left::Last;
        let wanted = i < numbers.len() && numbers[i] == gone[i].number();
        same = same && last && wanted;
    }
    same
}

/// Does changes of a lone root, and leaves the edges that go. Whether these have the numbers.
fn changed<P: Naming>(
    alloc: Global,
    pool: &Pool<P, Boxes>,
    w: &mut Worker<P>,
    root: &mut Edge,
    changes: &[(u8, Change)],
    numbers: &[u32],
) -> Option<bool>
    requires held { HasHolds w.old.holds (root.old ∷ all_new changes.now) }
    requires few { length changes.now ≤ 26 }
    requires order { NeverDeeper 0 changes.now }
    requires fit { FitEach changes.now (site root.old [] []) }
    requires room { (length w.old.holds ≤ 10) × (length (changed_root root.old [] changes.now).out ≤ 10) }
    requires leaves { All (λ e. children e ≡ []) (changed_root root.old [] changes.now).out }
    ensures changed { IfSome result (λ _. root.new ≡ (changed_root root.old [] changes.now).tree) }
    ensures traded { IfSome result (λ _. Trades w.old.holds (root.old ∷ all_new changes.now) (root.new ∷ []) w.new.holds) }
    ensures held { IfSome result (λ _. HasHolds w.new.holds (root.new ∷ [])) }
{
    if !pool.look(w, root, &[]) {
        return None;
    }
    paths_that_looks_find_are_lone();
    held_edges_may_come();
    let Ok(gone) = pool.mark(alloc, w, root, &[], changes) else {
        return None;
    };
    Some(left_in_order(pool, w, &gone, numbers))
}

/// A Branch over these edges.
fn above_four<P: Naming>(
    alloc: Global,
    pool: &Pool<P, Boxes>,
    w: &mut Worker<P>,
    a: Edge,
    b: Edge,
    c: Edge,
    d: Edge,
) -> Option<Edge>
    requires short { (a.0.length ≤ 100) × (b.0.length ≤ 100) × (c.0.length ≤ 100) × (d.0.length ≤ 100) }
    requires held { HasHolds w.old.holds (a ∷ b ∷ c ∷ d ∷ []) }
    requires room { length w.old.holds < 256 }
    ensures edge { IfSome result (λ e. e ≡ branch_node e.0.number 0 (a ∷ b ∷ c ∷ d ∷ [])) }
    ensures traded { IfSome result (λ e. Trades w.old.holds (a ∷ b ∷ c ∷ d ∷ []) (e ∷ []) w.new.holds) }
{
    let mut edges = Vec::new(alloc);
    let Ok(()) = edges.push(a) else {
        return None;
    };
    let Ok(()) = edges.push(b) else {
        return None;
    };
    let Ok(()) = edges.push(c) else {
        return None;
    };
    let Ok(()) = edges.push(d) else {
        return None;
    };
    let Ok(edge) = pool.take(alloc, w, Body::Branch { height: 0, edges }) else {
        return None;
    };
    Some(edge)
}

/// Of four edges the first goes, and then the last two. Whether these are the edges that went, in this order, and the Branch has the
/// other.
fn dropped<P: Naming>(
    alloc: Global,
    pool: &Pool<P, Boxes>,
    w: &mut Worker<P>,
) -> Option<(bool, bool)>
    requires empty { w.old.holds ≡ [] }
    ensures empty { IfSome result (λ _. length w.new.holds ≡ 0) }
{
    let a = flat(alloc, pool, w, b"first")?;
    let b = flat(alloc, pool, w, b"left")?;
    let c = flat(alloc, pool, w, b"right")?;
    let d = flat(alloc, pool, w, b"last")?;
    let mut root = above_four(alloc, pool, w, a, b, c, d)?;
    let changes = [
        (
            0,
            Change::Drop {
                side: Side::Front,
                count: 1,
            },
        ),
        (
            0,
            Change::Drop {
                side: Side::Back,
                count: 2,
            },
        ),
    ];
    let gone = changed(alloc, pool, w, &mut root, &changes, &[0, 2, 3])?;
    let kept = shows(&root, &[(1, 4)]);
    pool.finish(w, &root);
    Some((gone, kept))
}

fn all_dropped<P: Naming>(alloc: Global, opened: Opened<Boxes>) -> Option<((bool, bool), u32)>
    requires table { opened_table opened ≡ P.table }
    requires numbers { opened_numbers opened ≡ P.size }
    requires passes { opened_passes opened ≡ P.limit }
    requires boxes { opened_boxes opened ≡ P.boxes }
    requires workers { (opened_workers opened ≡ P.workers) × (P.workers ≡ 1) }
{
    let Ok((pool, mut workers)) = opened.named::<P>(alloc) else {
        return None;
    };
    let answer = dropped(alloc, &pool, &mut workers[0])?;
    let Closed {
        in_use,
        releasers: _,
    } = pool.close(workers);
    Some((answer, in_use))
}

#[test]
fn edges_that_go_come_back_in_the_order_of_their_removal(rt: HostRuntime) {
    let opened = opened(rt.alloc()).expect(&rt, "memory");
    let answer = all_dropped::<Brand>(rt.alloc(), opened);
    assert_eq!(rt; answer, Some(((true, true), 0)));
}

/// Both edges of a Branch are exchanged for others while all five numbers are in use. Whether those went, the Branch has the others,
/// and two takes get the numbers of those that went.
fn swapped<P: Naming>(
    alloc: Global,
    pool: &Pool<P, Boxes>,
    w: &mut Worker<P>,
) -> Option<(bool, bool, [u32; 2])>
    requires empty { w.old.holds ≡ [] }
    ensures empty { IfSome result (λ _. length w.new.holds ≡ 0) }
{
    let left = flat(alloc, pool, w, b"left")?;
    let right = flat(alloc, pool, w, b"right")?;
    let mut root = branch(alloc, pool, w, left, right)?;
    let first = flat(alloc, pool, w, b"first")?;
    let last = flat(alloc, pool, w, b"last")?;
    let changes = [
        (
            0,
            Change::Swap {
                side: Side::Front,
                edge: first,
            },
        ),
        (
            0,
            Change::Swap {
                side: Side::Back,
                edge: last,
            },
        ),
    ];
    let gone = changed(alloc, pool, w, &mut root, &changes, &[0, 1])?;
    let kept = shows(&root, &[(3, 5), (4, 4)]);
    pool.finish(w, &root);
    let again = flat(alloc, pool, w, b"again")?;
    let twice = flat(alloc, pool, w, b"twice")?;
    let numbers = [again.number(), twice.number()];
    pool.finish(w, &again);
    pool.finish(w, &twice);
    Some((gone, kept, numbers))
}

fn all_swapped<P: Naming>(
    alloc: Global,
    opened: Opened<Boxes>,
) -> Option<((bool, bool, [u32; 2]), u32)>
    requires table { opened_table opened ≡ P.table }
    requires numbers { opened_numbers opened ≡ P.size }
    requires passes { opened_passes opened ≡ P.limit }
    requires boxes { opened_boxes opened ≡ P.boxes }
    requires workers { (opened_workers opened ≡ P.workers) × (P.workers ≡ 1) }
{
    let Ok((pool, mut workers)) = opened.named::<P>(alloc) else {
        return None;
    };
    let answer = swapped(alloc, &pool, &mut workers[0])?;
    let Closed {
        in_use,
        releasers: _,
    } = pool.close(workers);
    Some((answer, in_use))
}

#[test]
fn the_number_of_an_exchanged_edge_is_free_once_it_is_left(rt: HostRuntime) {
    let opened = opened(rt.alloc()).expect(&rt, "memory");
    let answer = all_swapped::<Brand>(rt.alloc(), opened);
    assert_eq!(rt; answer, Some(((true, true, [0, 1]), 0)));
}
