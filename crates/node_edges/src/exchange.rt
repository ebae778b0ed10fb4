//! Edges of a Branch that go, and others that come in their place, with all that this needs made beforehand.
ghost use Rattle.std.specs.Prelude.{◌≡◌, ℕ, ◌+◌, ◌*◌, ◌^◌, ◌≤◌, ◌<◌, List, ◌++◌, length, take, drop, map, reverse, vec_len, vec_capacity, IfOk};
ghost use Rattle.node_forest.specs.Changes.{edges_after, edges_out, total};
ghost use Rattle.node_forest.specs.Limits.{length_limit, most_edges};
ghost use Rattle.node_edges.specs.Limits.{most_changes};
ghost use Rattle.node_edges.specs.Changes.{exchange_in};
ghost use Rattle.node_edges.specs.Levels.{exchange_of, exchanges_in, all_after, all_out, all_count, CanExchange, most_out};

use crate::change::Change;
use crate::edge::{Edge, total};
use crate::memory::Memory;
use node_forest::{MOST_EDGES, Side};
use std::alloc::Global;

/// So many edges at a side go, and then these come there.
#[derive(Drop)]
pub(crate) struct Ready {
    side: Side,
    count: usize,
    new: Vec<Edge>,
}

/// How many edges the changes take off at most; no Branch has more than `MOST_EDGES`.
pub(crate) fn most_out(changes: &[(u8, Change)]) -> usize
    requires { length changes.now ≤ most_changes }
    ensures { result ≡ most_out changes.now }
{
    let mut sum = 0;
    for (_, change) in changes {
        sum += match change {
            Change::Drop { count, .. } => (*count).min(MOST_EDGES),
            Change::Swap { .. } => 1,
            _ => 0,
        };
    }
    sum
}

/// The same edges once more.
pub(crate) fn copies(alloc: Global, edges: &[Edge]) -> Result<Vec<Edge>, Memory>
    ensures { IfOk result (λ v. v.items ≡ edges.now) }
{
    let mut copies = Vec::new(alloc);
    for edge in edges {
        copies.push(edge.again()?)?;
    }
    Ok(copies)
}

/// What the change does to the edges of a Branch.
fn made_ready(alloc: Global, change: &Change) -> Result<Ready, Memory>
    ensures { IfOk result (λ p. exchange_of p ≡ exchange_in change.now) }
{
    let (side, count, new) = match change {
        Change::Add { side, edges } => (*side, 0, copies(alloc, edges)?),
        Change::Drop { side, count } => (*side, *count, Vec::new(alloc)),
        Change::Swap { side, edge } => {
            let mut new = Vec::new(alloc);
            new.push(edge.again()?)?;
            (*side, 1, new)
        }
        _ => (Side::Front, 0, Vec::new(alloc)),
    };
    Ok(Ready { side, count, new })
}

/// What the changes do, the last first.
pub(crate) fn all_ready(alloc: Global, changes: &[(u8, Change)]) -> Result<Vec<Ready>, Memory>
    ensures { IfOk result (λ ready. reverse (map exchange_of ready.items) ≡ exchanges_in changes.now) }
{
    let mut ready = Vec::new(alloc);
    for (_, change) in changes {
        ready.push(made_ready(alloc, change)?)?;
    }
    ready.reverse();
    Ok(ready)
}

/// Moves so many edges from a place on to the end of `out`.
fn take_off(edges: &mut Vec<Edge>, at: usize, count: usize, out: &mut Vec<Edge>)
    requires within { at + count ≤ length edges.old.items }
    requires room { vec_len out.old + count ≤ vec_capacity out.old }
    ensures edges { edges.new.items ≡ take at edges.old.items ++ drop count (drop at edges.old.items) }
    ensures out { out.new.items ≡ out.old.items ++ take count (drop at edges.old.items) }
    ensures capacity { vec_capacity edges.new ≡ vec_capacity edges.old }
    ensures grown { vec_len out.new ≡ vec_len out.old + count }
    ensures out_capacity { vec_capacity out.new ≡ vec_capacity out.old }
{
    for _ in 0..count {
        out.push_reserved(edges.remove(at));
    }
}

/// Moves all new edges to a place.
fn put_in(edges: &mut Vec<Edge>, at: usize, mut new: Vec<Edge>)
    requires within { at ≤ length edges.old.items }
    requires room { vec_len edges.old + vec_len new ≤ vec_capacity edges.old }
    ensures edges { edges.new.items ≡ take at edges.old.items ++ (new.items ++ drop at edges.old.items) }
    ensures capacity { vec_capacity edges.new ≡ vec_capacity edges.old }
{
    while let Some(edge) = new.pop() {
        let Ok(()) = edges.insert(at, edge) else {
            unreachable!();
        };
    }
}

/// Does one exchange. What goes stands at the end of `out`.
fn exchange(edges: &mut Vec<Edge>, ready: Ready, out: &mut Vec<Edge>)
    requires enough { ready.count ≤ length edges.old.items }
    requires few { length (edges_after (exchange_of ready) edges.old.items) ≤ most_edges }
    requires wide { most_edges ≤ vec_capacity edges.old }
    requires room { vec_len out.old + ready.count ≤ vec_capacity out.old }
    ensures edges { edges.new.items ≡ edges_after (exchange_of ready) edges.old.items }
    ensures out { out.new.items ≡ out.old.items ++ edges_out (exchange_of ready) edges.old.items }
    ensures capacity { vec_capacity edges.new ≡ vec_capacity edges.old }
    ensures grown { vec_len out.new ≡ vec_len out.old + ready.count }
    ensures out_capacity { vec_capacity out.new ≡ vec_capacity out.old }
{
    match ready.side {
        Side::Front => {
            take_off(edges, 0, ready.count, out);
            put_in(edges, 0, ready.new);
        }
        Side::Back => {
            let at = edges.len() - ready.count;
            take_off(edges, at, ready.count, out);
            put_in(edges, at, ready.new);
        }
    }
}

/// Does the exchanges, of which the last stands first. What goes stands at the end of `out`. Answers how long the edges are
/// together then.
pub(crate) fn exchange_all(edges: &mut Vec<Edge>, mut ready: Vec<Ready>, out: &mut Vec<Edge>) -> u64
    requires fit { CanExchange (reverse (map exchange_of ready.items)) edges.old.items }
    requires wide { most_edges ≤ vec_capacity edges.old }
    requires room { vec_len out.old + all_count (reverse (map exchange_of ready.items)) ≤ vec_capacity out.old }
    requires short { total (all_after (reverse (map exchange_of ready.items)) edges.old.items) < length_limit }
    ensures long { result ≡ total edges.new.items }
    ensures edges { edges.new.items ≡ all_after (reverse (map exchange_of ready.items)) edges.old.items }
    ensures out { out.new.items ≡ all_out (reverse (map exchange_of ready.items)) edges.old.items out.old.items }
    ensures grown { vec_len out.new ≡ vec_len out.old + all_count (reverse (map exchange_of ready.items)) }
    ensures out_capacity { vec_capacity out.new ≡ vec_capacity out.old }
{
    while let Some(next) = ready.pop() {
        exchange(edges, next, out);
    }
    total(edges)
}
