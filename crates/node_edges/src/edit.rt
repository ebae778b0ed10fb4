//! All changes of a list along a path of an edge, in place.
ghost use Rattle.std.specs.Prelude.{◌≡◌, ℕ, ◌+◌, ◌^◌, ◌<◌, ◌≤◌, [], length, take, drop, vec_len, vec_capacity, OnOk, OnErr, IfOk};
ghost use Rattle.node_forest.specs.Paths.{NeverDeeper};
ghost use Rattle.node_edges.specs.Body.{IsBody, IsCopy};
ghost use Rattle.node_forest.specs.Changes.{site};
ghost use Rattle.node_edges.specs.Limits.{most_changes};
ghost use Rattle.node_edges.specs.Changes.{edits, FitEach};
ghost use Rattle.node_edges.specs.Levels.{lowered, AreDeep, AreAt, most_out};

use crate::change::Change;
use crate::edge::{Body, Edge};
use crate::exchange::{all_ready, copies, exchange_all, most_out};
use crate::filling::fill_and_shorten;
use crate::memory::Memory;
use node_forest::MOST_EDGES;
use std::alloc::Global;
use std::sync::Arc;

/// A body that says the same, with bytes and edges of its own; behind a flat's bytes lies memory for its room.
fn copied(alloc: Global, body: &Body) -> Result<Body, Memory>
    requires { IsBody body.now }
    ensures { IfOk result (IsCopy body.now) }
{
    match body {
        Body::Flat { bytes, room } => {
            let mut copy = Vec::with_capacity(alloc, bytes.len() + *room as usize)?;
            copy.extend_from_slice(bytes.as_slice())?;
            Ok(Body::Flat {
                bytes: copy,
                room: *room,
            })
        }
        Body::External { bytes, slot } => {
            let copy = Vec::from_slice(alloc, bytes.as_slice())?;
            Ok(Body::External {
                bytes: copy,
                slot: *slot,
            })
        }
        Body::Part {
            start,
            length,
            child,
        } => {
            let copy = child.again()?;
            Ok(Body::Part {
                start: *start,
                length: *length,
                child: copy,
            })
        }
        Body::Sum { value, child } => {
            let copy = copied_child(child)?;
            Ok(Body::Sum {
                value: *value,
                child: copy,
            })
        }
        Body::Branch { height, edges } => {
            let copy = copies(alloc, edges)?;
            Ok(Body::Branch {
                height: *height,
                edges: copy,
            })
        }
    }
}

/// The same edge once more, if there is one.
fn copied_child(child: &Option<Edge>) -> Result<Option<Edge>, Memory>
    ensures { IfOk result (λ copy. copy ≡ child.now) }
{
    match child {
        Some(child) => Ok(Some(child.again()?)),
        None => Ok(None),
    }
}

/// How many changes at the front of the list lie deeper than this.
fn deeper_than(changes: &[(u8, Change)], depth: usize) -> usize
    requires deep { AreDeep depth changes.now }
    requires order { (n : ℕ) × NeverDeeper n changes.now }
    ensures within { result ≤ length changes.now }
    ensures deep { AreDeep (depth + 1) (take result changes.now) }
    ensures here { AreAt depth (drop result changes.now) }
{
    for (k, change) in changes.iter().enumerate() {
        if usize::from(change.0) <= depth {
            return k;
        }
    }
    changes.len()
}

impl Edge {
    /// Does all changes of a list, each at its depth of the path, in their order, in place: the numbers of the path's
    /// nodes stay, and lengths follow. A path is the places of edges from this node down. Answers the edges that were
    /// removed, in the order of their removal.
    /// A body that other edges have too is copied first. No byte of another flat is copied, nor of this one where its
    /// bytes have memory for its room.
    pub fn edit(
        &mut self,
        alloc: Global,
        path: &[u8],
        changes: &[(u8, Change)],
    ) -> Result<Vec<Edge>, Memory>
        requires few { length changes.now ≤ most_changes }
        requires order { NeverDeeper (length path.now) changes.now }
        requires fit { FitEach changes.now (site self.old path.now []) }
        ensures edited { OnOk result (self.new ≡ (edits changes.now (site self.old path.now [])).tree) }
        ensures removed { IfOk result (λ out. out.items ≡ (edits changes.now (site self.old path.now [])).out) }
        ensures err { OnErr result (self.new ≡ self.old) }
    {
        let mut out = Vec::with_capacity(alloc, most_out(changes))?;
        edit_below(alloc, self, path, 0, changes, &mut out)?;
        Ok(out)
    }

    /// Gives this edge a body of its own, if others have it too.
    fn unshare(&mut self, alloc: Global) -> Result<(), Memory>
        ensures { self.new ≡ self.old }
    {
        if Arc::strong_count(&self.body) == 1 {
            return Ok(());
        }
        let copy = copied(alloc, &self.body)?;
        self.body = Arc::new(alloc, copy)?;
        Ok(())
    }
}

/// Does the changes from this depth of the path on, which is the node's own. All memory is taken before anything
/// changes: first that of this node, then that of those below it, whose changes come first.
fn edit_below(
    alloc: Global,
    edge: &mut Edge,
    path: &[u8],
    depth: usize,
    changes: &[(u8, Change)],
    out: &mut Vec<Edge>,
) -> Result<(), Memory>
    requires deep { AreDeep depth changes.now }
    requires order { NeverDeeper (depth + length path.now) changes.now }
    requires low { depth + length path.now < 2 ^ 64 }
    requires fit { FitEach (lowered depth changes.now) (site edge.old path.now out.old.items) }
    requires room { vec_len out.old + most_out changes.now ≤ vec_capacity out.old }
    ensures edited { OnOk result (edge.new ≡ (edits (lowered depth changes.now) (site edge.old path.now out.old.items)).tree) }
    ensures removed { OnOk result (out.new.items ≡ (edits (lowered depth changes.now) (site edge.old path.now out.old.items)).out) }
    ensures err { OnErr result (edge.new ≡ edge.old) }
    ensures grown { OnOk result (vec_len out.new ≤ vec_len out.old + most_out changes.now) }
    ensures out_capacity { vec_capacity out.new ≡ vec_capacity out.old }
{
    if changes.is_empty() {
        return Ok(());
    }
    edge.unshare(alloc)?;
    // No other edge has the body now, so it is always found.
    let Some(body) = Arc::get_mut(&mut edge.body) else {
        return Err(Memory);
    };
    if let Body::Flat { bytes, room } = body {
        bytes.reserve(*room as usize)?;
        fill_and_shorten(bytes, room, changes);
        edge.length = bytes.len() as u64;
        return Ok(());
    }
    if let Body::Branch { edges, .. } = body {
        let (deeper, own) = changes.split_at(deeper_than(changes, depth));
        edges.reserve(MOST_EDGES - edges.len())?;
        let ready = all_ready(alloc, own)?;
        if deeper.is_empty() {
            edge.length = exchange_all(edges, ready, out);
            return Ok(());
        }
        let Some((place, rest)) = path.split_first() else {
            unreachable!();
        };
        let child = &mut edges[usize::from(*place)];
        edit_below(alloc, child, rest, depth + 1, deeper, out)?;
        edge.length = exchange_all(edges, ready, out);
        return Ok(());
    }
    unreachable!()
}
