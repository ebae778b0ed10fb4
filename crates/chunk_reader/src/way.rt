//! The way from a tree's root to the data edge that is read.
ghost use Rattle.std.specs.Prelude.{◌≡◌, ◌+◌, ◌-◌, ◌<◌, ◌≤◌, ◌++◌, [], ◌∷◌, length, map};
ghost use Rattle.tree_shapes.specs.Shape.{level};
ghost use Rattle.node_edges.specs.Trees.{shape_of, IsTreeAt};
ghost use Rattle.chunk_reader.specs.Places.{long, way_down, rest_at};
ghost use Rattle.chunk_reader.specs.Stops.{IsOnWay, RisesTo, edge_in, path_in};

use crate::bytes::data_rest;
use crate::place::edge_at;
use node_edges::{Body, Edge};
use std::marker::Model;

/// The most Branches on a way down, since heights are 0 to 11.
const MOST_BRANCHES: usize = 12;

/// The Branches from the root down to a data edge, each with the place of the edge in which the way goes on, and where its text begins.
#[derive(Drop)]
pub(crate) struct Way<'a> {
    root: &'a Edge,
    stops: [(&'a Edge, usize); MOST_BRANCHES],
    starts: [u64; MOST_BRANCHES],
    depth: usize,
}

impl<'a> Model for Way<'a> {
    ghost use Rattle.std.specs.Prelude.{take};
    ghost use Rattle.chunk_reader.specs.Stops.{Kept, coded_kept, zipped, IsKeeper};

    ghost Value = { Kept };

    ghost coded = { coded_kept };

    ghost view = { λ w. record { root = w.root.now; stops = take w.depth (zipped w.stops w.starts) } };

    ghost invariant = { λ w. IsKeeper w.depth w.stops w.starts };
}

impl<'a> Way<'a> {
    /// A way that hasn't begun.
    pub(crate) fn new(root: &'a Edge) -> Way<'a>
        ensures root { result.root ≡ root.now }
        ensures stops { result.stops ≡ [] }
    {
        Way {
            root,
            stops: [(root, 0); MOST_BRANCHES],
            starts: [0; MOST_BRANCHES],
            depth: 0,
        }
    }

    /// Forgets the way, but for its root.
    pub(crate) fn clear(&mut self)
        ensures root { self.new.root ≡ self.old.root }
        ensures stops { self.new.stops ≡ [] }
    {
        self.depth = 0;
    }

    /// The Branches with the places of their edges.
    pub(crate) fn path(&self) -> &[(&'a Edge, usize)]
        ensures { map edge_in result.now ≡ path_in self.now.stops }
    {
        &self.stops[..self.depth]
    }

    /// Goes on to the place, which lies in the tree: up to the lowest kept Branch that covers it, and down from there.
    /// Answers what its data edge has from there on.
    pub(crate) fn go_to(&mut self, place: u64) -> &'a [u8]
        requires tree { IsTreeAt (level (shape_of self.old.root)) self.old.root }
        requires low { level (shape_of self.old.root) ≤ 12 }
        requires on { IsOnWay self.old }
        requires within { place < long self.old.root }
        ensures root { self.new.root ≡ self.old.root }
        ensures way { self.new.stops ≡ way_down (level (shape_of self.old.root)) self.old.root 0 place }
        ensures rest { result.now ≡ rest_at (level (shape_of self.old.root)) self.old.root place }
    {
        let (branch, start) = self.rise(place);
        self.descend(branch, start, place)
    }

    /// Drops the lower Branches up to the lowest that covers the place, and it too: the way goes on from there.
    fn rise(&mut self, place: u64) -> (&'a Edge, u64)
        ensures { RisesTo self.old place self.new result.0.now result.1 }
    {
        while self.depth > 0 {
            let depth = self.depth - 1;
            self.depth = depth;
            let stops = &self.stops[..];
            let (branch, _) = stops[depth];
            let start = self.starts[depth];
            if start <= place && place - start < branch.length() {
                return (branch, start);
            }
        }
        (self.root, 0)
    }

    /// Goes down from a node, whose text begins at `start`, to the data edge that covers the place.
    fn descend(&mut self, edge: &'a Edge, start: u64, place: u64) -> &'a [u8]
        requires tree { IsTreeAt (level (shape_of edge.now)) edge.now }
        requires from { start ≤ place }
        requires within { place < start + long edge.now }
        requires room { length self.old.stops + level (shape_of edge.now) ≤ 12 }
        ensures root { self.new.root ≡ self.old.root }
        ensures way { self.new.stops ≡ self.old.stops ++ way_down (level (shape_of edge.now)) edge.now start (place - start) }
        ensures rest { result.now ≡ rest_at (level (shape_of edge.now)) edge.now (place - start) }
    {
        let Body::Branch { edges, .. } = edge.body() else {
            return data_rest(edge, place - start);
        };
        let (at, inner) = edge_at(edges, place - start);
        self.push(edge, start, at);
        self.descend(&edges[at], place - inner, place)
    }

    /// Adds a Branch at the lower end.
    fn push(&mut self, branch: &'a Edge, start: u64, edge: usize)
        requires { length self.old.stops < 12 }
        ensures root { self.new.root ≡ self.old.root }
        ensures stops { self.new.stops ≡ self.old.stops ++ record { branch = branch.now; start = start; edge = edge } ∷ [] }
    {
        let depth = self.depth;
        let stops = &mut self.stops[..];
        stops[depth] = (branch, edge);
        self.starts[depth] = start;
        self.depth = depth + 1;
    }
}
