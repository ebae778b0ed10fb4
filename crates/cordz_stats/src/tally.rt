//! The sums of a walk over a tree.
ghost use Rattle.std.specs.Prelude.{◌≡◌, ◌+◌, ◌*◌, ◌^◌, ◌<◌, ◌≤◌, ◌&&◌, nat_lt, nat_le};
ghost use Rattle.node_forest.specs.Forest.{below};
ghost use Rattle.tree_shapes.specs.Shape.{level, IsSource};
ghost use Rattle.node_edges.specs.Trees.{shape_of, IsTreeAt, IsWellFormed};
ghost use Rattle.cordz_stats.specs.Sums.{memory_of};
ghost use Rattle.cordz_stats.specs.Tallies.{one, nothing, told, with_node, with_flat, with_nodes, budget, IsSmall};

use node_edges::{Body, Edge};
use plain_cord::Statistics;

/// How many nodes of each kind there were so far, how many flats of each size, and how much memory they all take, in bytes.
#[derive(Clone, Copy)]
pub(crate) struct Tally {
    pub(crate) flat: u64,
    pub(crate) external: u64,
    pub(crate) part: u64,
    pub(crate) sum: u64,
    pub(crate) branch: u64,
    pub(crate) up_to_64: u64,
    pub(crate) up_to_128: u64,
    pub(crate) up_to_256: u64,
    pub(crate) up_to_512: u64,
    pub(crate) up_to_1024: u64,
    pub(crate) memory: u64,
}

// 1 where a number is above one bound and at most the other.
fn between(under: u64, number: u64, most: u64) -> u64
    ensures { result ≡ one (nat_lt under number && nat_le number most) }
{
    if under < number && number <= most {
        1
    } else {
        0
    }
}

impl Tally {
    /// No node.
    pub(crate) fn new() -> Tally
        ensures { result ≡ nothing }
    {
        Tally {
            flat: 0,
            external: 0,
            part: 0,
            sum: 0,
            branch: 0,
            up_to_64: 0,
            up_to_128: 0,
            up_to_256: 0,
            up_to_512: 0,
            up_to_1024: 0,
            memory: 0,
        }
    }

    /// What a walk over a tree of so many bytes tells.
    pub(crate) fn told(self, size: u64) -> Statistics
        requires { IsSmall self }
        ensures { result ≡ told self size }
    {
        Statistics {
            size,
            nodes: self.flat + self.external + self.part + self.sum + self.branch,
            flat: self.flat,
            external: self.external,
            part: self.part,
            sum: self.sum,
            branch: self.branch,
            buckets: [
                self.up_to_64,
                self.up_to_128,
                self.up_to_256,
                self.up_to_512,
                self.up_to_1024,
            ],
            memory: self.memory,
        }
    }

    // One flat more, which takes so many bytes.
    fn count_flat(&mut self, allocated: u64)
        requires small { IsSmall self.old }
        requires some { 0 < allocated }
        requires fits { self.old.memory + allocated < 2 ^ 64 }
        ensures counted { self.new ≡ with_flat self.old allocated }
        ensures small { IsSmall self.new }
    {
        self.flat += 1;
        self.up_to_64 += between(0, allocated, 64);
        self.up_to_128 += between(64, allocated, 128);
        self.up_to_256 += between(128, allocated, 256);
        self.up_to_512 += between(256, allocated, 512);
        self.up_to_1024 += between(512, allocated, 1024);
        self.memory += allocated;
    }

    /// One node more, without those below it.
    pub(crate) fn count(&mut self, edge: &Edge)
        requires small { IsSmall self.old }
        requires fits { self.old.memory + memory_of (shape_of edge.now) < 2 ^ 64 }
        ensures counted { self.new ≡ with_node self.old (shape_of edge.now) }
        ensures small { IsSmall self.new }
    {
        match edge.body() {
            Body::Flat { room, .. } => self.count_flat(edge.length() + *room as u64 + 13),
            Body::External { .. } => {
                self.external += 1;
                self.memory += 40 + edge.length();
            }
            Body::Part { .. } => {
                self.part += 1;
                self.memory += 32;
            }
            Body::Sum { .. } => {
                self.sum += 1;
                self.memory += 32;
            }
            Body::Branch { .. } => {
                self.branch += 1;
                self.memory += 64;
            }
        }
    }

    // The child of a part, which is a flat or an external and has nothing below it.
    fn add_source(&mut self, edge: &Edge)
        requires source { IsSource edge.now.0.kind (shape_of edge.now).0 }
        requires small { IsSmall self.old }
        requires fits { self.old.memory + 2147483687 < 2 ^ 64 }
        ensures counted { self.new ≡ with_nodes self.old (below (shape_of edge.now)) }
        ensures small { IsSmall self.new }
        ensures spent { self.new.memory ≤ self.old.memory + 2147483687 }
    {
        match edge.body() {
            Body::Flat { .. } => self.count(edge),
            Body::External { .. } => self.count(edge),
            _ => unreachable!(),
        }
    }

    /// A node and all nodes below it, each as often as it stands there.
    pub(crate) fn add(&mut self, edge: &Edge)
        requires tree { IsTreeAt (level (shape_of edge.now)) edge.now }
        requires short { edge.now.0.length ≤ 2147483647 }
        requires small { IsSmall self.old }
        requires fits { self.old.memory + budget edge.now < 2 ^ 64 }
        ensures counted { self.new ≡ with_nodes self.old (below (shape_of edge.now)) }
        ensures small { IsSmall self.new }
        ensures spent { self.new.memory ≤ self.old.memory + budget edge.now }
    {
        self.count(edge);
        match edge.body() {
            Body::Flat { .. } => {}
            Body::External { .. } => {}
            Body::Part { child, .. } => self.add_source(child),
            Body::Sum { .. } => unreachable!(),
            Body::Branch { edges, .. } => {
                for child in edges {
                    self.add(child);
                }
            }
        }
    }

    /// All nodes of a whole tree, which may have a sum at its root.
    pub(crate) fn add_root(&mut self, edge: &Edge)
        requires tree { IsWellFormed edge.now }
        requires short { edge.now.0.length ≤ 2147483647 }
        requires first { self.old ≡ nothing }
        ensures counted { self.new ≡ with_nodes nothing (below (shape_of edge.now)) }
        ensures small { IsSmall self.new }
    {
        match edge.body() {
            Body::Sum { child, .. } => {
                self.count(edge);
                match child {
                    Some(child) => self.add(child),
                    None => {}
                }
            }
            _ => self.add(edge),
        }
    }
}
