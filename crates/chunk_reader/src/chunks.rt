//! A reading of a tree, or of bytes.
ghost use Rattle.std.specs.Prelude.{◌≡◌, ◌≤◌, ◌<◌, None, Some, length, map, take};
ghost use Rattle.tree_shapes.specs.Shape.{level};
ghost use Rattle.node_edges.specs.Text.{text};
ghost use Rattle.node_edges.specs.Trees.{shape_of, IsTreeAt, IsWellFormed};
ghost use Rattle.chunk_reader.specs.Readings.{ReadsSome, path_of, chunk_of, left, passed};
ghost use Rattle.chunk_reader.specs.Stops.{edge_in};
ghost use Rattle.node_edges.specs.Roots.{below_sum};

use crate::way::Way;
use node_edges::{Edge, skip_sum, texts_are_as_long_as_edges_say};
use std::marker::Model;

/// A reading of the text of a tree, or of bytes, from a place on (`cord.h`, `ChunkIterator`). It is an iterator of chunks, each a slice
/// of a node's own bytes. Contracts see the tree without its Sum, the whole text and the place, counted in bytes from 0.
#[derive(Drop)]
pub struct Chunks<'a> {
    source: Source<'a>,
    chunk: &'a [u8],
    at: u64,
    length: u64,
}

/// What is read.
#[derive(Drop)]
pub(crate) enum Source<'a> {
    Bytes(&'a [u8]),
    Tree(Way<'a>),
}

impl<'a> Model for Chunks<'a> {
    ghost use Rattle.chunk_reader.specs.Readings.{Reading, coded_reading};
    ghost use Rattle.chunk_reader.specs.Sources.{reading_of, IsReader};

    ghost Value = { Reading };

    ghost coded = { coded_reading };

    ghost view = { λ c. reading_of c.source c.at };

    ghost invariant = { λ c. IsReader (reading_of c.source c.at) c.source c.chunk.now c.length };
}

impl<'a> Chunks<'a> {
    /// A reading of the tree's text from its beginning. A Sum at the root is skipped.
    pub fn new(edge: &'a Edge) -> Chunks<'a>
        requires { IsWellFormed edge.now }
        ensures { result ≡ record { tree = below_sum edge.now; bytes = text edge.now; at = 0 } }
    {
        match skip_sum(edge) {
            Some(tree) => Chunks::of_tree(tree),
            None => Chunks::of_bytes(&[]),
        }
    }

    /// A reading of bytes that stand in no tree: one chunk, if there are any.
    pub fn of_bytes(bytes: &'a [u8]) -> Chunks<'a>
        ensures { result ≡ record { tree = None; bytes = bytes.now; at = 0 } }
    {
        Chunks {
            source: Source::Bytes(bytes),
            chunk: bytes,
            at: 0,
            length: bytes.len() as u64,
        }
    }

    /// The same of a tree that is no Sum.
    fn of_tree(root: &'a Edge) -> Chunks<'a>
        requires tree { IsTreeAt (level (shape_of root.now)) root.now }
        requires low { level (shape_of root.now) ≤ 12 }
        ensures { result ≡ record { tree = Some root.now; bytes = text root.now; at = 0 } }
    {
        texts_are_as_long_as_edges_say();
        let length = root.length();
        let mut way = Way::new(root);
        let chunk = if length > 0 { way.go_to(0) } else { &[] };
        Chunks {
            source: Source::Tree(way),
            chunk,
            at: 0,
            length,
        }
    }

    /// Goes on from a place, at most the length. The way is taken back only as far as it must be.
    pub fn seek(&mut self, pos: u64)
        requires { pos ≤ length self.old.bytes }
        ensures { self.new ≡ record self.old { at = pos } }
    {
        texts_are_as_long_as_edges_say();
        match &mut self.source {
            Source::Bytes(bytes) => {
                self.chunk = &bytes[pos as usize..];
            }
            Source::Tree(way) => {
                if pos < self.length {
                    self.chunk = way.go_to(pos);
                } else {
                    way.clear();
                    self.chunk = &[];
                }
            }
        }
        self.at = pos;
    }

    /// The next bytes of the present chunk, at most `n`. There are none only at the end, or for 0.
    pub fn read(&mut self, n: usize) -> &'a [u8]
        ensures read { ReadsSome n self.old self.new result }
        ensures next { result.now ≡ take (length result.now) (left self.old) }
        ensures some { 0 < n → 0 < length (left self.old) → 0 < length result.now }
    {
        let chunk = self.chunk;
        if n < chunk.len() {
            let (front, rest) = chunk.split_at(n);
            self.chunk = rest;
            self.at += n as u64;
            return front;
        }
        self.take_chunk()
    }

    /// The present chunk, which is passed.
    fn take_chunk(&mut self) -> &'a [u8]
        ensures chunk { result.now ≡ chunk_of self.old }
        ensures passed { self.new ≡ passed (length result.now) self.old }
    {
        let chunk = self.chunk;
        let end = self.at + chunk.len() as u64;
        self.seek(end);
        chunk
    }

    /// The Branches from the root down, each with the place of the edge in which the reading is, counted from 0. There are none
    /// at the end, and none in a tree without a Branch.
    pub fn path(&self) -> &[(&'a Edge, usize)]
        ensures { map edge_in result.now ≡ path_of self.now }
    {
        match &self.source {
            Source::Bytes(_) => &[],
            Source::Tree(way) => way.path(),
        }
    }
}

impl<'a> Iterator for Chunks<'a> {
    ghost use Rattle.std.specs.Prelude.{length};
    ghost use Rattle.std.specs.Iterator.{at_most};
    ghost use Rattle.chunk_reader.specs.Readings.{left, GivesChunk};

    type Item = &'a [u8];

    ghost next_gives = { GivesChunk };

    ghost remaining = { λ c. at_most (length (left c)) };

    fn next(&mut self) -> Option<&'a [u8]> {
        if self.chunk.is_empty() {
            return None;
        }
        Some(self.take_chunk())
    }
}
