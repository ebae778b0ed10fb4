//! Edges and their bodies.
ghost use Rattle.std.specs.Prelude.{◌≡◌, ◌<◌, IfOk};
ghost use Rattle.node_forest.specs.Limits.{length_limit};
ghost use Rattle.node_forest.specs.Changes.{total};
ghost use Rattle.node_edges.specs.Body.{IsNodeOf, IsBody, body_length, node_of, renumbered};
ghost use Rattle.node_edges.specs.Text.{text};

use crate::bytes::range_of;
use crate::memory::Memory;
use std::alloc::Global;
use std::marker::Model;
use std::sync::Arc;

/// What a node is: its number, how many bytes its text has, and its body. The body lies behind a shared pointer, so that
/// every holder reads it without a lock and without copying. Contracts see an edge as a node with all that lies below it.
#[cycle(edge)]
#[derive(Drop)]
pub struct Edge {
    number: u32,
    pub(crate) length: u64,
    pub(crate) body: Arc<Body>,
}

/// The kinds of nodes (`cord_internal.h`, `cord_rep_btree.h`).
#[cycle(edge)]
#[derive(Drop)]
pub enum Body {
    /// Bytes of its own, and room for so many more.
    Flat {
        bytes: Vec<u8>,
        room: u32,
    },
    /// Bytes that come from outside, and the slot of their releaser.
    External {
        bytes: Vec<u8>,
        slot: u32,
    },
    /// So many bytes of the child's text, from the start on.
    Part {
        start: u64,
        length: u64,
        child: Edge,
    },
    /// The expected checksum of the text below it.
    Sum {
        value: u32,
        child: Option<Edge>,
    },
    /// A node of a B-tree with 1 to 6 edges. Height 0 stands over flats, externals and parts.
    Branch {
        height: u8,
        edges: Vec<Edge>,
    },
}

impl Model for Edge {
    ghost use Rattle.node_forest.specs.Label.{Node};
    ghost use Rattle.node_forest.specs.Codes.{coded_node};

    ghost Value = { Node };

    ghost coded = { coded_node };

    ghost use Rattle.node_edges.specs.Body.{node_with, IsMade};
    ghost use Rattle.node_forest.specs.Forest.{node_count};

    ghost view = { λ e. node_with e.number e.length e.body.value };

    ghost invariant = { λ e. IsMade e.length e.body.value };

    ghost size = { λ t. node_count t.1 };

    ghost use Rattle.node_edges.specs.Falls.{deep_le};

    ghost size_decreases = { λ a h. deep_le a.number a.length a.body.value };
}

impl Edge {
    /// A node of this body under this number.
    pub fn new(alloc: Global, number: u32, body: Body) -> Result<Edge, Memory>
        requires { IsBody body }
        ensures { IfOk result (λ e. e ≡ node_of number body) }
    {
        let length = body.length();
        Ok(Edge {
            number,
            length,
            body: Arc::new(alloc, body)?,
        })
    }

    /// The number that the pool counts the holders of.
    pub fn number(&self) -> u32
        ensures { result ≡ self.now.0.number }
    {
        self.number
    }

    /// How many bytes the text has.
    pub fn length(&self) -> u64
        ensures is { result ≡ self.now.0.length }
        ensures small { result < length_limit }
    {
        self.length
    }

    /// The body, which all equal edges share.
    pub fn body(&self) -> &Body
        ensures { IsNodeOf result.now self.now }
    {
        &self.body
    }

    /// An equal edge over the same body. No byte is copied, and no hold is made.
    pub fn again(&self) -> Result<Edge, Memory>
        ensures { IfOk result (λ e. e ≡ self.now) }
    {
        Ok(Edge {
            number: self.number,
            length: self.length,
            body: Arc::try_clone(&self.body)?,
        })
    }

    /// The same node under another number.
    pub fn renumber(&mut self, number: u32)
        ensures { self.new ≡ renumbered number self.old }
    {
        self.number = number;
    }

    /// The text in one piece, as it is defined. Larger trees are read chunk by chunk.
    pub fn text(&self, alloc: Global) -> Result<Vec<u8>, Memory>
        ensures { IfOk result (λ t. t.items ≡ text self.now) }
    {
        let body: &Body = &self.body;
        match body {
            Body::Flat { bytes, .. } => Ok(Vec::from_slice(alloc, bytes.as_slice())?),
            Body::External { bytes, .. } => Ok(Vec::from_slice(alloc, bytes.as_slice())?),
            Body::Part { start, child, .. } => {
                let below = child.text(alloc)?;
                let part = range_of(below.as_slice(), *start, self.length);
                Ok(Vec::from_slice(alloc, part)?)
            }
            Body::Sum { child, .. } => match child {
                Some(child) => child.text(alloc),
                None => Ok(Vec::new(alloc)),
            },
            Body::Branch { edges, .. } => {
                let mut joined = Vec::new(alloc);
                for edge in edges {
                    let piece = edge.text(alloc)?;
                    joined.extend_from_slice(piece.as_slice())?;
                }
                Ok(joined)
            }
        }
    }
}

impl Body {
    /// How many bytes the text of a node with this body has.
    pub fn length(&self) -> u64
        requires { body_length self.now < length_limit }
        ensures { result ≡ body_length self.now }
    {
        match self {
            Body::Flat { bytes, .. } => bytes.len() as u64,
            Body::External { bytes, .. } => bytes.len() as u64,
            Body::Part { length, .. } => *length,
            Body::Sum { child, .. } => match child {
                Some(child) => child.length(),
                None => 0,
            },
            Body::Branch { edges, .. } => total(edges),
        }
    }
}

/// The lengths of the edges together.
pub(crate) fn total(edges: &[Edge]) -> u64
    requires { total edges.now < length_limit }
    ensures { result ≡ total edges.now }
{
    let mut sum = 0u64;
    for edge in edges {
        sum += edge.length();
    }
    sum
}
