//! The bytes of data edges.
ghost use Rattle.std.specs.Prelude.{◌≡◌, ◌+◌, ◌<◌, ◌≤◌, length, take, drop};
ghost use Rattle.tree_shapes.specs.Shape.{IsSource};
ghost use Rattle.node_edges.specs.Text.{text};
ghost use Rattle.node_edges.specs.Trees.{shape_of, IsTreeAt};
ghost use Rattle.chunk_reader.specs.Places.{long};

use node_edges::{Body, Edge, texts_are_as_long_as_edges_say};

/// The bytes of a flat or an external.
fn source_bytes(edge: &Edge) -> &[u8]
    requires { IsSource edge.now.0.kind (shape_of edge.now).0 }
    ensures { result.now ≡ text edge.now }
{
    match edge.body() {
        Body::Flat { bytes, .. } => bytes.as_slice(),
        Body::External { bytes, .. } => bytes.as_slice(),
        _ => unreachable!(),
    }
}

/// `n` bytes from the start on.
fn part(bytes: &[u8], start: u64, n: u64) -> &[u8]
    requires { start + n ≤ length bytes.now }
    ensures { result.now ≡ take n (drop start bytes.now) }
{
    let from = start as usize;
    let to = from + n as usize;
    &bytes[from..to]
}

/// The bytes of a flat, an external, or a part of one. They are borrowed from the node that has them.
pub fn data_bytes(edge: &Edge) -> &[u8]
    requires { IsTreeAt 0 edge.now }
    ensures { result.now ≡ text edge.now }
{
    match edge.body() {
        Body::Flat { bytes, .. } => bytes.as_slice(),
        Body::External { bytes, .. } => bytes.as_slice(),
        Body::Part {
            start,
            length,
            child,
        } => {
            let bytes = source_bytes(child);
            part(bytes, *start, *length)
        }
        _ => unreachable!(),
    }
}

/// The same from an offset on, which is below the length.
pub(crate) fn data_rest(edge: &Edge, offset: u64) -> &[u8]
    requires tree { IsTreeAt 0 edge.now }
    requires within { offset < long edge.now }
    ensures { result.now ≡ drop offset (text edge.now) }
{
    texts_are_as_long_as_edges_say();
    let bytes = data_bytes(edge);
    &bytes[offset as usize..]
}
