//! Which edge of a Branch covers an offset.
ghost use Rattle.std.specs.Prelude.{◌≡◌, ◌<◌, sum_by};
ghost use Rattle.chunk_reader.specs.Places.{long, place_in};

use node_edges::Edge;

/// The place of the edge that covers the offset, and the offset in that edge, in bytes (`cord_rep_btree.h`, `IndexOf`).
pub fn edge_at(edges: &[Edge], offset: u64) -> (usize, u64)
    requires { offset < sum_by long edges.now }
    ensures { result ≡ place_in edges.now offset }
{
    let mut rest = offset;
    for (at, edge) in edges.iter().enumerate() {
        if rest < edge.length() {
            return (at, rest);
        }
        rest -= edge.length();
    }
    unreachable!()
}
