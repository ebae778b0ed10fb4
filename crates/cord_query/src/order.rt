//! The order of cords.
ghost use Rattle.std.specs.Prelude.{◌≡◌};
ghost use Rattle.std.specs.Ordering.{nat_cmp};
ghost use Rattle.std.specs.Cmp.Lexicographic.{slice_cmp};
ghost use Rattle.plain_cord.specs.Orders.{ComparesAs};

use crate::reading::{compare_next, next_chunk};
use cord_value::Cord;
use node_pool::Naming;
use std::cmp::Ordering;

/// The order of the cords' bytes, unsigned; a proper prefix is less (`cord.h`, `Compare`). It stops at the first chunk that differs.
pub fn compare<P: Naming>(a: &Cord<P>, b: &Cord<P>) -> Ordering
    ensures relation { ComparesAs a.now.bytes b.now.bytes result }
    ensures value { result ≡ slice_cmp nat_cmp a.now.bytes b.now.bytes }
{
    let mut rest = a.chunks();
    let mut other = b.chunks();
    while let Some(chunk) = next_chunk(&mut rest) {
        match compare_next(&mut other, chunk) {
            Ordering::Equal => {}
            order => return order,
        }
    }
    match next_chunk(&mut other) {
        None => Ordering::Equal,
        Some(_) => Ordering::Less,
    }
}
