//! What a cord begins and ends with.
ghost use Rattle.std.specs.Prelude.{◌≡◌, ◌↔◌, ◌-◌, IsTrue, length, nat_eq};
ghost use Rattle.std.specs.List as list;
ghost use Rattle.cord_query.specs.Ends.{BeginsWith, EndsWith};

use crate::reading::stands_at;
use cord_value::Cord;
use node_pool::Naming;

/// Whether the cord's bytes begin with the text (`cord.h`, `StartsWith`). Each cord begins with the empty text.
pub fn starts_with<P: Naming>(cord: &Cord<P>, text: &[u8]) -> bool
    ensures relation { IsTrue result ↔ BeginsWith cord.now.bytes text.now }
    ensures value { result ≡ list.starts_with nat_eq cord.now.bytes text.now }
{
    let size = cord.len();
    stands_at(&mut cord.chunks(), size, 0, text)
}

/// Whether the cord's bytes end with the text (`cord.h`, `EndsWith`). Each cord ends with the empty text.
pub fn ends_with<P: Naming>(cord: &Cord<P>, text: &[u8]) -> bool
    ensures relation { IsTrue result ↔ EndsWith cord.now.bytes text.now }
    ensures value { result ≡ list.ends_with nat_eq cord.now.bytes text.now }
{
    let size = cord.len();
    let length = text.len() as u64;
    length <= size && stands_at(&mut cord.chunks(), size, size - length, text)
}
