//! How many pieces a text has, and how many stand under a node of a level.
ghost use Rattle.std.specs.Prelude.{◌≡◌, ℕ, suc, ◌-◌, ◌*◌, ◌<◌, ◌≤◌, length};
ghost use Rattle.tree_shapes.specs.Room.{most_under};
ghost use Rattle.tree_shapes.specs.Flats.{piece_count};
ghost use Rattle.btree_edit.specs.Trees.{IsCut};

use node_pool::Side;

/// How many pieces so many bytes are.
pub(crate) fn piece_count(length: usize) -> usize
    requires { length ≤ 2147483647 }
    ensures { result ≡ piece_count length }
{
    (length + 4082) / 4083
}

/// The level of a new tree of so many pieces.
pub(crate) fn level_for(count: usize) -> u8
    requires { count ≤ 1000000 }
    ensures fits { count ≤ most_under result }
    ensures least { (i : ℕ) → result ≡ suc i → most_under i < count }
    ensures low { result ≤ 8 }
{
    let mut most = 1;
    for level in 0..8 {
        if count <= most {
            return level;
        }
        most *= 6;
    }
    8
}

/// The bytes that come first at a side of a tree where so many pieces have room, and the others.
pub(crate) fn parted(side: Side, bytes: &[u8], most: usize) -> (&[u8], &[u8])
    requires short { length bytes.now ≤ 2147483647 }
    requires few { most ≤ 2176782336 }
    ensures { IsCut side bytes.now most result.0.now result.1.now }
{
    match side {
        Side::Back => {
            let end = bytes.len().min(4083 * most);
            (&bytes[..end], &bytes[end..])
        }
        Side::Front => {
            let start = first_behind(bytes.len(), most);
            (&bytes[start..], &bytes[..start])
        }
    }
}

// Where the last so many pieces begin.
fn first_behind(length: usize, most: usize) -> usize
    requires short { length ≤ 2147483647 }
    ensures start { length - result ≡ length - 4083 * (piece_count length - most) }
    ensures within { result ≤ length }
{
    let count = piece_count(length);
    if most == 0 {
        length
    } else if most < count {
        4083 * (count - most)
    } else {
        0
    }
}
