//! Changes of a flat's bytes in place.
ghost use Rattle.std.specs.Prelude.{◌≡◌, ◌+◌, ◌≤◌, vec_len, vec_capacity};
ghost use Rattle.node_edges.specs.Levels.{bytes_after, room_after, FitsBytes, all_bytes, all_room, FitAllBytes};

use crate::change::Change;

/// Does one change, and answers the room then. The bytes have memory for the whole room, so none is asked for.
fn fill_or_shorten(bytes: &mut Vec<u8>, room: u32, change: &Change) -> u32
    requires fits { FitsBytes change.now bytes.old.items room }
    requires wide { vec_len bytes.old + room ≤ vec_capacity bytes.old }
    ensures bytes { bytes.new.items ≡ bytes_after change.now bytes.old.items }
    ensures room { result ≡ room_after change.now bytes.old.items room }
    ensures wide { vec_len bytes.new + result ≤ vec_capacity bytes.new }
{
    match change {
        Change::Fill { bytes: more } => {
            let Ok(()) = bytes.extend_from_slice(more.as_slice()) else {
                unreachable!();
            };
            room - more.len() as u32
        }
        Change::Shorten { length } => {
            let kept = *length as usize;
            let gone = bytes.len() - kept;
            bytes.truncate(kept);
            room + gone as u32
        }
        _ => unreachable!(),
    }
}

/// Does the changes, one after another.
pub(crate) fn fill_and_shorten(bytes: &mut Vec<u8>, room: &mut u32, changes: &[(u8, Change)])
    requires fit { FitAllBytes changes.now bytes.old.items room.old }
    requires wide { vec_len bytes.old + room.old ≤ vec_capacity bytes.old }
    ensures bytes { bytes.new.items ≡ all_bytes changes.now bytes.old.items }
    ensures room { room.new ≡ all_room changes.now bytes.old.items room.old }
{
    for (_, change) in changes {
        *room = fill_or_shorten(bytes, *room, change);
    }
}
