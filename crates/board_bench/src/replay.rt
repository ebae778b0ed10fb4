//! A plain reading of a history.
use cord_board::{Act, Entry};

/// Whether each entry found what the entries before it left in its cell, and its place is the next of its session. The
/// sessions are 1 to 16.
pub fn replays(history: &[Entry]) -> bool {
    let mut cells: [Option<u64>; 64] = [None; 64];
    let mut places = [0u32; 17];
    for entry in history {
        let (Some(cell), Some(place)) = (
            cells.get_mut(usize::from(entry.cell)),
            places.get_mut(usize::from(entry.session)),
        ) else {
            return false;
        };
        let Some((found, next)) = after(entry, *cell) else {
            return false;
        };
        if found != entry.was || place.checked_add(1) != Some(entry.place) {
            return false;
        }
        *cell = next;
        *place = entry.place;
    }
    true
}

// What an entry has to tell that it found in its cell, and what it leaves there.
fn after(entry: &Entry, cell: Option<u64>) -> Option<(Option<u64>, Option<u64>)> {
    match (entry.act, entry.came, cell) {
        (Act::Put, Some(came), _) => Some((None, Some(came))),
        (Act::Take, None, lay) => Some((lay, None)),
        (Act::Peek, None, lay) => Some((lay, lay)),
        (Act::Swap, Some(came), Some(lay)) => Some((Some(lay), Some(came))),
        (Act::Swap, None, None) => Some((None, None)),
        _ => None,
    }
}
