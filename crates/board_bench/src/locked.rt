//! The yardstick: the same actions on the same data under a `Mutex`.
ghost use Rattle.std.specs.Prelude.{◌≡◌, ◌<◌, vec_len};
ghost use Rattle.std.specs.Thread.{IsSync};

use crate::item::Bytes;
use crate::plan::{Kind, Plan};
use cord_board::{Act, BoardItem, Entry, Twin};
use std::alloc::{AllocError, Global};
use std::sync::{Mutex, Wait};
use std::thread::{Threads, join};
use std::time::{Clock, Duration, Instant};
use std::{io, mem};

/// 64 cells and their history, as the board has them.
#[derive(Drop)]
pub struct Shelf {
    cells: Vec<Option<Bytes>>,
    history: Vec<Entry>,
    ghost wide: { vec_len cells ≡ 64 },
}

impl Shelf {
    fn start(alloc: Global, entries: usize) -> Result<Shelf, AllocError> {
        let mut cells = Vec::with_capacity(alloc, 64)?;
        for _ in 0..64usize {
            cells.push_reserved(None);
        }
        let history = Vec::with_capacity(alloc, entries)?;
        Ok(Shelf { cells, history })
    }

    fn act(&mut self, session: u16, k: u16, cell: u8)
        requires { cell < 64 }
    {
        let slot = &mut self.cells[usize::from(cell)];
        let (act, came, was) = match Kind::at(k) {
            Kind::Put => {
                let _ = mem::replace(slot, Some(Bytes(1)));
                (Act::Put, Some(1), None)
            }
            Kind::Peek => {
                let mut asked = 0;
                let out = match slot {
                    Some(item) => Some(item.twin(&mut asked)),
                    None => None,
                };
                (Act::Peek, None, out)
            }
            Kind::Swap => match slot {
                Some(there) => {
                    let was = mem::replace(there, Bytes(2));
                    (Act::Swap, Some(2), Some(was.size()))
                }
                None => (Act::Swap, None, None),
            },
            Kind::Take => {
                let was = mem::replace(slot, None);
                (Act::Take, None, was.map(|item| item.0))
            }
        };
        let place = u32::from(k) + 1;
        self.note(Entry {
            session,
            place,
            act,
            cell,
            came,
            was,
        });
    }

    fn note(&mut self, entry: Entry) {
        if self.history.len() < self.history.capacity() {
            self.history.push_reserved(entry);
        }
    }
}

fn act_all<R: Wait>(rt: &R, shelf: &Mutex<Shelf>, session: u16, cell: u8, actions: u16)
    requires { cell < 64 }
{
    for k in 0..actions {
        shelf.lock(rt).act(session, k, cell);
    }
}

fn play<R: Threads + Wait + Sync>(rt: &R, shelf: &Mutex<Shelf>, plan: Plan) {
    let session = plan.sessions;
    if session == 0 {
        return;
    }
    let others = Plan {
        sessions: session - 1,
        ..plan
    };
    join(
        rt,
        || act_all(rt, shelf, session, plan.cells.of(session), plan.actions),
        ||
            requires { IsSync R.row }
        { play(rt, shelf, others) },
    );
}

/// The history of the plan's run on a new shelf, and its time.
pub fn on_shelf<R: Threads + Wait + Clock + Sync>(
    rt: &R,
    alloc: Global,
    plan: Plan,
) -> io::Result<(Vec<Entry>, Duration)> {
    let shelf = Mutex::new(Shelf::start(alloc, plan.all())?);
    let start = Instant::now(rt)?;
    play(rt, &shelf, plan);
    let took = start.elapsed(rt)?;
    let Shelf { cells: _, history } = shelf.into_inner();
    Ok((history, took))
}
