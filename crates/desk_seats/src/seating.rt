//! Who sits at a desk, and who leaves it.
ghost use Rattle.std.specs.Prelude.{◌≡◌, ◌≤◌, length, vec_len, vec_capacity, All, IfSome};
ghost use Rattle.desk_seats.specs.Fresh.{IsFresh};
ghost use Rattle.cordz_desk.specs.Tokens.{token_of};

use crate::seats::Seat;
use cordz_desk::{CordzPass, DeskNaming};
use node_pool::{Naming, Worker};

/// A seat for each worker, with one of the passes. None where there are too few passes.
pub fn seated<P: Naming, D: DeskNaming>(
    workers: Vec<Worker<P>>,
    passes: &mut Vec<CordzPass<P, D>>,
    room: Vec<Seat<P, D>>,
) -> Option<Vec<Seat<P, D>>>
    requires room { (vec_len room ≡ 0) × (length workers.items ≤ vec_capacity room) }
    requires idle { All (λ w. length w.holds ≡ 0) workers.items }
    requires fresh { All (λ c. IsFresh (token_of c)) passes.old.items }
    ensures count { IfSome result (λ seats. vec_len seats ≡ length workers.items) }
{
    let mut seats = room;
    for worker in workers {
        let Some(pass) = passes.pop() else {
            return None;
        };
        seats.push_reserved(Seat {
            pass,
            worker,
            made: 0,
            walks: false,
            at: None,
        });
    }
    Some(seats)
}

/// The workers of these seats. The passes go to the others, as far as there is memory.
pub fn left<P: Naming, D: DeskNaming>(
    seats: Vec<Seat<P, D>>,
    passes: &mut Vec<CordzPass<P, D>>,
    room: Vec<Worker<P>>,
) -> Vec<Worker<P>>
    requires room { (vec_len room ≡ 0) × (length seats.items ≤ vec_capacity room) }
    ensures count { vec_len result ≡ length seats.items }
{
    let mut workers = room;
    for seat in seats {
        let Seat {
            pass,
            worker,
            made: _,
            walks: _,
            at: _,
        } = seat;
        workers.push_reserved(worker);
        if passes.push(pass).is_err() {}
    }
    workers
}
