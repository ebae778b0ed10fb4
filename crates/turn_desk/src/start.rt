//! How a desk begins.
ghost use Rattle.std.specs.Prelude.{◌≡◌, ◌<◌, ◌≤◌, [], ◌∷◌, map, length, replicate, vec_len, vec_capacity, IfOk, IfErr, MatchResult, Some};
ghost use Rattle.turn_desk.specs.Passes.{desk_places, desk_view, IsOf, IsIdle};
ghost use Rattle.turn_desk.specs.Spots.{home, values_of};

use crate::desk::{Desk, DeskPass};
use crate::rule::DeskRule;
use atomic_table::{Refused, Table};
use room_reserve::Reserve;
use std::alloc::{AllocError, Global};
use std::sync::atomic::AtomicU64;

/// Want of memory. The values come back.
pub struct DeskRefused<T: DeskRule> {
    pub values: Vec<T::Value>,
}

impl<T: DeskRule> Desk<T>
where
    T::Value: Drop,
{
    /// A desk with these values, and its first pass. The room that all later calls need is made here.
    pub fn start(
        alloc: Global,
        values: Vec<T::Value>,
        about: &T::About,
    ) -> Result<(Desk<T>, DeskPass<T>), DeskRefused<T>>
        requires some { 0 < vec_len values }
        requires many { vec_len values ≤ 65536 }
        requires agrees { T.agrees (map home values.items) (Some (T.first about.now) ∷ []) }
        ensures desk { IfOk result (λ d. desk_places d.0 ≡ length values.items) }
        ensures pass { IfOk result (λ d. IsOf d.0 d.1 × IsIdle d.1) }
        ensures view { IfOk result (λ d. desk_view d.1 ≡ T.first about.now) }
        ensures refused { IfErr result (λ r. r.values.items ≡ values.items) }
    {
        let count = values.len();
        let (Ok(words), Ok(room), Ok(spare)) = (
            zeros(alloc, count),
            Reserve::new(alloc, count),
            Vec::with_capacity(alloc, count),
        ) else {
            return Err(DeskRefused { values });
        };
        match slots_of(alloc, values) {
            Ok(slots) => match Table::new(alloc, words.as_slice(), slots, about) {
                Ok((table, pass)) => {
                    let desk = Desk {
                        table,
                        sleepers: AtomicU64::new(0),
                        room,
                    };
                    Ok((desk, pass))
                }
                Err(Refused { slots }) => Err(DeskRefused {
                    values: taken_from(slots, spare),
                }),
            },
            Err(values) => Err(DeskRefused { values }),
        }
    }
}

fn zeros(alloc: Global, count: usize) -> Result<Vec<u64>, AllocError>
    ensures { IfOk result (λ v. v.items ≡ replicate count 0) }
{
    vec![in alloc; 0u64; count]
}

// Each value, in a slot.
fn slots_of<X: Drop>(alloc: Global, values: Vec<X>) -> Result<Vec<Option<X>>, Vec<X>>
    ensures { MatchResult result (λ slots. slots.items ≡ map Some values.items) (λ same. same.items ≡ values.items) }
{
    let Ok(mut slots) = Vec::with_capacity(alloc, values.len()) else {
        return Err(values);
    };
    for value in values {
        slots.push_reserved(Some(value));
    }
    Ok(slots)
}

// The values of the slots, in the room that is given.
fn taken_from<X: Drop>(slots: Vec<Option<X>>, mut room: Vec<X>) -> Vec<X>
    requires none { vec_len room ≡ 0 }
    requires fits { vec_len slots ≤ vec_capacity room }
    ensures { result.items ≡ values_of slots.items }
{
    for slot in slots {
        match slot {
            Some(value) => room.push_reserved(value),
            None => {}
        }
    }
    room
}
