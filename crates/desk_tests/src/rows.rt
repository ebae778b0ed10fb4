//! Games that are told beforehand, and one that is drawn.
use crate::games::{Played, Step, game};
use crate::moves::Answer::{Back, Bare, Done, Ended, Full, Given, Noted, Slot};
use crate::moves::Move::{
    End, First, GiveUp, Keep, Next, Publish, Read, Show, Snap, Strip, Track, Untrack,
};
use crate::moves::{Answer, Move, told};
use rand_core::utils::NextWord;
use rand_pcg::Pcg32;
use record_rule::Note;
use std::alloc::AllocError;

fn noted(stamp: u64, update: u64, length: u64) -> Option<Answer> {
    let note = Note {
        stamp,
        update,
        length,
    };
    Some(Noted(note))
}

fn ended(slots: &[u16]) -> Option<Answer> {
    Some(Ended(told(slots)))
}

#[test]
fn a_walk_goes_on_from_records_that_left(rt: HostRuntime) {
    let script: [Step; 16] = [
        (Track(0, 20), Some(Given(0, 1))),
        (Track(0, 21), Some(Given(1, 2))),
        (Track(0, 22), Some(Given(2, 3))),
        (Snap(1), Some(Done)),
        (First(1), Some(Slot(Some(2)))),
        (Read(1), noted(3, 0, 22)),
        (Untrack(0, 2), Some(Back(false))),
        (Track(0, 23), Some(Given(3, 4))),
        (Next(1), Some(Slot(Some(1)))),
        (Read(1), noted(2, 0, 21)),
        (Untrack(0, 1), Some(Back(false))),
        (Next(1), Some(Slot(Some(0)))),
        (Read(1), noted(1, 0, 20)),
        (Next(1), Some(Slot(None))),
        (First(1), Some(Slot(Some(3)))),
        (End(1), ended(&[2, 1])),
    ];
    assert_eq!(rt; game(&rt, rt.alloc(), &script), Some(Played::WELL));
}

#[test]
fn snapshots_hold_what_is_given_up_after_them(rt: HostRuntime) {
    for first_ends_first in [true, false] {
        let (a, b, gone, rest) = if first_ends_first {
            (0, 1, ended(&[0]), ended(&[1]))
        } else {
            (1, 0, ended(&[]), ended(&[0, 1]))
        };
        let script: [Step; 8] = [
            (Track(2, 20), Some(Given(0, 1))),
            (Track(2, 20), Some(Given(1, 2))),
            (Snap(0), Some(Done)),
            (Untrack(2, 0), Some(Back(false))),
            (Snap(1), Some(Done)),
            (Untrack(2, 0), Some(Back(false))),
            (End(a), gone),
            (End(b), rest),
        ];
        assert_eq!(rt; game(&rt, rt.alloc(), &script), Some(Played::WELL));
    }
}

#[test]
fn a_walk_meets_a_bare_record(rt: HostRuntime) {
    let script: [Step; 18] = [
        (Track(0, 20), Some(Given(0, 1))),
        (Strip(0, 0), Some(Back(true))),
        (Snap(1), Some(Done)),
        (First(1), Some(Slot(Some(0)))),
        (Read(1), Some(Bare(1))),
        (Keep(0), Some(Done)),
        (Read(1), Some(Bare(1))),
        (Publish(0, 0, 30), noted(1, 1, 30)),
        (Show(1, 0), Some(Done)),
        (Read(1), noted(1, 1, 30)),
        (Keep(0), Some(Done)),
        (Strip(0, 0), Some(Back(true))),
        (Strip(0, 0), Some(Back(false))),
        (Untrack(0, 0), Some(Back(false))),
        (Read(1), Some(Bare(1))),
        (End(1), ended(&[0])),
        (Track(0, 20), Some(Given(0, 2))),
        (Untrack(3, 0), Some(Back(true))),
    ];
    assert_eq!(rt; game(&rt, rt.alloc(), &script), Some(Played::WELL));
}

#[test]
fn a_full_desk_refuses(rt: HostRuntime) -> Result<(), AllocError> {
    let mut script: Vec<Step> = Vec::with_capacity(rt.alloc(), 260)?;
    for i in 0..256u16 {
        script.push((Track(0, 20), Some(Given(i, u64::from(i) + 1))))?;
    }
    for step in [
        (Track(1, 20), Some(Full(256))),
        (GiveUp(2), Some(Full(256))),
        (Untrack(3, 7), Some(Back(true))),
        (GiveUp(2), Some(Given(7, 257))),
        (Track(1, 20), Some(Given(7, 258))),
    ] {
        script.push(step)?;
    }
    assert_eq!(rt; game(&rt, rt.alloc(), &script), Some(Played::WELL));
    Ok(())
}

// A drawn move, of one of four seats.
fn drawn(word: u32) -> Move {
    let seat = (word >> 4) as usize % 4;
    let ticket = (word >> 6) as usize % 64;
    let size = ((word >> 12) % 600) as u16 + 1;
    match word % 16 {
        0 | 1 => Track(seat, size),
        2 => GiveUp(seat),
        3 | 4 => Publish(seat, ticket, size),
        5 => Keep(ticket),
        6 => Strip(seat, ticket),
        7 | 8 => Untrack(seat, ticket),
        9 => Snap(seat),
        10 => First(seat),
        11 | 12 => Next(seat),
        13 => Read(seat),
        14 => Show(seat, ticket),
        _ => End(seat),
    }
}

#[test]
fn a_hundred_thousand_drawn_moves_agree_with_the_plain_registry(
    rt: HostRuntime,
) -> Result<(), AllocError> {
    let mut random = Pcg32::new(17, 54);
    let mut script: Vec<Step> = Vec::with_capacity(rt.alloc(), 100000)?;
    for _ in 0..100000u32 {
        script.push((drawn(random.next_word()), None))?;
    }
    assert_eq!(rt; game(&rt, rt.alloc(), &script), Some(Played::WELL));
    Ok(())
}
