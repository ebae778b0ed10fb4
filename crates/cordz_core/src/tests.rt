//! The registry beside the plain model: every answer is the model's.
mod model;

use crate::{RecordsFull, Registry, Settled, SlotState};
use arrayvec::ArrayVec;
use model::{Model, Use};
use rand_core::utils::NextWord;
use rand_pcg::Pcg32;
use std::alloc::{AllocError, Global};
use std::process::Abort;
use std::test::Fail;

#[derive(Clone, Copy)]
enum Action {
    Reserve,
    Free(u16),
    Track(u16),
    Unlink(u16),
    Settle(u16),
    Snap(u8),
    Unsnap(u8),
}

// The action of a number below 4 * slots + 2 * walkers + 1.
fn action_of(number: u32, slots: u16, walkers: u8) -> Action {
    if number == 0 {
        return Action::Reserve;
    }
    let rest = number - 1;
    let many = u32::from(slots).max(1);
    let slot = (rest % many) as u16;
    match rest / many {
        0 => Action::Free(slot),
        1 => Action::Track(slot),
        2 => Action::Unlink(slot),
        3 => Action::Settle(slot),
        _ => walk_of(rest - 4 * many, walkers),
    }
}

fn walk_of(number: u32, walkers: u8) -> Action {
    let many = u32::from(walkers).max(1);
    let walker = (number % many) as u8;
    if number / many == 0 {
        Action::Snap(walker)
    } else {
        Action::Unsnap(walker)
    }
}

// Does one action on both if its condition is met, and says whether it was.
fn act(
    rt: &impl Abort,
    alloc: Global,
    registry: &mut Registry,
    model: &mut Model,
    action: Action,
) -> Result<bool, AllocError> {
    if registry.clock() == u64::MAX {
        return Ok(false);
    }
    match action {
        Action::Reserve => {
            reserve(rt, registry, model);
            Ok(true)
        }
        Action::Free(slot) => Ok(free(rt, registry, model, slot)),
        Action::Track(slot) => track(rt, registry, model, slot),
        Action::Unlink(slot) => Ok(unlink(rt, registry, model, slot)),
        Action::Settle(slot) => Ok(settle(rt, registry, model, slot)),
        Action::Snap(walker) => snap(rt, registry, model, walker),
        Action::Unsnap(walker) => unsnap(rt, alloc, registry, model, walker),
    }
}

fn reserve(rt: &impl Abort, registry: &mut Registry, model: &mut Model) {
    if registry.clock() == u64::MAX {
        return;
    }
    match registry.reserve() {
        Ok((slot, stamp)) => {
            assert_eq!(rt; model.state(slot), SlotState::Free);
            model.give(slot, Use::Holder);
            model.stamps = model.stamps.saturating_add(1);
            assert_eq!(rt; stamp, model.stamps);
        }
        Err(RecordsFull { in_use }) => {
            assert_eq!(rt; in_use, 256);
            assert_eq!(rt; model.in_use(), 256);
        }
    }
}

fn free(rt: &impl Abort, registry: &mut Registry, model: &mut Model, slot: u16) -> bool {
    if slot >= 256 || registry.clock() == u64::MAX {
        return false;
    }
    let state = registry.state(slot);
    assert_eq!(rt; state, model.state(slot));
    match state {
        SlotState::Reserved | SlotState::Clearing => {
            registry.free(slot);
            model.give(slot, Use::Nobody);
            true
        }
        _ => false,
    }
}

fn track(
    rt: &impl Abort,
    registry: &mut Registry,
    model: &mut Model,
    slot: u16,
) -> Result<bool, AllocError> {
    if slot >= 256 || registry.clock() == u64::MAX {
        return Ok(false);
    }
    let state = registry.state(slot);
    assert_eq!(rt; state, model.state(slot));
    match state {
        SlotState::Reserved => {
            registry.track(slot);
            model.track(slot)?;
            Ok(true)
        }
        _ => Ok(false),
    }
}

fn unlink(rt: &impl Abort, registry: &mut Registry, model: &mut Model, slot: u16) -> bool {
    if slot >= 256 || registry.clock() == u64::MAX {
        return false;
    }
    let state = registry.state(slot);
    assert_eq!(rt; state, model.state(slot));
    match state {
        SlotState::Linked => {
            registry.unlink(slot);
            model.unlink(slot);
            true
        }
        _ => false,
    }
}

fn settle(rt: &impl Abort, registry: &mut Registry, model: &mut Model, slot: u16) -> bool {
    if slot >= 256 || registry.clock() == u64::MAX {
        return false;
    }
    let state = registry.state(slot);
    assert_eq!(rt; state, model.state(slot));
    match state {
        SlotState::Leaving => {
            let settled = registry.settle(slot);
            model.settle(slot);
            let deleted = model.is_deleted_at(model.place, model.place);
            assert_eq!(rt; settled == Settled::Deleted, deleted);
            true
        }
        _ => false,
    }
}

fn snap(
    rt: &impl Abort,
    registry: &mut Registry,
    model: &mut Model,
    walker: u8,
) -> Result<bool, AllocError> {
    if walker >= registry.walkers() || registry.clock() == u64::MAX {
        return Ok(false);
    }
    let walking = registry.is_walking(walker);
    assert_eq!(rt; walking, model.is_walking(walker));
    if walking {
        return Ok(false);
    }
    registry.snap(walker);
    model.snap(walker)?;
    Ok(true)
}

fn unsnap(
    rt: &impl Abort,
    alloc: Global,
    registry: &mut Registry,
    model: &mut Model,
    walker: u8,
) -> Result<bool, AllocError> {
    if walker >= registry.walkers() || registry.clock() == u64::MAX {
        return Ok(false);
    }
    if !registry.is_walking(walker) {
        return Ok(false);
    }
    let deleted = registry.unsnap(walker);
    let expected = model.unsnap(alloc, walker)?;
    assert_eq!(rt; deleted.as_slice(), expected.as_slice());
    Ok(true)
}

// The head, and of these slots the states and nexts.
fn compare(rt: &impl Abort, registry: &Registry, model: &Model, from: u16, to: u16) {
    assert_eq!(rt; registry.clock(), model.place);
    assert_eq!(rt; registry.head(), model.head());
    for slot in from..to.min(256) {
        let state = registry.state(slot);
        assert_eq!(rt; state, model.state(slot), "slot {slot}");
        match state {
            SlotState::Linked | SlotState::Leaving | SlotState::Queued => {
                assert_eq!(rt; registry.next(slot), model.next(slot), "behind {slot}");
            }
            _ => {}
        }
    }
}

// Does these actions on an empty registry of three slots, and says how many met their conditions.
fn run(rt: &impl Abort, alloc: Global, numbers: &[u32]) -> Result<usize, AllocError> {
    let mut registry = Registry::new(2);
    let mut model = Model::new(alloc);
    for (done, number) in numbers.iter().enumerate() {
        let action = action_of(*number, 3, 2);
        if *number == 0 && model.in_use() >= 3 {
            return Ok(done);
        }
        if !act(rt, alloc, &mut registry, &mut model, action)? {
            return Ok(done);
        }
    }
    compare(rt, &registry, &model, 0, 3);
    Ok(numbers.len())
}

// The next list of six numbers below seventeen that differs from this one up to a place.
fn advance(numbers: &mut [u32; 6], place: usize) -> bool {
    let mut at = 6usize;
    for number in numbers.iter_mut().rev() {
        at = at.saturating_sub(1);
        if at <= place && *number < 16 {
            *number += 1;
            return true;
        }
        *number = 0;
    }
    false
}

#[test]
fn short_lists_agree_with_the_model(rt: HostRuntime) -> Result<(), Fail> {
    let alloc = rt.alloc();
    for length in 1..7usize {
        let mut numbers = [0u32; 6];
        for _ in 0..10_000_000u32 {
            let done = run(&rt, alloc, &numbers[..length])?;
            if !advance(&mut numbers, done.min(length - 1)) {
                break;
            }
        }
    }
    Ok(())
}

#[test]
fn long_lists_agree_with_the_model(rt: HostRuntime) -> Result<(), Fail> {
    let alloc = rt.alloc();
    for seed in 0..4u64 {
        let mut random = Pcg32::new(seed, 54);
        let mut registry = Registry::new(16);
        let mut model = Model::new(alloc);
        for step in 0..6000u32 {
            let few = if step < 1500 { 2 } else { 6 };
            let number = match random.next_word() % few {
                0 => 0,
                1 => 1 + 256 + random.next_word() % 256,
                _ => 1 + random.next_word() % (4 * 256 + 2 * 16),
            };
            act(
                &rt,
                alloc,
                &mut registry,
                &mut model,
                action_of(number, 256, 16),
            )?;
            let slot = (random.next_word() % 256) as u16;
            compare(&rt, &registry, &model, slot, slot + 1);
        }
        compare(&rt, &registry, &model, 0, 256);
    }
    Ok(())
}

fn tracked(rt: &impl Abort, registry: &mut Registry) -> u16 {
    assert!(rt; registry.clock() < u64::MAX);
    match registry.reserve() {
        Ok((slot, _)) => {
            assert!(rt; registry.clock() < u64::MAX);
            registry.track(slot);
            slot
        }
        Err(_) => panic!(rt; "no slot is free"),
    }
}

fn given_up(rt: &impl Abort, registry: &mut Registry, slot: u16) -> Settled {
    assert!(rt; slot < 256);
    assert!(rt; registry.clock() < u64::MAX);
    assert_eq!(rt; registry.state(slot), SlotState::Linked);
    registry.unlink(slot);
    assert!(rt; registry.clock() < u64::MAX);
    registry.settle(slot)
}

fn begin(rt: &impl Abort, registry: &mut Registry, walker: u8) {
    assert!(rt; walker < registry.walkers());
    assert!(rt; registry.clock() < u64::MAX);
    assert!(rt; !registry.is_walking(walker));
    registry.snap(walker);
}

fn end(rt: &impl Abort, registry: &mut Registry, walker: u8) -> ArrayVec<u16, 256> {
    assert!(rt; walker < 16);
    assert!(rt; registry.clock() < u64::MAX);
    assert!(rt; registry.is_walking(walker));
    registry.unsnap(walker)
}

fn behind(rt: &impl Abort, registry: &Registry, slot: u16) -> Option<u16> {
    assert!(rt; slot < 256);
    let state = registry.state(slot);
    match state {
        SlotState::Linked | SlotState::Leaving | SlotState::Queued => registry.next(slot),
        _ => panic!(rt; "slot {slot} is {state:?}"),
    }
}

#[test]
fn snapshots_hold_what_is_settled_after_them(rt: HostRuntime) {
    for first_ends_first in [true, false] {
        let mut registry = Registry::new(2);
        let one = tracked(&rt, &mut registry);
        let two = tracked(&rt, &mut registry);
        begin(&rt, &mut registry, 0);
        assert_eq!(rt; given_up(&rt, &mut registry, one), Settled::Queued);
        begin(&rt, &mut registry, 1);
        assert_eq!(rt; given_up(&rt, &mut registry, two), Settled::Queued);
        if first_ends_first {
            assert_eq!(rt; end(&rt, &mut registry, 0).as_slice(), [one].as_slice());
            assert_eq!(rt; end(&rt, &mut registry, 1).as_slice(), [two].as_slice());
        } else {
            assert_eq!(rt; end(&rt, &mut registry, 1).len(), 0);
            assert_eq!(rt;
                end(&rt, &mut registry, 0).as_slice(),
                [one, two].as_slice()
            );
        }
    }
}

#[test]
fn walk_goes_on_from_records_that_left(rt: HostRuntime) {
    let mut registry = Registry::new(1);
    let one = tracked(&rt, &mut registry);
    let two = tracked(&rt, &mut registry);
    let three = tracked(&rt, &mut registry);
    begin(&rt, &mut registry, 0);
    assert_eq!(rt; registry.head(), Some(three));
    assert_eq!(rt; given_up(&rt, &mut registry, three), Settled::Queued);
    let four = tracked(&rt, &mut registry);
    assert_eq!(rt; behind(&rt, &registry, three), Some(two));
    assert_eq!(rt; given_up(&rt, &mut registry, two), Settled::Queued);
    assert_eq!(rt; behind(&rt, &registry, two), Some(one));
    assert_eq!(rt; behind(&rt, &registry, one), None);
    assert_eq!(rt; registry.head(), Some(four));
    assert_eq!(rt; behind(&rt, &registry, four), Some(one));
}

#[test]
fn full_registry_refuses(rt: HostRuntime) {
    let mut registry = Registry::new(0);
    for _ in 0..256u32 {
        tracked(&rt, &mut registry);
    }
    assert!(rt; registry.clock() < u64::MAX);
    assert_eq!(rt; registry.reserve(), Err(RecordsFull { in_use: 256 }));
    assert_eq!(rt; given_up(&rt, &mut registry, 7), Settled::Deleted);
    assert!(rt; registry.clock() < u64::MAX);
    assert_eq!(rt; registry.state(7), SlotState::Clearing);
    registry.free(7);
    assert!(rt; registry.clock() < u64::MAX);
    assert_eq!(rt; registry.reserve(), Ok((7, 257)));
}
