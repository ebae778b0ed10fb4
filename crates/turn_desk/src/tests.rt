ghost use Rattle.std.specs.Prelude.{◌≡◌, ◌<◌, ◌≤◌, ⊤, true, length, vec_len, IfOk};
ghost use Rattle.turn_desk.specs.Passes.{desk_places, IsOf, IsSamePass, IsIdle};

use super::*;
use std::alloc::{AllocError, Global};
use std::sync::Wait;
use std::sync::atomic::Ordering;
use std::test::Fail;
use std::thread;

// A rule that allows everything.
struct Anything;

impl DeskRule for Anything {
    type Value = u64;

    type View = bool;

    type About = bool;

    ghost first = { λ _. true };

    ghost nobody = { true };

    ghost agrees = { λ _ _. ⊤ };

    ghost leaves = { λ _ _ _ _ _. ⊤ };

    ghost splits = { λ _ _ _. ⊤ };

    ghost merges = { λ _ _ _. ⊤ };

    ghost taking_agrees = { λ _ _ _ _ _ _. tt };

    ghost leaving_agrees = { λ _ _ _ _ _ _ _ _ _ _ _ _. tt };

    ghost split_agrees = { λ _ _ _ _ _ _ _ _ _. tt };

    ghost merge_agrees = { λ _ _ _ _ _ _ _ _ _ _ _ _. tt };
}

struct Either;

impl Split<bool> for Either {
    ghost left = { λ v. v };

    ghost right = { λ v. v };
}

impl Join<bool> for Either {
    ghost both = { λ v _. v };

    ghost spent = { true };
}

fn started(
    alloc: Global,
    values: Vec<u64>,
) -> Result<(Desk<Anything>, DeskPass<Anything>), AllocError>
    requires some { 0 < vec_len values }
    requires many { vec_len values ≤ 65536 }
    ensures desk { IfOk result (λ d. desk_places d.0 ≡ length values.items) }
    ensures pass { IfOk result (λ d. IsOf d.0 d.1 × IsIdle d.1) }
{
    match Desk::<Anything>::start(alloc, values, &true) {
        Ok(desk) => Ok(desk),
        Err(DeskRefused { values: _ }) => Err(AllocError),
    }
}

// The value of place 1, or the word of its turn.
fn tried(desk: &Desk<Anything>, pass: &mut DeskPass<Anything>) -> Result<u64, u64>
    requires desk { IsOf desk.now pass.old × (1 < desk_places desk.now) }
    requires idle { IsIdle pass.old }
    ensures { IsSamePass pass.old pass.new × IsIdle pass.new }
{
    match desk.try_enter(pass, 1) {
        Ok(mut turn) => {
            let value = *turn.value();
            desk.exit(pass, turn);
            Ok(value)
        }
        Err(busy) => Err(busy.found),
    }
}

fn added<R: Wait>(rt: &R, desk: &Desk<Anything>, pass: &mut DeskPass<Anything>)
    requires desk { IsOf desk.now pass.old × (0 < desk_places desk.now) }
    requires idle { IsIdle pass.old }
    ensures { IsSamePass pass.old pass.new × IsIdle pass.new }
{
    for _ in 0..2000u64 {
        let mut turn = desk.enter(rt, pass, 0);
        let value = turn.value();
        *value = value.saturating_add(1);
        desk.exit(pass, turn);
    }
}

#[test]
fn taken_turn_is_busy_for_another_pass_until_it_is_left(rt: HostRuntime) -> Result<(), Fail> {
    let (desk, mut first) = started(rt.alloc(), vec![in rt.alloc(); 7u64, 9]?)?;
    let mut second = desk.split::<Either>(&mut first);
    let mut turn = desk.enter(&rt, &mut first, 1);
    *turn.value() = 10;
    assert_eq!(rt; tried(&desk, &mut second), Err(1));
    desk.exit(&mut first, turn);
    assert_eq!(rt; tried(&desk, &mut second), Ok(10));
    desk.merge::<Either>(&mut first, second);
    let values = desk.close(first);
    assert_eq!(rt; values.as_slice(), [Some(7), Some(10)].as_slice());
    Ok(())
}

#[test]
fn threads_that_wait_for_a_turn_all_have_theirs(rt: HostRuntime) -> Result<(), Fail> {
    let (desk, mut first) = started(rt.alloc(), vec![in rt.alloc(); 0u64]?)?;
    let mut second = desk.split::<Either>(&mut first);
    let last = desk.split::<Either>(&mut first);
    thread::join(
        &rt,
        || added(&rt, &desk, &mut first),
        || added(&rt, &desk, &mut second),
    );
    assert_eq!(rt; desk.close(last).as_slice(), [Some(4000)].as_slice());
    Ok(())
}

// Takes the turn, and leaves it once another pass sleeps.
fn left_late<R: Wait>(rt: &R, desk: &Desk<Anything>, pass: &mut DeskPass<Anything>)
    requires desk { IsOf desk.now pass.old × (0 < desk_places desk.now) }
    requires idle { IsIdle pass.old }
    ensures { IsSamePass pass.old pass.new × IsIdle pass.new }
{
    let turn = desk.enter(rt, pass, 0);
    for _ in 0..100_000u32 {
        if desk.sleepers.load(Ordering::SeqCst) > 0 {
            break;
        }
        thread::yield_now();
    }
    // The other pass was about to sleep. Now it does.
    for _ in 0..1000u32 {
        thread::yield_now();
    }
    desk.exit(pass, turn);
}

// Waits for a turn that was found taken.
fn entered_behind<R: Wait>(rt: &R, desk: &Desk<Anything>, pass: &mut DeskPass<Anything>)
    requires desk { IsOf desk.now pass.old × (0 < desk_places desk.now) }
    requires idle { IsIdle pass.old }
    ensures { IsSamePass pass.old pass.new × IsIdle pass.new }
{
    for _ in 0..100_000u32 {
        match desk.try_enter(pass, 0) {
            Ok(turn) => desk.exit(pass, turn),
            Err(_) => break,
        }
        thread::yield_now();
    }
    let turn = desk.enter(rt, pass, 0);
    desk.exit(pass, turn);
}

// Without the call that wakes, the second thread sleeps for ever.
#[test]
fn sleeping_thread_is_woken(rt: HostRuntime) -> Result<(), Fail> {
    let (desk, mut first) = started(rt.alloc(), vec![in rt.alloc(); 3u64]?)?;
    let mut second = desk.split::<Either>(&mut first);
    let last = desk.split::<Either>(&mut first);
    thread::join(
        &rt,
        || left_late(&rt, &desk, &mut first),
        || entered_behind(&rt, &desk, &mut second),
    );
    assert_eq!(rt; desk.close(last).as_slice(), [Some(3)].as_slice());
    Ok(())
}
