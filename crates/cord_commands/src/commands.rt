//! The table of commands.
ghost use Rattle.std.specs.Prelude.{◌≡◌, ◌≤◌, length, None, false, IfOk, OnErr};
ghost use Rattle.plain_cord.specs.Outcomes.{asked_action};
ghost use Rattle.cord_steps.specs.Answers.{Plain};
ghost use Rattle.cord_steps.specs.Whole.{IsWithin};
ghost use Rattle.cord_steps.specs.Replies.{request_of};
ghost use Rattle.cord_commands.specs.Accounts.{trees_in, AddsUp, IsSteady};
ghost use Rattle.cord_commands.specs.Asked.{is_watch};
ghost use Rattle.cord_commands.specs.Does.{Does};
ghost use Rattle.cord_commands.specs.Places.{Places};
ghost use Rattle.cord_commands.specs.Slots.{external_by, SameSlots, Uses};
ghost use Rattle.cord_commands.specs.Views.{AreSame};

use crate::answer::Answer;
use crate::asking::{byte, ends, order, place, print, size, starts, sum};
use crate::changing::{change, set_sum};
use crate::edits::Edit;
use crate::external::set_external;
use crate::joining::join;
use crate::making::{clear, copy, set_text, sub};
use cord_port::Releaser;
use cord_value::Cord;
use node_pool::{Naming, Pool, Side, Worker};
use ordered_names::Names;
use plain_cord::Command;
use std::alloc::{AllocError, Global};

/// Does a command that needs neither a cell of the board nor the profiler. Its error is want of memory; the names are then as before.
#[tactic(auto, using(crate::proofs::Placing::ok_any))]
pub fn run_command<'a, P: Naming, B: Releaser>(
    alloc: Global,
    pool: &Pool<P, B>,
    w: &mut Worker<P>,
    names: &mut Names<'a, Cord<P>>,
    command: &'a Command,
) -> Result<Answer, AllocError>
    requires room { length w.old.holds ≤ 96 }
    requires within { IsWithin (Plain command.now) }
    requires apart { asked_action command.now ≡ None }
    requires plain { is_watch command.now ≡ false }
    ensures even { AddsUp w.old w.new (trees_in names.old) (trees_in names.new) }
    ensures slots { SameSlots w.old w.new }
    ensures does { IfOk result (λ answer. Does P.size P.limit names.old names.new w.old w.new (request_of command.now) answer) }
    ensures placed { IfOk result (λ answer. Places names.old names.new w.old w.new command.now answer) }
    ensures uses { IfOk result (λ answer. Uses w.old w.new (external_by command.now answer)) }
    ensures same { OnErr result (AreSame names.old names.new) }
{
    match command {
        Command::Ext { a, text } => set_external(alloc, pool, w, names, a.as_slice(), text),
        Command::Snap | Command::Walk | Command::Unsnap => unreachable!(),
        _ => run_own(alloc, pool, w, names, command),
    }
}

// Does one that needs no box of the session either.
#[tactic(auto, using(crate::proofs::Placing::ok_any))]
fn run_own<'a, P: Naming, B: Releaser>(
    alloc: Global,
    pool: &Pool<P, B>,
    w: &mut Worker<P>,
    names: &mut Names<'a, Cord<P>>,
    command: &'a Command,
) -> Result<Answer, AllocError>
    requires room { length w.old.holds ≤ 96 }
    requires within { IsWithin (Plain command.now) }
    requires apart { asked_action command.now ≡ None }
    requires own { request_of command.now ≡ Plain command.now }
    ensures steady { IsSteady w.old w.new (trees_in names.old) (trees_in names.new) }
    ensures does { IfOk result (λ answer. Does P.size P.limit names.old names.new w.old w.new (Plain command.now) answer) }
    ensures placed { IfOk result (λ answer. Places names.old names.new w.old w.new command.now answer) }
    ensures same { OnErr result (AreSame names.old names.new) }
{
    match command {
        Command::Let { a, text } => set_text(alloc, pool, w, names, a.as_slice(), text),
        Command::Copy { a, b } => copy(alloc, pool, w, names, a.as_slice(), b.as_slice()),
        Command::Sub { a, pos, n, b } => {
            sub(alloc, pool, w, names, a.as_slice(), *pos, *n, b.as_slice())
        }
        Command::Clear { a } => clear(alloc, pool, w, names, a.as_slice()),
        Command::Append { a, text } => {
            change(
                alloc,
                pool,
                w,
                names,
                a.as_slice(),
                Edit::Add(text, Side::Back),
            )
        }
        Command::Prepend { a, text } => {
            change(
                alloc,
                pool,
                w,
                names,
                a.as_slice(),
                Edit::Add(text, Side::Front),
            )
        }
        Command::Join { a, b } => {
            join(
                alloc,
                pool,
                w,
                names,
                a.as_slice(),
                b.as_slice(),
                Side::Back,
            )
        }
        Command::JoinFront { a, b } => {
            join(
                alloc,
                pool,
                w,
                names,
                a.as_slice(),
                b.as_slice(),
                Side::Front,
            )
        }
        Command::CutFront { a, n } => {
            change(alloc, pool, w, names, a.as_slice(), Edit::CutFront(*n))
        }
        Command::CutBack { a, n } => change(alloc, pool, w, names, a.as_slice(), Edit::CutBack(*n)),
        Command::SetSum { a, value } => set_sum(alloc, pool, w, names, a.as_slice(), *value),
        Command::Size { a } => size(alloc, names, a.as_slice()),
        Command::Sum { a } => sum(alloc, names, a.as_slice()),
        Command::Print { a } => print(alloc, names, a.as_slice()),
        Command::At { a, i } => byte(alloc, names, a.as_slice(), *i),
        Command::Find { a, text } => place(alloc, names, a.as_slice(), text),
        Command::Compare { a, b } => order(alloc, names, a.as_slice(), b.as_slice()),
        Command::Starts { a, text } => starts(alloc, names, a.as_slice(), text),
        Command::Ends { a, text } => ends(alloc, names, a.as_slice(), text),
        Command::Ext { .. }
        | Command::Put { .. }
        | Command::Take { .. }
        | Command::Peek { .. }
        | Command::Swap { .. }
        | Command::Snap
        | Command::Walk
        | Command::Unsnap => unreachable!(),
    }
}
