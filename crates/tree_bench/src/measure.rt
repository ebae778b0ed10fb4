//! Times of questions to cords and of changes of them, beside those of bytes in one piece.
ghost use Rattle.std.specs.Prelude.{◌≡◌, ◌<◌, ◌≤◌, length};
ghost use Rattle.pool_rule.specs.Trades.{SameHolds};
ghost use Rattle.node_pool.specs.Opened.{opened_table, opened_numbers, opened_passes, opened_workers, opened_boxes};

use crate::changes::{change, change_text};
use crate::cords::{self, Boxes, Subject, cord_of};
use crate::plan::{Change, Question, Shape};
use crate::texts::{self, block, long_run, repeated};
use bench_laps::{Lap, median, picos};
use cord_value::{Cord, CordError};
use node_pool::{Naming, Opened, Pool, Worker};
use std::alloc::{AllocError, Global};
use std::io;
use std::marker::Brand;
use std::time::{Clock, Instant};

/// How often each is done in a run, and how many runs there are.
#[derive(Clone, Copy)]
pub struct Effort {
    pub rounds: u32,
    pub runs: u32,
}

/// The medians of the cord's and the yardstick's times in picoseconds, the cord's length, and whether all answers were those of the bytes.
#[derive(Clone, Copy)]
pub struct Measured {
    pub cord: u64,
    pub text: u64,
    pub size: u64,
    pub agree: bool,
}

fn refused(_error: CordError) -> io::Error {
    io::Error::from(io::ErrorKind::Other)
}

// Asks the cord so often: the time, and the answer.
fn lap_of_cord<P: Naming, R: Clock>(
    rt: &R,
    alloc: Global,
    subject: &Subject<'_, P>,
    question: Question,
    rounds: u32,
) -> (Lap, u64) {
    let mut answer = 0;
    let begin = Instant::now(rt);
    for _ in 0..rounds {
        answer = cords::ask(alloc, subject, question);
    }
    let end = Instant::now(rt);
    (Lap::between(begin, end, true), answer)
}

// The same of the bytes.
fn lap_of_text<R: Clock>(
    rt: &R,
    alloc: Global,
    text: &[u8],
    other: &[u8],
    size: u64,
    question: Question,
    rounds: u32,
) -> Result<(Lap, u64), AllocError> {
    let mut answer = 0;
    let begin = Instant::now(rt);
    for _ in 0..rounds {
        answer = texts::ask(alloc, text, other, size, question)?;
    }
    let end = Instant::now(rt);
    Ok((Lap::between(begin, end, true), answer))
}

// Asks the cord and the bytes in turns.
fn ask_both<P: Naming, R: Clock>(
    rt: &R,
    alloc: Global,
    subject: &Subject<'_, P>,
    other: &[u8],
    question: Question,
    effort: Effort,
) -> io::Result<Measured> {
    let Effort { rounds, runs } = effort;
    let size = subject.cord.len();
    let mut cords = Vec::new(alloc);
    let mut texts = Vec::new(alloc);
    let mut agree = true;
    for _ in 0..runs {
        let (lap, answer) = lap_of_cord(rt, alloc, subject, question, rounds);
        cords.push(picos(lap, rounds)?)?;
        let (lap, wanted) = lap_of_text(rt, alloc, subject.text, other, size, question, rounds)?;
        texts.push(picos(lap, rounds)?)?;
        agree = agree && answer == wanted;
    }
    let (cord, text) = (median(cords)?, median(texts)?);
    Ok(Measured {
        cord,
        text,
        size,
        agree,
    })
}

/// How often the block stands in the yardstick's bytes: at most 64 MiB of them are made.
fn times_of(shape: Shape) -> u32 {
    1u32.wrapping_shl(shape.doublings.min(10))
}

fn asked<P: Naming, R: Clock>(
    rt: &R,
    alloc: Global,
    opened: Opened<Boxes>,
    shape: Shape,
    question: Question,
    effort: Effort,
) -> io::Result<Measured>
    requires letters { (0 < shape.letters) × (shape.letters ≤ 25) }
    requires table { opened_table opened ≡ P.table }
    requires numbers { opened_numbers opened ≡ P.size }
    requires passes { opened_passes opened ≡ P.limit }
    requires boxes { opened_boxes opened ≡ P.boxes }
    requires workers { (opened_workers opened ≡ P.workers) × (P.workers ≡ 1) }
{
    let Shape {
        kind,
        letters,
        doublings,
    } = shape;
    let block = block(alloc, letters)?;
    let text = repeated(alloc, block.as_slice(), times_of(shape))?;
    let other_text = repeated(alloc, block.as_slice(), times_of(shape))?;
    let long = long_run(alloc)?;
    let (pool, mut workers) = opened.named::<P>(alloc).map_err(|_| AllocError)?;
    let w = &mut workers[0];
    let mut cord = cord_of(alloc, &pool, w, kind, block.as_slice(), doublings).map_err(refused)?;
    let other = if question == Question::CompareCopy {
        cord.copy(&pool, w)
    } else {
        cord_of(alloc, &pool, w, kind, block.as_slice(), doublings)
    };
    let other = other.map_err(refused)?;
    let subject = Subject {
        cord: &cord,
        other: &other,
        text: text.as_slice(),
        long: long.as_slice(),
    };
    let measured = ask_both(rt, alloc, &subject, other_text.as_slice(), question, effort)?;
    other.release(&pool, w);
    cord.release(&pool, w);
    Ok(measured)
}

/// Asks a cord of this shape in a pool of its own.
pub fn ask<R: Clock>(
    rt: &R,
    alloc: Global,
    shape: Shape,
    question: Question,
    effort: Effort,
) -> io::Result<Measured>
    requires letters { (0 < shape.letters) × (shape.letters ≤ 25) }
{
    let opened = Opened::start(alloc, 16_384, 16, 1, Vec::new(alloc)).map_err(|_| AllocError)?;
    asked::<Brand, R>(rt, alloc, opened, shape, question, effort)
}

// Changes the cord so often: the time, and how many bytes were left.
fn lap_of_changes<P: Naming, R: Clock>(
    rt: &R,
    alloc: Global,
    pool: &Pool<P, Boxes>,
    w: &mut Worker<P>,
    cord: &mut Cord<P>,
    what: Change,
    rounds: u32,
) -> Result<(Lap, u64), CordError>
    requires room { length w.old.holds ≤ 96 }
    ensures same { SameHolds w.old.holds w.new.holds }
{
    let mut left = 0;
    let begin = Instant::now(rt);
    for _ in 0..rounds {
        match change(alloc, pool, w, cord, what) {
            Ok(size) => left = size,
            Err(error) => return Err(error),
        }
    }
    let end = Instant::now(rt);
    Ok((Lap::between(begin, end, true), left))
}

// The same of the bytes.
fn lap_of_slices<R: Clock>(
    rt: &R,
    alloc: Global,
    text: &[u8],
    what: Change,
    rounds: u32,
) -> Result<(Lap, u64), AllocError> {
    let mut left = 0;
    let begin = Instant::now(rt);
    for _ in 0..rounds {
        left = change_text(alloc, text, what)?;
    }
    let end = Instant::now(rt);
    Ok((Lap::between(begin, end, true), left))
}

// Changes the cord and the bytes in turns.
fn change_both<P: Naming, R: Clock>(
    rt: &R,
    alloc: Global,
    pool: &Pool<P, Boxes>,
    w: &mut Worker<P>,
    cord: &mut Cord<P>,
    text: &[u8],
    what: Change,
    effort: Effort,
) -> io::Result<Measured>
    requires room { length w.old.holds ≤ 96 }
{
    let Effort { rounds, runs } = effort;
    let mut cords = Vec::new(alloc);
    let mut texts = Vec::new(alloc);
    let mut agree = true;
    let size = cord.len();
    for _ in 0..runs {
        let (lap, left) = match lap_of_changes(rt, alloc, pool, w, cord, what, rounds) {
            Ok(done) => done,
            Err(error) => return Err(refused(error)),
        };
        cords.push(picos(lap, rounds)?)?;
        let (lap, wanted) = lap_of_slices(rt, alloc, text, what, 1)?;
        texts.push(picos(lap, 1)?)?;
        agree = agree && (left == wanted || size > text.len() as u64);
    }
    let (cord, text) = (median(cords)?, median(texts)?);
    Ok(Measured {
        cord,
        text,
        size,
        agree,
    })
}

fn changed<P: Naming, R: Clock>(
    rt: &R,
    alloc: Global,
    opened: Opened<Boxes>,
    shape: Shape,
    what: Change,
    effort: Effort,
) -> io::Result<Measured>
    requires letters { (0 < shape.letters) × (shape.letters ≤ 25) }
    requires table { opened_table opened ≡ P.table }
    requires numbers { opened_numbers opened ≡ P.size }
    requires passes { opened_passes opened ≡ P.limit }
    requires boxes { opened_boxes opened ≡ P.boxes }
    requires workers { (opened_workers opened ≡ P.workers) × (P.workers ≡ 1) }
{
    let Shape {
        kind,
        letters,
        doublings,
    } = shape;
    let block = block(alloc, letters)?;
    let text = repeated(alloc, block.as_slice(), times_of(shape))?;
    let (pool, mut workers) = opened.named::<P>(alloc).map_err(|_| AllocError)?;
    let w = &mut workers[0];
    let mut cord = match cord_of(alloc, &pool, w, kind, block.as_slice(), doublings) {
        Ok(cord) => cord,
        Err(error) => return Err(refused(error)),
    };
    change_both(
        rt,
        alloc,
        &pool,
        w,
        &mut cord,
        text.as_slice(),
        what,
        effort,
    )
}

/// Changes a cord of this shape in a pool of its own.
pub fn change_cord<R: Clock>(
    rt: &R,
    alloc: Global,
    shape: Shape,
    what: Change,
    effort: Effort,
) -> io::Result<Measured>
    requires letters { (0 < shape.letters) × (shape.letters ≤ 25) }
{
    let opened = Opened::start(alloc, 16_384, 16, 1, Vec::new(alloc)).map_err(|_| AllocError)?;
    changed::<Brand, R>(rt, alloc, opened, shape, what, effort)
}
