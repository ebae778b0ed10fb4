//! Questions on cords. They change nothing.
ghost use Rattle.std.specs.Prelude.{◌≡◌, IfOk};
ghost use Rattle.plain_cord.specs.declared.script.Command.TheVariants as commands;
ghost use Rattle.plain_cord.specs.Outcomes.{yes_or_no};
ghost use Rattle.cord_commands.specs.declared.answer.Answer.TheVariants as answers;
ghost use Rattle.cord_commands.specs.Asked.{IsToldBy};

use crate::answer::{Answer, told, unset};
use crate::printing::first_bytes;
use crate::texts::TextBytes;
use cord_query::{at, compare, ends_with, find, starts_with};
use cord_value::Cord;
use node_pool::Naming;
use ordered_names::Names;
use plain_cord::{Items, MOST_SHOWN, Reply, Text};
use std::alloc::{AllocError, Global};
use std::cmp::Ordering;

/// How many bytes a cord has.
pub fn size<P: Naming>(
    alloc: Global,
    names: &Names<'_, Cord<P>>,
    a: &[u8],
) -> Result<Answer, AllocError>
    ensures { IfOk result (λ answer. IsToldBy names.now (commands.Size a.now) answer) }
{
    match names.find(a) {
        None => unset(alloc, a),
        Some(cord) => Ok(told(Reply::Number { value: cord.len() })),
    }
}

/// The expected sum of a cord.
pub fn sum<P: Naming>(
    alloc: Global,
    names: &Names<'_, Cord<P>>,
    a: &[u8],
) -> Result<Answer, AllocError>
    ensures { IfOk result (λ answer. IsToldBy names.now (commands.Sum a.now) answer) }
{
    let Some(cord) = names.find(a) else {
        return unset(alloc, a);
    };
    match cord.sum() {
        None => Ok(told(Reply::None)),
        Some(value) => Ok(told(Reply::Sum { value })),
    }
}

/// The first bytes of a cord, and how many more follow.
pub fn print<P: Naming>(
    alloc: Global,
    names: &Names<'_, Cord<P>>,
    a: &[u8],
) -> Result<Answer, AllocError>
    ensures { IfOk result (λ answer. IsToldBy names.now (commands.Print a.now) answer) }
{
    let Some(cord) = names.find(a) else {
        return unset(alloc, a);
    };
    let size = cord.len();
    let bytes = first_bytes(alloc, cord, MOST_SHOWN)?;
    let text = Items::from_slice(alloc, bytes.as_slice())?;
    let more = size.saturating_sub(MOST_SHOWN as u64);
    Ok(told(Reply::Shown { text, more }))
}

/// The byte at a place.
pub fn byte<P: Naming>(
    alloc: Global,
    names: &Names<'_, Cord<P>>,
    a: &[u8],
    i: u64,
) -> Result<Answer, AllocError>
    ensures { IfOk result (λ answer. IsToldBy names.now (commands.At a.now i) answer) }
{
    let Some(cord) = names.find(a) else {
        return unset(alloc, a);
    };
    match at(cord, i) {
        Ok(byte) => Ok(told(Reply::Number {
            value: u64::from(byte),
        })),
        Err(_) => Ok(told(Reply::Position {
            asked: i,
            size: cord.len(),
        })),
    }
}

/// The least place of a text.
pub fn place<P: Naming>(
    alloc: Global,
    names: &Names<'_, Cord<P>>,
    a: &[u8],
    text: &Text,
) -> Result<Answer, AllocError>
    ensures { IfOk result (λ answer. IsToldBy names.now (commands.Find a.now text.now) answer) }
{
    let Some(cord) = names.find(a) else {
        return unset(alloc, a);
    };
    let needle = TextBytes::of_text(alloc, text)?;
    match find(cord, needle.as_slice()) {
        None => Ok(told(Reply::None)),
        Some(value) => Ok(told(Reply::Number { value })),
    }
}

/// The order of two cords.
pub fn order<P: Naming>(
    alloc: Global,
    names: &Names<'_, Cord<P>>,
    a: &[u8],
    b: &[u8],
) -> Result<Answer, AllocError>
    ensures { IfOk result (λ answer. IsToldBy names.now (commands.Compare a.now b.now) answer) }
{
    let Some(cord) = names.find(a) else {
        return unset(alloc, a);
    };
    let Some(other) = names.find(b) else {
        return unset(alloc, b);
    };
    match compare(cord, other) {
        Ordering::Less => Ok(told(Reply::Less)),
        Ordering::Equal => Ok(told(Reply::Equal)),
        Ordering::Greater => Ok(told(Reply::Greater)),
    }
}

fn yes_or_no(yes: bool) -> Answer
    ensures { result ≡ answers.Told (yes_or_no yes) }
{
    if yes {
        told(Reply::Yes)
    } else {
        told(Reply::No)
    }
}

/// Whether a cord begins with a text.
pub fn starts<P: Naming>(
    alloc: Global,
    names: &Names<'_, Cord<P>>,
    a: &[u8],
    text: &Text,
) -> Result<Answer, AllocError>
    ensures { IfOk result (λ answer. IsToldBy names.now (commands.Starts a.now text.now) answer) }
{
    let Some(cord) = names.find(a) else {
        return unset(alloc, a);
    };
    let bytes = TextBytes::of_text(alloc, text)?;
    Ok(yes_or_no(starts_with(cord, bytes.as_slice())))
}

/// Whether it ends with one.
pub fn ends<P: Naming>(
    alloc: Global,
    names: &Names<'_, Cord<P>>,
    a: &[u8],
    text: &Text,
) -> Result<Answer, AllocError>
    ensures { IfOk result (λ answer. IsToldBy names.now (commands.Ends a.now text.now) answer) }
{
    let Some(cord) = names.find(a) else {
        return unset(alloc, a);
    };
    let bytes = TextBytes::of_text(alloc, text)?;
    Ok(yes_or_no(ends_with(cord, bytes.as_slice())))
}
