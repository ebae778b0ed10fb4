//! What the questions on one or two cords answer.
ghost use Rattle.std.specs.Prelude.{◌≡◌, ◌≤◌, IfOk, length, slice_get};
ghost use Rattle.plain_cord.specs.Outcomes.{shown, byte_or_position, sum_or_none, number_or_none, order_reply, yes_or_no};
ghost use Rattle.plain_cord.specs.Texts.{place_of};
ghost use Rattle.std.specs.Ordering.{nat_cmp};
ghost use Rattle.std.specs.Cmp.Lexicographic.{slice_cmp};
ghost use Rattle.plain_cord.specs.declared.limits.TheConstants.{MOST_BYTES};

use plain_cord::{Items, MOST_SHOWN, Reply, compare_bytes, first_place};
use std::alloc::{AllocError, Global};
use std::cmp::Ordering;

/// The first bytes, and how many more there are.
pub fn show(alloc: Global, bytes: &[u8]) -> Result<Reply, AllocError>
    ensures { IfOk result (λ reply. reply ≡ shown bytes.now) }
{
    if bytes.len() <= MOST_SHOWN {
        let text = Items::from_slice(alloc, bytes)?;
        return Ok(Reply::Shown { text, more: 0 });
    }
    let (first, rest) = bytes.split_at(MOST_SHOWN);
    let text = Items::from_slice(alloc, first)?;
    Ok(Reply::Shown {
        text,
        more: rest.len() as u64,
    })
}

/// The byte at a place.
pub fn byte_at(bytes: &[u8], i: u64) -> Reply
    requires { length bytes.now ≤ MOST_BYTES }
    ensures { result ≡ byte_or_position i (length bytes.now) (slice_get bytes.now i) }
{
    let size = bytes.len() as u64;
    if i >= size {
        return Reply::Position { asked: i, size };
    }
    Reply::Number {
        value: bytes[i as usize] as u64,
    }
}

/// The answer of `sum`.
pub fn sum_reply(sum: Option<u32>) -> Reply
    ensures { result ≡ sum_or_none sum }
{
    match sum {
        None => Reply::None,
        Some(value) => Reply::Sum { value },
    }
}

/// The least place of a needle.
pub fn place_reply(bytes: &[u8], needle: &[u8]) -> Reply
    ensures { result ≡ number_or_none (place_of bytes.now needle.now) }
{
    match first_place(bytes, needle) {
        None => Reply::None,
        Some(place) => Reply::Number {
            value: place as u64,
        },
    }
}

/// The answer of `compare`.
pub fn order_reply(a: &[u8], b: &[u8]) -> Reply
    ensures { result ≡ order_reply (slice_cmp nat_cmp a.now b.now) }
{
    match compare_bytes(a, b) {
        Ordering::Less => Reply::Less,
        Ordering::Equal => Reply::Equal,
        Ordering::Greater => Reply::Greater,
    }
}

/// The answer of `starts` and `ends`.
pub fn answer(yes: bool) -> Reply
    ensures { result ≡ yes_or_no yes }
{
    if yes { Reply::Yes } else { Reply::No }
}
