//! Quoted texts with their escapes and counts.
ghost use Rattle.std.specs.Prelude.{◌≡◌, ◌<◌, ◌≤◌, true, length, take, IfSome, Ok};
ghost use Rattle.std.specs.List.{list_all};
ghost use Rattle.script_words.specs.Reading.{Gives};
ghost use Rattle.script_words.specs.declared.texts.Mode.TheVariants.{Plain};
ghost use Rattle.script_words.specs.Texts.{hex_value, stands_for_itself, scan, piece_at, with_front, times_at, quoted_at, text_at};

use crate::fault::{Cause, Refused};
use crate::numbers::decimal;
use plain_cord::{Items, Text};
use std::alloc::Global;

/// What stands before a byte of a text, of the piece that it belongs to.
#[derive(Clone, Copy)]
pub enum Mode {
    /// Nothing.
    Plain,
    /// A backslash.
    Escape,
    /// A backslash and `x`.
    High,
    /// A backslash, `x` and this digit.
    Low(u8),
}

/// What a byte of a text does.
pub enum Scan {
    /// It is the closing quote.
    Closed,
    /// It is part of an escape that goes on.
    Goes(Mode),
    /// It ends a piece that stands for this byte.
    Byte(u8),
    /// It can't stand there.
    Fault,
}

/// The value of a digit `0` to `9` or `a` to `f`.
fn hex_digit(c: u8) -> Option<u8>
    ensures value { result ≡ hex_value c }
    ensures small { IfSome result (λ v. v < 16) }
{
    match c {
        48..=57 => Some(c - 48),
        97..=102 => Some(c - 87),
        _ => None,
    }
}

/// What the byte does behind what stands before it.
fn scan_byte(mode: Mode, c: u8) -> Scan
    ensures { result ≡ scan mode c }
{
    match mode {
        Mode::Plain => match c {
            34 => Scan::Closed,
            92 => Scan::Goes(Mode::Escape),
            32..=126 => Scan::Byte(c),
            _ => Scan::Fault,
        },
        Mode::Escape => match c {
            34 | 92 => Scan::Byte(c),
            110 => Scan::Byte(10),
            120 => Scan::Goes(Mode::High),
            _ => Scan::Fault,
        },
        Mode::High => match hex_digit(c) {
            None => Scan::Fault,
            Some(_) => Scan::Goes(Mode::Low(c)),
        },
        Mode::Low(high) => match (hex_digit(high), hex_digit(c)) {
            (Some(h), Some(l)) => Scan::Byte(16 * h + l),
            _ => Scan::Fault,
        },
    }
}

/// Whether the byte is its own spelling.
fn is_plain(c: u8) -> bool
    ensures { result ≡ stands_for_itself c }
{
    (32 <= c) & (c <= 126) & (c != 34) & (c != 92)
}

/// Whether each byte is its own spelling. It goes on behind one that isn't, so that many bytes can be tested at once.
fn all_plain(bytes: &[u8]) -> bool
    ensures { result ≡ list_all stands_for_itself bytes.now }
{
    let mut all = true;
    for c in bytes {
        all = all & is_plain(*c);
    }
    all
}

/// So many bytes in front that stand for themselves: those that are known to, and some blocks of `N`, each tested at once.
fn plain_blocks<const N: usize>(bytes: &[u8], known: usize) -> usize
    requires some { 0 < N }
    requires within { known ≤ length bytes.now }
    requires plain { list_all stands_for_itself (take known bytes.now) ≡ true }
    ensures within { result ≤ length bytes.now }
    ensures plain { list_all stands_for_itself (take result bytes.now) ≡ true }
{
    let mut run = known;
    while bytes.len() - run >= N && all_plain(&bytes[run..run + N]) {
        run += N;
    }
    run
}

/// All bytes in front that stand for themselves: large blocks, then small ones, then one after the other.
fn plain_run(bytes: &[u8]) -> usize
    ensures within { result ≤ length bytes.now }
    ensures plain { list_all stands_for_itself (take result bytes.now) ≡ true }
{
    let mut run = plain_blocks::<8>(bytes, plain_blocks::<64>(bytes, 0));
    while run < bytes.len() && is_plain(bytes[run]) {
        run += 1;
    }
    run
}

/// The bytes up to the closing quote, behind those in front, and what stands behind it.
fn read_behind(front: Items<u8>, bytes: &[u8]) -> Result<(Items<u8>, &[u8]), Refused>
    ensures { Gives (λ x. (x.0, x.1.now)) result (with_front front (piece_at Plain bytes.now)) }
{
    let mut piece = front;
    let mut mode = Mode::Plain;
    for (i, c) in bytes.iter().enumerate() {
        match scan_byte(mode, *c) {
            Scan::Closed => return Ok((piece, &bytes[i + 1..])),
            Scan::Goes(next) => {
                mode = next;
            }
            Scan::Byte(b) => {
                piece.push(b)?;
                mode = Mode::Plain;
            }
            Scan::Fault => return Err(Refused::Fault(Cause::Text)),
        }
    }
    Err(Refused::Fault(Cause::Text))
}

/// The same, at once where the closing quote comes next.
fn read_on(front: Items<u8>, bytes: &[u8]) -> Result<(Items<u8>, &[u8]), Refused>
    ensures { Gives (λ x. (x.0, x.1.now)) result (with_front front (piece_at Plain bytes.now)) }
{
    match bytes {
        [b'"', rest @ ..] => Ok((front, rest)),
        _ => read_behind(front, bytes),
    }
}

/// The bytes up to the closing quote, and what stands behind it. Those before the first escape are copied at once.
fn read_piece(alloc: Global, bytes: &[u8]) -> Result<(Items<u8>, &[u8]), Refused>
    ensures { Gives (λ x. (x.0, x.1.now)) result (piece_at Plain bytes.now) }
{
    let run = plain_run(bytes);
    let front = Items::from_slice(alloc, &bytes[..run])?;
    read_on(front, &bytes[run..])
}

/// How often the bytes stand: once, or the count behind `*`.
fn read_times(rest: &[u8]) -> Result<u32, Refused>
    ensures { Gives (λ n. n) result (times_at rest.now) }
{
    match rest {
        [] => Ok(1),
        [42, digits @ ..] => match decimal(digits) {
            None => Err(Refused::Fault(Cause::Text)),
            Some(n) => {
                if n < 1 || 1048576 < n {
                    return Err(Refused::Fault(Cause::Text));
                }
                Ok(n as u32)
            }
        },
        [_, ..] => Err(Refused::Fault(Cause::Text)),
    }
}

/// The bytes between quotes, and what stands behind them.
fn read_quoted(alloc: Global, part: &[u8]) -> Result<(Items<u8>, &[u8]), Refused>
    ensures { Gives (λ x. (x.0, x.1.now)) result (quoted_at part.now) }
{
    match part {
        [34, rest @ ..] => read_piece(alloc, rest),
        _ => Err(Refused::Fault(Cause::Text)),
    }
}

/// A text of at least `least` bytes and 1,048,576 at most.
#[tactic(auto, unfolding(crate::specs::Texts::text_at))]
pub fn read_text(alloc: Global, least: u64, part: &[u8]) -> Result<Text, Refused>
    ensures { Gives (λ t. t) result (text_at least part.now) }
{
    let (piece, rest) = read_quoted(alloc, part)?;
    let times = read_times(rest)?;
    if piece.len() > 1048576 {
        return Err(Refused::Fault(Cause::Text));
    }
    let length = piece.len() * times as usize;
    if length < least as usize || length > 1048576 {
        return Err(Refused::Fault(Cause::Text));
    }
    Ok(Text { piece, times })
}
