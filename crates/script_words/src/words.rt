//! Bytes, words and names of a line.
ghost use Rattle.std.specs.Prelude.{◌≡◌, Ok};
ghost use Rattle.std.specs.Option.{option_map};
ghost use Rattle.std.specs.List.{list_all};
ghost use Rattle.script_words.specs.Reading.{Gives, NeedsNoMemory};
ghost use Rattle.script_words.specs.Words.{cut, word_at, last_word_at, part_at, name_at, is_letter, is_digit, is_name_byte, is_shown, names};

use crate::fault::{Cause, Refused};
use memchr::memchr;
use plain_cord::Items;
use std::alloc::Global;

/// What stands before the first separator, and what behind it.
pub fn first_part(bytes: &[u8], separator: u8) -> (&[u8], Option<&[u8]>)
    ensures { (result.0.now, option_map (λ rest. rest.now) result.1) ≡ cut separator bytes.now }
{
    match memchr(separator, bytes) {
        None => (bytes, None),
        Some(i) => (&bytes[..i], Some(&bytes[i + 1..])),
    }
}

/// What stands before the first space, and what behind it. Words are short, so it goes byte by byte: a search takes longer to begin.
pub fn first_word(line: &[u8]) -> (&[u8], Option<&[u8]>)
    ensures { (result.0.now, option_map (λ rest. rest.now) result.1) ≡ cut 32 line.now }
{
    for (i, b) in line.iter().enumerate() {
        if *b == b' ' {
            return (&line[..i], Some(&line[i + 1..]));
        }
    }
    (line, None)
}

/// The next word of a line, and what stands behind its space.
pub fn take_word(rest: Option<&[u8]>) -> Result<(&[u8], Option<&[u8]>), Refused>
    ensures value { Gives (λ x. (x.0.now, option_map (λ rest. rest.now) x.1)) result (word_at (option_map (λ r. r.now) rest.entry)) }
    ensures free { NeedsNoMemory result }
{
    let Some(bytes) = rest else {
        return Err(Refused::Fault(Cause::Words));
    };
    let (word, behind) = first_word(bytes);
    if word.is_empty() {
        return Err(Refused::Fault(Cause::Words));
    }
    Ok((word, behind))
}

/// The next word of a line, behind which nothing stands.
pub fn take_last_word(rest: Option<&[u8]>) -> Result<&[u8], Refused>
    ensures value { Gives (λ x. x.now) result (last_word_at (option_map (λ r. r.now) rest.entry)) }
    ensures free { NeedsNoMemory result }
{
    let (word, behind) = take_word(rest)?;
    match behind {
        None => Ok(word),
        Some(_) => Err(Refused::Fault(Cause::Words)),
    }
}

/// All the rest of a line, which isn't empty.
pub fn take_part(rest: Option<&[u8]>) -> Result<&[u8], Refused>
    ensures value { Gives (λ x. x.now) result (part_at (option_map (λ r. r.now) rest.entry)) }
    ensures free { NeedsNoMemory result }
{
    match rest {
        None => Err(Refused::Fault(Cause::Words)),
        Some(part) => {
            if part.is_empty() {
                return Err(Refused::Fault(Cause::Words));
            }
            Ok(part)
        }
    }
}

fn is_letter_byte(c: u8) -> bool
    ensures { result ≡ is_letter c }
{
    97 <= c && c <= 122
}

fn is_digit_byte(c: u8) -> bool
    ensures { result ≡ is_digit c }
{
    48 <= c && c <= 57
}

fn all_name_bytes(word: &[u8]) -> bool
    ensures { result ≡ list_all is_name_byte word.now }
{
    for c in word {
        if !is_letter_byte(*c) && !is_digit_byte(*c) {
            return false;
        }
    }
    true
}

/// Whether each byte is one that a line may have. It goes on behind a byte that isn't, so that many bytes can be tested at once.
pub fn all_shown(line: &[u8]) -> bool
    ensures { result ≡ list_all is_shown line.now }
{
    let mut all = true;
    for c in line {
        all = all & (32 <= *c && *c <= 126);
    }
    all
}

/// Whether the word is a name: a letter `a` to `z` first, then letters or digits, sixteen bytes at most.
pub fn is_name(word: &[u8]) -> bool
    ensures { result ≡ names word.now }
{
    match word {
        [] => false,
        [first, rest @ ..] => is_letter_byte(*first) && all_name_bytes(rest) && rest.len() < 16,
    }
}

/// The word as a name.
pub fn read_name(alloc: Global, word: &[u8]) -> Result<Items<u8>, Refused>
    ensures { Gives (λ x. x) result (name_at word.now) }
{
    if !is_name(word) {
        return Err(Refused::Fault(Cause::Name));
    }
    Ok(Items::from_slice(alloc, word)?)
}
