//! Numbers in decimal.
ghost use Rattle.std.specs.Prelude.{◌≡◌, ◌≤◌, IfOk, Ok};
ghost use Rattle.script_words.specs.Reading.{Gives, NeedsNoMemory};
ghost use Rattle.script_words.specs.Numbers.{digits_from, small, decimal_at, number_at};

use crate::fault::{Cause, Refused};

/// The number that the digits stand for, if it has 64 bits at most.
fn digits(word: &[u8]) -> Option<u64>
    ensures { result ≡ small (digits_from 0 word.now) }
{
    let mut n: u64 = 0;
    for c in word {
        if *c < 48 || 57 < *c {
            return None;
        }
        let digit = (*c - 48) as u64;
        if n > (u64::MAX - digit) / 10 {
            return None;
        }
        n = 10 * n + digit;
    }
    Some(n)
}

/// A number below 2 ^ 64 without a needless leading zero.
pub fn decimal(word: &[u8]) -> Option<u64>
    ensures { result ≡ decimal_at word.now }
{
    match word {
        [] => None,
        [first, rest @ ..] => {
            if *first == 48 && !rest.is_empty() {
                return None;
            }
            digits(word)
        }
    }
}

/// A number from `least` to `most`.
pub fn read_number(least: u64, most: u64, word: &[u8]) -> Result<u64, Refused>
    ensures value { Gives (λ n. n) result (number_at least most word.now) }
    ensures within { IfOk result (λ n. n ≤ most) }
    ensures free { NeedsNoMemory result }
{
    match decimal(word) {
        None => Err(Refused::Fault(Cause::Number)),
        Some(n) => {
            if n < least || most < n {
                return Err(Refused::Fault(Cause::Number));
            }
            Ok(n)
        }
    }
}
