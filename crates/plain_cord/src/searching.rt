//! Comparing and searching byte strings.
ghost use Rattle.std.specs.Prelude.{◌≡◌};
ghost use Rattle.std.specs.Ordering.{nat_cmp};
ghost use Rattle.std.specs.Cmp.Lexicographic.{slice_cmp};
ghost use Rattle.plain_cord.specs.Texts.{place_of};
ghost use Rattle.plain_cord.specs.Places.{IsFirstPlace};
ghost use Rattle.plain_cord.specs.Orders.{ComparesAs};

use memchr::memmem;
use std::cmp::Ordering;

/// The order of unsigned bytes; a proper prefix is less. It stops at the first difference.
pub fn compare_bytes(a: &[u8], b: &[u8]) -> Ordering
    ensures relation { ComparesAs a.now b.now result }
    ensures value { result ≡ slice_cmp nat_cmp a.now b.now }
{
    a.cmp(&b)
}

/// The least place of the needle, in bytes; an empty needle has place 0. The time is linear in the lengths.
pub fn first_place(text: &[u8], needle: &[u8]) -> Option<usize>
    ensures relation { IsFirstPlace text.now needle.now result }
    ensures value { result ≡ place_of text.now needle.now }
{
    memmem::find(text, needle)
}
