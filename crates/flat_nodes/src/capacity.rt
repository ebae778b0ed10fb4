//! How large a flat is made (`cord_rep_flat.h`).
ghost use Rattle.std.specs.Prelude.{◌≡◌, ℕ, ◌≤◌};
ghost use Rattle.tree_shapes.specs.Capacity.{capacity_for};

/// The capacity of a flat that is made for so many bytes.
pub(crate) fn capacity_for(length: usize) -> usize
    requires { length ≤ 4083 }
    ensures capacity { result ≡ capacity_for length }
    ensures wide { length ≤ result }
    ensures most { result ≤ 4083 }
{
    match length {
        0..=19 => 19,
        20..=51 => 51,
        52..=115 => 115,
        116..=243 => 243,
        244..=499 => 499,
        500..=1011 => 1011,
        1012..=2035 => 2035,
        _ => 4083,
    }
}
