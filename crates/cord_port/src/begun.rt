//! What a sink held when a buffer was put before it.
ghost use Rattle.std.specs.Prelude.{ℕ, List, Option};

use std::marker::Brand;

/// The bytes that the sink below a buffered sink held when the buffer was put before it, where it tells them. The
/// buffered sink carries them in its type, so they are known through every call; the call that names them picks them.
pub trait Begun {
    ghost begun: { Option (List ℕ) };
}

impl Begun for Brand {
    ghost use Rattle.std.specs.Prelude.{None};

    ghost begun = { None };
}
