//! What a session calls before each of its commands.
use std::sync::Wait;

/// A gate may hold a session back. The program's own does nothing.
pub trait Gate {
    /// Called before the session's command of this number, counted from 0, and once more after the last with the
    /// number of commands.
    fn before<R: Wait>(&self, rt: &R, session: usize, command: usize);
}
