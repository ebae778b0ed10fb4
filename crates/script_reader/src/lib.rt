//! Reads scripts: the one that the bytes spell, or the first fault.
#![tactic(auto)]

mod fault;
mod feed;
mod known;
mod laws;
mod lines;
mod progress;
mod reading;
mod verbs;

pub use fault::{ReadRefused, ScriptError};
pub use feed::{Memory, ScriptFeed};
pub use laws::{
    causes_are_told, fault_or_script, readings_are_right, spelled_script_has_no_stride,
    spelled_script_is_read, spelled_script_is_within_limits, spellings_differ,
};
pub use plain_cord::{Command, Script, Session, Text};
pub use reading::read_script;
pub use script_words::Cause;

#[cfg(test)]
mod tests;
