//! The outside: where bytes come from and where they go, each with a count of its faults; what is called before each
//! command; and what is called when an external's bytes are let go. Each trait has doubles in memory, and the source
//! and the sink of a program are std's reader and writer.
#![tactic(auto)]

mod begun;
mod buffered_sink;
mod count_releaser;
mod gate;
mod interruptions;
mod log_releaser;
mod memory_sink;
mod memory_source;
mod reading;
mod refusals;
mod releaser;
mod releaser_box;
mod sink;
mod source;
mod std_sink;
mod std_source;
#[cfg(test)]
mod tests;
mod writing;

pub use begun::Begun;
pub use buffered_sink::{BUFFER, BufferedSink};
pub use count_releaser::CountReleaser;
pub use gate::Gate;
pub use log_releaser::LogReleaser;
pub use memory_sink::MemorySink;
pub use memory_source::MemorySource;
pub use reading::{ReadRefused, read_all};
pub use refusals::{Failed, Memory};
pub use releaser::Releaser;
pub use sink::Sink;
pub use source::Source;
pub use std_sink::StdSink;
pub use std_source::StdSource;
pub use writing::write_all;
