//! Sources of bytes and sinks for bytes, each with a count of its faults: a call answers `Failed` only where
//! that count rose in it, so a caller can tell a failed call from one that was passed over.
#![tactic(auto)]

mod failed;
mod memory_sink;
mod memory_source;
mod retried;
mod schedule;
mod sink;
mod source;
mod standard;
mod whole;

pub use failed::Failed;
pub use memory_sink::MemSink;
pub use memory_source::MemSource;
pub use sink::Sink;
pub use source::Source;
pub use standard::{StdSink, StdSource};
pub use whole::write_whole;
