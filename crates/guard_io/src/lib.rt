//! The outside of the program, as two traits: files by name, and sinks that take bytes.
//!
//! A caller that is generic over them can say in its contract which bytes it read and wrote, where
//! the implementation tells its bytes, and that each fault it reports was counted by the object
//! that it names. Here are also two implementations in memory of each trait, one that fails where
//! it is told to and one that never fails, and the trusted edges to the system, which tell nothing
//! and count. It stands on `std` alone, and knows nothing of rules, templates or reports.
#![tactic(auto)]

mod files;
mod memory_files;
mod memory_sinks;
mod real_files;
mod real_sink;
mod sink;

pub use files::{Files, LoadFault};
pub use memory_files::{CleanFiles, MemFiles};
pub use memory_sinks::{CleanSink, MemSink};
pub use real_files::RealFiles;
pub use real_sink::RealSink;
pub use sink::{Sink, SinkFault};
