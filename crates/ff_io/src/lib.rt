//! The outside of the program, as traits with a written meaning: where bytes come from and go to, the forms of
//! each in memory, and those over the standard library's readers and writers.
#![tactic(auto)]

mod calls;
mod laws;
mod memory_sink;
mod memory_source;
mod read_failed;
mod reading;
mod short;
mod sink;
mod source;
mod station;
mod streams;
mod write_failed;
mod writing;

pub use laws::told_laws;
pub use memory_sink::MemorySink;
pub use memory_source::MemorySource;
pub use read_failed::ReadFailed;
pub use reading::{ReadAll, read_all};
pub use short::Short;
pub use sink::Sink;
pub use source::Source;
pub use station::{FIRST_MACHINE, LAST_MACHINE, Station};
pub use streams::{StreamSink, StreamSource};
pub use write_failed::WriteFailed;
pub use writing::write_all;
