//! Where files are read and where text is written, and what an answer tells of both.
#![tactic(auto)]

mod calls;
mod file_output;
mod file_sources;
mod memory_output;
mod memory_sink;
mod memory_sources;
mod out_sink;
mod sink;
mod sources;
mod status;
mod steady;
mod store;
mod whole;

pub use file_output::FileOutput;
pub use file_sources::FileSources;
pub use memory_output::MemoryOutput;
pub use memory_sink::MemorySink;
pub use memory_sources::{MemoryFile, MemorySources};
pub use out_sink::OutSink;
pub use sink::{Failed, Output, Sink};
pub use sources::{ReadRefusal, Sources};
pub use status::Status;
pub use steady::{SteadySink, SteadySources};
pub use whole::{put, put_parts};
