//! The outside as traits: files on a shelf and a sink for bytes, each with counts of its faults.
#![tactic(auto)]

mod counts;
mod failed;
mod mem_file;
mod mem_shelf;
mod mem_sink;
mod no_memory;
mod os_shelf;
mod os_sink;
mod putting;
mod reading;
mod shelf;
mod sink;
mod writing;

pub use failed::Failed;
pub use mem_shelf::MemShelf;
pub use mem_sink::MemSink;
pub use no_memory::NoMemory;
pub use os_shelf::OsShelf;
pub use os_sink::OsSink;
pub use putting::{WriteFault, put_whole};
pub use reading::{ReadStop, WholeStop, read_upto, read_whole};
pub use shelf::Shelf;
pub use sink::Sink;
pub use writing::write_whole;
