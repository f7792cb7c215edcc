//! Where bytes come from and go to: the program's words, a shelf of named files, and a sink for what is written.
//!
//! Shelf and sink are traits, so that what stands above is proved for files in memory and real ones alike.
//! Each counts its own faults, and so a caller that gives up has to show that its shelf or sink did.
#![tactic(auto)]

mod calls;
mod file_shelf;
mod memory_shelf;
mod memory_sink;
mod out_sink;
mod shelf;
mod sink;
#[cfg(test)]
mod tests;
mod words;

pub use file_shelf::FileShelf;
pub use memory_shelf::MemShelf;
pub use memory_sink::MemSink;
pub use out_sink::OutSink;
pub use shelf::{Loaded, Shelf, ShelfFault};
pub use sink::{Sink, SinkFailed, write_all};
pub use words::words_of;
