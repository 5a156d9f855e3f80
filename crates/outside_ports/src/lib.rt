//! What lies outside the program: the files that it reads, the streams that it writes, and the
//! counter of its steps.
//!
//! A [`Shelf`] of files is seen by contracts as what it holds, the names asked and its count of faults, a
//! [`Sink`] of bytes as what was written and its count of faults, and [`Steps`] as the number of steps. Those
//! in memory, [`MemoryShelf`] and [`MemorySink`], tell all of this; [`FileShelf`] and [`StreamSink`], over
//! the runtime, can't tell what a file holds or what was written.
//!
//! The crate stands on no other. The program fetches its files and writes its bytes by the two traits, so
//! that its contract holds for every shelf and sink, and puts its reports by [`put_lines`], line by line.
//! A search counts its steps in a [`Steps`].
#![tactic(auto)]

mod fault;
mod file_shelf;
mod lines;
mod memory_shelf;
mod memory_sink;
mod shelf;
mod sink;
mod steps;
mod stream_sink;
#[cfg(test)]
mod tests;

pub use fault::{Failed, FetchFault};
pub use file_shelf::FileShelf;
pub use lines::put_lines;
pub use memory_shelf::MemoryShelf;
pub use memory_sink::MemorySink;
pub use shelf::{MAX_LIMIT, Shelf};
pub use sink::Sink;
pub use steps::Steps;
pub use stream_sink::StreamSink;
