//! The outside: where schemas are read from and where a report is written, with the faults of both.
//!
//! A call fails only where the count of faults of its shelf or sink rose in it. Over memory a call does exactly what
//! `specs/InMemory.antt` says, takes no memory, and costs the bytes that it moves. The content of the real files and of
//! standard output is unknown to contracts.
#![tactic(auto)]

mod begun;
mod calls;
mod faults;
mod files;
mod memory_shelf;
mod memory_sink;
mod real;
mod shelf;
mod sink;

pub use begun::BegunNames;
pub use calls::CallList;
pub use faults::{BeginFault, Failed};
pub use files::FileMap;
pub use memory_shelf::{CutShelf, FailingShelf, MemoryShelf};
pub use memory_sink::{CutSink, FailingSink, MemorySink};
pub use real::{FileShelf, StdoutSink};
pub use shelf::Shelf;
pub use sink::Sink;
