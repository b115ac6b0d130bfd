//! The top call: from the command words and the bytes of files to a report in a sink.
//!
//! `run` does all that the program does. It reads the words, then each file in their order, decides, makes the whole
//! report, and only then writes. `specs/Correct.antt` is its theorem. Its further clauses say when each status comes,
//! and that what is written is the report of the files' bytes; `specs/Report.antt` says what that is,
//! `specs/Meaning.antt` what the documents and certificates of `include` and `sat` mean, `specs/Judging.antt` and
//! `specs/Checking.antt` what the words of `valid` and `check` mean, and `specs/Generating.antt` what `gen` writes.
#![tactic(auto)]

mod finding;
mod memory;
mod prepare;
mod status;
mod summary;
mod text;
mod top;

pub use memory::run_in_memory;
pub use status::Status;
pub use top::run;
