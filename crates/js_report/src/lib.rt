//! Whole files from a shelf, whole reports into a sink, and the words and lines of refusals.
//!
//! A loop over files or reports calls the shelf or the sink until all is done, and each of its turns moves at least one
//! byte. So both calls end whatever is outside. Reading keeps the file and one buffer of 64 KiB; writing takes no
//! memory. `specs/RefusalWords.antt` has the words fault by fault, as a line has them after the role of a file. Whoever
//! reads a file doesn't know its role, so `refusal_line` puts the two together.
#![tactic(auto)]

mod cycle;
mod fault;
mod line;
mod place;
mod reading;
mod writing;

pub use cycle::cycle_words;
pub use fault::schema_words;
pub use line::refusal_line;
pub use place::placed_words;
pub use reading::{FileFault, LONGEST_FILE, read_file};
pub use writing::write_report;
