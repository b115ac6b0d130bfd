//! The text of documents and of tables of parts, and what is measured of a document before its text is written.
//!
//! A document is written as compact JSON, its members in ascending order of their names; a table as a line that says
//! how many parts there are, and a line for each part. Both texts are exactly those of `document_texts`. They cost time
//! and memory in proportion to them. `Measures` gives the length, the depth and whether numbers are short of every
//! document that a table holds, in time in proportion to the table's text: unshared, it may be exponentially long.
#![tactic(auto)]

mod document;
mod found;
mod measures;
mod part_reader;
mod scalars;
mod scanner;
mod table;
mod table_reader;
mod told;

pub use document::doc_text;
pub use found::found_text;
pub use measures::{Measure, Measures};
pub use table::parts_text;
pub use table_reader::{PartsLineFault, parts_read};
