//! Certificate lines: their data, the text that each is written as, and a reader that makes lines of bytes as they
//! come.
//!
//! Contracts see a line as one of the definition, and a reader as what it took, holds, gives next and met as a fault.
//! Each line has one spelling. Writing and reading are linear in the text, nothing recurses, and a reader holds one
//! line and no more. The search writes certificates by this crate, and the checker reads them by it.
#![tactic(auto)]

mod fault;
mod lines;
mod listed;
mod lists;
mod pieces;
mod reader;
mod reading;
mod text;
mod words;

pub use fault::LineFault;
pub use lines::{CertEnd, CertLine, ShortEntry, Version};
pub use lists::{Cert, CertLines, NumberList, ShortEntryList};
pub use reader::LineReader;
pub use text::{append_line, cert_text, write_line};
