//! A certificate judged as its bytes come, and a certificate in a file.
//!
//! Bytes are cut into lines. One worker takes each line as soon as it is whole, and for several, lines are put together
//! into batches, so no more than a batch is held. Contracts speak of all bytes so far, however they came.
#![tactic(auto)]

mod batch;
mod file;
mod judge;
mod lines;
mod reading;

pub use file::{FileFault, FileVerdict, LONGEST_FILE, judge_file};
pub use judge::CertificateJudge;
