//! The words after the program's name, read by `clap`.
//!
//! `specs/Commands.antt` says which words are which command, by the command line of `specs/CommandLine.antt`, and
//! `specs/PlainWords.antt` which words are always taken. A call describes the command line anew, which takes memory,
//! and reads each word two or three times. The top call stands on this crate.
#![tactic(auto)]

mod command_line;
mod kind;
mod matched;
mod numbers;
mod words;

pub use words::{Command, WordsFault, read_words};
