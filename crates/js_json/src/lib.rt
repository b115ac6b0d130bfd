//! JSON texts as values, documents of values, places in them, and what references name.
//!
//! `specs/Lib.antt` lists what a reader must believe: which value a text has, which values are documents, which value
//! is at a pointer, and what a reference names. Each call answers exactly that, or that memory was refused.
//! What reads schemas and documents stands on this crate.
#![tactic(auto)]

mod doc_reader;
mod document;
mod fault;
mod fragment;
mod json_reader;
mod members;
mod number;
mod place;
mod pointer;
mod read;
mod reference;
mod take;

pub use document::to_doc;
pub use fault::{JsonFault, RefFault};
pub use members::member;
pub use place::{at_pointer, element_index};
pub use pointer::Pointer;
pub use read::{read_doc, read_json};
pub use reference::{Referent, target};
