//! Files as schemas and as documents, or the words of their refusal.
//!
//! `specs/SchemaReading.antt` and `specs/DocumentReading.antt` say what the bytes of a file are read as. A schema that
//! is read comes with its ranks, so the crates above can go down by them. Reading costs what the readers of JSON and of
//! schemas cost, and memory in proportion to the bytes. The commands stand on this crate.
#![tactic(auto)]

mod document;
mod load;
mod schema;

pub use document::{DocumentInput, read_document_bytes};
pub use load::{load_document, load_schema};
pub use schema::{SchemaInput, read_schema_bytes, read_schema_value};
