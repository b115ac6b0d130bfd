//! Laws of core tables of schemas, as lemmas over the definitions alone: position 0 of a schema's table holds of a
//! document exactly where the document is valid for the schema's first entry.
#![tactic(auto)]
