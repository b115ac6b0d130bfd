//! The core table: positions, each a condition on a document, and when a document meets one. Definitions alone.
#![tactic(auto)]
