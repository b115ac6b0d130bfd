//! Definitions alone: which core table the entries of a schema make, and the text in which a table is printed.
#![tactic(auto)]
