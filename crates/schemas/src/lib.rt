//! Which JSON values are schemas of draft-06 as this program reads them, the first fault of one that isn't, and the
//! entries of one that is: definitions alone, which contracts of the reader of schemas and of all that stands on it
//! cite.
//!
//! `specs/Lib.antt` lists them. There is no code here.
#![tactic(auto)]
