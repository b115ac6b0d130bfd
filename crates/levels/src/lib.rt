//! Conditions that name one another, some at the same document and some at what lies in it: how they are read as one
//! meaning, by levels of depth and steps in place, and why that meaning is the only one with its equation.
//!
//! Validity and the meaning of core positions are both of this form. `specs/Levels.antt` has the definition, and
//! `proofs/LevelsLaws.antt` the equation and its uniqueness. There is no code here.
#![tactic(auto)]
