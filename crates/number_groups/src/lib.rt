//! Number groups: bounds, divisors and sets of whole numbers, what they require of a number, and the answer that is
//! owed. Definitions alone, over plain data; `specs/Lib.antt` lists them.
#![tactic(auto)]
