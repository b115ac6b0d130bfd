//! Laws of validity, as lemmas over the definitions alone: validity over entries keeps its one-step equation, and over
//! the entries that a schema is read as it is validity over the schema's value. There is no code here.
#![tactic(auto)]
