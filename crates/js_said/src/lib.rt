//! What the literals of a set say of names, by the truths of atoms.
//!
//! The literals are gone through once: the atoms of what they say of names are taken, each once, and what each of them
//! says is kept by the numbers of these atoms. So whoever knows the truths of the atoms at a name knows what is said of
//! it.
#![tactic(auto)]

mod atoms;
mod numbers;
mod said;
mod taken;

pub use atoms::name_atoms;
pub use said::Said;
pub use taken::Taken;
