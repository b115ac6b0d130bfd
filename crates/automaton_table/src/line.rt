//! The atoms that a line writes: a list of objects that have one of the members `match`, `words` and `length`.

use js_doc::{Json, JsonList, JsonMap, Memory, StrList};
use js_json::{JsonFault, read_json};
use js_nfa::Atom;
use js_pattern::{PatternFault, read_pattern};
use std::alloc::{AllocError, AllocFailed, Global};

/// Why a line has no atoms.
#[derive(Clone, Copy, Debug)]
pub(crate) enum LineFault {
    Memory,
    /// The line is no JSON text, or another value than such a list.
    NotAtoms,
    /// A pattern has a fault.
    NotAPattern,
}

impl From<AllocError> for LineFault {
    fn from(_: AllocError) -> LineFault {
        LineFault::Memory
    }
}

impl<T: Drop> From<AllocFailed<T>> for LineFault {
    fn from(_: AllocFailed<T>) -> LineFault {
        LineFault::Memory
    }
}

impl From<Memory> for LineFault {
    fn from(_: Memory) -> LineFault {
        LineFault::Memory
    }
}

/// The atoms of a line.
pub(crate) fn read_atoms(alloc: Global, line: &str) -> Result<Vec<Atom>, LineFault> {
    match read_json(alloc, line.as_bytes()) {
        Ok(Json::List(list)) => atoms_of(alloc, &list),
        Err(JsonFault::Memory) => Err(LineFault::Memory),
        _ => Err(LineFault::NotAtoms),
    }
}

fn atoms_of(alloc: Global, list: &JsonList) -> Result<Vec<Atom>, LineFault> {
    let mut atoms = Vec::with_capacity(alloc, list.len())?;
    for json in list.as_slice() {
        match json {
            Json::Members(members) => atoms.push(atom_of(alloc, members)?)?,
            _ => return Err(LineFault::NotAtoms),
        }
    }
    Ok(atoms)
}

fn atom_of(alloc: Global, members: &JsonMap) -> Result<Atom, LineFault> {
    if let Some(Json::Text(pattern)) = members.get("match") {
        return match_of(alloc, pattern.as_text());
    }
    if let Some(Json::List(words)) = members.get("words") {
        return words_of(alloc, words);
    }
    match members.get("length") {
        Some(Json::Num(least)) => length_of(*least),
        _ => Err(LineFault::NotAtoms),
    }
}

fn match_of(alloc: Global, pattern: &str) -> Result<Atom, LineFault> {
    match read_pattern(alloc, pattern) {
        Ok(re) => Ok(Atom::Match(re)),
        Err(PatternFault::Memory) => Err(LineFault::Memory),
        Err(_) => Err(LineFault::NotAPattern),
    }
}

fn words_of(alloc: Global, list: &JsonList) -> Result<Atom, LineFault> {
    let mut words = Vec::with_capacity(alloc, list.len())?;
    for json in list.as_slice() {
        match json {
            Json::Text(word) => words.push(word.as_str().copy(alloc)?)?,
            _ => return Err(LineFault::NotAtoms),
        }
    }
    Ok(Atom::Words(StrList::from_vec(words)))
}

fn length_of(least: i128) -> Result<Atom, LineFault> {
    if least < 0 {
        return Err(LineFault::NotAtoms);
    }
    Ok(Atom::LengthMin(least as u128))
}
