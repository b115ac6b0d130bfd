//! Numbers of words of small automata, counted by hand.

use js_automaton::build;
use js_doc::{Str, StrList};
use js_nfa::Atom;
use js_pattern::read_pattern;
use js_row_words::WordCounter;
use std::alloc::Global;
use std::test::Fail;

/// The numbers of words that lead from each row to those where the atom is true, as text.
fn numbers(alloc: Global, atom: Atom) -> Result<String, Fail> {
    let atoms = vec![in alloc; atom]?;
    let Ok(automaton) = build(alloc, &atoms) else {
        return Err("no automaton")?;
    };
    let mut marks = Vec::new(alloc);
    for row in 0..automaton.rows() {
        marks.push(automaton.signature(row, 0))?;
    }
    let counter = WordCounter::new(alloc, &automaton)?;
    let numbers = counter.count(alloc, &marks)?;
    Ok(format!(in alloc; "{numbers:?}")?)
}

fn pattern(alloc: Global, text: &str) -> Result<Atom, Fail> {
    match read_pattern(alloc, text) {
        Ok(re) => Ok(Atom::Match(re)),
        Err(_) => Err("no pattern")?,
    }
}

#[test]
fn words_of_patterns(rt: HostRuntime) -> Result<(), Fail> {
    let alloc = rt.alloc();
    // Row 0 is that of the empty word; rows come in the order in which they are first led to.
    let cases = [
        ("^a*$", "[65537, 65537, 0]"),
        ("^[ab]{0,3}$", "[15, 7, 0, 3, 1]"),
        ("^[^a]$", "[65537, 0, 1]"),
        ("^(?:|[ab])$", "[3, 1, 0]"),
    ];
    for (text, want) in cases {
        let got = numbers(alloc, pattern(alloc, text)?)?;
        assert_eq!(rt; got.as_str(), want, "{text}");
    }
    Ok(())
}

#[test]
fn first_numbers_by_the_cut(rt: HostRuntime) -> Result<(), Fail> {
    let alloc = rt.alloc();
    let cases = [
        ("^[ab]{0,15}$", "[65535, "),
        ("^[ab]{16}$", "[65536, "),
        ("^(?:|[ab]{16})$", "[65537, "),
        ("^[ab]{0,16}$", "[65537, "),
        ("^[a-z]{3}$", "[17576, 676, 0, "),
        ("a^", "[0, "),
        ("b[^]*b", "[65537, "),
    ];
    for (text, want) in cases {
        let got = numbers(alloc, pattern(alloc, text)?)?;
        assert!(rt; got.starts_with(want), "{text}: {got}");
    }
    Ok(())
}

#[test]
fn words_of_a_list(rt: HostRuntime) -> Result<(), Fail> {
    let alloc = rt.alloc();
    let words = vec![in alloc;
        Str::from_text(alloc, "ab")?,
        Str::from_text(alloc, "b")?,
        Str::from_text(alloc, "abc")?,
    ]?;
    let got = numbers(alloc, Atom::Words(StrList::from_vec(words)))?;
    assert_eq!(rt; got.as_str(), "[3, 2, 1, 0, 2, 1]");
    Ok(())
}
