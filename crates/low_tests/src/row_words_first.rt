//! The first words of patterns, with lists that were written by hand.

ghost use Rattle.std.specs.Prelude.{◌≡◌, length, IfOk};
ghost use Rattle.js_automaton.specs.AutomatonView.{atoms_of, rows_of};

use js_automaton::{Automaton, build};
use js_doc::{Memory, StrList};
use js_nfa::Atom;
use js_pattern::read_pattern;
use js_row_words::{WordCounter, first_words};
use std::alloc::Global;
use std::test::Fail;

fn automaton_of(alloc: Global, pattern: &str) -> Result<Automaton, Fail>
    ensures { IfOk result (λ a. length (atoms_of a) ≡ 1) }
{
    let Ok(re) = read_pattern(alloc, pattern) else {
        return Err("no pattern")?;
    };
    let atoms = vec![in alloc; Atom::Match(re)]?;
    match build(alloc, &atoms) {
        Ok(automaton) => Ok(automaton),
        Err(_) => Err("no automaton")?,
    }
}

/// The rows whose words match.
fn marks_of(alloc: Global, automaton: &Automaton) -> Result<Vec<bool>, Memory>
    requires { length (atoms_of automaton.now) ≡ 1 }
    ensures { IfOk result (λ marks. length marks.items ≡ length (rows_of automaton.now)) }
{
    let mut marks = Vec::new(alloc);
    for row in 0..automaton.rows() {
        marks.push(automaton.signature(row, 0))?;
    }
    Ok(marks)
}

/// The first words, `most` of them or as many as there are.
fn words_of(
    alloc: Global,
    automaton: &Automaton,
    marks: &[bool],
    most: u32,
) -> Result<StrList, Memory>
    requires { length marks.now ≡ length (rows_of automaton.now) }
{
    let counter = WordCounter::new(alloc, automaton)?;
    let numbers = counter.count(alloc, marks)?;
    let rows = automaton.rows();
    let count = if rows == 0 { 0 } else { numbers[0].min(most) };
    first_words(alloc, automaton, marks, count)
}

fn joined(alloc: Global, words: &StrList) -> Result<String, Memory> {
    let mut text = String::new(alloc);
    for word in words.as_slice() {
        text.push_str(word.as_text())?;
        text.push('.')?;
    }
    Ok(text)
}

#[test]
fn words_in_order(rt: HostRuntime) -> Result<(), Fail> {
    let cases = [
        ("^[ab]{0,2}$", 9, ".a.b.aa.ab.ba.bb."),
        ("^[ab]{0,2}$", 4, ".a.b.aa."),
        ("^[ab]{0,2}$", 1, "."),
        ("^[ab]{0,2}$", 0, ""),
        ("^a+$", 3, "a.aa.aaa."),
        ("^(?:x{3}|y)$", 2, "y.xxx."),
        ("^(?:x{3}|y)$", 1, "y."),
        ("^[ -~]$", 4, "a.b.c.d."),
        ("^[Zé1 z]$", 9, "z.Z.1. .é."),
        ("^[ab]c[de]$", 9, "acd.ace.bcd.bce."),
        ("ab", 6, "ab.aab.aba.abb.abc.abd."),
        ("^[^a-zA-Z]$", 12, "0.1.2.3.4.5.6.7.8.9. .!."),
        ("", 4, ".a.b.c."),
        ("^$", 4, "."),
    ];
    for (pattern, most, wanted) in cases {
        let automaton = automaton_of(rt.alloc(), pattern)?;
        let marks = marks_of(rt.alloc(), &automaton)?;
        let words = words_of(rt.alloc(), &automaton, &marks, most)?;
        let found = joined(rt.alloc(), &words)?;
        assert_eq!(rt; found.as_str(), wanted);
    }
    Ok(())
}
