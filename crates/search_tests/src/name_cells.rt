//! Cells of sets whose names, counts and first names were found by hand.

ghost use Rattle.std.specs.Prelude.{◌≡◌, ◌≤◌, IfOk, length};
ghost use Rattle.js_automaton.specs.AutomatonView.{rows_of};

use js_algebra::{Core, NameSet, Node, NodeList, Pattern, PatternList, Pos, RankList, Signed};
use js_automaton::build;
use js_cells::Cells;
use js_doc::{Str, StrList};
use js_pattern::read_pattern;
use js_said::name_atoms;
use std::alloc::Global;
use std::test::Fail;

fn pattern(alloc: Global, text: &str) -> Result<Pattern, Fail> {
    let Ok(re) = read_pattern(alloc, text) else {
        return Err("no pattern")?;
    };
    let source = Str::from_text(alloc, text)?;
    Ok(Pattern { source, re })
}

fn list(alloc: Global, words: &[&str]) -> Result<StrList, Fail> {
    let mut list = Vec::new(alloc);
    for word in words {
        list.push(Str::from_text(alloc, word)?)?;
    }
    Ok(StrList::from_vec(list))
}

/// The name a, names that begin with a, names that aren't b and have no c, names of fewer than two characters, the
/// names x and yy, and the names a and b.
fn table(alloc: Global) -> Result<Core, Fail>
    ensures { IfOk result (λ core. length core.positions ≡ 11) }
{
    let name = Str::from_text(alloc, "a")?;
    let first = NameSet::Matching(pattern(alloc, "^a")?);
    let names = list(alloc, &["b"])?;
    let patterns = PatternList::from_vec(vec![in alloc; pattern(alloc, "c")?]?);
    let words = list(alloc, &["x", "yy"])?;
    let others = list(alloc, &["a", "b"])?;
    let nodes = vec![in alloc;
        Node::Has(name),
        Node::MembersOf(first, Pos(7)),
        Node::MembersOf(NameSet::Others(names, patterns), Pos(7)),
        Node::NamesIn(Pos(4)),
        Node::Not(Pos(5)),
        Node::LengthMin(2),
        Node::NamesIn(Pos(8)),
        Node::True,
        Node::Words(words),
        Node::Words(others),
        Node::NamesIn(Pos(9)),
    ]?;
    let ranks = vec![in alloc; 0, 0, 0, 0, 1, 0, 0, 0, 0, 0, 0]?;
    Ok(Core::make(alloc, NodeList::from_vec(nodes), RankList::from_vec(ranks))?)
}

/// Each cell: what the literals say of its names, how many there are, how long the first is, and the first three of
/// them.
fn described(alloc: Global, cells: &Cells) -> Result<String, Fail> {
    let mut text = String::new(alloc);
    for cell in 0..cells.len() {
        for literal in 0..cells.names().len() {
            text.push(if cells.truth(cell, literal) { '+' } else { '-' })?;
        }
        let count = cells.capacity(alloc, cell)?;
        let least = cells.least(cell);
        text.push_str(format!(in alloc; " {count} {least}:")?.as_str())?;
        let words = cells.first_words(alloc, cell, count.min(3))?;
        for word in words.as_slice() {
            text.push(' ')?;
            text.push_str(word.as_text())?;
        }
        text.push(';')?;
    }
    Ok(text)
}

/// Adds the cell of each row.
fn add_rows(alloc: Global, cells: &Cells, rows: u32, text: &mut String) -> Result<(), Fail>
    requires { rows ≤ length (rows_of cells.now.automaton.now) }
{
    for row in 0..rows {
        let cell = cells.cell_of(row);
        text.push_str(format!(in alloc; " {cell}")?.as_str())?;
    }
    Ok(())
}

/// The cells of a set of these positions, as far as they are in the table, and then those of the rows.
fn answer(alloc: Global, core: &Core, positions: &[u32]) -> Result<String, Fail> {
    let mut set = Vec::new(alloc);
    for p in positions {
        if *p < core.len() {
            set.push(Signed::plus(Pos(*p)))?;
        }
    }
    let atoms = name_atoms(alloc, core, &set)?;
    let Ok(automaton) = build(alloc, &atoms) else {
        return Err("no automaton")?;
    };
    let cells = Cells::new(alloc, core, &set, &automaton)?;
    let mut text = described(alloc, &cells)?;
    add_rows(alloc, &cells, automaton.rows(), &mut text)?;
    Ok(text)
}

#[test]
fn by_hand(rt: HostRuntime) -> Result<(), Fail> {
    let core = table(rt.alloc())?;
    // The first set has rows of "", a, b, aa and ba; the second of "", a, b, c and d; the third of "", a, x, y and yy;
    // the fourth of "" and a, since a state says whether a word is empty; the last of "", a, b and c. The third has one
    // literal fewer that speaks of names than positions, and the fourth none.
    let cases = [
        (
            [0, 1, 3].as_slice(),
            "--+ 65537 0:  b c;+++ 1 1: a;-+- 65537 2: aa ab ac;--- 65537 2: ba bb bc; 0 1 0 2 3",
        ),
        (
            [0, 2].as_slice(),
            "-+ 65537 0:  d e;++ 1 1: a;-- 65537 1: b c ac; 0 1 2 2 0",
        ),
        ([6, 7].as_slice(), "- 65537 0:  a b;+ 2 1: x yy; 0 0 1 0 1"),
        ([7].as_slice(), " 65537 0:  a b; 0 0"),
        ([10].as_slice(), "- 65537 0:  c d;+ 2 1: a b; 0 1 1 0"),
    ];
    for (positions, wanted) in cases {
        let text = answer(rt.alloc(), &core, positions)?;
        assert_eq!(rt; text.as_str(), wanted);
    }
    Ok(())
}
