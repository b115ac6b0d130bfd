//! Rows of worked certificates, and false lines of them. Numbers are written as digits, `x` is the greatest one.

ghost use Rattle.std.specs.Prelude.{◌≡◌, length, IfOk};
ghost use Rattle.js_check_rows.specs.RowsView.{count_of, table_of};

use js_check_rows::{RowFault, Rows};
use js_doc::{Str, StrList};
use js_nfa::Atom;
use js_pattern::read_pattern;
use std::alloc::Global;
use std::test::Fail;

fn numbers(alloc: Global, text: &str) -> Result<Vec<u32>, Fail> {
    let mut list = Vec::new(alloc);
    for c in text.chars() {
        match c.to_digit(10) {
            Some(digit) => list.push(digit)?,
            None => list.push(u32::MAX)?,
        }
    }
    Ok(list)
}

fn pattern(alloc: Global, text: &str) -> Result<Atom, Fail> {
    match read_pattern(alloc, text) {
        Ok(re) => Ok(Atom::Match(re)),
        Err(_) => Err("no pattern")?,
    }
}

fn words(alloc: Global, list: &str) -> Result<Atom, Fail> {
    let mut words = Vec::new(alloc);
    for text in list.split_whitespace() {
        words.push(Str::from_text(alloc, text)?)?;
    }
    Ok(Atom::Words(StrList::from_vec(words)))
}

/// No rows of so many.
fn begin(alloc: Global, atom: Atom, count: u32) -> Result<Rows, Fail> {
    let atoms = vec![in alloc; atom]?;
    match Rows::new(alloc, &atoms, count) {
        Ok(rows) => Ok(rows),
        Err(_) => Err("no rows")?,
    }
}

fn take(alloc: Global, rows: &mut Rows, line: &str) -> Result<String, Fail> {
    let targets = numbers(alloc, line)?;
    told(alloc, rows.take(alloc, &targets))
}

fn told(alloc: Global, answer: Result<(), RowFault>) -> Result<String, Fail> {
    match answer {
        Ok(()) => Ok(String::new(alloc)),
        Err(fault) => Ok(format!(in alloc; "{fault:?}")?),
    }
}

/// All rows, by their lines.
fn state(alloc: Global, atom: Atom, count: u32, lines: &str) -> Result<Rows, Fail>
    ensures { IfOk result (λ rows. length (table_of rows).targets ≡ count_of rows) }
{
    let mut rows = begin(alloc, atom, count)?;
    for line in lines.split_whitespace() {
        if !take(alloc, &mut rows, line)?.is_empty() {
            return Err("a wrong line")?;
        }
    }
    if !rows.is_whole() {
        return Err("too few lines")?;
    }
    Ok(rows)
}

/// The bound of the rows that are marked by 1, or the fault.
fn bound(alloc: Global, rows: &Rows, marked: &str, labels: &str) -> Result<String, Fail>
    requires { length (table_of rows.now).targets ≡ count_of rows.now }
{
    let labels = numbers(alloc, labels)?;
    let mut marks = Vec::new(alloc);
    for c in marked.chars() {
        marks.push(c == '1')?;
    }
    match rows.capacity(&labels, &marks) {
        Ok(bound) => Ok(format!(in alloc; "{bound}")?),
        Err(fault) => told(alloc, Err(fault)),
    }
}

/// Whether the pattern is true of the first row.
fn has_empty_word(alloc: Global, text: &str) -> Result<bool, Fail> {
    let atoms = vec![in alloc; pattern(alloc, text)?]?;
    match Rows::new(alloc, &atoms, 1) {
        Ok(rows) => Ok(rows.truth(0, 0)),
        Err(_) => Err("no rows")?,
    }
}

#[test]
fn truths(rt: HostRuntime) -> Result<(), Fail> {
    let alloc = rt.alloc();
    assert!(rt; has_empty_word(alloc, "^a*$")?, "none or more");
    assert!(rt; !has_empty_word(alloc, "^a+$")?, "one or more");
    Ok(())
}

#[test]
fn lines_of_rows(rt: HostRuntime) -> Result<(), Fail> {
    let alloc = rt.alloc();
    let mut rows = begin(alloc, pattern(alloc, "^a+$")?, 3)?;
    // A false line leaves the rows as they were, so that the right one follows.
    let cases = [
        ("1", "Width"),
        ("122", "Width"),
        ("21", "Step(0)"),
        ("11", "Step(1)"),
        ("13", "Step(1)"),
        ("01", "Step(0)"),
        ("12", ""),
        ("13", "Step(1)"),
        ("12", ""),
        ("12", "Step(0)"),
        ("22", ""),
        ("22", "Width"),
    ];
    for (line, want) in cases {
        let got = take(alloc, &mut rows, line)?;
        assert_eq!(rt; got.as_str(), want, "{line}");
    }
    assert!(rt; rows.is_whole(), "not whole");
    Ok(())
}

/// Whether so many rows of the pattern don't begin.
fn is_refused(alloc: Global, text: &str, count: u32) -> Result<bool, Fail> {
    let atoms = vec![in alloc; pattern(alloc, text)?]?;
    Ok(Rows::new(alloc, &atoms, count).is_err())
}

#[test]
fn rows_that_begin(rt: HostRuntime) -> Result<(), Fail> {
    let alloc = rt.alloc();
    assert!(rt; !is_refused(alloc, "a{100}b", 1)?, "a row");
    assert!(rt; is_refused(alloc, "a{100}b", 0)?, "no rows");
    assert!(rt; is_refused(alloc, "a{16384}b", 1)?, "too many positions");
    Ok(())
}

#[test]
fn rows_of_one_state(rt: HostRuntime) -> Result<(), Fail> {
    let alloc = rt.alloc();
    let rows = state(alloc, pattern(alloc, "^a+$")?, 4, "12 32 22 12")?;
    assert_eq!(rt; rows.mentioned(), 4, "a row has the state of another");
    Ok(())
}

#[test]
fn a_row_past_the_count(rt: HostRuntime) -> Result<(), Fail> {
    let alloc = rt.alloc();
    let mut rows = begin(alloc, pattern(alloc, "^a+$")?, 2)?;
    let got = take(alloc, &mut rows, "12")?;
    assert_eq!(rt; got.as_str(), "Step(1)", "row 2");
    Ok(())
}

#[test]
fn least_lengths(rt: HostRuntime) -> Result<(), Fail> {
    let alloc = rt.alloc();
    let rows = state(alloc, pattern(alloc, "^a+$")?, 3, "12 12 22")?;
    let cases = [
        ("011", ""),
        ("000", ""),
        ("001", ""),
        ("111", "Least(0)"),
        ("021", "Least(1)"),
        ("01x", "Least(2)"),
        ("01", "Least(2)"),
        ("02", "Least(1)"),
        ("", "Least(0)"),
        ("0111", "Least(3)"),
    ];
    for (labels, want) in cases {
        let got = told(alloc, rows.least(&numbers(alloc, labels)?))?;
        assert_eq!(rt; got.as_str(), want, "{labels}");
    }
    Ok(())
}

#[test]
fn bounds_of_cells(rt: HostRuntime) -> Result<(), Fail> {
    let alloc = rt.alloc();
    // Classes are those of other characters, with `a` the first of them, `e`, `n`, `t` and `x`.
    let next = state(
        alloc,
        words(alloc, "next")?,
        6,
        "11211 11111 13111 11114 11151 11111",
    )?;
    let cases = [
        ("101111", "1"),
        ("702221", "7"),
        ("001111", "Capacity(0)"),
        ("101110", "Capacity(5)"),
        ("10111", "Capacity(5)"),
        ("1011111", "Capacity(6)"),
        ("xxx111", "Capacity(0)"),
    ];
    for (labels, want) in cases {
        let got = bound(alloc, &next, "000001", labels)?;
        assert_eq!(rt; got.as_str(), want, "{labels}");
    }
    Ok(())
}

#[test]
fn bound_of_two_words(rt: HostRuntime) -> Result<(), Fail> {
    let alloc = rt.alloc();
    let rows = state(alloc, words(alloc, "a b")?, 4, "123 333 333 333")?;
    let cases = [("2110", "2"), ("1110", "Capacity(0)")];
    for (labels, want) in cases {
        let got = bound(alloc, &rows, "0110", labels)?;
        assert_eq!(rt; got.as_str(), want, "{labels}");
    }
    Ok(())
}
