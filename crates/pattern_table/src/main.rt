//! Reads patterns from standard input, one a line, and prints the tree or the first fault of each.
//!
//! A line that begins with `set ` requests a set instead: of `set [a-c]` it prints the number of members, the first
//! one, and the sets of the others. Of `order [a-c]` it prints up to eight members in the order in which words are
//! made. `tests/patterns` compares what is printed of patterns with a JavaScript engine.
#![tactic(auto)]

use anyhow::anyhow;
use js_pattern::{CharSet, Memory, PatternFault, Re, read_pattern};
use std::alloc::{AllocError, Global};
use std::fmt::Write;

/// Want of memory as an error of this program.
fn no_memory(_: Memory) -> anyhow::Error {
    anyhow!("out of memory")
}

/// Adds the ranges of a set, in hexadecimal.
fn write_set(out: &mut String, set: &CharSet) -> Result<(), AllocError> {
    out.push_str("[")?;
    for (i, range) in set.as_slice().iter().enumerate() {
        if i > 0 {
            out.push_str(",")?;
        }
        let (first, last) = *range;
        write!(out, "{first:x}")?;
        if first < last {
            write!(out, "-{last:x}")?;
        }
    }
    out.push_str("]")
}

/// Adds the trees of a list, with a space before each.
#[cycle(tree)]
fn write_list(out: &mut String, trees: &[Re]) -> Result<(), AllocError> {
    for tree in trees {
        out.push_str(" ")?;
        write_tree(out, tree)?;
    }
    out.push_str(")")
}

/// Adds a tree.
#[cycle(tree)]
fn write_tree(out: &mut String, tree: &Re) -> Result<(), AllocError> {
    match tree {
        Re::Empty => out.push_str("empty"),
        Re::Set(set) => write_set(out, set),
        Re::Start => out.push_str("start"),
        Re::End => out.push_str("end"),
        Re::Seq(list) => {
            out.push_str("(seq")?;
            write_list(out, list.as_slice())
        }
        Re::Alt(list) => {
            out.push_str("(alt")?;
            write_list(out, list.as_slice())
        }
        Re::Repeat(inner, low, high) => {
            write!(out, "(repeat {low} ")?;
            match high {
                Some(high) => write!(out, "{high} ")?,
                None => out.push_str("- ")?,
            }
            write_tree(out, inner)?;
            out.push_str(")")
        }
    }
}

/// Adds a fault, and its place.
fn write_fault(out: &mut String, fault: PatternFault) -> Result<(), AllocError> {
    match fault {
        PatternFault::Syntax(at) => write!(out, "syntax {at}"),
        PatternFault::Unsupported(at, form) => {
            let name = form.name();
            write!(out, "unsupported {name} {at}")
        }
        PatternFault::QuantifierOrder(at) => write!(out, "quantifierorder {at}"),
        PatternFault::RangeOrder(at) => write!(out, "rangeorder {at}"),
        PatternFault::RepeatTooWide(at) => write!(out, "repeattoowide {at}"),
        PatternFault::Memory => out.push_str("memory"),
    }
}

/// What is said of a set: how many members it has and which is the first, the set of the others, and of both.
fn write_members(out: &mut String, set: &CharSet) -> anyhow::Result<()> {
    let width = set.width();
    write!(out, "{width} ")?;
    match set.first() {
        Some(c) => write!(out, "first {c} ")?,
        None => out.push_str("none ")?,
    }
    let others = set.complement().map_err(no_memory)?;
    write_set(out, &others)?;
    out.push_str(" ")?;
    write_set(out, &set.union(&others).map_err(no_memory)?)?;
    if set.contains('a') {
        out.push_str(" has a")?;
    }
    Ok(())
}

/// The first members of a set in the order in which words are made.
fn write_order(out: &mut String, set: &CharSet) -> anyhow::Result<()> {
    let mut next = set.first();
    for _ in 0..8 {
        let Some(c) = next else {
            return Ok(out.push_str("end")?);
        };
        let code = u32::from(c);
        write!(out, "{code:x} ")?;
        next = set.next_after(c);
    }
    Ok(out.push_str("..")?)
}

/// What a line requests of a class.
#[derive(Clone, Copy)]
enum Question {
    Members,
    Order,
}

/// What is said of a class, by its tree.
fn write_class(out: &mut String, question: Question, class: &Re) -> anyhow::Result<()> {
    match (question, class) {
        (Question::Members, Re::Set(set)) => write_members(out, set),
        (Question::Order, Re::Set(set)) => write_order(out, set),
        _ => Ok(out.push_str("no set")?),
    }
}

/// What is said of a class.
fn set_answer(alloc: Global, question: Question, class: &str) -> anyhow::Result<String> {
    let mut out = String::new(alloc);
    match read_pattern(alloc, class) {
        Ok(tree) => write_class(&mut out, question, &tree)?,
        Err(fault) => write_fault(&mut out, fault)?,
    }
    Ok(out)
}

/// What is said of a pattern.
fn answer(alloc: Global, pattern: &str) -> Result<String, AllocError> {
    let mut out = String::new(alloc);
    match read_pattern(alloc, pattern) {
        Ok(tree) => write_tree(&mut out, &tree)?,
        Err(fault) => write_fault(&mut out, fault)?,
    }
    Ok(out)
}

fn main(rt: HostRuntime) -> anyhow::Result<()> {
    for line in rt.lines(rt.alloc()) {
        let line = line?;
        let line = line.as_str();
        let shown = if let Some(class) = line.strip_prefix("set ") {
            set_answer(rt.alloc(), Question::Members, class)?
        } else if let Some(class) = line.strip_prefix("order ") {
            set_answer(rt.alloc(), Question::Order, class)?
        } else {
            answer(rt.alloc(), line)?
        };
        rt.println(shown)?;
    }
    Ok(())
}
