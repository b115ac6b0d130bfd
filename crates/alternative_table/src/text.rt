//! The text of an expansion.

ghost use Rattle.std.specs.Prelude.{◌≡◌, ◌<◌, true, length};
ghost use Rattle.js_expansion.specs.ExpansionView.{expansion_view};

use js_algebra::Goal;
use js_doc::{Memory, Str};
use js_expansion::{Alternative, Expander, Expansion, Filler, LimitKind, Placed, Shape, Slot};
use serde_json::Value;
use std::alloc::Global;

/// The alternatives in order and the limit, with bars between them.
pub(crate) fn expansion_text<E: Expander>(
    alloc: Global,
    expander: &E,
    goal: &Goal,
) -> Result<String, Memory>
    requires { E.takes expander.now goal.now ≡ true }
{
    let expansion = expander.expand(alloc, goal)?;
    let mut text = String::new(alloc);
    for number in 0..expansion.alternatives.as_slice().len() {
        push_bar(&mut text)?;
        push_alternative(alloc, expander, goal, &expansion, number, &mut text)?;
    }
    if let Some(limit) = expansion.hole {
        push_bar(&mut text)?;
        text.push_str("limit ")?;
        text.push_str(limit_word(limit))?;
    }
    if text.is_empty() {
        text.push_str("none")?;
    }
    Ok(text)
}

fn push_bar(text: &mut String) -> Result<(), Memory> {
    if !text.is_empty() {
        text.push_str(" | ")?;
    }
    Ok(())
}

/// The alternative of that number.
fn push_alternative<E: Expander>(
    alloc: Global,
    expander: &E,
    goal: &Goal,
    expansion: &Expansion,
    number: usize,
    text: &mut String,
) -> Result<(), Memory>
    requires taken { E.takes expander.now goal.now ≡ true }
    requires expansion { expansion_view expansion.now ≡ E.expansion expander.now goal.now }
    requires number { number < length expansion.now.alternatives }
{
    let alternative = &expansion.alternatives.as_slice()[number];
    let branch = alternative.branch;
    let place = branch.number;
    text.push_str(branch.kind.as_word())?;
    write!(text, " {place} ")?;
    match alternative.shape {
        Shape::Text => push_word(alloc, expander, goal, expansion, number, text)?,
        shape => push_shape(shape, text)?,
    }
    push_parts(alternative, text)
}

/// The word of a string, as JSON has it.
fn push_word<E: Expander>(
    alloc: Global,
    expander: &E,
    goal: &Goal,
    expansion: &Expansion,
    number: usize,
    text: &mut String,
) -> Result<(), Memory>
    requires taken { E.takes expander.now goal.now ≡ true }
    requires expansion { expansion_view expansion.now ≡ E.expansion expander.now goal.now }
{
    let alternatives = expansion.alternatives.as_slice();
    if number < alternatives.len()
        && let Shape::Text = alternatives[number].shape
    {
        let branch = alternatives[number].branch;
        let words = expander.words(alloc, goal, branch, 0, 1)?;
        push_strings(alloc, words.as_slice(), text)?;
    }
    Ok(())
}

fn push_strings(alloc: Global, words: &[Str], text: &mut String) -> Result<(), Memory> {
    for word in words {
        let plain = String::from_str(alloc, word.as_text())?;
        let quoted = Value::String(plain).to_string(alloc)?;
        text.push_str(quoted.as_str())?;
    }
    Ok(())
}

fn push_shape(shape: Shape, text: &mut String) -> Result<(), Memory> {
    match shape {
        Shape::Null => text.push_str("null")?,
        Shape::Bool(truth) => text.push_str(if truth { "true" } else { "false" })?,
        Shape::Num(number) => write!(text, "{number}")?,
        Shape::Text => text.push_str("text")?,
        Shape::List => text.push_str("list")?,
        Shape::Members => text.push_str("members")?,
    }
    Ok(())
}

/// Members, need and fillers, as far as there are any.
fn push_parts(alternative: &Alternative, text: &mut String) -> Result<(), Memory> {
    for member in alternative.members.as_slice() {
        push_member(member, text)?;
    }
    let need = alternative.need;
    if need > 0 {
        write!(text, " need {need}")?;
    }
    for filler in alternative.fillers.as_slice() {
        push_filler(filler, text)?;
    }
    Ok(())
}

fn push_member(member: &Placed, text: &mut String) -> Result<(), Memory> {
    text.push(' ')?;
    push_slot(member.slot, text)?;
    push_goal(&member.goal, text)
}

fn push_filler(filler: &Filler, text: &mut String) -> Result<(), Memory> {
    let room = filler.room;
    text.push_str(" fill ")?;
    push_slot(filler.slot, text)?;
    push_goal(&filler.goal, text)?;
    write!(text, "x{room}")?;
    Ok(())
}

fn push_slot(slot: Slot, text: &mut String) -> Result<(), Memory> {
    match slot {
        Slot::Index(index) => write!(text, "{index}:")?,
        Slot::Name(cell, place) => write!(text, "{cell}/{place}:")?,
    }
    Ok(())
}

/// The signed positions of a goal, or a star where it requires nothing.
fn push_goal(goal: &Goal, text: &mut String) -> Result<(), Memory> {
    if goal.as_slice().is_empty() {
        text.push('*')?;
    }
    for x in goal.as_slice() {
        let sign = if x.plus { '+' } else { '-' };
        let place = x.pos.0;
        write!(text, "{sign}{place}")?;
    }
    Ok(())
}

fn limit_word(limit: LimitKind) -> &'static str {
    match limit {
        LimitKind::Branches => "branches",
        LimitKind::Positions => "positions",
        LimitKind::Classes => "classes",
        LimitKind::States => "states",
        LimitKind::Counts => "counts",
        LimitKind::Multiples => "multiples",
        LimitKind::Candidates => "candidates",
        LimitKind::Plans => "plans",
        LimitKind::Width => "width",
        LimitKind::Places => "places",
        LimitKind::Goals => "goals",
        LimitKind::Total => "total",
    }
}
