//! The lines of a table.

ghost use Rattle.std.specs.Prelude.{◌≡◌, ◌++◌, ◌∷◌, IfOk, OnOk, flat_map, map, string_bytes};
ghost use Rattle.documents.specs.KindWords.{kind_word};
ghost use Rattle.js_algebra.specs.View.{kind_view, node_view, name_set_view};
ghost use Rattle.js_core_text.specs.CoreText as T;

use crate::strings::{
    push_integer, push_integers, push_number, push_patterns, push_place, push_places, push_string,
    push_strings,
};
use js_algebra::{Core, JsonKind, NameSet, Node, Pos};
use js_doc::Memory;
use std::alloc::Global;

/// The text of a table: the line `core` with the number of positions, and a line for each position.
pub fn core_text(alloc: Global, core: &Core) -> Result<String, Memory>
    ensures { IfOk result (λ s. string_bytes s ≡ T.core_text core.now.positions) }
{
    let mut out = String::new(alloc);
    let count = core.len();
    write!(out, "core {count}\n")?;
    for number in 0..core.len() {
        push_line(alloc, &mut out, number, core.node(Pos(number)))?;
    }
    Ok(out)
}

fn push_line(alloc: Global, out: &mut String, number: u32, node: &Node) -> Result<(), Memory>
    ensures { OnOk result (string_bytes out.new ≡ string_bytes out.old ++ T.line_text number (node_view node.now)) }
{
    write!(out, "{number} ")?;
    out.push_str(word(node))?;
    push_asked(alloc, out, node)?;
    out.push('\n')?;
    Ok(())
}

/// What a position requires.
fn push_asked(alloc: Global, out: &mut String, node: &Node) -> Result<(), Memory>
    ensures { OnOk result (string_bytes out.new ≡ string_bytes out.old ++ T.asked_text (node_view node.now)) }
{
    match node {
        Node::True | Node::False => Ok(()),
        Node::Same(p) | Node::Not(p) | Node::Contains(p) | Node::NamesIn(p) => push_place(out, *p),
        Node::All(ps) | Node::Any(ps) | Node::One(ps) => push_places(out, ps.as_slice()),
        Node::Depends(h, p) => {
            push_place(out, *h)?;
            push_place(out, *p)
        }
        Node::Types(kinds) => push_kinds(out, kinds.as_slice()),
        Node::BoolIs(truth) => push_truth(out, *truth),
        Node::NumMin(n) | Node::NumMax(n) => push_integer(out, *n),
        Node::Multiple(n)
        | Node::LengthMin(n)
        | Node::LengthMax(n)
        | Node::CountMin(n)
        | Node::CountMax(n)
        | Node::PropsMin(n)
        | Node::PropsMax(n) => push_number(out, *n),
        Node::NumIn(numbers) => push_integers(out, numbers.as_slice()),
        Node::Words(words) => push_strings(alloc, out, words.as_slice()),
        Node::Match(pattern) => push_string(alloc, out, &pattern.source),
        Node::Items(prefix, rest) => {
            push_place(out, *rest)?;
            push_places(out, prefix.as_slice())
        }
        Node::MembersOf(names, p) => {
            push_set(alloc, out, names)?;
            push_place(out, *p)
        }
        Node::Has(name) => push_string(alloc, out, name),
    }
}

/// The word for the kind of a position.
fn word(node: &Node) -> &'static str
    ensures { result.now ≡ T.position_word (node_view node.now) }
{
    match node {
        Node::True => "true",
        Node::False => "false",
        Node::Same(_) => "same",
        Node::Not(_) => "not",
        Node::All(_) => "all",
        Node::Any(_) => "any",
        Node::One(_) => "one",
        Node::Depends(_, _) => "depends",
        Node::Types(_) => "types",
        Node::BoolIs(_) => "boolis",
        Node::NumMin(_) => "nummin",
        Node::NumMax(_) => "nummax",
        Node::Multiple(_) => "multiple",
        Node::NumIn(_) => "numin",
        Node::Words(_) => "words",
        Node::Match(_) => "match",
        Node::LengthMin(_) => "lengthmin",
        Node::LengthMax(_) => "lengthmax",
        Node::Items(_, _) => "items",
        Node::Contains(_) => "contains",
        Node::CountMin(_) => "countmin",
        Node::CountMax(_) => "countmax",
        Node::MembersOf(_, _) => "members",
        Node::Has(_) => "has",
        Node::PropsMin(_) => "propsmin",
        Node::PropsMax(_) => "propsmax",
        Node::NamesIn(_) => "namesin",
    }
}

fn push_kinds(out: &mut String, kinds: &[JsonKind]) -> Result<(), Memory>
    ensures { OnOk result (string_bytes out.new
        ≡ string_bytes out.old ++ flat_map (λ t. 32 ∷ kind_word t) (map kind_view kinds.now)) }
{
    for kind in kinds {
        push_kind(out, *kind)?;
    }
    Ok(())
}

fn push_kind(out: &mut String, kind: JsonKind) -> Result<(), Memory>
    ensures { OnOk result (string_bytes out.new ≡ string_bytes out.old ++ 32 ∷ kind_word (kind_view kind)) }
{
    out.push_str(" ")?;
    out.push_str(kind.as_word())?;
    Ok(())
}

fn push_truth(out: &mut String, truth: bool) -> Result<(), Memory>
    ensures { OnOk result (string_bytes out.new ≡ string_bytes out.old ++ 32 ∷ T.truth_word truth) }
{
    out.push_str(if truth { " true" } else { " false" })?;
    Ok(())
}

/// A set of names: one name, a pattern, or all others than so many names and so many patterns.
fn push_set(alloc: Global, out: &mut String, names: &NameSet) -> Result<(), Memory>
    ensures { OnOk result (string_bytes out.new ≡ string_bytes out.old ++ T.set_text (name_set_view names.now)) }
{
    match names {
        NameSet::Named(name) => {
            out.push_str(" named")?;
            push_string(alloc, out, name)
        }
        NameSet::Matching(pattern) => {
            out.push_str(" matching")?;
            push_string(alloc, out, &pattern.source)
        }
        NameSet::Others(names, patterns) => {
            out.push_str(" others")?;
            push_number(out, names.as_slice().len() as u64)?;
            push_strings(alloc, out, names.as_slice())?;
            push_number(out, patterns.as_slice().len() as u64)?;
            push_patterns(alloc, out, patterns.as_slice())
        }
    }
}
