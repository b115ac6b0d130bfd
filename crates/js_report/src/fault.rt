//! The words of the faults of schemas.

ghost use Rattle.std.specs.Prelude.{◌≡◌, ◌++◌, ◌∷◌, IfOk, OnOk, Some, codes, decimal, option_map, string_bytes};
ghost use Rattle.js_keywords.specs.FaultView.{fault_view};
ghost use Rattle.js_report.specs.RefusalWords as R;

use crate::place::{placed_words, push_place};
use js_doc::Memory;
use js_json::{Pointer, RefFault};
use js_keywords::SchemaFault;
use js_pattern::PatternFault;
use std::alloc::Global;

/// What is wrong in a schema, and where. Want of memory has no words: it is an error of its own.
pub fn schema_words(alloc: Global, fault: &SchemaFault) -> Result<String, Memory>
    ensures { IfOk result (λ s. option_map R.schema_words (fault_view fault.now) ≡ Some (string_bytes s)) }
{
    match fault {
        SchemaFault::NotASchema(place) => placed_words(alloc, "notaschema", place),
        SchemaFault::WrongShape(keyword, place) => named(
            alloc,
            "wrongshape ",
            keyword.name(),
            place,
        ),
        SchemaFault::NotWhole(place) => placed_words(alloc, "notwhole", place),
        SchemaFault::NotPositive(place) => placed_words(alloc, "notpositive", place),
        SchemaFault::Negative(place) => placed_words(alloc, "negative", place),
        SchemaFault::EmptyList(place) => placed_words(alloc, "emptylist", place),
        SchemaFault::UniqueItems(place) => placed_words(alloc, "uniqueitems", place),
        SchemaFault::InnerId(place) => placed_words(alloc, "innerid", place),
        SchemaFault::Ref(reason, place) => reference_words(alloc, *reason, place),
        SchemaFault::Pattern(PatternFault::Memory, _) => Err(Memory),
        SchemaFault::Pattern(reason, place) => bad_pattern(alloc, *reason, place),
        SchemaFault::TooLarge(place) => placed_words(alloc, "toolarge", place),
        SchemaFault::Memory => Err(Memory),
    }
}

/// Words, a name after them, and the place.
fn named(alloc: Global, words: &str, name: &str, place: &Pointer) -> Result<String, Memory>
    ensures { IfOk result (λ s. string_bytes s ≡ R.placed_words (words.now ++ name.now) place.now) }
{
    let mut text = String::from_str(alloc, words)?;
    text.push_str(name)?;
    push_place(&mut text, place, alloc)?;
    Ok(text)
}

fn reference_words(alloc: Global, reason: RefFault, place: &Pointer) -> Result<String, Memory>
    ensures { IfOk result (λ s. string_bytes s ≡ R.placed_words (codes "ref " ++ R.reference_word reason) place.now) }
{
    let word = match reason {
        RefFault::Remote => "remote",
        RefFault::BadPointer => "badpointer",
        RefFault::Missing => "missing",
        RefFault::NotASchema => "notaschema",
        RefFault::Memory => return Err(Memory),
    };
    named(alloc, "ref ", word, place)
}

fn bad_pattern(alloc: Global, reason: PatternFault, place: &Pointer) -> Result<String, Memory>
    ensures { IfOk result (λ s. string_bytes s
        ≡ R.placed_words (codes "pattern " ++ R.pattern_words reason) place.now) }
{
    let mut text = String::from_str(alloc, "pattern ")?;
    text.push_str(pattern_word(reason))?;
    push_form(&mut text, reason)?;
    push_count(&mut text, count_before(reason))?;
    push_place(&mut text, place, alloc)?;
    Ok(text)
}

fn pattern_word(reason: PatternFault) -> &'static str
    ensures { result.now ≡ R.pattern_word reason }
{
    match reason {
        PatternFault::Syntax(_) => "syntax",
        PatternFault::Unsupported(_, _) => "unsupported",
        PatternFault::QuantifierOrder(_) => "quantifierorder",
        PatternFault::RangeOrder(_) => "rangeorder",
        PatternFault::RepeatTooWide(_) => "repeattoowide",
        PatternFault::Memory => "",
    }
}

fn count_before(reason: PatternFault) -> usize
    ensures { result ≡ R.count_before reason }
{
    match reason {
        PatternFault::Syntax(at) => at,
        PatternFault::Unsupported(at, _) => at,
        PatternFault::QuantifierOrder(at) => at,
        PatternFault::RangeOrder(at) => at,
        PatternFault::RepeatTooWide(at) => at,
        PatternFault::Memory => 0,
    }
}

fn push_form(text: &mut String, reason: PatternFault) -> Result<(), Memory>
    ensures { OnOk result (string_bytes text.new ≡ string_bytes text.old ++ R.form_words reason) }
{
    match reason {
        PatternFault::Unsupported(_, form) => {
            text.push_str(" ")?;
            text.push_str(form.name())?;
            Ok(())
        }
        _ => Ok(()),
    }
}

fn push_count(text: &mut String, count: usize) -> Result<(), Memory>
    ensures { OnOk result (string_bytes text.new ≡ string_bytes text.old ++ 32 ∷ decimal count) }
{
    let digits = format!(in *text.allocator(); "{count}")?;
    text.push_str(" ")?;
    text.push_str(digits.as_str())?;
    Ok(())
}
