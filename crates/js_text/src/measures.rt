//! How long the text of a document is, and how deep it nests, for all parts of a table, without unsharing any.

ghost use Rattle.std.specs.Prelude.{◌≡◌, ◌<◌, true, map, length, nat_lt, IfOk};
ghost use Rattle.documents.specs.Tests.{every};
ghost use Rattle.shared_documents.specs.Part.{names_below};
ghost use Rattle.document_texts.specs.Measured as M;
ghost use Rattle.document_texts.specs.PartsText.{part_text};
ghost use Rattle.js_doc.specs.PartView.{part_view};
ghost use Rattle.js_text.specs.Kept.{AreMeasures, measure_at};
ghost use Rattle.js_text.specs.Summed as S;

use crate::scalars::push_string;
use crate::table::push_part;
use js_doc::{Memory, Part, PartId, PartIds, PartMap, Parts};
use std::alloc::Global;
use std::marker::Model;

/// What is measured of a document. A length past the last value of `u64` is given as that value, a depth past the last
/// value of `u32` as that one.
#[derive(Clone, Copy, PartialEq, Eq, Debug)]
pub struct Measure {
    /// The bytes of its text.
    pub length: u64,
    /// How many arrays and objects are nested.
    pub depth: u32,
    /// Whether each number lies from -2^63 to 2^64 - 1.
    pub short_numbers: bool,
}

impl Measure {
    /// The measure of a list before its first element.
    fn none() -> Measure
        ensures { S.measure_view result ≡ S.no_elements }
    {
        Measure {
            length: 0,
            depth: 0,
            short_numbers: true,
        }
    }

    /// Adds one more element, before which `before` bytes come: a member's name and colon.
    fn with(self, before: u64, value: Measure) -> Measure
        ensures { S.measure_view result ≡ S.added (S.measure_view self) before (S.measure_view value) }
    {
        Measure {
            length: self
                .length
                .saturating_add(before)
                .saturating_add(value.length),
            depth: self.depth.max(value.depth),
            short_numbers: self.short_numbers && value.short_numbers,
        }
    }

    /// Adds the commas between `count` elements and the brackets around them.
    fn closed(self, count: usize) -> Measure
        requires { count < 9223372036854775808 }
        ensures { S.measure_view result ≡ S.closed count (S.measure_view self) }
    {
        let marks = count.saturating_sub(1) as u64 + 2;
        Measure {
            length: self.length.saturating_add(marks),
            depth: self.depth.saturating_add(1),
            short_numbers: self.short_numbers,
        }
    }
}

/// The measures of the documents that the parts of a table stand for.
#[derive(Drop)]
pub struct Measures {
    of_parts: Vec<Measure>,
}

impl Model for Measures {
    ghost use Rattle.std.specs.Prelude.{List, map};
    ghost use Rattle.document_texts.specs.Measured.{Measured};

    ghost Value = { List Measured };

    ghost use Rattle.js_text.specs.Summed.{measure_view};

    ghost view = { λ m. map measure_view m.of_parts.items };
}

impl Measures {
    ghost use Rattle.shared_documents.specs.Unshared.{unshared};
    ghost use Rattle.document_texts.specs.Measured.{measured};
    ghost use Rattle.js_text.specs.Kept.{AreMeasures};
    ghost use Rattle.js_text.specs.Summed.{measure_view};

    /// Measures all parts, each once: time in proportion to the table's text, and memory for a measure a part.
    pub fn room(alloc: Global, parts: &Parts) -> Result<Measures, Memory>
        ensures { IfOk result (λ m. AreMeasures parts.now m) }
    {
        let mut of_parts = Vec::with_capacity(alloc, parts.len() as usize)?;
        for part in parts.as_slice() {
            let measure = measure_part(alloc, part, of_parts.as_slice())?;
            of_parts.push(measure)?;
        }
        Ok(Measures { of_parts })
    }

    /// The measure of the document that the part stands for, where these are the measures of the table.
    pub fn measure(&self, parts: &Parts, id: PartId) -> Measure
        requires table { AreMeasures parts.now self.now }
        requires within { id.0 < length parts.now }
        ensures { measure_view result ≡ measured (unshared parts.now id.0) }
    {
        let _ = parts;
        self.of_parts[id.index()]
    }
}

/// The measure of a part, where `below` has those of the parts that it names.
fn measure_part(alloc: Global, part: &Part, below: &[Measure]) -> Result<Measure, Memory>
    requires { names_below (length below.now) (part_view part.now) ≡ true }
    ensures { IfOk result (λ m. S.measure_view m
        ≡ S.part_measure (measure_at (map S.measure_view below.now)) (part_view part.now)) }
{
    match part {
        Part::List(ids) => Ok(measure_ids(ids, below)),
        Part::Members(members) => measure_members(alloc, members, below),
        Part::Num(number) => measure_scalar(alloc, part, is_short(*number)),
        Part::Null | Part::Bool(_) | Part::Text(_) => measure_scalar(alloc, part, true),
    }
}

fn measure_scalar(alloc: Global, part: &Part, short: bool) -> Result<Measure, Memory>
    ensures { IfOk result (λ m. S.measure_view m ≡ S.scalar_measure (part_text (part_view part.now)) short) }
{
    let mut text = String::new(alloc);
    push_part(alloc, &mut text, part)?;
    Ok(Measure {
        length: text.len() as u64,
        depth: 0,
        short_numbers: short,
    })
}

fn is_short(number: i128) -> bool
    ensures { result ≡ M.is_short number }
{
    -9223372036854775808 <= number && number <= 18446744073709551615
}

fn measure_ids(ids: &PartIds, below: &[Measure]) -> Measure
    requires { every (λ i. nat_lt i (length below.now)) ids.now ≡ true }
    ensures { S.measure_view result ≡ S.ids_measure (measure_at (map S.measure_view below.now)) ids.now }
{
    let numbers = ids.as_slice();
    let mut sum = Measure::none();
    for id in numbers {
        sum = sum.with(0, below[id.index()]);
    }
    sum.closed(numbers.len())
}

fn measure_members(alloc: Global, members: &PartMap, below: &[Measure]) -> Result<Measure, Memory>
    requires { every (λ i. nat_lt i (length below.now)) (map (λ m. m.1) members.now) ≡ true }
    ensures { IfOk result (λ r. S.measure_view r
        ≡ S.members_measure (measure_at (map S.measure_view below.now)) members.now) }
{
    let named = members.as_slice();
    let mut sum = Measure::none();
    for member in named {
        let mut name = String::new(alloc);
        push_string(alloc, &mut name, &member.name)?;
        sum = sum.with(name.len() as u64 + 1, below[member.part.index()]);
    }
    Ok(sum.closed(named.len()))
}
