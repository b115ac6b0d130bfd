//! A part from the bytes of its line. As in `scanner`, what is read is to be written again and compared.

ghost use Rattle.std.specs.Prelude.{◌≡◌, ℕ, ℤ, ◌≤◌, ◌∷◌, ◌++◌, [], List, true, length, map, option_map, IfOk, IfSome, Some};
ghost use Rattle.std.specs.Fmt.{signed_decimal};
ghost use Rattle.documents.specs.Tests.{comes_before, every, is_scalar};
ghost use Rattle.shared_documents.specs.Part.{members_rise};
ghost use Rattle.shared_documents.specs.Part as P;
ghost use Rattle.document_texts.specs.Scalars.{string_text, joined};
ghost use Rattle.document_texts.specs.PartsRead.{is_named, is_member, is_told};
ghost use Rattle.document_texts.specs.PartsText.{reference_text, named_text};
ghost use Rattle.document_text_laws.specs.Reader.{behind_comma, ends, ends_list};
ghost use Rattle.js_doc.specs.PartMembers.{member_view};
ghost use Rattle.js_doc.specs.PartView.{part_view};
ghost use Rattle.js_text.specs.Reads.{Gives, is_fine, Reads, ReadsList, ReadsPart, Takes};

use crate::scanner::{reference, word};
use js_doc::{Memory, Part, PartIds, PartMap, PartMember, Str};
use std::alloc::Global;
use std::cmp::Ordering;

/// A part whose text is there, with a line feed behind it.
pub(crate) fn read_part(alloc: Global, text: &[u8]) -> Result<Option<Part>, Memory>
    ensures reads { IfOk result (λ r. ReadsPart text.now (option_map part_view r)) }
    ensures gives { IfOk result (λ r. Gives is_fine (option_map part_view r)) }
{
    match text {
        [] => Ok(None),
        [first, rest @ ..] => part_from(alloc, *first, text, rest),
    }
}

/// `read_part` by the first byte, which decides the part's kind.
fn part_from(alloc: Global, first: u8, text: &[u8], rest: &[u8]) -> Result<Option<Part>, Memory>
    requires { text.now ≡ first ∷ rest.now }
    ensures reads { IfOk result (λ r. ReadsPart text.now (option_map part_view r)) }
    ensures gives { IfOk result (λ r. Gives is_fine (option_map part_view r)) }
{
    match first {
        b'n' => Ok(Some(Part::Null)),
        b't' => Ok(Some(Part::Bool(true))),
        b'f' => Ok(Some(Part::Bool(false))),
        b'"' => string_part(alloc, text),
        b'[' => list_part(alloc, rest),
        b'{' => members_part(alloc, rest),
        _ => Ok(number_part(text)),
    }
}

fn string_part(alloc: Global, text: &[u8]) -> Result<Option<Part>, Memory>
    ensures reads { IfOk result (λ r. (s rest : List ℕ) → every is_scalar s ≡ true → ends rest ≡ true
        → text.now ≡ string_text s ++ rest → option_map part_view r ≡ Some (P.string s)) }
    ensures gives { IfOk result (λ r. Gives is_fine (option_map part_view r)) }
{
    match word(alloc, text)? {
        None => Ok(None),
        Some((word, _)) => Ok(Some(Part::Text(word))),
    }
}

fn list_part(alloc: Global, text: &[u8]) -> Result<Option<Part>, Memory>
    ensures reads { IfOk result (λ r. (is rest : List ℕ) → every is_named is ≡ true
        → text.now ≡ joined (map reference_text is) ++ 93 ∷ rest → option_map part_view r ≡ Some (P.array is)) }
    ensures gives { IfOk result (λ r. Gives is_fine (option_map part_view r)) }
{
    match read_ids(alloc, text)? {
        None => Ok(None),
        Some(ids) => Ok(Some(Part::List(ids))),
    }
}

fn members_part(alloc: Global, text: &[u8]) -> Result<Option<Part>, Memory>
    ensures reads { IfOk result (λ r. (ms : List (List ℕ × ℕ)) (rest : List ℕ) → every is_member ms ≡ true
        → members_rise ms ≡ true → text.now ≡ joined (map named_text ms) ++ 125 ∷ rest
        → option_map part_view r ≡ Some (P.object ms)) }
    ensures gives { IfOk result (λ r. Gives is_fine (option_map part_view r)) }
{
    match read_members(alloc, text)? {
        None => Ok(None),
        Some(members) => Ok(rising_part(members)),
    }
}

fn rising_part(members: Vec<PartMember>) -> Option<Part>
    ensures rising { members_rise (map member_view members.items) ≡ true
        → option_map part_view result ≡ Some (P.object (map member_view members.items)) }
    ensures given { IfSome result (λ p. part_view p ≡ P.object (map member_view members.items)) }
    ensures risen { IfSome result (λ p. members_rise (map member_view members.items) ≡ true) }
{
    if are_rising(&members) {
        Some(Part::Members(PartMap::from_vec(members)))
    } else {
        None
    }
}

/// Whether each name comes before the next one.
fn are_rising(members: &[PartMember]) -> bool
    ensures { result ≡ members_rise (map member_view members.now) }
{
    members.is_sorted_by(|member, next| comes_before(&member.name, &next.name))
}

fn comes_before(name: &Str, other: &Str) -> bool
    ensures { result ≡ comes_before name.now other.now }
{
    match name.as_text().cmp(other.as_text()) {
        Ordering::Less => true,
        Ordering::Equal => false,
        Ordering::Greater => false,
    }
}

fn number_part(text: &[u8]) -> Option<Part>
    ensures reads { (z : ℤ) → is_told (P.number z) ≡ true → text.now ≡ signed_decimal z ++ 10 ∷ []
        → option_map part_view result ≡ Some (P.number z) }
    ensures gives { Gives is_fine (option_map part_view result) }
{
    let number = integer(text)?;
    Some(Part::Num(number))
}

/// The number that the bytes before the last one say.
fn integer(text: &[u8]) -> Option<i128>
    ensures reads { (z : ℤ) → is_told (P.number z) ≡ true → text.now ≡ signed_decimal z ++ 10 ∷ [] → result ≡ Some z }
    ensures gives { Gives (λ z. is_told (P.number z)) result }
{
    let [digits @ .., _] = text else { return None };
    match str::from_utf8(digits) {
        Ok(digits) => digits.parse::<i128>().ok(),
        Err(_) => None,
    }
}

/// Whether a list ends here.
fn ends_list(text: &[u8], close: u8) -> bool
    ensures { result ≡ ends_list close text.now }
{
    match text {
        [] => false,
        [first, ..] => *first == close,
    }
}

/// What comes behind a comma, or all where none comes first.
fn behind_comma(text: &[u8]) -> &[u8]
    ensures value { result.now ≡ behind_comma text.now }
    ensures shorter { length result.now ≤ length text.now }
{
    match text {
        [b',', rest @ ..] => rest,
        _ => text,
    }
}

/// The numbers of parts up to the bracket.
fn read_ids(alloc: Global, text: &[u8]) -> Result<Option<PartIds>, Memory>
    ensures reads { IfOk result (λ r. ReadsList reference_text is_named 93 text.now r) }
    ensures gives { IfOk result (λ r. Gives (every is_named) r) }
{
    let mut found = Vec::new(alloc);
    let mut left = text;
    while !ends_list(left, b']') {
        let Some((id, rest)) = reference(behind_comma(left)) else {
            return Ok(None);
        };
        found.push(id)?;
        left = rest;
    }
    Ok(Some(PartIds::from_vec(found)))
}

/// The members up to the brace.
fn read_members(alloc: Global, text: &[u8]) -> Result<Option<Vec<PartMember>>, Memory>
    ensures reads { IfOk result (λ r. ReadsList named_text is_member 125 text.now
        (option_map (λ v. map member_view v.items) r)) }
    ensures gives { IfOk result (λ r. Gives (every is_member) (option_map (λ v. map member_view v.items) r)) }
{
    let mut found = Vec::new(alloc);
    let mut left = text;
    while !ends_list(left, b'}') {
        match member(alloc, behind_comma(left))? {
            None => return Ok(None),
            Some((member, rest)) => {
                found.push(member)?;
                left = rest;
            }
        }
    }
    Ok(Some(found))
}

/// A member, and what comes behind.
fn member<'a>(alloc: Global, text: &'a [u8]) -> Result<Option<(PartMember, &'a [u8])>, Memory>
    ensures reads { IfOk result (λ r. Reads named_text is_member text.now
        (option_map {U = (List ℕ × ℕ) × List ℕ} (λ (m, left). (member_view m, left.now)) r)) }
    ensures takes { IfOk result (λ r. Takes is_member text.now
        (option_map {U = (List ℕ × ℕ) × List ℕ} (λ (m, left). (member_view m, left.now)) r)) }
{
    match word(alloc, text)? {
        None => Ok(None),
        Some((name, left)) => Ok(named(name, left)),
    }
}

/// The member of that name whose colon and part come next.
fn named(name: Str, text: &[u8]) -> Option<(PartMember, &[u8])>
    requires { every is_scalar name ≡ true }
    ensures reads { (i : ℕ) (rest : List ℕ) → is_named i ≡ true → ends rest ≡ true
        → text.now ≡ 58 ∷ reference_text i ++ rest
        → option_map {U = (List ℕ × ℕ) × List ℕ} (λ (m, left). (member_view m, left.now)) result
        ≡ Some ((name, i), rest) }
    ensures takes { Takes is_member text.now
        (option_map {U = (List ℕ × ℕ) × List ℕ} (λ (m, left). (member_view m, left.now)) result) }
{
    let [_, value @ ..] = text else { return None };
    let (part, left) = reference(value)?;
    Some((PartMember { name, part }, left))
}
