//! An object of a schema in which nothing is wrong, and that has no reference.

ghost use Rattle.std.specs.Prelude.{◌≡◌, ◌<◌, ◌↔◌, IsTrue, true, is_none, length, codes, option_map};
ghost use Rattle.documents.specs.Json as D;
ghost use Rattle.js_doc.specs.JsonView.{view, map_view};
ghost use Rattle.js_keywords.specs.Names.{keyword_name};
ghost use Rattle.js_reader.specs.Faultless.{is_faultless};
ghost use Rattle.js_reader.specs.NumbersView.{pointers_in, pointer_at};

use crate::numbers::Numbers;
use js_doc::{Json, JsonMap};
use js_keywords::Keyword;

/// The object, the number of its pointer, and the places among which its schemas are. Which file it is in is of no
/// matter to its members.
#[derive(Drop)]
pub(crate) struct Object<'a> {
    numbers: &'a Numbers<'a>,
    pointer: u32,
    members: &'a JsonMap,
    ghost placed: { pointer < length (pointers_in numbers.now) },
    ghost plain: { is_none (D.lookup (codes "$ref") (map_view members.now)) ≡ true },
    ghost faultless: { is_faultless (pointer_at numbers.now pointer) (map_view members.now) ≡ true },
}

impl<'a> Object<'a> {
    ghost use Rattle.js_reader.specs.ObjectView.{members_of, numbers_of, place_of};

    pub(crate) fn new(numbers: &'a Numbers<'a>, pointer: u32, members: &'a JsonMap) -> Object<'a>
        requires placed { pointer < length (pointers_in numbers.now) }
        requires plain { is_none (D.lookup (codes "$ref") (map_view members.now)) ≡ true }
        requires faultless { is_faultless (pointer_at numbers.now pointer) (map_view members.now) ≡ true }
        ensures members { members_of result ≡ map_view members.now }
        ensures place { place_of result ≡ pointer_at numbers.now pointer }
        ensures numbers { numbers_of result ≡ numbers.now }
    {
        Object {
            numbers,
            pointer,
            members,
        }
    }

    /// Whether the object has no members.
    pub(crate) fn is_empty(&self) -> bool
        ensures { IsTrue result ↔ (members_of self.now ≡ D.no_members) }
    {
        self.members.len() == 0
    }

    /// The value of the keyword, where the object has it.
    #[tactic(auto, using(js_walk::proofs::MembersLemmas::keyword_names))]
    pub(crate) fn value(&self, keyword: Keyword) -> Option<&'a Json>
        ensures { option_map (λ j. view j.now) result ≡ D.lookup (keyword_name keyword) (members_of self.now) }
    {
        self.members.get(keyword.name())
    }

    /// The number of the object's pointer.
    pub(crate) fn pointer(&self) -> u32
        ensures placed { result < length (pointers_in (numbers_of self.now)) }
        ensures place { pointer_at (numbers_of self.now) result ≡ place_of self.now }
    {
        self.pointer
    }

    pub(crate) fn numbers(&self) -> &'a Numbers<'a>
        ensures { result.now ≡ numbers_of self.now }
    {
        self.numbers
    }
}
