//! JSON values: documents, with a leaf for a number that is not whole. Schema texts are read as these.

ghost use Rattle.std.specs.Prelude.{◌≡◌, ◌<◌, true, map, length, get_or, option_map, chars};
ghost use Rattle.documents.specs.Json.{items_of, members_of, elements, entries, lookup};
ghost use Rattle.documents.specs.WellFormed.{names_rise};

use crate::rising::{Named, Rising};
use crate::text::Str;
use crate::word::Word;

/// A JSON value. `NotWhole` stands for each number that is not held as a 64-bit integer.
#[cycle(json)]
#[derive(Drop)]
pub enum Json {
    Null,
    Bool(bool),
    Num(i128),
    NotWhole,
    Text(Word),
    List(JsonList),
    Members(JsonMap),
}

/// The elements of an array, in order.
#[cycle(json)]
#[derive(Drop)]
pub struct JsonList {
    items: Vec<Json>,
}

/// A member of an object.
pub type JsonMember = Named<Json>;

/// The members of an object, each name once, in ascending order of scalar values.
#[cycle(json)]
#[derive(Drop)]
pub struct JsonMap {
    members: Rising<Json>,
}

impl JsonList {
    ghost use Rattle.js_doc.specs.declared.json.JsonList.{out-JsonList};
    ghost use Rattle.js_doc.specs.JsonView.{view, list_view};

    /// Takes the vector over, without a copy.
    pub fn from_vec(items: Vec<Json>) -> JsonList
        ensures { list_view result ≡ items_of (map view items.items) }
    {
        JsonList { items }
    }

    /// The elements. The clause `held` is for proofs that a recursion over them ends.
    pub fn as_slice(&self) -> &[Json]
        ensures view { items_of (map view result.now) ≡ list_view self.now }
        ensures held { result.now ≡ (out-JsonList self.now).items.items }
    {
        self.items.as_slice()
    }

    /// How many elements there are, in constant time.
    pub fn len(&self) -> usize
        ensures { result ≡ length (elements (list_view self.now)) }
    {
        self.as_slice().len()
    }

    /// The element at index `i`, counted from 0, in constant time.
    pub fn at(&self, i: usize) -> &Json
        requires { i < length (elements (list_view self.now)) }
        ensures { view result.now ≡ get_or (elements (list_view self.now)) i (view result.now) }
    {
        &self.as_slice()[i]
    }
}

impl Named<Json> {
    ghost use Rattle.js_doc.specs.JsonView.{view, member_view};

    /// A member with that name and value, both taken over without a copy.
    pub fn new(name: Str, value: Json) -> JsonMember
        ensures { member_view result ≡ (name, view value) }
    {
        Named {
            name: Word::new(name),
            value,
        }
    }

    /// The name as the text that it stands for, without quotes and escapes.
    pub fn name(&self) -> &Str
        ensures view { result.now ≡ (member_view self.now).0 }
    {
        self.name.as_str()
    }

    /// The value. The clause `held` is for proofs that a recursion over it ends.
    pub fn value(&self) -> &Json
        ensures view { view result.now ≡ (member_view self.now).1 }
        ensures held { result.now ≡ self.now.value }
    {
        &self.value
    }
}

impl JsonMap {
    ghost use Rattle.js_doc.specs.declared.json.JsonMap.{out-JsonMap};
    ghost use Rattle.js_doc.specs.JsonView.{view, map_view, member_view};

    /// The members, which have to be in ascending order of their names, each name once.
    pub fn from_vec(members: Vec<JsonMember>) -> JsonMap
        requires { names_rise (members_of (map member_view members.items)) ≡ true }
        ensures { map_view result ≡ members_of (map member_view members.items) }
    {
        JsonMap {
            members: Rising::from_vec(members),
        }
    }

    /// The members. The clause `held` is for proofs that a recursion over them ends.
    pub fn as_slice(&self) -> &[JsonMember]
        ensures view { members_of (map member_view result.now) ≡ map_view self.now }
        ensures held { result.now ≡ (out-JsonMap self.now).members.members.items }
    {
        self.members.as_slice()
    }

    /// How many members there are, in constant time.
    pub fn len(&self) -> usize
        ensures { result ≡ length (entries (map_view self.now)) }
    {
        self.as_slice().len()
    }

    /// The member at index `i`, counted from 0 in ascending order of names, in constant time.
    pub fn at(&self, i: usize) -> &JsonMember
        requires { i < length (entries (map_view self.now)) }
        ensures { member_view result.now ≡ get_or (entries (map_view self.now)) i (member_view result.now) }
    {
        &self.as_slice()[i]
    }

    /// The value of the member of that name, where there is one. A binary search, logarithmic in the number of members.
    pub fn get(&self, name: &str) -> Option<&Json>
        ensures { option_map (λ j. view j.now) result ≡ lookup (chars name.now) (map_view self.now) }
    {
        self.members.get(name)
    }
}
