//! Documents: what JSON text stands for, with whole numbers. Members are in ascending order of their names.

ghost use Rattle.std.specs.Prelude.{◌≡◌, ◌<◌, true, map, length, get_or, option_map, chars};
ghost use Rattle.documents.specs.Document.{items_of, members_of, elements, entries, lookup, names_rise};

use crate::rising::{Named, Rising};
use crate::text::Str;
use crate::word::Word;

/// A document. Numbers are whole and lie within 128 bits.
#[cycle(document)]
#[derive(Drop)]
pub enum Doc {
    Null,
    Bool(bool),
    Num(i128),
    Text(Word),
    List(DocList),
    Members(DocMap),
}

/// The elements of an array, in order.
#[cycle(document)]
#[derive(Drop)]
pub struct DocList {
    items: Vec<Doc>,
}

/// A member of an object.
pub type Member = Named<Doc>;

/// The members of an object, each name once, in ascending order of scalar values.
#[cycle(document)]
#[derive(Drop)]
pub struct DocMap {
    members: Rising<Doc>,
}

impl DocList {
    ghost use Rattle.js_doc.specs.declared.document.DocList.{out-DocList};
    ghost use Rattle.js_doc.specs.View.{view, list_view};

    /// Takes the vector over, without a copy.
    pub fn from_vec(items: Vec<Doc>) -> DocList
        ensures { list_view result ≡ items_of (map view items.items) }
    {
        DocList { items }
    }

    /// The elements. The clause `held` is for proofs that a recursion over them ends.
    pub fn as_slice(&self) -> &[Doc]
        ensures view { items_of (map view result.now) ≡ list_view self.now }
        ensures held { result.now ≡ (out-DocList self.now).items.items }
    {
        self.items.as_slice()
    }

    /// How many elements there are, in constant time.
    pub fn len(&self) -> usize
        ensures { result ≡ length (elements (list_view self.now)) }
    {
        self.as_slice().len()
    }

    /// The element at index `i`, counted from 0, in constant time.
    pub fn at(&self, i: usize) -> &Doc
        requires { i < length (elements (list_view self.now)) }
        ensures { view result.now ≡ get_or (elements (list_view self.now)) i (view result.now) }
    {
        &self.as_slice()[i]
    }
}

impl Named<Doc> {
    ghost use Rattle.js_doc.specs.View.{view, member_view};

    /// A member with that name and value, both taken over without a copy.
    pub fn new(name: Str, value: Doc) -> Member
        ensures { member_view result ≡ (name, view value) }
    {
        Named {
            name: Word::new(name),
            value,
        }
    }

    /// The name as the text that it stands for, without quotes and escapes.
    pub fn name(&self) -> &Str
        ensures view { result.now ≡ (member_view self.now).0 }
    {
        self.name.as_str()
    }

    /// The value. The clause `held` is for proofs that a recursion over it ends.
    pub fn value(&self) -> &Doc
        ensures view { view result.now ≡ (member_view self.now).1 }
        ensures held { result.now ≡ self.now.value }
    {
        &self.value
    }
}

impl DocMap {
    ghost use Rattle.js_doc.specs.declared.document.DocMap.{out-DocMap};
    ghost use Rattle.js_doc.specs.View.{view, map_view, member_view};

    /// The members, which have to be in ascending order of their names, each name once.
    pub fn from_vec(members: Vec<Member>) -> DocMap
        requires { names_rise (members_of (map member_view members.items)) ≡ true }
        ensures { map_view result ≡ members_of (map member_view members.items) }
    {
        DocMap {
            members: Rising::from_vec(members),
        }
    }

    /// The members. The clause `held` is for proofs that a recursion over them ends.
    pub fn as_slice(&self) -> &[Member]
        ensures view { members_of (map member_view result.now) ≡ map_view self.now }
        ensures held { result.now ≡ (out-DocMap self.now).members.members.items }
    {
        self.members.as_slice()
    }

    /// How many members there are, in constant time.
    pub fn len(&self) -> usize
        ensures { result ≡ length (entries (map_view self.now)) }
    {
        self.as_slice().len()
    }

    /// The member at index `i`, counted from 0 in ascending order of names, in constant time.
    pub fn at(&self, i: usize) -> &Member
        requires { i < length (entries (map_view self.now)) }
        ensures { member_view result.now ≡ get_or (entries (map_view self.now)) i (member_view result.now) }
    {
        &self.as_slice()[i]
    }

    /// The value of the member of that name, where there is one. A binary search, logarithmic in the number of members.
    pub fn get(&self, name: &str) -> Option<&Doc>
        ensures { option_map (λ d. view d.now) result ≡ lookup (chars name.now) (map_view self.now) }
    {
        self.members.get(name)
    }
}
