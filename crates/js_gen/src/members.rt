//! Objects made of members in any order.

ghost use Rattle.std.specs.Prelude.{◌≡◌, [], true, IfOk, IfErr, OnOk, map};
ghost use Rattle.documents.specs.Json as D;
ghost use Rattle.documents.specs.WellFormed.{names_rise};
ghost use Rattle.families.specs.Objects.{with_member};
ghost use Rattle.js_doc.specs.JsonView.{view, member_view};
ghost use Rattle.js_gen.specs.Places.{names, IsThere, IsFree};
ghost use Rattle.js_gen.specs.Ascii.{is_ascii};

use js_doc::{Json, JsonMap, JsonMember, Memory, Str};
use std::alloc::Global;
use std::cmp::Ordering;

/// Members in ascending order of their names.
#[derive(Drop)]
pub(crate) struct Members {
    items: Vec<JsonMember>,
    pub ghost rises: { names_rise (D.members_of (map member_view items.items)) ≡ true },
}

impl Members {
    ghost use Rattle.js_gen.specs.MembersView.{entries_of};

    pub(crate) fn new(alloc: Global) -> Members
        ensures { entries_of result ≡ [] }
    {
        Members {
            items: Vec::new(alloc),
        }
    }

    /// Adds a member, or gives the one of that name the value. Linear in the number of members.
    pub(crate) fn put(&mut self, name: Str, value: Json) -> Result<(), Memory>
        ensures { OnOk result (entries_of self.new ≡ with_member (entries_of self.old) (name, view value)) }
    {
        match place(self.items.as_slice(), &name) {
            Ok(i) => self.items[i] = JsonMember::new(name, value),
            Err(i) => self.items.insert(i, JsonMember::new(name, value))?,
        }
        Ok(())
    }

    /// Sets the member of a name that is given as program text, which is copied.
    pub(crate) fn set(&mut self, name: &str, value: Json) -> Result<(), Memory>
        requires { is_ascii name.now ≡ true }
        ensures { OnOk result (entries_of self.new ≡ with_member (entries_of self.old) (name.now, view value)) }
    {
        let name = Str::from_text(*self.items.allocator(), name)?;
        self.put(name, value)
    }

    pub(crate) fn into_json(self) -> Json
        ensures { view result ≡ D.object (D.members_of (entries_of self)) }
    {
        let Members { items } = self;
        Json::Members(JsonMap::from_vec(items))
    }
}

/// The place of the member of that name, or else where it would be.
fn place(members: &[JsonMember], name: &Str) -> Result<usize, usize>
    ensures there { IfOk result (λ i. IsThere (names (map member_view members.now)) name.now i) }
    ensures free { IfErr result (λ i. IsFree (names (map member_view members.now)) name.now i) }
{
    for (i, member) in members.iter().enumerate() {
        match member.name().as_text().cmp(name.as_text()) {
            Ordering::Less => {}
            Ordering::Equal => return Ok(i),
            Ordering::Greater => return Err(i),
        }
    }
    Err(members.len())
}
