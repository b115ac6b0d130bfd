//! Values by their names, which rise: what the members of an object are, whatever type their values have.

ghost use Rattle.std.specs.Prelude.{◌≡◌, true, option_map, chars, encode_utf8_all};
ghost use Rattle.std.specs.Cmp.Lexicographic.{slice_cmp};
ghost use Rattle.std.specs.Ordering.{nat_cmp};
ghost use Rattle.js_doc.specs.Names.{rise, names_of, pairs_of, find_in};

use crate::word::Word;
use std::cmp::Ordering;

/// A value with its name.
#[derive(Drop)]
pub struct Named<T> {
    pub(crate) name: Word,
    pub(crate) value: T,
}

/// Named values, each name once, in ascending order of scalar values.
#[derive(Drop)]
pub struct Rising<T> {
    members: Vec<Named<T>>,
    pub ghost rises: { rise (names_of members.items) ≡ true },
}

impl<T> Rising<T> {
    pub(crate) fn from_vec(members: Vec<Named<T>>) -> Rising<T>
        requires { rise (names_of members.items) ≡ true }
        ensures { result.members ≡ members }
    {
        Rising { members }
    }

    pub(crate) fn as_slice(&self) -> &[Named<T>]
        ensures { result.now ≡ self.now.members.items }
    {
        self.members.as_slice()
    }

    /// The value of that name, where there is one, by a binary search.
    pub(crate) fn get(&self, name: &str) -> Option<&T>
        ensures { option_map (λ v. v.now) result ≡ find_in (chars name.now) (pairs_of self.now.members.items) }
    {
        let members = self.as_slice();
        let found = members.binary_search_by(
            |member: &Named<T>| -> Ordering
                ensures { result ≡ slice_cmp nat_cmp (encode_utf8_all member.now.name.text) name.entry.now }
            { member.name.as_text().cmp(name) },
        );
        match found {
            Ok(place) => Some(&members[place].value),
            Err(_) => None,
        }
    }
}
