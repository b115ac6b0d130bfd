//! A set of signed positions that grows, and goes back to what it was.
//!
//! The members are in the order in which they came, so to go back is to forget the later ones. A set costs what is put
//! into it, whatever the size of the table: a member is found by a hash of its number, and going back costs what is
//! forgotten. The trees, the search and the checker keep the set of their path in one.

ghost use Rattle.std.specs.Prelude.{◌≡◌, ◌<◌, [], map, take, length, get_or, IfOk, OnOk, OnErr};
ghost use Rattle.goals.specs.Signed.{has};
ghost use Rattle.js_algebra.specs.View.{signed_view};
ghost use Rattle.js_algebra.specs.Rules.{choice_view};
ghost use Rattle.js_algebra.specs.SignedSets.{with_member, with_members, set_of};

use crate::choice::Choice;
use crate::goal::sorted;
use crate::lists::SignedList;
use crate::signed::Signed;
use indexmap::IndexSet;
use js_doc::Memory;
use std::alloc::Global;
use std::marker::Model;

/// Contracts see a set as the list of its members in the order in which they came, each once.
#[derive(Drop)]
pub struct SignedSet {
    numbers: IndexSet<u64>,
}

impl Model for SignedSet {
    ghost use Rattle.std.specs.Prelude.{◌≡◌, List, map, true};
    ghost use Rattle.goals.specs.Signed.{Signed};
    ghost use Rattle.js_algebra.specs.Numbers.{signed_at, are_numbers};

    ghost Value = { List Signed };

    ghost view = { λ s. map signed_at s.numbers.keys };

    ghost invariant = { λ s. are_numbers s.numbers.keys ≡ true };
}

impl SignedSet {
    /// The empty set. It takes no memory.
    pub fn new(alloc: Global) -> SignedSet
        ensures { result ≡ [] }
    {
        SignedSet {
            numbers: IndexSet::new(alloc),
        }
    }

    /// How many members there are. `go_back` of this number returns to the set as it is now.
    pub fn len(&self) -> usize
        ensures { result ≡ length self.now }
    {
        self.numbers.len()
    }

    /// The member that came at that place.
    pub fn at(&self, i: usize) -> Signed
        requires { i < length self.now }
        ensures { signed_view result ≡ get_or self.now i (signed_view result) }
    {
        Signed::from_order(self.numbers.as_slice()[i])
    }

    /// Whether `x` is a member, by one hash.
    pub fn has(&self, x: Signed) -> bool
        ensures { result ≡ has (signed_view x) self.now }
    {
        self.numbers.contains(&x.order())
    }

    /// Puts `x` last, unless it is a member.
    pub fn add(&mut self, x: Signed) -> Result<(), Memory>
        ensures members { OnOk result (self.new ≡ with_member (signed_view x) self.old) }
        ensures err { OnErr result (self.new ≡ self.old) }
    {
        self.numbers.insert(x.order())?;
        Ok(())
    }

    /// Adds each of a list. After an error it may have some of them, behind those that it had.
    pub fn add_all(&mut self, list: &[Signed]) -> Result<(), Memory>
        ensures members { OnOk result (self.new ≡ with_members (map signed_view list.now) self.old) }
        ensures err { OnErr result (take (length self.old) self.new ≡ self.old) }
    {
        for x in list {
            self.add(*x)?;
        }
        Ok(())
    }

    /// Adds each of a choice. After an error it may have some of them, behind those that it had.
    pub fn add_each(&mut self, choice: Choice<'_>) -> Result<(), Memory>
        ensures members { OnOk result (self.new ≡ with_members (choice_view choice.entry) self.old) }
        ensures err { OnErr result (take (length self.old) self.new ≡ self.old) }
    {
        for k in 0..choice.len() {
            self.add(choice.at(k))?;
        }
        Ok(())
    }

    /// Forgets all but the first `len` members, in the time of those that are forgotten.
    pub fn go_back(&mut self, len: usize)
        ensures { self.new ≡ take len self.old }
    {
        self.numbers.truncate(len);
    }

    /// The members in rising order: by position, plus before minus.
    pub fn to_list(&self, alloc: Global) -> Result<SignedList, Memory>
        ensures { IfOk result (λ l. l ≡ set_of self.now) }
    {
        let mut items = Vec::with_capacity(alloc, self.numbers.len())?;
        for number in self.numbers.as_slice() {
            items.push(Signed::from_order(*number))?;
        }
        Ok(SignedList::from_vec(sorted(items)))
    }
}
