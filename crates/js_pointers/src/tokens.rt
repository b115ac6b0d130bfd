//! The tokens of pointers, by number.
//!
//! The token of an element's index is numbered by that index, below 2³¹: it needs no text, and nothing is kept for it.
//! Every other text is a name. Names are numbered from 2³¹ on. They are in a list in the order of their numbers, and a
//! map by order has the place of each: a file chooses them, and could make them collide in a map by a hash without a
//! secret.

ghost use Rattle.std.specs.Prelude.{◌≡◌, ◌≤◌, ◌<◌, ◌++◌, ◌∷◌, ℕ, [], length, get_or, map, chars, string_bytes, IfOk, OnOk, MatchOption};
ghost use Rattle.schemas.specs.Places.{index_token};
ghost use Rattle.js_pointers.specs.Table.{first_name, word, IsKnown, IsWord, AreNames, Keeps};
ghost use Rattle.js_pointers.specs.NamePlaces.{ArePlaces};

use js_doc::{Memory, Str};
use js_json::{Pointer, element_index};
use std::alloc::Global;
use std::collections::BTreeMap;

/// The number of the first name.
const FIRST_NAME: u32 = 2_147_483_648;

/// How many names have numbers. Beyond, it is memory that is wanting.
const MOST_NAMES: usize = 2_147_483_648;

/// Names, no two of them the same, and none of them an index that has a number without a name.
#[derive(Drop)]
pub struct Tokens {
    names: Vec<String>,
    places: BTreeMap<String, u32>,
    ghost are_names: { AreNames (map (λ w. chars (string_bytes w)) names.items) },
    ghost few: { length names.items ≤ 2147483648 },
    ghost are_places: { ArePlaces names.items places },
}

/// What a token's number stands for.
#[derive(Clone, Copy)]
pub enum Token<'a> {
    Index(usize),
    Name(&'a str),
}

impl<'a> Token<'a> {
    ghost use Rattle.js_pointers.specs.TokensView.{token_text};

    /// The pointer goes on by the token.
    pub fn push_on(self, pointer: &mut Pointer) -> Result<(), Memory>
        ensures { OnOk result (pointer.new ≡ pointer.old ++ token_text self.entry ∷ []) }
    {
        match self {
            Token::Index(index) => pointer.push_index(index),
            Token::Name(name) => pointer.push_name(name),
        }
    }
}

impl Tokens {
    ghost use Rattle.js_pointers.specs.TokensView.{names_of, token_text};

    /// No names.
    pub fn new(alloc: Global) -> Tokens
        ensures { names_of result ≡ [] }
    {
        Tokens {
            names: Vec::new(alloc),
            places: BTreeMap::new(alloc),
        }
    }

    /// The number of a token, where it has one. It takes comparisons with names in proportion to the logarithm of their
    /// count, whatever they are.
    pub fn number(&self, text: &str) -> Option<u32>
        ensures { MatchOption result ((k : ℕ) → IsWord (names_of self.now) k (chars text.now) → ⊥)
            (λ k. IsWord (names_of self.now) k (chars text.now)) }
    {
        if let Some(index) = numbered_index(text) {
            return Some(index);
        }
        let place = self.places.get(text)?;
        Some(FIRST_NAME + *place)
    }

    /// The number of a token, as by `number`. A name is added where it isn't there.
    pub fn add(&mut self, text: &str) -> Result<u32, Memory>
        ensures keeps { Keeps (names_of self.old) (names_of self.new) }
        ensures word { IfOk result (λ k. IsWord (names_of self.new) k (chars text.now)) }
    {
        if let Some(number) = self.number(text) {
            return Ok(number);
        }
        let place = self.names.len();
        if place >= MOST_NAMES {
            return Err(Memory);
        }
        let alloc = *self.names.allocator();
        let name = String::from_str(alloc, text)?;
        let key = String::from_str(alloc, text)?;
        self.names.push(name)?;
        if let Err(_) = self.places.insert(key, place as u32) {
            self.names.truncate(place);
            return Err(Memory);
        }
        Ok(FIRST_NAME + place as u32)
    }

    /// The token with that number.
    pub fn token(&self, number: u32) -> Token<'_>
        requires { IsKnown (names_of self.now) number }
        ensures { token_text result ≡ word (names_of self.now) number }
    {
        if number < FIRST_NAME {
            return Token::Index(number as usize);
        }
        Token::Name(self.name((number - FIRST_NAME) as usize))
    }

    /// The text of an element's index.
    pub fn index_text(&self, index: usize) -> Result<Str, Memory>
        ensures { IfOk result (λ text. text ≡ index_token index) }
    {
        decimal_text(*self.names.allocator(), index)
    }

    fn name(&self, index: usize) -> &str
        requires { index < length (names_of self.now) }
        ensures { chars result.now ≡ get_or (names_of self.now) index [] }
    {
        self.names[index].as_str()
    }
}

/// The number of the token of the element at `index`, where it has one without a name.
pub fn index_number(index: usize) -> Option<u32>
    ensures { MatchOption result (first_name ≤ index) (λ k. (k ≡ index) × (k < first_name)) }
{
    if index < FIRST_NAME as usize {
        Some(index as u32)
    } else {
        None
    }
}

/// The number of a token whose text is an element's index, where it has one without a name.
fn numbered_index(text: &str) -> Option<u32>
    ensures { MatchOption result ((i : ℕ) → chars text.now ≡ index_token i → first_name ≤ i)
        (λ i. (i < first_name) × (index_token i ≡ chars text.now)) }
{
    index_number(element_index(text)?)
}

/// The decimal text of a number.
fn decimal_text(alloc: Global, number: usize) -> Result<Str, Memory>
    ensures { IfOk result (λ s. s ≡ index_token number) }
{
    let text = format!(in alloc; "{number}")?;
    Ok(Str::from_string(text))
}
