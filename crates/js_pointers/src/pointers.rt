//! The pointers of a file's places, by number.
//!
//! Pointer 0 is the root, and each other is an earlier one with one more token. So a pointer takes two numbers, however
//! long it is, and each name is kept twice, in the list of names and in the map by which it is found. To go down by a
//! name takes comparisons with names in proportion to the logarithm of their count. To go down by an index needs no
//! text, nor a look at a map where the elements of the list were added in turn. A whole pointer is made only on
//! request.

ghost use Rattle.std.specs.Prelude.{◌≡◌, ◌<◌, ◌++◌, ◌∷◌, [], map, reverse, length, get_or, chars, Some, IfOk, OnOk};
ghost use Rattle.schemas.specs.Places.{Pointer as P, index_token};
ghost use Rattle.js_pointers.specs.TokensView.{names_of, token_text};
ghost use Rattle.js_pointers.specs.Table.{word, numbered, IsKnown, IsWord, IsTable, Leads, Grows};

use crate::steps::Steps;
use crate::tokens::{Token, Tokens, index_number};
use js_doc::Memory;
use js_json::Pointer;
use std::alloc::Global;

/// Pointers, no two of them the same. With each are all those that lead to it.
#[derive(Drop)]
pub struct Pointers {
    tokens: Tokens,
    steps: Steps,
    ghost table: { IsTable (names_of tokens) steps (numbered (names_of tokens) steps) },
}

impl Pointers {
    ghost use Rattle.js_pointers.specs.PointersView.{pointers_of};

    /// The root alone.
    pub fn new(alloc: Global) -> Pointers
        ensures { pointers_of result ≡ [] ∷ [] }
    {
        Pointers {
            tokens: Tokens::new(alloc),
            steps: Steps::new(alloc),
        }
    }

    /// The number of the pointer that goes on from one by a token, where it is there.
    pub fn below(&self, at: Option<u32>, token: &str) -> Option<u32>
        ensures { (p : P) → Leads (pointers_of self.now) at p
            → Leads (pointers_of self.now) result (p ++ chars token.now ∷ []) }
    {
        let of = at?;
        let token = self.tokens.number(token)?;
        self.below_token(of, token)
    }

    /// `below` with the token of the element at `index`, for which no text is made where the index is small.
    pub fn below_index(&self, at: Option<u32>, index: usize) -> Result<Option<u32>, Memory>
        ensures { IfOk result (λ found. (p : P) → Leads (pointers_of self.now) at p
            → Leads (pointers_of self.now) found (p ++ index_token index ∷ [])) }
    {
        let Some(token) = index_number(index) else {
            let token = self.tokens.index_text(index)?;
            return Ok(self.below(at, token.as_text()));
        };
        match at {
            Some(of) => Ok(self.below_token(of, token)),
            None => Ok(None),
        }
    }

    /// The number of the pointer that goes on from one by the token with that number, where it is there.
    fn below_token(&self, of: u32, token: u32) -> Option<u32>
        requires { IsKnown (names_of self.now.tokens) token }
        ensures { (p : P) → Leads (pointers_of self.now) (Some of) p
            → Leads (pointers_of self.now) result (p ++ word (names_of self.now.tokens) token ∷ []) }
    {
        let index = self.steps.number(of, token)?;
        Some(index as u32 + 1)
    }

    /// The number of the pointer that goes on from one by a token. It is added where it isn't there.
    pub fn add(&mut self, of: u32, token: &str) -> Result<u32, Memory>
        requires { of < length (pointers_of self.old) }
        ensures grows { OnOk result (Grows (pointers_of self.old) (pointers_of self.new)) }
        ensures number { IfOk result (λ n. Leads (pointers_of self.new) (Some n)
            (get_or (pointers_of self.old) of [] ++ chars token.now ∷ [])) }
    {
        let token = self.token_number(token)?;
        self.step_number(of, token)
    }

    /// `add` with the token of the element at `index`, for which no text is made where the index is small.
    pub fn add_index(&mut self, of: u32, index: usize) -> Result<u32, Memory>
        requires { of < length (pointers_of self.old) }
        ensures grows { OnOk result (Grows (pointers_of self.old) (pointers_of self.new)) }
        ensures number { IfOk result (λ n. Leads (pointers_of self.new) (Some n)
            (get_or (pointers_of self.old) of [] ++ index_token index ∷ [])) }
    {
        let Some(token) = index_number(index) else {
            let token = self.tokens.index_text(index)?;
            return self.add(of, token.as_text());
        };
        self.step_number(of, token)
    }

    /// The number of a pointer that is given whole. It is added where it isn't there, with those that lead to it.
    pub fn add_whole(&mut self, pointer: &Pointer) -> Result<u32, Memory>
        ensures grows { OnOk result (Grows (pointers_of self.old) (pointers_of self.new)) }
        ensures number { IfOk result (λ n. Leads (pointers_of self.new) (Some n) pointer.now) }
    {
        let mut at = 0;
        for token in pointer.tokens() {
            at = self.add(at, token.as_text())?;
        }
        Ok(at)
    }

    /// The number of a token. It is added where it isn't there.
    fn token_number(&mut self, text: &str) -> Result<u32, Memory>
        ensures same { pointers_of self.new ≡ pointers_of self.old }
        ensures word { IfOk result (λ k. IsWord (names_of self.new.tokens) k (chars text.now)) }
    {
        self.tokens.add(text)
    }

    /// The number of the pointer that goes on from one by the token with that number. It is added where it isn't there.
    fn step_number(&mut self, of: u32, token: u32) -> Result<u32, Memory>
        requires of { of < length (pointers_of self.old) }
        requires token { IsKnown (names_of self.old.tokens) token }
        ensures grows { OnOk result (Grows (pointers_of self.old) (pointers_of self.new)) }
        ensures number { IfOk result (λ n. Leads (pointers_of self.new) (Some n)
            (get_or (pointers_of self.old) of [] ++ word (names_of self.old.tokens) token ∷ [])) }
    {
        let index = self.steps.add(of, token)?;
        Ok(index as u32 + 1)
    }

    /// The pointer with that number, which takes time in proportion to it.
    pub fn pointer(&self, alloc: Global, number: u32) -> Result<Pointer, Memory>
        requires { number < length (pointers_of self.now) }
        ensures { IfOk result (λ p. p ≡ get_or (pointers_of self.now) number []) }
    {
        let mut tokens = self.tokens_up(alloc, number)?;
        let mut pointer = Pointer::root(alloc);
        while let Some(token) = tokens.pop() {
            token.push_on(&mut pointer)?;
        }
        Ok(pointer)
    }

    /// The tokens of the pointer with that number, the last first.
    fn tokens_up(&self, alloc: Global, number: u32) -> Result<Vec<Token<'_>>, Memory>
        requires { number < length (pointers_of self.now) }
        ensures { IfOk result (λ tokens. reverse (map token_text tokens.items)
            ≡ get_or (pointers_of self.now) number []) }
    {
        let mut tokens = Vec::new(alloc);
        let mut at = number;
        while at > 0 {
            let (of, token) = self.step(at);
            tokens.push(self.tokens.token(token))?;
            at = of;
        }
        Ok(tokens)
    }

    /// The number of the pointer from which one goes on, and that of the token by which it does.
    fn step(&self, number: u32) -> (u32, u32)
        requires below { 0 < number }
        requires within { number < length (pointers_of self.now) }
        ensures earlier { result.0 < number }
        ensures known { IsKnown (names_of self.now.tokens) result.1 }
        ensures makes { get_or (pointers_of self.now) number []
            ≡ get_or (pointers_of self.now) result.0 [] ++ word (names_of self.now.tokens) result.1 ∷ [] }
    {
        self.steps.step(number as usize - 1)
    }
}
