//! Places in a JSON text (RFC 6901).
//!
//! A [`Pointer`] is a stack of tokens, which contracts see as the list of their scalar values, outermost
//! first. `text` and `copy` cost time in proportion to the pointer, and a push in proportion to its token.

ghost use Rattle.std.specs.Prelude.{◌≡◌, ◌++◌, ◌∷◌, [], ℕ, List, IfOk, OnOk, OnErr};
ghost use Rattle.std.specs.Prelude.{chars, decimal, encode_utf8_all, reverse, string_bytes};
ghost use Rattle.js_json.specs.Pointer.{escaped_character, escaped, pointer_text, quoted};

use js_doc::{Memory, Str};
use serde_json::Value;
use std::alloc::{AllocError, Global};
use std::fmt;
use std::marker::Model;

/// The tokens that lead from the whole value to a place in it, decoded: members' names and elements' indices.
#[derive(Drop)]
pub struct Pointer {
    tokens: Vec<Str>,
}

impl Model for Pointer {
    ghost use Rattle.std.specs.Prelude.{ℕ, List};

    ghost Value = { List (List ℕ) };

    ghost view = { λ p. p.tokens.items };
}

impl Pointer {
    /// The whole value.
    pub fn root(alloc: Global) -> Pointer
        ensures { result ≡ [] }
    {
        Pointer {
            tokens: Vec::new(alloc),
        }
    }

    /// Goes down by `token`.
    pub(crate) fn push(&mut self, token: Str) -> Result<(), Memory>
        ensures ok { OnOk result (self.new ≡ self.old ++ token ∷ []) }
        ensures err { OnErr result (self.new ≡ self.old) }
    {
        self.tokens.push(token)?;
        Ok(())
    }

    /// Goes down to the member of that name.
    pub fn push_name(&mut self, name: &str) -> Result<(), Memory>
        ensures ok { OnOk result (self.new ≡ self.old ++ chars name.now ∷ []) }
        ensures err { OnErr result (self.new ≡ self.old) }
    {
        let token = Str::from_text(*self.tokens.allocator(), name)?;
        self.tokens.push(token)?;
        Ok(())
    }

    /// Goes down to the element at `index`.
    pub fn push_index(&mut self, index: usize) -> Result<(), Memory>
        ensures ok { OnOk result (self.new ≡ self.old ++ decimal index ∷ []) }
        ensures err { OnErr result (self.new ≡ self.old) }
    {
        let token = format!(in *self.tokens.allocator(); "{index}")?;
        self.tokens.push(Str::from_string(token))?;
        Ok(())
    }

    /// Goes up one level. The root stays.
    pub fn pop(&mut self)
        ensures root { self.old ≡ [] → self.new ≡ [] }
        ensures parent { (parent : List (List ℕ)) (token : List ℕ) → self.old ≡ parent ++ token ∷ []
            → self.new ≡ parent }
    {
        self.tokens.pop();
    }

    /// A copy, which takes memory of its own.
    pub fn copy(&self, alloc: Global) -> Result<Pointer, Memory>
        ensures { IfOk result (λ p. p ≡ self.now) }
    {
        let mut tokens = Vec::with_capacity(alloc, self.tokens.len())?;
        for token in &self.tokens {
            tokens.push(token.copy(alloc)?)?;
        }
        Ok(Pointer { tokens })
    }

    /// The tokens, outermost first.
    pub fn tokens(&self) -> &[Str]
        ensures { result.now ≡ self.now }
    {
        self.tokens.as_slice()
    }

    /// The tokens the other way round.
    pub(crate) fn reversed(self) -> Pointer
        ensures { result ≡ reverse self }
    {
        let Pointer { mut tokens } = self;
        tokens.reverse();
        Pointer { tokens }
    }

    /// The pointer as a JSON string, quotes and all.
    pub fn text(&self, alloc: Global) -> Result<String, Memory>
        ensures { IfOk result (λ s. string_bytes s ≡ quoted (pointer_text self.now)) }
    {
        let mut plain = String::new(alloc);
        for token in &self.tokens {
            plain.push('/')?;
            push_token(&mut plain, token.as_text())?;
        }
        Ok(Value::String(plain).to_string(alloc)?)
    }
}

impl fmt::Debug for Pointer {
    fn fmt<W: fmt::Write>(&self, f: &mut fmt::Formatter<W>) -> fmt::Result {
        for token in &self.tokens {
            let text = token.as_text();
            write!(f, "/{text:?}")?;
        }
        Ok(())
    }
}

fn push_token(out: &mut String, token: &str) -> Result<(), AllocError>
    ensures { OnOk result
        (string_bytes out.new ≡ string_bytes out.old ++ encode_utf8_all (escaped (chars token.now))) }
{
    for c in token.chars() {
        push_escaped(out, c)?;
    }
    Ok(())
}

fn push_escaped(out: &mut String, c: char) -> Result<(), AllocError>
    ensures { OnOk result
        (string_bytes out.new ≡ string_bytes out.old ++ encode_utf8_all (escaped_character c)) }
{
    match c {
        '~' => out.push_str("~0"),
        '/' => out.push_str("~1"),
        _ => out.push(c),
    }
}
