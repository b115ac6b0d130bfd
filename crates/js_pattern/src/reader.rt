//! A pattern as a whole.
//!
//! The reader goes over the text once, from the left, and keeps the open groups on a stack of its own. What comes of
//! the whole text, given the open groups and what is left of the text, stays the same with each step. Whatever goes
//! over the tree later recurs as deep as the groups nest, so they nest only as far as any thread's stack bears.

ghost use Rattle.std.specs.Prelude.{◌≡◌, ◌≢◌, ◌+◌, ◌<◌, ◌≤◌, ◌^◌, [], ◌∷◌, length, chars, Ok};
ghost use Rattle.std.specs.Result.{IfOk, IfErr, OnOk};
ghost use Rattle.js_pattern.specs.Correct.{HasTree, HasFirstFault, NeverBoth, HasOne};
ghost use Rattle.js_pattern.specs.Grammar.{pattern};
ghost use Rattle.js_pattern.specs.View.{view, IsFault};

use crate::fault::{PatternFault, PatternForm};
use crate::level::Level;
use crate::quantifier::quantify;
use crate::re::Re;
use crate::scan::skip;
use crate::term::{opening, read_term};
use std::alloc::{AllocError, Global};
use std::mem;

/// A group may be inside so many others.
const MOST_NESTED: usize = 1_000;

/// The groups that are open, the innermost last, and what is read of the innermost one.
#[derive(Drop)]
struct Reader {
    outers: Vec<Level>,
    level: Level,
}

impl Reader {
    ghost use Rattle.js_pattern.specs.Grammar.{begins_term, sign_of};
    ghost use Rattle.js_pattern.specs.Progress.{make_part, part, parts, comes_of, GoesOn};

    fn new(alloc: Global) -> Self
        ensures outers { parts result.outers.items ≡ [] }
        ensures level { part result.level ≡ make_part [] [] }
    {
        Reader {
            outers: Vec::new(alloc),
            level: Level::new(alloc),
        }
    }

    /// Opens a group.
    fn open(&mut self, alloc: Global) -> Result<(), PatternFault>
        ensures outers { OnOk result (parts self.new.outers.items ≡ part self.old.level ∷ parts self.old.outers.items) }
        ensures level { OnOk result (part self.new.level ≡ make_part [] []) }
        ensures err { IfErr result (λ fault. fault ≡ PatternFault.Memory) }
    {
        let level = mem::replace(&mut self.level, Level::new(alloc));
        self.outers.push(level)?;
        Ok(())
    }

    /// Reads the `|` at the place `at`. Answers how many characters follow it, as the next three do for theirs.
    fn read_bar(&mut self, alloc: Global, rest: &[char], at: usize) -> Result<usize, PatternFault>
        ensures steps { GoesOn self.old self.new at 124 rest.now result }
        ensures within { IfOk result (λ n. n ≤ length rest.now) }
    {
        self.level.divide(alloc)?;
        Ok(0)
    }

    /// Reads the `(` at the place `at`, and what belongs to it.
    fn read_open(&mut self, alloc: Global, rest: &[char], at: usize) -> Result<usize, PatternFault>
        ensures steps { GoesOn self.old self.new at 40 rest.now result }
        ensures within { IfOk result (λ n. n ≤ length rest.now) }
    {
        let taken = opening(rest, at)?;
        if self.outers.len() >= MOST_NESTED {
            return Err(PatternFault::Unsupported(at, PatternForm::Nesting));
        }
        self.open(alloc)?;
        Ok(taken)
    }

    /// Reads the `)` at the place `at`, and the quantifier of the group.
    fn read_close(&mut self, alloc: Global, rest: &[char], at: usize) -> Result<usize, PatternFault>
        requires { at + 1 + length rest.now < 2 ^ 64 }
        ensures steps { GoesOn self.old self.new at 41 rest.now result }
        ensures within { IfOk result (λ n. n ≤ length rest.now) }
    {
        let Some(outer) = self.outers.pop() else {
            return Err(PatternFault::Syntax(at));
        };
        let level = mem::replace(&mut self.level, outer);
        let (tree, taken) = quantify(alloc, level.finish()?, rest, at + 1)?;
        self.level.push(tree)?;
        Ok(taken)
    }

    /// Reads a term that is no group, and begins at the place `at`.
    fn read_term(
        &mut self,
        alloc: Global,
        first: char,
        rest: &[char],
        at: usize,
    ) -> Result<usize, PatternFault>
        requires room { at + 1 + length rest.now < 2 ^ 64 }
        requires sign { sign_of first ≡ begins_term }
        ensures steps { GoesOn self.old self.new at first rest.now result }
        ensures within { IfOk result (λ n. n ≤ length rest.now) }
    {
        let (term, taken) = read_term(alloc, first, rest, at)?;
        self.level.push(term)?;
        Ok(taken)
    }

    /// Reads what the character at the place `at` begins. Answers how many characters follow that one.
    fn read_next(
        &mut self,
        alloc: Global,
        first: char,
        rest: &[char],
        at: usize,
    ) -> Result<usize, PatternFault>
        requires { at + 1 + length rest.now < 2 ^ 64 }
        ensures steps { GoesOn self.old self.new at first rest.now result }
        ensures within { IfOk result (λ n. n ≤ length rest.now) }
    {
        match first {
            '|' => self.read_bar(alloc, rest, at),
            '(' => self.read_open(alloc, rest, at),
            ')' => self.read_close(alloc, rest, at),
            _ => self.read_term(alloc, first, rest, at),
        }
    }

    /// Ends the text, at the place `at`.
    fn finish(self, at: usize) -> Result<Re, PatternFault>
        ensures tree { IfOk result (λ tree. comes_of self at [] ≡ Ok (view tree)) }
        ensures fault { IfErr result (λ fault. IsFault fault (comes_of self at [])) }
    {
        let Reader { outers, level } = self;
        if !outers.is_empty() {
            return Err(PatternFault::Syntax(at));
        }
        level.finish()
    }
}

/// Reads the pattern that these characters are.
fn read_characters(alloc: Global, text: &[char]) -> Result<Re, PatternFault>
    ensures tree { IfOk result (λ tree. pattern text.now ≡ Ok (view tree)) }
    ensures fault { IfErr result (λ fault. IsFault fault (pattern text.now)) }
{
    let mut reader = Reader::new(alloc);
    let mut at = 0;
    while at < text.len() {
        let rest = skip(text, at + 1);
        at += 1 + reader.read_next(alloc, text[at], rest, at)?;
    }
    reader.finish(at)
}

/// The characters of a text.
fn characters(alloc: Global, text: &str) -> Result<Vec<char>, AllocError>
    ensures { IfOk result (λ characters. characters.items ≡ chars text.now) }
{
    text.chars().collect(alloc)
}

/// Reads a pattern of the profile. The fault is the first from the left, and a pattern that has one has no tree.
///
/// It takes one step a character, but for class ranges, which are sorted, and memory in the length of the text.
pub fn read_pattern(alloc: Global, text: &str) -> Result<Re, PatternFault>
    ensures tree { IfOk result (λ tree. HasTree (chars text.now) (view tree)) }
    ensures fault { IfErr result (λ fault. fault ≢ PatternFault.Memory → HasFirstFault (chars text.now) fault) }

    // The text decides which of the two it is.
    ensures never_both { NeverBoth (chars text.now) }
    ensures always_one { HasOne (chars text.now) }
{
    let characters = characters(alloc, text)?;
    read_characters(alloc, &characters)
}
