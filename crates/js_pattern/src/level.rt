//! What is read of a group that is open, or of the whole text.

ghost use Rattle.std.specs.Prelude.{◌≡◌, [], ◌∷◌, ◌++◌, map};
ghost use Rattle.std.specs.Result.{IfOk, IfErr, OnOk};
ghost use Rattle.js_pattern.specs.Grammar.{sequence_of, alternation_of};
ghost use Rattle.js_pattern.specs.View.{view};

use crate::fault::PatternFault;
use crate::re::{Re, ReList};
use std::alloc::Global;
use std::mem;

/// The alternatives so far, and the terms of the one that is being read.
#[derive(Drop)]
pub(crate) struct Level {
    pub(crate) alternatives: Vec<Re>,
    pub(crate) terms: Vec<Re>,
}

/// The tree of the terms of an alternative.
fn sequence(mut terms: Vec<Re>) -> Re
    ensures { view result ≡ sequence_of (map view terms.items) }
{
    if terms.len() > 1 {
        return Re::Seq(ReList::from_vec(terms));
    }
    match terms.pop() {
        Some(term) => term,
        None => Re::Empty,
    }
}

/// The tree of alternatives.
fn alternation(mut alternatives: Vec<Re>) -> Re
    ensures { view result ≡ alternation_of (map view alternatives.items) }
{
    if alternatives.len() != 1 {
        return Re::Alt(ReList::from_vec(alternatives));
    }
    alternatives.pop().unwrap()
}

impl Level {
    ghost use Rattle.js_pattern.specs.Grammar.{empty_body};
    ghost use Rattle.js_pattern.specs.Progress.{make_part, part, with_term, divided, finished};

    pub(crate) fn new(alloc: Global) -> Self
        ensures { part result ≡ make_part [] [] }
    {
        Level {
            alternatives: Vec::new(alloc),
            terms: Vec::new(alloc),
        }
    }

    /// Adds a term.
    pub(crate) fn push(&mut self, term: Re) -> Result<(), PatternFault>
        ensures part { OnOk result (part self.new ≡ with_term (part self.old) (view term)) }
        ensures err { IfErr result (λ fault. fault ≡ PatternFault.Memory) }
    {
        self.terms.push(term)?;
        Ok(())
    }

    /// Ends an alternative.
    pub(crate) fn divide(&mut self, alloc: Global) -> Result<(), PatternFault>
        ensures part { OnOk result (part self.new ≡ divided (part self.old)) }
        ensures err { IfErr result (λ fault. fault ≡ PatternFault.Memory) }
    {
        let terms = mem::replace(&mut self.terms, Vec::new(alloc));
        self.alternatives.push(sequence(terms))?;
        Ok(())
    }

    /// The tree of the group, which ends here.
    pub(crate) fn finish(self) -> Result<Re, PatternFault>
        ensures tree { IfOk result (λ tree. view tree ≡ finished (part self) empty_body) }
        ensures err { IfErr result (λ fault. fault ≡ PatternFault.Memory) }
    {
        let Level {
            mut alternatives,
            terms,
        } = self;
        alternatives.push(sequence(terms))?;
        Ok(alternation(alternatives))
    }
}
