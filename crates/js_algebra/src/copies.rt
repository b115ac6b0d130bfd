//! Copies of nodes and of what they hold, each in memory and time in proportion to its value.

ghost use Rattle.std.specs.Prelude.{◌≡◌, IfOk, map};
ghost use Rattle.js_algebra.specs.View.{node_view, pattern_view, name_set_view};

use crate::lists::{KindList, PatternList, PosList};
use crate::names::{NameSet, Pattern};
use crate::node::Node;
use js_doc::Memory;
use std::alloc::Global;

impl PosList {
    /// A copy, which takes memory of its own.
    pub fn copy(&self, alloc: Global) -> Result<PosList, Memory>
        ensures { IfOk result (λ l. l ≡ self.now) }
    {
        Ok(PosList::from_vec(self.as_slice().to_vec(alloc)?))
    }
}

impl KindList {
    /// A copy, which takes memory of its own.
    pub fn copy(&self, alloc: Global) -> Result<KindList, Memory>
        ensures { IfOk result (λ l. l ≡ self.now) }
    {
        Ok(KindList::from_vec(self.as_slice().to_vec(alloc)?))
    }
}

impl Pattern {
    /// A copy of the text and of its tree. An error comes only where memory is refused.
    pub fn copy(&self, alloc: Global) -> Result<Pattern, Memory>
        ensures { IfOk result (λ r. pattern_view r ≡ pattern_view self.now) }
    {
        let source = self.source.copy(alloc)?;
        match self.re.copy(alloc) {
            Ok(re) => Ok(Pattern { source, re }),
            Err(_) => Err(Memory),
        }
    }
}

impl PatternList {
    /// A copy with the text and the tree of each pattern.
    pub fn copy(&self, alloc: Global) -> Result<PatternList, Memory>
        ensures { IfOk result (λ l. map pattern_view l ≡ map pattern_view self.now) }
    {
        let mut copies = Vec::with_capacity(alloc, self.as_slice().len())?;
        for pattern in self.as_slice() {
            copies.push(pattern.copy(alloc)?)?;
        }
        Ok(PatternList::from_vec(copies))
    }
}

impl NameSet {
    /// A copy with the names and the patterns that it holds.
    pub fn copy(&self, alloc: Global) -> Result<NameSet, Memory>
        ensures { IfOk result (λ s. name_set_view s ≡ name_set_view self.now) }
    {
        Ok(match self {
            NameSet::Named(name) => NameSet::Named(name.copy(alloc)?),
            NameSet::Matching(pattern) => NameSet::Matching(pattern.copy(alloc)?),
            NameSet::Others(names, patterns) => {
                NameSet::Others(names.copy(alloc)?, patterns.copy(alloc)?)
            }
        })
    }
}

impl Node {
    /// A copy with the lists, texts and pattern trees that it holds; positions in it stay the numbers that they are.
    pub fn copy(&self, alloc: Global) -> Result<Node, Memory>
        ensures { IfOk result (λ n. node_view n ≡ node_view self.now) }
    {
        Ok(match self {
            Node::True => Node::True,
            Node::False => Node::False,
            Node::Same(p) => Node::Same(*p),
            Node::Not(p) => Node::Not(*p),
            Node::All(ps) => Node::All(ps.copy(alloc)?),
            Node::Any(ps) => Node::Any(ps.copy(alloc)?),
            Node::One(ps) => Node::One(ps.copy(alloc)?),
            Node::Depends(h, p) => Node::Depends(*h, *p),
            Node::Types(kinds) => Node::Types(kinds.copy(alloc)?),
            Node::BoolIs(b) => Node::BoolIs(*b),
            Node::NumMin(n) => Node::NumMin(*n),
            Node::NumMax(n) => Node::NumMax(*n),
            Node::Multiple(m) => Node::Multiple(*m),
            Node::NumIn(numbers) => Node::NumIn(numbers.copy()?),
            Node::Words(words) => Node::Words(words.copy(alloc)?),
            Node::Match(pattern) => Node::Match(pattern.copy(alloc)?),
            Node::LengthMin(n) => Node::LengthMin(*n),
            Node::LengthMax(n) => Node::LengthMax(*n),
            Node::Items(prefix, rest) => Node::Items(prefix.copy(alloc)?, *rest),
            Node::Contains(p) => Node::Contains(*p),
            Node::CountMin(n) => Node::CountMin(*n),
            Node::CountMax(n) => Node::CountMax(*n),
            Node::MembersOf(names, p) => Node::MembersOf(names.copy(alloc)?, *p),
            Node::Has(name) => Node::Has(name.copy(alloc)?),
            Node::PropsMin(n) => Node::PropsMin(*n),
            Node::PropsMax(n) => Node::PropsMax(*n),
            Node::NamesIn(p) => Node::NamesIn(*p),
        })
    }
}
