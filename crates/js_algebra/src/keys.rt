//! Equality and hashes of patterns: of their texts and trees.

ghost use Rattle.std.specs.Cmp.{on_equiv, partial_equiv_from_equiv};
ghost use Rattle.std.specs.Hash as fed;
ghost use Rattle.js_algebra.specs.View.{pattern_view};
ghost use Rattle.js_algebra.specs.Equality.{same_pattern, same_pattern_equiv, pattern_writes, patterns_Alike};

use crate::names::Pattern;
use std::hash::{Hash, Hasher};

impl PartialEq for Pattern {
    ghost eq = { λ a b. same_pattern (pattern_view a) (pattern_view b) };

    ghost laws = { partial_equiv_from_equiv (on_equiv pattern_view same_pattern_equiv) };

    fn eq(&self, other: &Pattern) -> bool {
        self.source == other.source && self.re == other.re
    }
}

impl Eq for Pattern {
    ghost laws = { on_equiv pattern_view same_pattern_equiv };
}

impl Hash for Pattern {
    ghost hash_input = { λ r. pattern_writes (pattern_view r) };

    ghost respects_eq = { (fed.on_Alike pattern_view patterns_Alike).fed };

    fn hash<H: Hasher>(&self, state: &mut H) {
        self.source.hash(state);
        self.re.hash(state);
    }
}
