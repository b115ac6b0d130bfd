//! The ranges of a class while it is read: each is one of characters, in any order.

ghost use Rattle.std.specs.Prelude.{◌≡◌, ◌≤◌, ◌+◌, [], ◌∷◌, ◌++◌, true};
ghost use Rattle.std.specs.Result.{IfErr, OnOk};
ghost use Rattle.pattern_laws.specs.Laws.{every_range};

use crate::escape::ClassEscape;
use crate::fault::PatternFault;
use std::alloc::Global;

/// Ranges of characters.
#[derive(Drop)]
pub(crate) struct RangeList {
    pub(crate) ranges: Vec<(u32, u32)>,
    ghost characters: { every_range ranges.items ≡ true },
}

impl RangeList {
    ghost use Rattle.js_pattern.specs.Classes.{span};
    ghost use Rattle.js_pattern.specs.Escapes.{class_set};

    pub(crate) fn new(alloc: Global) -> Self
        ensures { result.ranges.items ≡ [] }
    {
        RangeList {
            ranges: Vec::new(alloc),
        }
    }

    /// Adds one character.
    pub(crate) fn push(&mut self, c: char) -> Result<(), PatternFault>
        ensures items { OnOk result (self.new.ranges.items ≡ self.old.ranges.items ++ (c, c) ∷ []) }
        ensures err { IfErr result (λ fault. fault ≡ PatternFault.Memory) }
    {
        self.ranges.push((c as u32, c as u32))?;
        Ok(())
    }

    /// Adds the characters from one to another.
    pub(crate) fn push_span(&mut self, low: char, high: char) -> Result<(), PatternFault>
        requires { low ≤ high }
        ensures items { OnOk result (self.new.ranges.items ≡ self.old.ranges.items ++ span low high) }
        ensures err { IfErr result (λ fault. fault ≡ PatternFault.Memory) }
    {
        let (low, high) = (low as u32, high as u32);
        if low < 0xd800 && 0xdfff < high {
            self.ranges.push((low, 0xd7ff))?;
            self.ranges.push((0xe000, high))?;
        } else {
            self.ranges.push((low, high))?;
        }
        Ok(())
    }

    /// Adds the set of an escape.
    pub(crate) fn push_class(&mut self, class: ClassEscape) -> Result<(), PatternFault>
        ensures items { OnOk result (self.new.ranges.items ≡ self.old.ranges.items ++ class_set class) }
        ensures err { IfErr result (λ fault. fault ≡ PatternFault.Memory) }
    {
        self.ranges.extend_from_slice(class.ranges())?;
        Ok(())
    }
}
