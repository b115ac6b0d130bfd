//! Why a text is no pattern of the profile, and where.

ghost use Rattle.std.specs.Prelude.{◌≡◌};
ghost use Rattle.js_pattern.specs.Names.{form_name};
ghost use Rattle.js_pattern.specs.declared.fault.PatternFault.TheVariants as variants;

use std::alloc::{AllocError, AllocFailed};

/// There was not enough memory.
#[derive(Clone, Copy, Debug, PartialEq, Eq)]
pub struct Memory;

impl From<AllocError> for Memory {
    fn from(_: AllocError) -> Self {
        Memory
    }
}

impl<T: Drop> From<AllocFailed<T>> for Memory {
    fn from(_: AllocFailed<T>) -> Self {
        Memory
    }
}

/// A form of ECMA-262 that the profile leaves out.
#[derive(Clone, Copy, Debug, PartialEq, Eq)]
pub enum PatternForm {
    /// `(?=..)`, `(?!..)`, `(?<=..)`, `(?<!..)`
    Lookaround,
    /// `(?<name>..)`, `\k`
    NamedGroup,
    /// `\1` to `\9`
    Backreference,
    /// `\0` before a digit
    Octal,
    /// `\b`, `\B`
    Boundary,
    /// `\p`, `\P`
    Property,
    /// `\c`
    Control,
    /// an escape of a surrogate that forms no character
    Surrogate,
    /// a group inside 1,000 others: what goes over a tree recurs as deep as its groups nest
    Nesting,
}

impl PatternForm {
    /// The name that reports print.
    pub fn name(self) -> &'static str
        ensures { result.now ≡ form_name self }
    {
        match self {
            PatternForm::Lookaround => "lookaround",
            PatternForm::NamedGroup => "namedgroup",
            PatternForm::Backreference => "backreference",
            PatternForm::Octal => "octal",
            PatternForm::Boundary => "boundary",
            PatternForm::Property => "property",
            PatternForm::Control => "control",
            PatternForm::Surrogate => "surrogate",
            PatternForm::Nesting => "nesting",
        }
    }
}

/// The first fault of a text, with its place: the number of scalar values before it.
#[derive(Clone, Copy, Debug, PartialEq, Eq)]
pub enum PatternFault {
    /// This is no pattern of ECMA-262.
    Syntax(usize),
    /// The profile leaves this form out.
    Unsupported(usize, PatternForm),
    /// `{n,m}` with n above m
    QuantifierOrder(usize),
    /// `x-y` in a class, with x above y
    RangeOrder(usize),
    /// a number over 16,384 in a quantifier
    RepeatTooWide(usize),
    /// There was not enough memory. This says nothing of the text.
    Memory,
}

impl From<AllocError> for PatternFault {
    ghost from_gives = { λ _ fault. fault ≡ variants.Memory };

    fn from(_: AllocError) -> Self {
        PatternFault::Memory
    }
}

impl<T: Drop> From<AllocFailed<T>> for PatternFault {
    ghost from_gives = { λ _ fault. fault ≡ variants.Memory };

    fn from(_: AllocFailed<T>) -> Self {
        PatternFault::Memory
    }
}

impl From<Memory> for PatternFault {
    ghost from_gives = { λ _ fault. fault ≡ variants.Memory };

    fn from(_: Memory) -> Self {
        PatternFault::Memory
    }
}
