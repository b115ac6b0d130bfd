//! The kinds of families.

ghost use Rattle.std.specs.Prelude.{◌≡◌};
ghost use Rattle.families.specs.Families.{family_word, greatest};
ghost use Rattle.js_gen.specs.KindView.{kind_view};

/// A family of pairs of schemas.
#[derive(Clone, Copy, PartialEq, Eq, Debug)]
pub enum GenKind {
    /// Definitions, each of which names the next one twice.
    Chain,

    /// Objects of many members.
    Wide,

    /// An object whose members' names are matched with patterns.
    Patterns,

    /// Definitions in a circle, each of which names the next one in an array.
    Tree,
}

impl GenKind {
    /// The greatest number that the family has schemas at.
    pub fn greatest(self) -> u32
        ensures { result ≡ greatest (kind_view self) }
    {
        match self {
            GenKind::Chain => 1000,
            GenKind::Wide => 200,
            GenKind::Patterns => 8,
            GenKind::Tree => 1000,
        }
    }

    /// The word that `jsat gen` takes for the family, and that its report repeats.
    pub fn as_word(self) -> &'static str
        ensures { result.now ≡ family_word (kind_view self) }
    {
        match self {
            GenKind::Chain => "chain",
            GenKind::Wide => "wide",
            GenKind::Patterns => "patterns",
            GenKind::Tree => "tree",
        }
    }
}
