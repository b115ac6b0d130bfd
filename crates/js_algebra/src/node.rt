//! Positions of a core table, and the kinds of document that they speak of.

ghost use Rattle.std.specs.Prelude.{◌≡◌, option_map};

use crate::lists::{KindList, PosList};
use crate::names::{NameSet, Pattern};
use js_doc::{NumList, Str, StrList};

/// A place in a core table.
#[derive(Clone, Copy, PartialEq, Eq, Hash, Debug)]
pub struct Pos(pub u32);

/// The kinds of document, in the order in which they are always taken.
#[derive(Clone, Copy, PartialEq, Eq, Hash, Debug)]
pub enum JsonKind {
    Null,
    Boolean,
    Number,
    Text,
    Array,
    Object,
}

/// What a position requires of a document; `node_view` is the position that it stands for. A typed position, from
/// `BoolIs` on, requires nothing of documents of other kinds.
#[derive(Drop)]
pub enum Node {
    True,
    False,
    Same(Pos),
    Not(Pos),
    All(PosList),
    Any(PosList),
    /// Exactly one of the positions holds.
    One(PosList),
    /// An object of which the first holds needs the second.
    Depends(Pos, Pos),
    Types(KindList),
    BoolIs(bool),
    /// At least that number.
    NumMin(i128),
    /// At most that number.
    NumMax(i128),
    Multiple(u64),
    NumIn(NumList),
    Words(StrList),
    Match(Pattern),
    /// At least so many scalar values.
    LengthMin(u64),
    LengthMax(u64),
    /// The first elements by a position each, the later ones by the last.
    Items(PosList, Pos),
    Contains(Pos),
    CountMin(u64),
    CountMax(u64),
    /// The value of each member whose name is in the set.
    MembersOf(NameSet, Pos),
    Has(Str),
    PropsMin(u64),
    PropsMax(u64),
    /// Each name, as a string.
    NamesIn(Pos),
}

impl Node {
    ghost use Rattle.positions.specs.Position.{speaks_of};
    ghost use Rattle.js_algebra.specs.View.{kind_view, node_view};

    /// The kind of a typed position.
    pub fn speaks_of(&self) -> Option<JsonKind>
        ensures { option_map kind_view result ≡ speaks_of (node_view self.now) }
    {
        match self {
            Node::BoolIs(_) => Some(JsonKind::Boolean),
            Node::NumMin(_) | Node::NumMax(_) | Node::Multiple(_) | Node::NumIn(_) => {
                Some(JsonKind::Number)
            }
            Node::Words(_) | Node::Match(_) | Node::LengthMin(_) | Node::LengthMax(_) => {
                Some(JsonKind::Text)
            }
            Node::Items(_, _) | Node::Contains(_) | Node::CountMin(_) | Node::CountMax(_) => {
                Some(JsonKind::Array)
            }
            Node::MembersOf(_, _)
            | Node::Has(_)
            | Node::PropsMin(_)
            | Node::PropsMax(_)
            | Node::NamesIn(_) => Some(JsonKind::Object),
            _ => None,
        }
    }
}
