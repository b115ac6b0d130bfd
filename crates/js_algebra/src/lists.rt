//! Lists that contracts see as lists. Each is made of a `Vec` and gives it back without taking memory.

ghost use Rattle.std.specs.Prelude.{◌≡◌, map};

use crate::names::Pattern;
use crate::node::{JsonKind, Node, Pos};
use crate::signed::Signed;
use std::marker::Model;

/// A list of positions.
#[derive(Drop)]
pub struct PosList {
    items: Vec<Pos>,
}

impl Model for PosList {
    ghost use Rattle.std.specs.Prelude.{List};
    ghost use Rattle.js_algebra.specs.declared.node.Pos.{Pos};

    ghost Value = { List Pos };

    ghost view = { λ l. l.items.items };
}

impl PosList {
    /// Takes the vector over, without a copy.
    pub fn from_vec(items: Vec<Pos>) -> PosList
        ensures { result ≡ items.items }
    {
        PosList { items }
    }

    /// Gives the vector back, without a copy.
    pub fn into_vec(self) -> Vec<Pos>
        ensures { result.items ≡ self }
    {
        let PosList { items } = self;
        items
    }

    /// The elements in order, lent without a copy.
    pub fn as_slice(&self) -> &[Pos]
        ensures { result.now ≡ self.now }
    {
        self.items.as_slice()
    }
}

/// A list of kinds.
#[derive(Drop)]
pub struct KindList {
    items: Vec<JsonKind>,
}

impl Model for KindList {
    ghost use Rattle.std.specs.Prelude.{List};
    ghost use Rattle.js_algebra.specs.declared.node.JsonKind.{JsonKind};

    ghost Value = { List JsonKind };

    ghost view = { λ l. l.items.items };
}

impl KindList {
    /// Takes the vector over, without a copy.
    pub fn from_vec(items: Vec<JsonKind>) -> KindList
        ensures { result ≡ items.items }
    {
        KindList { items }
    }

    /// Gives the vector back, without a copy.
    pub fn into_vec(self) -> Vec<JsonKind>
        ensures { result.items ≡ self }
    {
        let KindList { items } = self;
        items
    }

    /// The elements in order, lent without a copy.
    pub fn as_slice(&self) -> &[JsonKind]
        ensures { result.now ≡ self.now }
    {
        self.items.as_slice()
    }
}

/// A list of nodes.
#[derive(Drop)]
pub struct NodeList {
    items: Vec<Node>,
}

impl Model for NodeList {
    ghost use Rattle.std.specs.Prelude.{List};
    ghost use Rattle.std.specs.Coded.{codes};
    ghost use Rattle.js_pattern.specs.contracts.re.Re as re;
    ghost use Rattle.js_algebra.specs.declared.node.Node.{Node};

    ghost Value = { List Node };

    ghost coded = { Prim.hlevel (codes, re.the_row.coded) };

    ghost view = { λ l. l.items.items };
}

impl NodeList {
    /// Takes the vector over, without a copy.
    pub fn from_vec(items: Vec<Node>) -> NodeList
        ensures { result ≡ items.items }
    {
        NodeList { items }
    }

    /// Gives the vector back, without a copy.
    pub fn into_vec(self) -> Vec<Node>
        ensures { result.items ≡ self }
    {
        let NodeList { items } = self;
        items
    }

    /// The elements in order, lent without a copy.
    pub fn as_slice(&self) -> &[Node]
        ensures { result.now ≡ self.now }
    {
        self.items.as_slice()
    }
}

/// A list of ranks.
#[derive(Drop)]
pub struct RankList {
    items: Vec<u64>,
}

impl Model for RankList {
    ghost use Rattle.std.specs.Prelude.{ℕ, List};

    ghost Value = { List ℕ };

    ghost view = { λ l. l.items.items };
}

impl RankList {
    /// Takes the vector over, without a copy.
    pub fn from_vec(items: Vec<u64>) -> RankList
        ensures { result ≡ items.items }
    {
        RankList { items }
    }

    /// Gives the vector back, without a copy.
    pub fn into_vec(self) -> Vec<u64>
        ensures { result.items ≡ self }
    {
        let RankList { items } = self;
        items
    }

    /// The elements in order, lent without a copy.
    pub fn as_slice(&self) -> &[u64]
        ensures { result.now ≡ self.now }
    {
        self.items.as_slice()
    }
}

/// A list of signed positions, in any order.
#[derive(Drop)]
pub struct SignedList {
    items: Vec<Signed>,
}

impl Model for SignedList {
    ghost use Rattle.std.specs.Prelude.{List, map};
    ghost use Rattle.goals.specs.Signed.{Signed};

    ghost Value = { List Signed };

    ghost use Rattle.js_algebra.specs.View.{signed_view};

    ghost view = { λ l. map signed_view l.items.items };
}

impl SignedList {
    ghost use Rattle.js_algebra.specs.View.{signed_view};

    /// Takes the vector over, without a copy.
    pub fn from_vec(items: Vec<Signed>) -> SignedList
        ensures { result ≡ map signed_view items.items }
    {
        SignedList { items }
    }

    /// Gives the vector back, without a copy.
    pub fn into_vec(self) -> Vec<Signed>
        ensures { map signed_view result.items ≡ self }
    {
        let SignedList { items } = self;
        items
    }

    /// The elements in order, lent without a copy.
    pub fn as_slice(&self) -> &[Signed]
        ensures { map signed_view result.now ≡ self.now }
    {
        self.items.as_slice()
    }
}

/// The choices of a signed position, each a list of signed positions.
#[derive(Drop)]
pub struct Choices {
    items: Vec<SignedList>,
}

impl Model for Choices {
    ghost use Rattle.std.specs.Prelude.{List};
    ghost use Rattle.goals.specs.Signed.{Signed};

    ghost Value = { List (List Signed) };

    ghost view = { λ l. l.items.items };
}

impl Choices {
    /// Takes the vector over, without a copy.
    pub fn from_vec(items: Vec<SignedList>) -> Choices
        ensures { result ≡ items.items }
    {
        Choices { items }
    }

    /// Gives the vector back, without a copy.
    pub fn into_vec(self) -> Vec<SignedList>
        ensures { result.items ≡ self }
    {
        let Choices { items } = self;
        items
    }

    /// The elements in order, lent without a copy.
    pub fn as_slice(&self) -> &[SignedList]
        ensures { result.now ≡ self.now }
    {
        self.items.as_slice()
    }
}

/// A list of patterns.
#[derive(Drop)]
pub struct PatternList {
    items: Vec<Pattern>,
}

impl Model for PatternList {
    ghost use Rattle.std.specs.Prelude.{List};
    ghost use Rattle.std.specs.Coded.{codes};
    ghost use Rattle.js_pattern.specs.contracts.re.Re as re;
    ghost use Rattle.js_algebra.specs.declared.names.Pattern.{Pattern};

    ghost Value = { List Pattern };

    ghost coded = { Prim.hlevel (codes, re.the_row.coded) };

    ghost view = { λ l. l.items.items };
}

impl PatternList {
    /// Takes the vector over, without a copy.
    pub fn from_vec(items: Vec<Pattern>) -> PatternList
        ensures { result ≡ items.items }
    {
        PatternList { items }
    }

    /// Gives the vector back, without a copy.
    pub fn into_vec(self) -> Vec<Pattern>
        ensures { result.items ≡ self }
    {
        let PatternList { items } = self;
        items
    }

    /// The elements in order, lent without a copy.
    pub fn as_slice(&self) -> &[Pattern]
        ensures { result.now ≡ self.now }
    {
        self.items.as_slice()
    }
}
