//! Lists that contracts see as lists, one of them as texts with numbers. Each is made of a `Vec` and gives it back
//! without taking memory.

ghost use Rattle.std.specs.Prelude.{◌≡◌};

use crate::part::{Dependency, PatternProperty, Property};
use js_keywords::TypeName;
use std::marker::Model;

/// A list of entry numbers.
#[derive(Debug, Drop)]
pub struct EntryList {
    items: Vec<u32>,
}

impl Model for EntryList {
    ghost use Rattle.std.specs.Prelude.{ℕ, List};

    ghost Value = { List ℕ };

    ghost view = { λ l. l.items.items };
}

impl EntryList {
    /// Takes the vector over, without a copy.
    pub fn from_vec(items: Vec<u32>) -> EntryList
        ensures { result ≡ items.items }
    {
        EntryList { items }
    }

    /// Gives the vector back, without a copy.
    pub fn into_vec(self) -> Vec<u32>
        ensures { result.items ≡ self }
    {
        let EntryList { items } = self;
        items
    }

    /// The elements in order, lent without a copy.
    pub fn as_slice(&self) -> &[u32]
        ensures { result.now ≡ self.now }
    {
        self.items.as_slice()
    }
}

/// A list of names of types.
#[derive(Drop)]
pub struct TypeList {
    items: Vec<TypeName>,
}

impl Model for TypeList {
    ghost use Rattle.std.specs.Prelude.{List};
    ghost use Rattle.js_keywords.specs.declared.type_name.TypeName.{TypeName};

    ghost Value = { List TypeName };

    ghost view = { λ l. l.items.items };
}

impl TypeList {
    /// Takes the vector over, without a copy.
    pub fn from_vec(items: Vec<TypeName>) -> TypeList
        ensures { result ≡ items.items }
    {
        TypeList { items }
    }

    /// Gives the vector back, without a copy.
    pub fn into_vec(self) -> Vec<TypeName>
        ensures { result.items ≡ self }
    {
        let TypeList { items } = self;
        items
    }

    /// The elements in order, lent without a copy.
    pub fn as_slice(&self) -> &[TypeName]
        ensures { result.now ≡ self.now }
    {
        self.items.as_slice()
    }
}

/// The members of `properties`, in the order of their names.
#[derive(Drop)]
pub struct PropertyList {
    items: Vec<Property>,
}

impl Model for PropertyList {
    ghost use Rattle.std.specs.Prelude.{List};
    ghost use Rattle.js_schema.specs.declared.part.Property.{Property};

    ghost Value = { List Property };

    ghost view = { λ l. l.items.items };
}

impl PropertyList {
    /// Takes the vector over, without a copy.
    pub fn from_vec(items: Vec<Property>) -> PropertyList
        ensures { result ≡ items.items }
    {
        PropertyList { items }
    }

    /// Gives the vector back, without a copy.
    pub fn into_vec(self) -> Vec<Property>
        ensures { result.items ≡ self }
    {
        let PropertyList { items } = self;
        items
    }

    /// The elements in order, lent without a copy.
    pub fn as_slice(&self) -> &[Property]
        ensures { result.now ≡ self.now }
    {
        self.items.as_slice()
    }
}

/// The members of `patternProperties`, in the order of their names.
#[derive(Drop)]
pub struct PatternPropertyList {
    items: Vec<PatternProperty>,
}

impl PatternPropertyList {
    ghost use Rattle.std.specs.Prelude.{◌≡◌, map};
    ghost use Rattle.js_schema.specs.View.{pattern_property_view, pattern_properties_view};

    /// Takes the vector over, without a copy.
    pub fn from_vec(items: Vec<PatternProperty>) -> PatternPropertyList
        ensures { pattern_properties_view result ≡ map pattern_property_view items.items }
    {
        PatternPropertyList { items }
    }

    /// Gives the vector back, without a copy.
    pub fn into_vec(self) -> Vec<PatternProperty>
        ensures { map pattern_property_view result.items ≡ pattern_properties_view self }
    {
        let PatternPropertyList { items } = self;
        items
    }

    /// The elements in order, lent without a copy.
    pub fn as_slice(&self) -> &[PatternProperty]
        ensures { map pattern_property_view result.now ≡ pattern_properties_view self.now }
    {
        self.items.as_slice()
    }
}

/// The members of `dependencies`, in the order of their names.
#[derive(Drop)]
pub struct DependencyList {
    items: Vec<Dependency>,
}

impl Model for DependencyList {
    ghost use Rattle.std.specs.Prelude.{List};
    ghost use Rattle.js_schema.specs.declared.part.Dependency.{Dependency};

    ghost Value = { List Dependency };

    ghost view = { λ l. l.items.items };
}

impl DependencyList {
    /// Takes the vector over, without a copy.
    pub fn from_vec(items: Vec<Dependency>) -> DependencyList
        ensures { result ≡ items.items }
    {
        DependencyList { items }
    }

    /// Gives the vector back, without a copy.
    pub fn into_vec(self) -> Vec<Dependency>
        ensures { result.items ≡ self }
    {
        let DependencyList { items } = self;
        items
    }

    /// The elements in order, lent without a copy.
    pub fn as_slice(&self) -> &[Dependency]
        ensures { result.now ≡ self.now }
    {
        self.items.as_slice()
    }
}
