//! The keywords of an object, each where it is there.
//!
//! They are in groups, by the kind of document that they speak of. A group of which an object has no keyword is one
//! that all such objects share, so an object takes memory for the groups of which it has some.

use crate::lists::{DependencyList, EntryList, PatternPropertyList, PropertyList, TypeList};
use crate::part::ItemsPart;
use crate::pattern::PatternText;
use js_doc::{Doc, DocList, StrList};
use std::rc::Rc;

/// What an object requires. A field of a group is None exactly where the object hasn't that keyword, and
/// `additional_items` also where `items` is no list. Schemas are numbers of entries.
#[derive(Drop)]
pub struct Keywords {
    pub any: Rc<AnyKeywords>,
    pub numbers: Rc<NumberKeywords>,
    pub strings: Rc<StringKeywords>,
    pub arrays: Rc<ArrayKeywords>,
    pub objects: Rc<ObjectKeywords>,
    pub in_place: Rc<InPlaceKeywords>,
}

/// Keywords that speak of documents of any kind.
#[derive(Drop)]
pub struct AnyKeywords {
    pub types: Option<TypeList>,
    pub enumeration: Option<DocList>,
    pub constant: Option<Doc>,
}

/// Keywords that speak of numbers.
#[derive(Drop)]
pub struct NumberKeywords {
    pub multiple_of: Option<u64>,
    pub minimum: Option<i128>,
    pub maximum: Option<i128>,
    pub exclusive_minimum: Option<i128>,
    pub exclusive_maximum: Option<i128>,
}

/// Keywords that speak of strings.
#[derive(Drop)]
pub struct StringKeywords {
    pub min_length: Option<u64>,
    pub max_length: Option<u64>,
    pub pattern: Option<PatternText>,
}

/// Keywords that speak of arrays.
#[derive(Drop)]
pub struct ArrayKeywords {
    pub items: Option<ItemsPart>,
    pub additional_items: Option<u32>,
    pub contains: Option<u32>,
    pub min_items: Option<u64>,
    pub max_items: Option<u64>,
}

/// Keywords that speak of objects.
#[derive(Drop)]
pub struct ObjectKeywords {
    pub required: Option<StrList>,
    pub properties: Option<PropertyList>,
    pub pattern_properties: Option<PatternPropertyList>,
    pub additional_properties: Option<u32>,
    pub property_names: Option<u32>,
    pub dependencies: Option<DependencyList>,
    pub min_properties: Option<u64>,
    pub max_properties: Option<u64>,
}

/// Keywords whose schemas apply to the same document.
#[derive(Drop)]
pub struct InPlaceKeywords {
    pub all_of: Option<EntryList>,
    pub any_of: Option<EntryList>,
    pub one_of: Option<EntryList>,
    pub not: Option<u32>,
}

impl AnyKeywords {
    ghost use Rattle.std.specs.Prelude.{◌≡◌, ◌↔◌, IsTrue};
    ghost use Rattle.js_schema.specs.NoKeywords.{no_any};

    /// The group of an object without such a keyword.
    pub fn none() -> AnyKeywords
        ensures { result ≡ no_any }
    {
        AnyKeywords {
            types: None,
            enumeration: None,
            constant: None,
        }
    }

    /// Whether the object has no such keyword.
    pub fn is_empty(&self) -> bool
        ensures { IsTrue result ↔ (self.now ≡ no_any) }
    {
        self.types.is_none() && self.enumeration.is_none() && self.constant.is_none()
    }
}

impl NumberKeywords {
    ghost use Rattle.std.specs.Prelude.{◌≡◌, ◌↔◌, IsTrue};
    ghost use Rattle.js_schema.specs.NoKeywords.{no_numbers};

    /// The group of an object without such a keyword.
    pub fn none() -> NumberKeywords
        ensures { result ≡ no_numbers }
    {
        NumberKeywords {
            multiple_of: None,
            minimum: None,
            maximum: None,
            exclusive_minimum: None,
            exclusive_maximum: None,
        }
    }

    /// Whether the object has no such keyword.
    pub fn is_empty(&self) -> bool
        ensures { IsTrue result ↔ (self.now ≡ no_numbers) }
    {
        self.multiple_of.is_none()
            && self.minimum.is_none()
            && self.maximum.is_none()
            && self.exclusive_minimum.is_none()
            && self.exclusive_maximum.is_none()
    }
}

impl StringKeywords {
    ghost use Rattle.std.specs.Prelude.{◌≡◌, ◌↔◌, IsTrue};
    ghost use Rattle.js_schema.specs.NoKeywords.{no_strings};

    /// The group of an object without such a keyword.
    pub fn none() -> StringKeywords
        ensures { result ≡ no_strings }
    {
        StringKeywords {
            min_length: None,
            max_length: None,
            pattern: None,
        }
    }

    /// Whether the object has no such keyword.
    pub fn is_empty(&self) -> bool
        ensures { IsTrue result ↔ (self.now ≡ no_strings) }
    {
        self.min_length.is_none() && self.max_length.is_none() && self.pattern.is_none()
    }
}

impl ArrayKeywords {
    ghost use Rattle.std.specs.Prelude.{◌≡◌, ◌↔◌, IsTrue};
    ghost use Rattle.js_schema.specs.NoKeywords.{no_arrays};

    /// The group of an object without such a keyword.
    pub fn none() -> ArrayKeywords
        ensures { result ≡ no_arrays }
    {
        ArrayKeywords {
            items: None,
            additional_items: None,
            contains: None,
            min_items: None,
            max_items: None,
        }
    }

    /// Whether the object has no such keyword.
    pub fn is_empty(&self) -> bool
        ensures { IsTrue result ↔ (self.now ≡ no_arrays) }
    {
        self.items.is_none()
            && self.additional_items.is_none()
            && self.contains.is_none()
            && self.min_items.is_none()
            && self.max_items.is_none()
    }
}

impl ObjectKeywords {
    ghost use Rattle.std.specs.Prelude.{◌≡◌, ◌↔◌, IsTrue};
    ghost use Rattle.js_schema.specs.NoKeywords.{no_objects};

    /// The group of an object without such a keyword.
    pub fn none() -> ObjectKeywords
        ensures { result ≡ no_objects }
    {
        ObjectKeywords {
            required: None,
            properties: None,
            pattern_properties: None,
            additional_properties: None,
            property_names: None,
            dependencies: None,
            min_properties: None,
            max_properties: None,
        }
    }

    /// Whether the object has no such keyword.
    pub fn is_empty(&self) -> bool
        ensures { IsTrue result ↔ (self.now ≡ no_objects) }
    {
        self.required.is_none()
            && self.properties.is_none()
            && self.pattern_properties.is_none()
            && self.additional_properties.is_none()
            && self.property_names.is_none()
            && self.dependencies.is_none()
            && self.min_properties.is_none()
            && self.max_properties.is_none()
    }
}

impl InPlaceKeywords {
    ghost use Rattle.std.specs.Prelude.{◌≡◌, ◌↔◌, IsTrue};
    ghost use Rattle.js_schema.specs.NoKeywords.{no_in_place};

    /// The group of an object without such a keyword.
    pub fn none() -> InPlaceKeywords
        ensures { result ≡ no_in_place }
    {
        InPlaceKeywords {
            all_of: None,
            any_of: None,
            one_of: None,
            not: None,
        }
    }

    /// Whether the object has no such keyword.
    pub fn is_empty(&self) -> bool
        ensures { IsTrue result ↔ (self.now ≡ no_in_place) }
    {
        self.all_of.is_none()
            && self.any_of.is_none()
            && self.one_of.is_none()
            && self.not.is_none()
    }
}
