//! What a place of a schema accepts, as the form of its entry.
//!
//! It takes time and memory in proportion to the object, and two look-ups for each schema in it. Where a reference
//! leads is known from the walk.

ghost use Rattle.std.specs.Prelude.{◌≡◌, ◌<◌, None, Some, length, IfOk};
ghost use Rattle.documents.specs.Json as D;
ghost use Rattle.schemas.specs.Reading.{fault_at};
ghost use Rattle.schemas.specs.Entries as E;
ghost use Rattle.js_doc.specs.JsonView.{view, map_view};
ghost use Rattle.js_keywords.specs.Reading.{rules};
ghost use Rattle.js_walk.specs.FileView.{root_of};
ghost use Rattle.js_walk.specs.PlacesView.{IsTarget, RefersTo};
ghost use Rattle.js_schema.specs.NoKeywords.{HasNone};
ghost use Rattle.js_reader.specs.NumbersView.{numbered, pointer_at, pointers_in};
ghost use Rattle.js_schema.specs.View.{form_view};

use crate::keywords::keywords;
use crate::numbers::Numbers;
use crate::object::Object;
use js_doc::{Json, JsonMap, Memory};
use js_keywords::Keyword;
use js_schema::{Form, Keywords};
use js_walk::{File, value_of};
use std::alloc::Global;
use std::rc::Rc;

/// Reads the forms of a file's places.
#[derive(Drop)]
pub(crate) struct FormReader<'r, 'a> {
    pub(crate) file: &'r File<'a>,
    pub(crate) numbers: &'r Numbers<'a>,
    /// What an object without members asks for, which all such objects share.
    pub(crate) none: &'r Rc<Keywords>,
}

impl<'r, 'a> FormReader<'r, 'a> {
    /// The form of a place in which nothing is wrong. `target` is where its reference leads, where it has one.
    pub(crate) fn form(
        &self,
        alloc: Global,
        pointer: u32,
        target: Option<u32>,
        value: &Json,
    ) -> Result<Form, Memory>
        requires none { HasNone self.now.none.now.value }
        requires placed { pointer < length (pointers_in self.now.numbers.now) }
        requires faultless { fault_at rules (root_of self.now.file.now)
            (pointer_at self.now.numbers.now pointer, view value.now) ≡ None }
        requires target { IsTarget (root_of self.now.file.now) (pointers_in self.now.numbers.now)
            (view value.now) target }
        ensures { IfOk result (λ f. form_view f ≡ E.form_at rules (root_of self.now.file.now)
            (E.number_of (numbered self.now.numbers.now)) (pointer_at self.now.numbers.now pointer, view value.now)) }
    {
        match value {
            Json::Bool(true) => Ok(Form::Always),
            Json::Members(members) => self.object_form(alloc, pointer, target, members),
            _ => Ok(Form::Never),
        }
    }

    fn object_form(
        &self,
        alloc: Global,
        pointer: u32,
        target: Option<u32>,
        members: &JsonMap,
    ) -> Result<Form, Memory>
        requires none { HasNone self.now.none.now.value }
        requires placed { pointer < length (pointers_in self.now.numbers.now) }
        requires faultless { fault_at rules (root_of self.now.file.now)
            (pointer_at self.now.numbers.now pointer, D.object (map_view members.now)) ≡ None }
        requires target { IsTarget (root_of self.now.file.now) (pointers_in self.now.numbers.now)
            (D.object (map_view members.now)) target }
        ensures { IfOk result (λ f. form_view f ≡ E.form_at rules (root_of self.now.file.now)
            (E.number_of (numbered self.now.numbers.now))
            (pointer_at self.now.numbers.now pointer, D.object (map_view members.now))) }
    {
        match value_of(members, Keyword::Ref) {
            Some(value) => Ok(self.reference_form(target, value)),
            None => {
                let object = Object::new(self.numbers, pointer, members);
                Ok(Form::Keywords(keywords(alloc, self.none, &object)?))
            }
        }
    }

    /// The form of a place with a reference, which leads to `target`.
    fn reference_form(&self, target: Option<u32>, value: &Json) -> Form
        requires { RefersTo (root_of self.now.file.now) (pointers_in self.now.numbers.now)
            (Some (view value.now)) target }
        ensures { form_view result ≡ E.reference_form rules (root_of self.now.file.now)
            (E.number_of (numbered self.now.numbers.now)) (view value.now) }
    {
        match value {
            Json::Text(_) => Form::Ref(self.numbers.number(target)),
            _ => Form::Never,
        }
    }
}
