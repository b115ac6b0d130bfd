//! What documents are decided by.

ghost use Rattle.std.specs.Prelude.{◌<◌, length};
ghost use Rattle.draft06.specs.EntryValidity.{form_at};
ghost use Rattle.js_valid.specs.Choices.{AreChoices};
ghost use Rattle.js_valid.specs.Plan.{HasPlan, table_of};

use crate::plan::Plan;
use js_doc::Doc;
use js_schema::Schema;
use std::alloc::Global;

/// A schema and the order of its entries. What it decides is split by steps among the modules.
///
/// Its methods are passed `held`, one table of verdicts for a whole document, so that none is made for each part. What
/// is read of it at a part has been written there.
#[derive(Clone, Copy)]
pub(crate) struct Validator<'a> {
    pub(crate) alloc: Global,
    pub(crate) schema: &'a Schema,
    pub(crate) plan: &'a Plan<'a>,
}

impl Validator<'_> {
    /// The values of the entry's `enum`, in the order of documents; there are none where it has no such keyword.
    pub(crate) fn choices(&self, entry: u32) -> &[&Doc]
        requires plan { HasPlan self.now }
        requires entry { entry < length (table_of self.now) }
        ensures { AreChoices (form_at (table_of self.now) entry) result.now }
    {
        self.plan.choices[entry as usize].as_slice()
    }
}
