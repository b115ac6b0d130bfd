//! The in-place edges of a schema, in flat arrays.

ghost use Rattle.std.specs.Prelude.{◌≡◌, ◌++◌, ◌∷◌, [], ◌<◌, length, map, IfOk, OnOk};
ghost use Rattle.schemas.specs.Schema.{in_place, lists, all, one, of_needs};
ghost use Rattle.js_schema.specs.View.{form_view, keywords_view, dependency_view};

use js_doc::Memory;
use js_schema::{DependencyList, EntryList, Form, Keywords, Needs, Schema};
use std::alloc::Global;
use std::marker::Model;

/// Where the targets of an entry are among those of all entries.
#[derive(Clone, Copy)]
pub(crate) struct Row {
    start: usize,
    end: usize,
}

/// For each entry the entries to which its edges lead. Contracts see a list of lists.
#[derive(Drop)]
pub(crate) struct Edges {
    rows: Vec<Row>,
    targets: Vec<u32>,
}

impl Model for Edges {
    ghost use Rattle.std.specs.Prelude.{◌≡◌, ℕ, List, length, true};
    ghost use Rattle.documents.specs.Tests.{every};
    ghost use Rattle.js_guard.specs.Rows.{rows_of, is_inside};

    ghost Value = { List (List ℕ) };

    ghost view = { λ e. rows_of e.rows.items e.targets.items };

    ghost invariant = { λ e. every (is_inside (length e.targets.items)) e.rows.items ≡ true };
}

impl Edges {
    ghost use Rattle.std.specs.Prelude.{◌^◌};
    ghost use Rattle.schemas.specs.Guarded.{edges, targets};
    ghost use Rattle.js_guard.specs.Rows.{AreClosed};
    ghost use Rattle.js_schema.specs.SchemaView.{schema_view};

    /// No entries.
    pub(crate) fn new(alloc: Global) -> Edges
        ensures { result ≡ [] }
    {
        Edges {
            rows: Vec::new(alloc),
            targets: Vec::new(alloc),
        }
    }

    /// The in-place edges of a schema.
    pub(crate) fn of(alloc: Global, schema: &Schema) -> Result<Edges, Memory>
        ensures edges { IfOk result (λ e. e ≡ edges (schema_view schema.now)) }
        ensures closed { IfOk result AreClosed }
        ensures small { IfOk result (λ e. length e < 2 ^ 32) }
    {
        let mut edges = Edges::new(alloc);
        let mut row = Vec::new(alloc);
        for entry in 0..schema.len() {
            row.clear();
            add_form(&mut row, schema.form(entry))?;
            edges.push_row(&row)?;
        }
        Ok(edges)
    }

    /// The number of entries.
    pub(crate) fn len(&self) -> usize
        ensures { result ≡ length self.now }
    {
        self.rows.len()
    }

    pub(crate) fn row(&self, entry: u32) -> &[u32]
        requires { entry < length self.now }
        ensures { result.now ≡ targets self.now entry }
    {
        let row = self.rows[entry as usize];
        &self.targets[row.start..row.end]
    }

    /// Adds an entry with these targets.
    pub(crate) fn push_row(&mut self, row: &[u32]) -> Result<(), Memory>
        ensures { OnOk result (self.new ≡ self.old ++ row.now ∷ []) }
    {
        let start = self.targets.len();
        self.targets.extend_from_slice(row)?;
        let end = self.targets.len();
        self.rows.push(Row { start, end })?;
        Ok(())
    }
}

fn add_form(row: &mut Vec<u32>, form: &Form) -> Result<(), Memory>
    ensures { OnOk result (row.new.items ≡ row.old.items ++ in_place (form_view form.now)) }
{
    match form {
        Form::Always => Ok(()),
        Form::Never => Ok(()),
        Form::Ref(target) => Ok(row.push(*target)?),
        Form::Keywords(keywords) => add_keywords(row, keywords),
    }
}

fn add_keywords(row: &mut Vec<u32>, keywords: &Keywords) -> Result<(), Memory>
    ensures { let k = keywords_view keywords.now in OnOk result (row.new.items ≡ row.old.items
        ++ (lists all k.all_of ++ lists all k.any_of ++ lists all k.one_of ++ lists one k.not
        ++ lists of_needs k.dependencies)) }
{
    add_list(row, &keywords.in_place.all_of)?;
    add_list(row, &keywords.in_place.any_of)?;
    add_list(row, &keywords.in_place.one_of)?;
    if let Some(target) = keywords.in_place.not {
        row.push(target)?;
    }
    if let Some(dependencies) = &keywords.objects.dependencies {
        add_dependencies(row, dependencies)?;
    }
    Ok(())
}

fn add_list(row: &mut Vec<u32>, list: &Option<EntryList>) -> Result<(), Memory>
    ensures { OnOk result (row.new.items ≡ row.old.items ++ lists all list.now) }
{
    if let Some(list) = list {
        row.extend_from_slice(list.as_slice())?;
    }
    Ok(())
}

/// Adds the schemas of dependencies. The names that a dependency needs are no schemas.
fn add_dependencies(row: &mut Vec<u32>, dependencies: &DependencyList) -> Result<(), Memory>
    ensures { OnOk result (row.new.items ≡ row.old.items ++ of_needs (map dependency_view dependencies.now)) }
{
    for dependency in dependencies.as_slice() {
        if let Needs::Whole(target) = &dependency.needs {
            row.push(*target)?;
        }
    }
    Ok(())
}
