//! The core table of a schema.
//!
//! First a position for each entry, then the nodes that these need, entry by entry. The entries' positions and the
//! nodes are made side by side and put together at the end, so nothing is moved. A node's rank is that of its entry,
//! and among an entry's nodes its number; the entry itself lies above its nodes.

ghost use Rattle.std.specs.Prelude.{◌≡◌, ◌^◌, ◌<◌, ◌++◌, [], true, length, IfOk, OnOk};
ghost use Rattle.documents.specs.Document.{Document, is_document};
ghost use Rattle.patterns.specs.Decision.{finds};
ghost use Rattle.schemas.specs.Schema.{form_in_range};
ghost use Rattle.draft06.specs.EntryValidity.{entry_valid};
ghost use Rattle.positions.specs.Holds.{holds};
ghost use Rattle.positions.specs.Position.{is_table};
ghost use Rattle.normal_forms.specs.NormalForm as N;
ghost use Rattle.js_algebra.specs.View.{node_view};
ghost use Rattle.js_schema.specs.View.{form_view};
ghost use Rattle.js_guard.specs.RankedView.{entries_of};
ghost use Rattle.js_normal.specs.PatternTrees.{tree_of};
ghost use Rattle.js_values.specs.Runs.{empty, next, run, with_named};
ghost use Rattle.js_normal.specs.Tables.{made_of, with_entry};

use crate::keywords::keyword_nodes;
use js_algebra::{Core, Node, NodeList, Pos, PosList, RankList};
use js_doc::Memory;
use js_guard::RankedSchema;
use js_schema::Form;
use js_values::Sink;
use std::alloc::Global;

/// The core table of a schema. Position `e` is that of entry `e`, so position 0 is the schema itself. It takes time and
/// memory in proportion to the schema, and to a copy of the names and patterns beside each `additionalProperties`.
pub fn normalise(alloc: Global, schema: &RankedSchema) -> Result<Core, Memory>
    ensures positions { IfOk result (λ c. c.positions ≡ N.table_of tree_of (entries_of schema.now)) }
    ensures ranks { IfOk result (λ c. c.ranks ≡ N.ranks_of tree_of (entries_of schema.now) schema.now.ranks) }
    ensures small { IfOk result (λ c. length c.positions < 2 ^ 31) }
    ensures valid { IfOk result (λ c. (J : Document) → is_document J ≡ true → holds c.positions 0 J
        ≡ entry_valid (λ t. finds (tree_of t)) (entries_of schema.now) 0 J) }
{
    let table = &schema.table;
    let mut parts = Parts::new(alloc, table.len());
    for entry in 0..table.len() {
        parts.add_entry(table.form(entry), schema.ranks.rank(entry))?;
    }
    parts.into_core(alloc)
}

/// The positions of some entries with their ranks, and the nodes that these need.
#[derive(Drop)]
pub(crate) struct Parts {
    entries: Vec<Node>,
    ranks: Vec<u64>,
    sink: Sink,
}

impl Parts {
    /// Before the first of `count` entries.
    fn new(alloc: Global, count: u32) -> Parts
        ensures entries { result.entries.items ≡ [] }
        ensures ranks { result.ranks.items ≡ [] }
        ensures sink { result.sink ≡ empty count }
    {
        Parts {
            entries: Vec::new(alloc),
            ranks: Vec::new(alloc),
            sink: Sink::new(alloc, count),
        }
    }

    /// Adds an entry with its nodes.
    fn add_entry(&mut self, form: &Form, rank: u32) -> Result<(), Memory>
        requires { form_in_range (form_view form.now) ≡ true }
        ensures { OnOk result (made_of self.new ≡ with_entry (form_view form.now) rank (made_of self.old)) }
    {
        self.sink.begin_entry(rank);
        let entry = entry_node(form, &mut self.sink)?;
        self.entries.push(entry)?;
        self.ranks.push(entry_rank(rank))?;
        Ok(())
    }

    /// The table of the entries and then the nodes.
    fn into_core(self, alloc: Global) -> Result<Core, Memory>
        requires table { is_table ((made_of self).entries ++ (made_of self).nodes)
            ((made_of self).entry_ranks ++ (made_of self).node_ranks) ≡ true }
        requires small { length ((made_of self).entries ++ (made_of self).nodes) < 2 ^ 32 }
        ensures positions { IfOk result (λ c. c.positions ≡ (made_of self).entries ++ (made_of self).nodes) }
        ensures ranks { IfOk result (λ c. c.ranks ≡ (made_of self).entry_ranks ++ (made_of self).node_ranks) }
    {
        let Parts {
            mut entries,
            mut ranks,
            sink,
        } = self;
        let (mut nodes, mut node_ranks) = sink.into_nodes_and_ranks();
        entries.append(&mut nodes)?;
        ranks.append(&mut node_ranks)?;
        Core::make(
            alloc,
            NodeList::from_vec(entries),
            RankList::from_vec(ranks),
        )
    }
}

/// What an entry is, once its nodes are made.
fn entry_node(form: &Form, sink: &mut Sink) -> Result<Node, Memory>
    requires form { form_in_range (form_view form.now) ≡ true }
    requires named { sink.old.named ≡ [] }
    ensures entry { IfOk result (λ n. node_view n
        ≡ N.entry_position tree_of (form_view form.now) (N.form_nodes tree_of (form_view form.now) (next sink.old))) }
    ensures nodes { OnOk result
        (sink.new ≡ with_named [] (run (N.form_nodes tree_of (form_view form.now)) sink.old)) }
{
    match form {
        Form::Always => Ok(Node::True),
        Form::Never => Ok(Node::False),
        Form::Ref(entry) => Ok(Node::Same(Pos(*entry))),
        Form::Keywords(keywords) => {
            keyword_nodes(keywords, sink)?;
            Ok(Node::All(PosList::from_vec(sink.take_named())))
        }
    }
}

/// The rank of an entry, above its nodes.
fn entry_rank(rank: u32) -> u64
    ensures { result ≡ N.entry_rank rank }
{
    u64::from(rank) * 4_294_967_296 + 4_294_967_295
}
