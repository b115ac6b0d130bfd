//! Requests: which entries a part of a document is asked for, and by which owners.

ghost use Rattle.std.specs.Prelude.{◌≡◌, ℕ, ◌||◌, ◌&&◌, ◌++◌, not, Bool, IfOk, IsOk, map, length};
ghost use Rattle.js_valid.specs.Parts.{answered, asked_by, flag};
ghost use Rattle.js_valid.specs.Requests.{entries_in, owners_in};

use crate::tables::{refuse, test_at};
use js_doc::Memory;
use std::alloc::Global;

/// An owner, by its place in a list, asks that a part meets an entry.
#[derive(Clone, Copy)]
pub(crate) struct Request {
    pub(crate) owner: usize,
    pub(crate) entry: u32,
}

/// Drops the requests of owners that don't have the test, by their places.
pub(crate) fn keep_requests(requests: &mut Vec<Request>, table: &[bool])
    ensures { (e : ℕ) (p : ℕ → Bool) → asked_by e p (owners_in requests.new.items) (entries_in requests.new.items)
        ≡ (not (flag table.now e)
        || asked_by e p (owners_in requests.old.items) (entries_in requests.old.items)) }
{
    requests.retain(|request| test_at(table, request.owner));
}

/// The entries that are asked for, in the order of the requests.
pub(crate) fn requested(alloc: Global, requests: &[Request]) -> Result<Vec<u32>, Memory>
    ensures { IfOk result (λ entries. entries.items ≡ entries_in requests.now) }
{
    let mut entries = Vec::with_capacity(alloc, requests.len())?;
    add_requested(&mut entries, requests)?;
    Ok(entries)
}

/// Adds them to a list.
pub(crate) fn add_requested(entries: &mut Vec<u32>, requests: &[Request]) -> Result<(), Memory>
    ensures { IsOk result → entries.new.items ≡ entries.old.items ++ entries_in requests.now }
{
    for request in requests {
        entries.push(request.entry)?;
    }
    Ok(())
}

/// Takes the test from each owner, by its place, with an answer that is no.
pub(crate) fn refuse_all(table: &mut Vec<bool>, requests: &[Request], answers: &[bool])
    requires { length requests.now ≡ length answers.now }
    ensures len { length table.new.items ≡ length table.old.items }
    ensures value { (j : ℕ) → flag table.new.items j
        ≡ (flag table.old.items j && answered j (owners_in requests.now) answers.now) }
{
    for (i, request) in requests.iter().enumerate() {
        refuse(table, request.owner, answers[i]);
    }
}

/// Takes the test from each owner, by its place, with an answer that is yes.
pub(crate) fn refuse_none(table: &mut Vec<bool>, requests: &[Request], answers: &[bool])
    requires { length requests.now ≡ length answers.now }
    ensures len { length table.new.items ≡ length table.old.items }
    ensures value { (j : ℕ) → flag table.new.items j
        ≡ (flag table.old.items j && answered j (owners_in requests.now) (map not answers.now)) }
{
    for (i, request) in requests.iter().enumerate() {
        refuse(table, request.owner, !answers[i]);
    }
}
