//! What the literals of a set that speak of names require of members. Each is kept by its number among them, so that a
//! cell gives what it says of its names.

ghost use Rattle.std.specs.Prelude.{◌≡◌, ◌<◌, map, true, length, filter, IfOk, IfSome, option_map};
ghost use Rattle.std.specs.Option.{option_to_list};
ghost use Rattle.frames.specs.ObjectFrame as O;
ghost use Rattle.js_algebra.specs.View.{signed_view, is_in_table, are_in_table};
ghost use Rattle.js_name_tests.specs.NameTests.{barred_at, served_at, value_at, tests_from, values_from, numbered_value, values_in_table};

use js_algebra::{Core, Node, Pos, Signed};
use js_doc::Memory;
use std::alloc::Global;

/// The names of which the literal of that number says so much.
#[derive(Clone, Copy)]
pub struct NameTest {
    pub literal: usize,
    pub truth: bool,
}

/// What holds of the value of each name of which the literal of that number holds.
#[derive(Clone, Copy)]
pub struct ValueTest {
    pub literal: usize,
    pub value: Pos,
}

/// What some member has to serve, and the names that may.
#[derive(Drop)]
pub struct Demands {
    pub literals: Vec<Signed>,
    pub tests: Vec<NameTest>,
}

/// What a literal says of names that may not be there.
fn barred(core: &Core, x: Signed) -> Option<bool>
    requires { is_in_table core.now.positions (signed_view x) ≡ true }
    ensures { result ≡ barred_at core.now.positions (signed_view x) }
{
    match (core.node(x.pos), x.plus) {
        (Node::NamesIn(_), true) => Some(false),
        (Node::Has(_), false) => Some(true),
        _ => None,
    }
}

/// What a literal says of names that may serve it, where some member has to.
fn served(core: &Core, x: Signed) -> Option<bool>
    requires { is_in_table core.now.positions (signed_view x) ≡ true }
    ensures { result ≡ served_at core.now.positions (signed_view x) }
{
    match (core.node(x.pos), x.plus) {
        (Node::Has(_), true) => Some(true),
        (Node::MembersOf(_, _), false) => Some(true),
        (Node::NamesIn(_), false) => Some(false),
        _ => None,
    }
}

/// What a literal requires of the value of names of which it holds.
fn value(core: &Core, x: Signed) -> Option<Pos>
    requires { is_in_table core.now.positions (signed_view x) ≡ true }
    ensures value { option_map (λ p. p.0) result ≡ value_at core.now.positions (signed_view x) }
    ensures in_table { IfSome result (λ p. p.0 < length core.now.positions) }
{
    match (core.node(x.pos), x.plus) {
        (Node::MembersOf(_, value), true) => Some(*value),
        _ => None,
    }
}

/// What a literal requires of the value of a member that serves it.
pub fn asked_of_server(core: &Core, x: Signed) -> Option<Signed>
    requires { is_in_table core.now.positions (signed_view x) ≡ true }
    ensures value { map signed_view (option_to_list result) ≡ O.serving core.now.positions (signed_view x) }
    ensures in_table { are_in_table core.now.positions (map signed_view (option_to_list result)) ≡ true }
{
    match (core.node(x.pos), x.plus) {
        (Node::MembersOf(_, value), false) => Some(Signed::minus(*value)),
        _ => None,
    }
}

/// The names that may not be there.
pub fn bars_of(alloc: Global, core: &Core, names: &[Signed]) -> Result<Vec<NameTest>, Memory>
    requires { are_in_table core.now.positions (map signed_view names.now) ≡ true }
    ensures { IfOk result (λ v. v.items
        ≡ tests_from (barred_at core.now.positions) 0 (map signed_view names.now)) }
{
    let mut bars = Vec::new(alloc);
    for (literal, x) in names.iter().enumerate() {
        if let Some(truth) = barred(core, *x) {
            bars.push(NameTest { literal, truth })?;
        }
    }
    Ok(bars)
}

/// What some member has to serve, in order.
pub fn demands_of(alloc: Global, core: &Core, names: &[Signed]) -> Result<Demands, Memory>
    requires { are_in_table core.now.positions (map signed_view names.now) ≡ true }
    ensures literals { IfOk result (λ d. map signed_view d.literals.items
        ≡ filter (O.is_demand core.now.positions) (map signed_view names.now)) }
    ensures tests { IfOk result (λ d. d.tests.items
        ≡ tests_from (served_at core.now.positions) 0 (map signed_view names.now)) }
    ensures in_table { IfOk result (λ d. are_in_table core.now.positions (map signed_view d.literals.items) ≡ true) }
{
    let mut literals = Vec::new(alloc);
    let mut tests = Vec::new(alloc);
    for (literal, x) in names.iter().enumerate() {
        if let Some(truth) = served(core, *x) {
            literals.push(*x)?;
            tests.push(NameTest { literal, truth })?;
        }
    }
    Ok(Demands { literals, tests })
}

/// What is required of the values of names.
pub fn values_of(alloc: Global, core: &Core, names: &[Signed]) -> Result<Vec<ValueTest>, Memory>
    requires { are_in_table core.now.positions (map signed_view names.now) ≡ true }
    ensures value { IfOk result (λ v. map numbered_value v.items
        ≡ values_from (value_at core.now.positions) 0 (map signed_view names.now)) }
    ensures in_table { IfOk result (λ v. values_in_table core.now.positions v.items ≡ true) }
{
    let mut values = Vec::new(alloc);
    for (literal, x) in names.iter().enumerate() {
        if let Some(value) = value(core, *x) {
            values.push(ValueTest { literal, value })?;
        }
    }
    Ok(values)
}
