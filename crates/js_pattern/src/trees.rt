//! Copies of trees, whether two trees are the same, and their hashes.
//!
//! Each takes time in proportion to the tree, and recurs as deep as its nodes nest, as dropping it does.

ghost use Rattle.std.specs.Prelude.{◌≡◌, ◌↔◌, IfOk, IsTrue};
ghost use Rattle.std.specs.Cmp.{on_equiv, partial_equiv_from_equiv};
ghost use Rattle.std.specs.Hash as fed;
ghost use Rattle.patterns.specs.SameTree.{same_tree};
ghost use Rattle.pattern_laws.proofs.SameTrees.{same_tree_equiv};
ghost use Rattle.js_pattern.specs.Fingerprint.{mix, tree_print, trees_from, ranges_from, bound_print, prints_Alike};
ghost use Rattle.js_pattern.specs.View.{view, list_view};

use crate::fault::Memory;
use crate::re::{Re, ReList};
use std::alloc::Global;
use std::hash::{Hash, Hasher};

impl Re {
    /// A copy, which takes memory as the tree does.
    pub fn copy(&self, alloc: Global) -> Result<Re, Memory>
        ensures { IfOk result (λ tree. view tree ≡ view self.now) }
    {
        copy_tree(alloc, self)
    }

    /// Whether the trees are the same. Texts that are written differently may have the same tree.
    pub fn same(&self, other: &Re) -> bool
        ensures { IsTrue result ↔ (view self.now ≡ view other.now) }
    {
        same_trees(self, other)
    }
}

#[cycle(copy)]
fn copy_tree(alloc: Global, tree: &Re) -> Result<Re, Memory>
    ensures { IfOk result (λ made. view made ≡ view tree.now) }
{
    match tree {
        Re::Empty => Ok(Re::Empty),
        Re::Set(set) => Ok(Re::Set(set.copy(alloc)?)),
        Re::Start => Ok(Re::Start),
        Re::End => Ok(Re::End),
        Re::Seq(list) => Ok(Re::Seq(copy_list(alloc, list)?)),
        Re::Alt(list) => Ok(Re::Alt(copy_list(alloc, list)?)),
        Re::Repeat(tree, low, high) => {
            let made = copy_tree(alloc, tree)?;
            Ok(Re::Repeat(Box::new(alloc, made)?, *low, *high))
        }
    }
}

#[cycle(copy)]
fn copy_list(alloc: Global, list: &ReList) -> Result<ReList, Memory>
    ensures { IfOk result (λ made. list_view made ≡ list_view list.now) }
{
    let trees = list.as_slice();
    let mut made = Vec::with_capacity(alloc, trees.len())?;
    for tree in trees {
        made.push(copy_tree(alloc, tree)?)?;
    }
    Ok(ReList::from_vec(made))
}

#[cycle(same)]
fn same_trees(a: &Re, b: &Re) -> bool
    ensures { IsTrue result ↔ (view a.now ≡ view b.now) }
{
    match (a, b) {
        (Re::Empty, Re::Empty) | (Re::Start, Re::Start) | (Re::End, Re::End) => true,
        (Re::Set(x), Re::Set(y)) => x.same(y),
        (Re::Seq(x), Re::Seq(y)) | (Re::Alt(x), Re::Alt(y)) => same_lists(x, y),
        (Re::Repeat(x, low, high), Re::Repeat(y, bottom, top)) => {
            *low == *bottom && *high == *top && same_trees(x, y)
        }
        _ => false,
    }
}

#[cycle(same)]
fn same_lists(a: &ReList, b: &ReList) -> bool
    ensures { IsTrue result ↔ (list_view a.now ≡ list_view b.now) }
{
    let xs = a.as_slice();
    let ys = b.as_slice();
    if xs.len() != ys.len() {
        return false;
    }
    for (i, x) in xs.iter().enumerate() {
        if !same_trees(x, &ys[i]) {
            return false;
        }
    }
    true
}

/// Patterns are equal where their trees are the same.
impl PartialEq for Re {
    ghost eq = { λ a b. same_tree (view a) (view b) };

    ghost laws = { partial_equiv_from_equiv (on_equiv view same_tree_equiv) };

    fn eq(&self, other: &Re) -> bool {
        self.same(other)
    }
}

impl Eq for Re {
    ghost laws = { on_equiv view same_tree_equiv };
}

impl Hash for Re {
    ghost hash_input = { λ tree. fed.u64 (tree_print (view tree)) };

    ghost respects_eq = { (fed.on_Alike view prints_Alike).fed };

    fn hash<H: Hasher>(&self, state: &mut H) {
        fingerprint(self).hash(state);
    }
}

/// A number that trees share where they are the same.
#[cycle(fingerprint)]
fn fingerprint(tree: &Re) -> u64
    ensures { result ≡ tree_print (view tree.now) }
{
    match tree {
        Re::Empty => 1,
        Re::Set(set) => ranges_print(set.as_slice()),
        Re::Start => 2,
        Re::End => 3,
        Re::Seq(list) => list_print(5, list),
        Re::Alt(list) => list_print(6, list),
        Re::Repeat(tree, low, high) => {
            let inner = mix(7, fingerprint(tree));
            mix(mix(inner, u64::from(*low)), bound_print(*high))
        }
    }
}

#[cycle(fingerprint)]
fn list_print(start: u64, list: &ReList) -> u64
    ensures { result ≡ trees_from start (list_view list.now) }
{
    let mut print = start;
    for tree in list.as_slice() {
        print = mix(print, fingerprint(tree));
    }
    print
}

fn ranges_print(ranges: &[(u32, u32)]) -> u64
    ensures { result ≡ ranges_from 4 ranges.now }
{
    let mut print = 4;
    for range in ranges {
        print = mix(mix(print, u64::from(range.0)), u64::from(range.1));
    }
    print
}

fn bound_print(high: Option<u32>) -> u64
    ensures { result ≡ bound_print high }
{
    match high {
        None => 0,
        Some(n) => u64::from(n) + 1,
    }
}

/// One number of both, in which each counts.
#[tactic(auto, unfolding(crate::specs::Fingerprint::mix))]
fn mix(print: u64, next: u64) -> u64
    ensures { result ≡ mix print next }
{
    let both = u128::from(print) * 1_099_511_628_211 + u128::from(next);
    (both % 0x1_0000_0000_0000_0000) as u64
}
