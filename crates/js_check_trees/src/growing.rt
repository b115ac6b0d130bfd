//! Sets that grow by a list, or stay as they are.

ghost use Rattle.std.specs.Prelude.{◌≡◌, ◌<◌, map, length, true, OnOk, OnErr};
ghost use Rattle.js_algebra.specs.View.{signed_view, kind_view, is_in_table, are_in_table};
ghost use Rattle.js_algebra.specs.SignedSets.{with_members};
ghost use Rattle.js_check_trees.specs.Choosing.{choices_of, choice_at};

use js_algebra::{Core, JsonKind, Signed, SignedSet};
use js_doc::Memory;

/// Adds each of a list, or none of them where there is no memory.
pub(crate) fn add_list(set: &mut SignedSet, list: &[Signed]) -> Result<(), Memory>
    ensures members { OnOk result (set.new ≡ with_members (map signed_view list.now) set.old) }
    ensures err { OnErr result (set.new ≡ set.old) }
{
    let members = set.len();
    match set.add_all(list) {
        Ok(()) => Ok(()),
        Err(memory) => {
            set.go_back(members);
            Err(memory)
        }
    }
}

/// Adds the choice of that number of a rule, or nothing where there is no memory.
pub(crate) fn add_choice(
    core: &Core,
    kind: JsonKind,
    rule: Signed,
    index: u128,
    set: &mut SignedSet,
) -> Result<(), Memory>
    requires in_table { is_in_table core.now.positions (signed_view rule) ≡ true }
    requires index { index < length (choices_of core.now.positions (kind_view kind) (signed_view rule)) }
    ensures members { OnOk result (set.new ≡ with_members
        (choice_at core.now.positions (kind_view kind) (signed_view rule) index) set.old) }
    ensures err { OnErr result (set.new ≡ set.old) }
    ensures in_table { are_in_table core.now.positions
        (choice_at core.now.positions (kind_view kind) (signed_view rule) index) ≡ true }
{
    let members = set.len();
    match set.add_each(core.rule(rule, kind).choice(index)) {
        Ok(()) => Ok(()),
        Err(memory) => {
            set.go_back(members);
            Err(memory)
        }
    }
}

/// How many choices a rule has; a literal has none.
pub(crate) fn choice_count(core: &Core, kind: JsonKind, x: Signed) -> u128
    requires { is_in_table core.now.positions (signed_view x) ≡ true }
    ensures { result ≡ length (choices_of core.now.positions (kind_view kind) (signed_view x)) }
{
    core.rule(x, kind).count()
}
