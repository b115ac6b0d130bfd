//! Rows of names that are still to be stated.

ghost use Rattle.std.specs.Prelude.{◌≡◌, [], ◌∷◌, map, true, Ok, IfOk, OnOk, IfErr};
ghost use Rattle.finders.specs.Names.{atoms_of_names};
ghost use Rattle.verdicts.specs.Duties.{ForCells, OfRows, begin_rows};
ghost use Rattle.verdicts.specs.RowLines.{begin_table, row_taken, if_so};
ghost use Rattle.verdicts.specs.Rules.{no_rows};
ghost use Rattle.js_algebra.specs.View.{signed_view, are_in_table};
ghost use Rattle.js_nfa.specs.AtomView.{atom_view};
ghost use Rattle.js_rules.specs.Told.{Breaks};
ghost use Rattle.js_check_rows.specs.RowsView.{atoms_of, count_of, table_of};
ghost use Rattle.js_check_rows.specs.RowTaking.{may_begin};
ghost use Rattle.js_said.specs.AtomCode.{same_atoms-prop};

use js_algebra::{Core, Signed};
use js_check_rows::{Rows, rule_of};
use js_nfa::Atom;
use js_rules::RuleFault;
use js_said::name_atoms;
use std::alloc::Global;

/// The rows of the names of a set, and so many bounds that are to follow.
#[derive(Drop)]
pub(crate) struct OpenRows<'a> {
    pub core: &'a Core,
    pub set: Vec<Signed>,
    pub rows: Rows,
    pub bounds: u32,
    ghost in_table: { are_in_table core.now.positions (map signed_view set.items) ≡ true },
    ghost atoms: { atoms_of rows ≡ atoms_of_names core.now.positions (map signed_view set.items) } by { same_atoms-prop _ _ },
}

impl<'a> OpenRows<'a> {
    ghost use Rattle.std.specs.Prelude.{◌≡◌, [], ◌∷◌, map, true, Ok, IfOk, IfErr};
    ghost use Rattle.verdicts.specs.Duties.{ForCells, begin_rows};
    ghost use Rattle.js_algebra.specs.View.{signed_view, are_in_table};
    ghost use Rattle.js_rules.specs.Told.{Breaks};
    ghost use Rattle.js_check_objects.specs.OpenView.{rows_duty};

    /// Of so many rows none is stated. It finds the atoms of what the set says of names, and their classes.
    pub(crate) fn new(
        alloc: Global,
        core: &'a Core,
        set: &[Signed],
        rows: u32,
        bounds: u32,
    ) -> Result<OpenRows<'a>, RuleFault>
        requires { are_in_table core.now.positions (map signed_view set.now) ≡ true }
        ensures table { IfOk result (λ made. made.core.now.positions ≡ core.now.positions) }
        ensures begun { IfOk result (λ made. begin_rows core.now.positions (ForCells bounds) (map signed_view set.now)
            rows ≡ Ok (rows_duty made ∷ [])) }
        ensures broken { IfErr result (λ fault. Breaks (begin_rows core.now.positions (ForCells bounds)
            (map signed_view set.now) rows) fault) }
    {
        let atoms = name_atoms(alloc, core, set)?;
        let rows = rows_of(alloc, atoms.as_slice(), rows)?;
        let set = set.to_vec(alloc)?;
        Ok(OpenRows {
            core,
            set,
            rows,
            bounds,
        })
    }
}

/// So many rows of atoms, of which none is stated.
fn rows_of(alloc: Global, atoms: &[Atom], count: u32) -> Result<Rows, RuleFault>
    ensures atoms { IfOk result (λ rows. atoms_of rows ≡ map atom_view atoms.now) }
    ensures count { IfOk result (λ rows. count_of rows ≡ count) }
    ensures table { IfOk result (λ rows. table_of rows ≡ begin_table) }
    ensures right { OnOk result (may_begin (map atom_view atoms.now) count ≡ true) }
    ensures broken { IfErr result (λ fault. Breaks (if_so no_rows (may_begin (map atom_view atoms.now) count)
        count) fault) }
{
    match Rows::new(alloc, atoms, count) {
        Ok(rows) => Ok(rows),
        Err(fault) => Err(rule_of(fault)),
    }
}

/// States the targets of the next row.
pub(crate) fn state_row(alloc: Global, rows: &mut Rows, targets: &[u32]) -> Result<(), RuleFault>
    ensures atoms { OnOk result (atoms_of rows.new ≡ atoms_of rows.old) }
    ensures count { OnOk result (count_of rows.new ≡ count_of rows.old) }
    ensures taken { OnOk result (row_taken (atoms_of rows.old) (count_of rows.old) (table_of rows.old) targets.now
        ≡ Ok (table_of rows.new)) }
    ensures broken { IfErr result (λ fault. Breaks (row_taken (atoms_of rows.old) (count_of rows.old)
        (table_of rows.old) targets.now) fault) }
{
    match rows.take(alloc, targets) {
        Ok(()) => Ok(()),
        Err(fault) => Err(rule_of(fault)),
    }
}
