//! The entries of the local tensor that a monomial adds to.

ghost use Rattle.std.specs.Prelude.{◌≡◌, ℕ, ◌*◌, ◌≤◌, ◌^◌, ◌++◌, ◌∷◌, [], length, OnOk};
ghost use Rattle.std.specs.List.{AllByRecursion};
ghost use Rattle.c_unit.specs.declared.unit.Array.TheVariants.{A, T};
ghost use Rattle.c_unit.specs.declared.unit.CStmt.{Set, Mul, Add};
ghost use Rattle.c_unit.specs.Meaning.{written_list};
ghost use Rattle.kernel_runs.specs.Planned.{entry_code, place};
ghost use Rattle.kernel_statements.specs.Placed.{placed_code, HasSlot};

use crate::slots::{SCRATCH, place, t};
use c_unit::{Array, CStmt};
use kernel_runs::Entry;
use ratio::Ratio;
use sqlite_items::Items;
use std::alloc::AllocError;

/// An entry of the local tensor, by its number, and how it stands to the counted rows.
#[derive(Clone, Copy, Debug, PartialEq, Eq)]
pub struct PlacedEntry {
    pub entry: u32,
    pub stands: Entry,
}

// A[entry] = A[entry] + T[value]
fn emit_sum(body: &mut Items<CStmt>, entry: u32, value: u32) -> Result<(), AllocError>
    ensures { OnOk result (body.new ≡ body.old
        ++ Add (place A entry 0 0) (place A entry 0 0) (place T value 0 0) ∷ []) }
{
    let entry = place(Array::A, entry, 0, 0);
    body.push(CStmt::Add {
        to: entry,
        left: entry,
        right: t(value),
    })
}

// The same with T[value] times a number.
fn emit_multiple(
    body: &mut Items<CStmt>,
    entry: u32,
    by: Ratio,
    value: u32,
) -> Result<(), AllocError>
    ensures { OnOk result (body.new ≡ body.old ++ Set (place T 32 0 0) by
        ∷ Mul (place T 32 0 0) (place T 32 0 0) (place T value 0 0)
        ∷ Add (place A entry 0 0) (place A entry 0 0) (place T 32 0 0) ∷ []) }
{
    body.push(CStmt::Set {
        to: t(SCRATCH),
        value: by,
    })?;
    body.push(CStmt::Mul {
        to: t(SCRATCH),
        left: t(SCRATCH),
        right: t(value),
    })?;
    emit_sum(body, entry, SCRATCH)
}

impl PlacedEntry {
    // How many statements it takes.
    fn statements(self) -> u64
        ensures few { result ≤ 3 }
        ensures written { (values : ℕ) → result ≡ written_list (entry_code 32 values self.entry self.stands) }
    {
        match self.stands {
            Entry::NoRow => 0,
            Entry::Counted(_) => 1,
            Entry::Multiple { .. } => 3,
        }
    }

    // What is added to the entry, where the values of the counted rows stand from `values` on.
    fn emit(self, body: &mut Items<CStmt>, values: u32) -> Result<(), AllocError>
        requires { HasSlot values self.stands }
        ensures { OnOk result (body.new ≡ body.old ++ entry_code 32 values self.entry self.stands) }
    {
        match self.stands {
            Entry::NoRow => Ok(()),
            Entry::Counted(row) => emit_sum(body, self.entry, values + row),
            Entry::Multiple { by, row } => emit_multiple(body, self.entry, by, values + row),
        }
    }
}

/// What is added to all entries, behind `body`.
pub fn emit_entries(
    body: &mut Items<CStmt>,
    entries: &[PlacedEntry],
    values: u32,
) -> Result<(), AllocError>
    requires { AllByRecursion (λ e. HasSlot values e.stands) entries.now }
    ensures { OnOk result (body.new ≡ body.old ++ placed_code 32 values entries.now) }
{
    for entry in entries {
        entry.emit(body, values)?;
    }
    Ok(())
}

/// How many statements that takes.
pub fn entry_statements(entries: &[PlacedEntry]) -> u64
    requires { length entries.now ≤ 2 ^ 32 }
    ensures few { result ≤ 3 * length entries.now }
    ensures written { (values : ℕ) → result ≡ written_list (placed_code 32 values entries.now) }
{
    let mut count: u64 = 0;
    for entry in entries {
        count += entry.statements();
    }
    count
}
