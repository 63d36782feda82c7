//! The contraction of the reference tensor of a monomial with its columns, and the statements of it.

ghost use Rattle.std.specs.Prelude.{◌≡◌, ◌+◌, ◌-◌, ◌*◌, ◌<◌, ◌≤◌, ◌^◌, ◌++◌, length, OnOk};
ghost use Rattle.kernel_statements.specs.Statements.{FitsBuffers, mono_statements, row_list, is_short as is_short_with};
ghost use Rattle.kernel_runs.specs.Planned.{rows_part};

use crate::columns::emit_columns;
use crate::entries::{PlacedEntry, emit_entries, entry_statements};
use crate::rows::{Products, straight_statements};
use crate::slots::Buffers;
use c_unit::CStmt;
use kernel_runs::Digit;
use ratio::Ratio;
use sqlite_items::Items;
use std::alloc::{AllocError, Global};

/// The contraction of a reference tensor that isn't zero with the columns of its monomial.
#[derive(Drop)]
pub struct Contraction {
    /// The factors of the columns: the values of the atoms that are no arguments, in the order of the monomial, and
    /// then the directions of the derivatives, atom by atom.
    pub coefficients: Vec<Digit>,
    pub directions: Vec<u8>,
    /// How many columns there are.
    pub columns: u32,
    /// How many counted rows the reference tensor has, and their items, one row after the other.
    pub rows: u32,
    pub items: Vec<Ratio>,
    /// The entries whose rows aren't zero, by rising number.
    pub entries: Vec<PlacedEntry>,
}

impl Contraction {
    // Whether the monomial's statements are few enough with rows that are written without loops, where the local
    // tensor has so many entries: at most 24 for each factor and 24 more, and four for each entry.
    fn is_short(&self, entries: u32) -> bool
        requires size { self.now.rows * self.now.columns ≤ length self.now.items.items }
        requires few { length self.now.items.items ≤ 2 ^ 20 }
        requires entries { length self.now.entries.items ≤ 2 ^ 32 }
        ensures { result ≡ is_short_with entries self.now }
    {
        let factors = self.coefficients.len() as u128 + self.directions.len() as u128;
        let written = 3 * factors
            + straight_statements(
                self.items.as_slice(),
                self.columns as usize,
                self.rows as usize,
            ) as u128
            + entry_statements(self.entries.as_slice()) as u128;
        written <= 24 * (factors + 1) + 4 * entries as u128
    }

    // The values of the counted rows, where the columns stand from `at` on.
    fn emit_rows(
        &self,
        alloc: Global,
        body: &mut Items<CStmt>,
        at: u32,
        table: u32,
        values: u32,
        entries: u32,
    ) -> Result<(), AllocError>
        requires some { 0 < self.now.columns }
        requires size { length self.now.items.items ≡ self.now.rows * self.now.columns }
        requires few { length self.now.items.items ≤ 2 ^ 20 }
        requires at { at + self.now.columns < 2 ^ 22 }
        requires values { values + self.now.rows < 2 ^ 22 }
        requires entries { length self.now.entries.items ≤ 2 ^ 32 }
        ensures { OnOk result (body.new ≡ body.old
            ++ rows_part (is_short_with entries self.now) 32 values at table
            (self.now.columns - 1) (row_list self.now)) }
    {
        let products = Products {
            table,
            rows: self.rows,
            columns: self.columns,
            at,
            values,
        };
        if self.is_short(entries) {
            products.emit_straight(body, self.items.as_slice())
        } else {
            products.emit_looped(alloc, body)
        }
    }

    /// The statements of the monomial, behind `body`: columns, values of the counted rows, and what is added to the
    /// entries.
    pub fn emit(
        &self,
        alloc: Global,
        body: &mut Items<CStmt>,
        d: u8,
        table: u32,
        buffers: Buffers,
        entries: u32,
    ) -> Result<(), AllocError>
        requires { FitsBuffers d buffers self.now }
        ensures { OnOk result (body.new ≡ body.old ++ mono_statements d buffers table entries self.now) }
    {
        let columns = emit_columns(
            alloc,
            body,
            d,
            self.coefficients.as_slice(),
            self.directions.as_slice(),
            buffers,
        )?;
        self.emit_rows(alloc, body, columns.at, table, buffers.values(), entries)?;
        emit_entries(body, self.entries.as_slice(), buffers.values())
    }
}
