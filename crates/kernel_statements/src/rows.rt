//! The values of the counted rows of a monomial: the products of its columns with the rows of its table.

ghost use Rattle.std.specs.Prelude.{◌≡◌, ℕ, ◌+◌, ◌-◌, ◌*◌, ◌<◌, ◌≤◌, ◌^◌, ◌++◌, ◌∷◌, [], length, OnOk, if◌then◌else◌};
ghost use Rattle.c_unit.specs.Meaning.{fractions_of, written_list};
ghost use Rattle.kernel_runs.specs.Planned.{first_product, next_product, next_products, rows_code, straight_row, straight_rows, stepped, t_place};
ghost use Rattle.kernel_statements.specs.Emitted.{cut};

use crate::pieces::piece;
use crate::slots::{SCRATCH, stepped};
use c_unit::{Array, CStmt, Place, Slot};
use ratio::Ratio;
use sqlite_items::Items;
use std::alloc::{AllocError, Global};

fn in_t(slot: Slot) -> Place
    ensures { result ≡ t_place slot }
{
    Place {
        array: Array::T,
        slot,
    }
}

// out = column * item
fn emit_first(
    body: &mut Items<CStmt>,
    out: Slot,
    column: Slot,
    table: u32,
    item: Slot,
) -> Result<(), AllocError>
    ensures { OnOk result (body.new ≡ body.old ++ first_product (stepped 32 0 0) out column table item) }
{
    let scratch = in_t(stepped(SCRATCH, 0, 0));
    body.push(CStmt::Load {
        to: scratch,
        table,
        at: item,
    })?;
    body.push(CStmt::Mul {
        to: in_t(out),
        left: in_t(column),
        right: scratch,
    })
}

// out = out + column * item
fn emit_next(
    body: &mut Items<CStmt>,
    out: Slot,
    column: Slot,
    table: u32,
    item: Slot,
) -> Result<(), AllocError>
    ensures { OnOk result (body.new ≡ body.old ++ next_product (stepped 32 0 0) out column table item) }
{
    let scratch = in_t(stepped(SCRATCH, 0, 0));
    body.push(CStmt::Load {
        to: scratch,
        table,
        at: item,
    })?;
    body.push(CStmt::Mul {
        to: scratch,
        left: in_t(column),
        right: scratch,
    })?;
    body.push(CStmt::Add {
        to: in_t(out),
        left: in_t(out),
        right: scratch,
    })
}

/// What the rows of a monomial are formed from: its table, of so many rows and columns, where its columns stand, and
/// where the rows' values go.
#[derive(Clone, Copy, Debug, PartialEq, Eq)]
pub struct Products {
    pub table: u32,
    pub rows: u32,
    pub columns: u32,
    pub at: u32,
    pub values: u32,
}

impl Products {
    // Behind the first column of a row: the products with all others.
    fn emit_others(self, alloc: Global, row: &mut Items<CStmt>) -> Result<(), AllocError>
        requires some { 0 < self.columns }
        requires at { self.at < 2 ^ 31 }
        ensures { OnOk result (row.new ≡ row.old
            ++ next_products 32 self.values (self.at + 1) self.table self.columns (self.columns - 1)) }
    {
        if self.columns == 1 {
            return Ok(());
        }
        let mut turn = Items::new(alloc);
        emit_next(
            &mut turn,
            stepped(self.values, 1, 0),
            stepped(self.at + 1, 0, 1),
            self.table,
            stepped(1, self.columns, 1),
        )?;
        row.push(CStmt::For {
            turns: self.columns - 1,
            body: turn,
        })
    }

    /// The values of all rows by two loops, behind `body`.
    pub fn emit_looped(self, alloc: Global, body: &mut Items<CStmt>) -> Result<(), AllocError>
        requires some { 0 < self.columns }
        requires at { self.at < 2 ^ 31 }
        ensures { OnOk result (body.new ≡ body.old
            ++ rows_code 32 self.values self.at self.table self.rows (self.columns - 1) ∷ []) }
    {
        let mut row = Items::new(alloc);
        emit_first(
            &mut row,
            stepped(self.values, 1, 0),
            stepped(self.at, 0, 0),
            self.table,
            stepped(0, self.columns, 0),
        )?;
        self.emit_others(alloc, &mut row)?;
        body.push(CStmt::For {
            turns: self.rows,
            body: row,
        })
    }

    // The product with one item of row k, which isn't 0; the first one of its row sets the row's value.
    fn emit_item(
        self,
        body: &mut Items<CStmt>,
        k: u32,
        column: u32,
        first: bool,
    ) -> Result<(), AllocError>
        requires row { self.values + k < 2 ^ 32 }
        requires column { self.at + column < 2 ^ 32 }
        requires item { k * self.columns + column < 2 ^ 32 }
        ensures { OnOk result (body.new ≡ body.old
            ++ (if first then first_product else next_product) (stepped 32 0 0) (stepped (self.values + k) 0 0)
            (stepped (self.at + column) 0 0) self.table (stepped (self.columns * k + column) 0 0)) }
    {
        let out = stepped(self.values + k, 0, 0);
        let at = stepped(self.at + column, 0, 0);
        let item = stepped(k * self.columns + column, 0, 0);
        if first {
            emit_first(body, out, at, self.table, item)
        } else {
            emit_next(body, out, at, self.table, item)
        }
    }

    // The value of row k without loops: items that are 0 get no statement.
    fn emit_row(self, body: &mut Items<CStmt>, k: u32, row: &[Ratio]) -> Result<(), AllocError>
        requires width { length row.now ≡ self.columns }
        requires few { self.columns ≤ 2 ^ 20 }
        requires rows { self.columns * (k + 1) ≤ 2 ^ 20 }
        requires at { self.at + self.columns < 2 ^ 22 }
        requires values { self.values + k < 2 ^ 22 }
        ensures { OnOk result (body.new ≡ body.old
            ++ straight_row 32 (self.values + k) self.at self.table (self.columns * k) (fractions_of row.now)) }
    {
        let mut first = true;
        for (column, item) in row.iter().enumerate() {
            if !item.is_zero() {
                self.emit_item(body, k, column as u32, first)?;
                first = false;
            }
        }
        Ok(())
    }

    /// The values of all rows without loops, behind `body`. `items` are those of the table.
    pub fn emit_straight(self, body: &mut Items<CStmt>, items: &[Ratio]) -> Result<(), AllocError>
        requires size { length items.now ≡ self.rows * self.columns }
        requires few { self.rows * self.columns ≤ 2 ^ 20 }
        requires some { 0 < self.columns }
        requires at { self.at + self.columns < 2 ^ 22 }
        requires values { self.values + self.rows < 2 ^ 22 }
        ensures { OnOk result (body.new ≡ body.old
            ++ straight_rows 32 self.values self.at self.table self.columns 0
            (cut self.columns self.rows (fractions_of items.now))) }
    {
        for k in 0..self.rows {
            self.emit_row(body, k, piece(items, self.columns as usize, k as usize))?;
        }
        Ok(())
    }
}

/// How many statements a row takes without loops: three for each item that isn't 0, but one less for the first.
fn row_statements(row: &[Ratio]) -> u64
    requires { length row.now ≤ 2 ^ 20 }
    ensures few { result ≤ 3 * length row.now }
    ensures written { (scratch out cur t at : ℕ)
        → result ≡ written_list (straight_row scratch out cur t at (fractions_of row.now)) }
{
    let mut count: u64 = 0;
    for item in row {
        if !item.is_zero() {
            count += 3;
        }
    }
    count.saturating_sub(1)
}

/// How many statements the rows of a table of this width take without loops.
pub fn straight_statements(items: &[Ratio], width: usize, rows: usize) -> u64
    requires all { rows * width ≤ length items.now }
    requires few { length items.now ≤ 2 ^ 20 }
    ensures few { result ≤ 3 * length items.now }
    ensures written { (scratch row cur t a : ℕ) → result
        ≡ written_list (straight_rows scratch row cur t width a (cut width rows (fractions_of items.now))) }
{
    let mut count: u64 = 0;
    for k in 0..rows {
        count += row_statements(piece(items, width, k));
    }
    count
}
