// The local tensors of all cells, at the rows and columns of the cells.

ghost use Rattle.std.specs.Prelude.{◌≡◌, ℕ, ◌*◌, ◌<◌, length, take, drop, Some, IfOk, IfErr, OnOk};
ghost use Rattle.c_unit.specs.Meaning.{fractions_of};
ghost use Rattle.std.specs.Option.{option_copied};
ghost use Rattle.assembly.specs.RowSums.{AddsInRow, AreListed, HasRoom, IsClear};
ghost use Rattle.dofs.specs.Rows.{Numbering};
ghost use Rattle.assembly.specs.Assembly.{Fits, IsFew, AreGood, RunRefused, argument_rows, row_count, width_of, assembly_of, runs_of, run_entries, tensor_on, cell_count};
ghost use Rattle.assembly.specs.Stored.{IsStored, column_count, rows_of, cols_of, tensor_at, stored_entries, of_row, stored_row};

use crate::coef_data::CoefData;
use crate::funs::Funs;
use crate::row_sums::RowSums;
use crate::run_refusal::RunRefusal;
use crate::runs::run_cells;
use dofs::{DofMap, RowPlace};
use mesh_in::Mesh;
use monos::Layout;
use ratio::Ratio;
use spaces::Parts;
use std::alloc::Global;

/// The local tensors of all cells, and the rows and columns of their entries.
#[derive(Drop)]
pub struct Stored<'a> {
    pub rows: Option<&'a DofMap>,
    pub cols: Option<&'a DofMap>,
    pub cells: u32,
    /// How many rows and columns a local tensor has.
    pub height: u32,
    pub width: u32,
    /// How many entries it has.
    pub size: u32,
    /// Cell after cell, row by row.
    pub values: Vec<Ratio>,
}

impl<'a> Stored<'a> {
    /// The local tensor of a cell.
    pub fn tensor(&self, k: u32) -> &[Ratio]
        requires stored { IsStored self.now }
        requires cell { k < self.now.cells }
        ensures values { fractions_of result.now ≡ tensor_at self.now k }
        ensures size { length result.now ≡ self.now.size }
    {
        let start = k as usize * self.size as usize;
        let (_, rest) = self.values.split_at(start);
        let (tensor, _) = rest.split_at(self.size as usize);
        tensor
    }

    // The values of a local row of a cell.
    fn local_row(&self, place: RowPlace) -> &[Ratio]
        requires stored { IsStored self.now }
        requires cell { place.cell < self.now.cells }
        requires local { place.local < self.now.height }
        ensures values { fractions_of result.now
            ≡ take self.now.width (drop (place.local * self.now.width) (tensor_at self.now place.cell)) }
        ensures size { length result.now ≡ self.now.width }
    {
        let start = place.cell as usize * self.size as usize
            + place.local as usize * self.width as usize;
        let (_, rest) = self.values.split_at(start);
        let (row, _) = rest.split_at(self.width as usize);
        row
    }

    // Adds the values of a local row to the sums of their columns.
    fn add_place(&self, place: RowPlace, sums: &mut RowSums)
        requires stored { IsStored self.now }
        requires cell { place.cell < self.now.cells }
        requires local { place.local < self.now.height }
        requires listed { AreListed sums.old.sums.items sums.old.touched.items }
        requires room { HasRoom sums.old }
        requires columns { length sums.old.sums.items ≡ column_count self.now }
        ensures listed { AreListed sums.new.sums.items sums.new.touched.items }
        ensures room { HasRoom sums.new }
        ensures columns { length sums.new.sums.items ≡ length sums.old.sums.items }
        ensures added { (row : ℕ)
            → AddsInRow row (stored_row self.now row place) sums.old.sums.items sums.new.sums.items }
    {
        let values = self.local_row(place);
        match self.cols {
            Some(map) => sums.add_row(map.of_cell(place.cell), values),
            None => sums.add_row(&[0], values),
        }
    }

    /// Adds the values of a row to the sums of their columns, in the order of the cells.
    pub fn add_up(&self, row: u32, sums: &mut RowSums)
        requires stored { IsStored self.now }
        requires row { row < row_count (rows_of self.now) }
        requires clear { IsClear (column_count self.now) sums.old }
        ensures listed { AreListed sums.new.sums.items sums.new.touched.items }
        ensures room { HasRoom sums.new }
        ensures columns { length sums.new.sums.items ≡ length sums.old.sums.items }
        ensures added { AddsInRow row (of_row row (stored_entries self.now)) sums.old.sums.items sums.new.sums.items }
    {
        match self.rows {
            Some(map) => {
                let places = map.cells_of(row);
                for place in places {
                    self.add_place(*place, sums);
                }
            }
            None => {
                for cell in 0..self.cells {
                    self.add_place(RowPlace { cell, local: 0 }, sums);
                }
            }
        }
    }
}

// An argument that the form doesn't have has this row.
const ONE_ROW: &[u32] = &[0];

/// The rows of the local nodes of a cell.
pub fn local_rows<'a>(map: Option<&'a DofMap>, k: u32) -> &'a [u32]
    requires { (n : Numbering) → option_copied map ≡ Some n → k < length n.cells }
    ensures { result.now ≡ argument_rows (option_copied map.entry) k }
{
    match map {
        Some(map) => map.of_cell(k),
        None => ONE_ROW,
    }
}

const MOST_ENTRIES: u64 = 1 << 24;

/// How many local rows an argument has: one where the form doesn't have it.
fn width(parts: &Parts) -> u32
    ensures { result ≡ width_of parts.now }
{
    if parts.items.as_slice().is_empty() {
        1
    } else {
        parts.local
    }
}

/// Runs the functions of a form on all cells, and keeps their values with the rows and columns of their entries.
pub fn store<'a>(
    alloc: Global,
    f: &Funs,
    l: &Layout,
    m: &Mesh,
    rows: Option<&'a DofMap>,
    cols: Option<&'a DofMap>,
    coefs: &[CoefData],
) -> Result<Stored<'a>, RunRefusal>
    requires { Fits l.now (assembly_of f.now m.now (option_copied rows) (option_copied cols) coefs.now) }
    ensures stored { IfOk result IsStored }
    ensures maps { IfOk result (λ s. (rows_of s ≡ option_copied rows.entry) × (cols_of s ≡ option_copied cols.entry)) }
    ensures entries { IfOk result (λ s. stored_entries s
        ≡ run_entries (assembly_of f.now m.now (option_copied rows.entry) (option_copied cols.entry) coefs.now)) }
    ensures tensors { IfOk result (λ s. (s.cells ≡ cell_count (runs_of f.now m.now coefs.now))
        × ((k : ℕ) → k < s.cells → tensor_at s k ≡ tensor_on (runs_of f.now m.now coefs.now) k)) }
    ensures few { OnOk result (IsFew (runs_of f.now m.now coefs.now)) }
    ensures good { OnOk result (AreGood (runs_of f.now m.now coefs.now)) }
    ensures refusal { IfErr result (RunRefused (runs_of f.now m.now coefs.now)) }
{
    let cells = m.cells();
    let size = f.plain.a;
    if cells as u64 * size as u64 > MOST_ENTRIES {
        return Err(RunRefusal::TooManyEntries);
    }
    Ok(Stored {
        rows,
        cols,
        cells,
        height: width(&l.rows),
        width: width(&l.cols),
        size,
        values: run_cells(alloc, f, m, coefs)?,
    })
}
