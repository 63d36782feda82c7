//! What each cell adds to the matrix of a form, by itself.

ghost use Rattle.std.specs.Prelude.{◌≡◌, ◌*◌, ◌<◌, ◌++◌, length, map, IfOk, IfErr, OnOk};
ghost use Rattle.std.specs.Option.{option_copied};
ghost use Rattle.ratio.specs.Value.{fraction_of};
ghost use Rattle.assembly.specs.Local.{row_entries, local_entries};
ghost use Rattle.assembly.specs.Kept.{seen};
ghost use Rattle.assembly.specs.Assembly.{Fits, IsFew, AreGood, RunRefused, assembly_of, runs_of, cell_entries};
ghost use Rattle.assembly.specs.Stored.{IsStored, rows_of, cols_of, tensor_at};
ghost use Rattle.assembly.specs.Shares.{AreShares, AreShown, nonzero_entries};

use crate::coef_data::CoefData;
use crate::funs::Funs;
use crate::run_refusal::RunRefusal;
use crate::stored::{Stored, local_rows, store};
use crate::triple::Triple;
use dofs::DofMap;
use mesh_in::Mesh;
use monos::Layout;
use ratio::Ratio;
use std::alloc::{AllocError, Global};

/// What a cell adds to the matrix: its values that are not zero, by row and then by column, which are numbers of the
/// whole matrix.
#[derive(Drop)]
pub struct CellShare {
    pub cell: u32,
    pub triples: Vec<Triple>,
}

// Puts the values of a local row that are not zero behind the triples that are there.
fn push_row(
    row: u32,
    cols: &[u32],
    values: &[Ratio],
    triples: &mut Vec<Triple>,
) -> Result<(), AllocError>
    requires { length cols.now ≡ length values.now }
    ensures { OnOk result (map seen triples.new.items
        ≡ map seen triples.old.items ++ nonzero_entries (row_entries row cols.now (map fraction_of values.now))) }
{
    for (i, col) in cols.iter().enumerate() {
        let value = values[i];
        if !value.is_zero() {
            let col = *col;
            triples.push(Triple { row, col, value })?;
        }
    }
    Ok(())
}

// Puts the values of a local tensor that are not zero behind the triples that are there, row by row.
fn push_local(
    rows: &[u32],
    cols: &[u32],
    values: &[Ratio],
    triples: &mut Vec<Triple>,
) -> Result<(), AllocError>
    requires { length rows.now * length cols.now ≡ length values.now }
    ensures { OnOk result (map seen triples.new.items ≡ map seen triples.old.items
        ++ nonzero_entries (local_entries rows.now cols.now (map fraction_of values.now))) }
{
    let mut rest = values;
    for row in rows {
        let (front, back) = rest.split_at(cols.len());
        push_row(*row, cols, front, triples)?;
        rest = back;
    }
    Ok(())
}

// The values of a local tensor that are not zero, by row and then by column.
fn local_share(
    alloc: Global,
    rows: &[u32],
    cols: &[u32],
    values: &[Ratio],
) -> Result<Vec<Triple>, AllocError>
    requires { length rows.now * length cols.now ≡ length values.now }
    ensures { IfOk result (λ ts. AreShown
        (local_entries rows.now cols.now (map fraction_of values.now)) (map seen ts.items)) }
{
    let mut triples = Vec::new(alloc);
    push_local(rows, cols, values, &mut triples)?;
    triples.sort_by_key(|t| (t.row, t.col))?;
    Ok(triples)
}

impl<'a> Stored<'a> {
    // What cell k adds.
    fn share(&self, alloc: Global, k: u32) -> Result<Vec<Triple>, AllocError>
        requires stored { IsStored self.now }
        requires cell { k < self.now.cells }
        ensures { IfOk result (λ ts. AreShown
            (cell_entries (rows_of self.now) (cols_of self.now) (tensor_at self.now) k) (map seen ts.items)) }
    {
        let rows = local_rows(self.rows, k);
        let cols = local_rows(self.cols, k);
        local_share(alloc, rows, cols, self.tensor(k))
    }
}

/// What each cell adds to the matrix of a form, one cell after the other: the values of the local tensor of the cell
/// that are not zero, by row and then by column. Nothing is added up. An argument that the form doesn't have has one
/// row, number 0.
///
/// Errors: `TooManyEntries` exactly where all cells together have more than 2^24 local entries; else `Zero` or
/// `CellPassed` of the first cell whose run stops; `Memory`.
pub fn cells(
    alloc: Global,
    f: &Funs,
    l: &Layout,
    m: &Mesh,
    rows: Option<&DofMap>,
    cols: Option<&DofMap>,
    coefs: &[CoefData],
) -> Result<Vec<CellShare>, RunRefusal>
    requires { Fits l.now (assembly_of f.now m.now (option_copied rows) (option_copied cols) coefs.now) }
    ensures shares { IfOk result (λ cs. AreShares
        (assembly_of f.now m.now (option_copied rows.entry) (option_copied cols.entry) coefs.now) cs.items) }
    ensures few { OnOk result (IsFew (runs_of f.now m.now coefs.now)) }
    ensures good { OnOk result (AreGood (runs_of f.now m.now coefs.now)) }
    ensures refusal { IfErr result (RunRefused (runs_of f.now m.now coefs.now)) }
{
    let stored = store(alloc, f, l, m, rows, cols, coefs)?;
    let mut shares = Vec::with_capacity(alloc, stored.cells as usize)?;
    for cell in 0..stored.cells {
        let triples = stored.share(alloc, cell)?;
        shares.push(CellShare { cell, triples })?;
    }
    Ok(shares)
}
