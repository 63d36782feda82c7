//! The matrix of a form.

ghost use Rattle.std.specs.Prelude.{◌≡◌, map, IfOk, IfErr, OnOk};
ghost use Rattle.std.specs.Option.{option_copied};
ghost use Rattle.assembly.specs.Sums.{AreSums};
ghost use Rattle.assembly.specs.Kept.{seen};
ghost use Rattle.assembly.specs.Assembly.{Fits, IsFew, AreGood, Refused, assembly_of, runs_of, run_entries};

use crate::coef_data::CoefData;
use crate::funs::Funs;
use crate::lent_rows::Rows;
use crate::run_refusal::RunRefusal;
use crate::triple::Triple;
use dofs::DofMap;
use mesh_in::Mesh;
use monos::Layout;
use std::alloc::Global;

/// The entries of a form's matrix that are not zero, by row and then by column: the sums of the values of its
/// functions on the cells, added up in the order of the cells. An argument that the form doesn't have has one row,
/// number 0.
///
/// Errors: `TooManyEntries` exactly where all cells together have more than 2^24 local entries; else `Zero` or
/// `CellPassed` of the first cell whose run stops; else `SumPassed` of the first row and column whose sum passes;
/// `Memory`.
pub fn assemble(
    alloc: Global,
    f: &Funs,
    l: &Layout,
    m: &Mesh,
    rows: Option<&DofMap>,
    cols: Option<&DofMap>,
    coefs: &[CoefData],
) -> Result<Vec<Triple>, RunRefusal>
    requires { Fits l.now (assembly_of f.now m.now (option_copied rows) (option_copied cols) coefs.now) }
    ensures sums { IfOk result (λ ts. AreSums
        (run_entries (assembly_of f.now m.now (option_copied rows.entry) (option_copied cols.entry) coefs.now))
        (map seen ts.items)) }
    ensures few { OnOk result (IsFew (runs_of f.now m.now coefs.now)) }
    ensures good { OnOk result (AreGood (runs_of f.now m.now coefs.now)) }
    ensures refusal { IfErr result (Refused
        (assembly_of f.now m.now (option_copied rows.entry) (option_copied cols.entry) coefs.now)) }
{
    let mut lent = Rows::new(alloc, f, l, m, rows, cols, coefs)?;
    let mut triples = Vec::new(alloc);
    while let Some(row) = lent.next_row() {
        row?;
        triples.extend_from_slice(lent.entries())?;
    }
    Ok(triples)
}
