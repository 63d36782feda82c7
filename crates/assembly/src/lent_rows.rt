//! The rows of a matrix, lent one after the other.

ghost use Rattle.std.specs.Prelude.{◌≡◌, IfOk, IfErr, OnOk};
ghost use Rattle.std.specs.Option.{option_copied};
ghost use Rattle.assembly.specs.Assembly.{Fits, IsFew, AreGood, RunRefused, assembly_of, runs_of, row_count};
ghost use Rattle.assembly.specs.Stored.{AreAllRows};
ghost use Rattle.assembly.specs.Lent.{AreStarted, HasNoneBeyond, IsNextRow};
ghost use Rattle.assembly.specs.LentRows.{lent_count};

use crate::coef_data::CoefData;
use crate::funs::Funs;
use crate::row_sums::{RowSums, finish_row};
use crate::run_refusal::RunRefusal;
use crate::stored::{Stored, store};
use crate::triple::Triple;
use dofs::DofMap;
use mesh_in::Mesh;
use monos::Layout;
use std::alloc::Global;
use std::marker::Model;

/// The values of a form's functions on all cells, from which row after row is added up.
#[derive(Drop)]
pub struct Rows<'a> {
    stored: Stored<'a>,
    sums: RowSums,
    entries: Vec<Triple>,
    count: u32,
    next: u32,
}

impl<'a> Model for Rows<'a> {
    ghost use Rattle.std.specs.Vec.{vec_capacity};
    ghost use Rattle.assembly.specs.LentRows.{LentRows, lent_rows, AreLent};

    ghost Value = { LentRows };

    ghost view = { λ r. lent_rows r.stored r.entries.items r.next };

    ghost invariant = { λ r. AreLent r.stored r.sums (vec_capacity r.entries) r.count r.next };
}

fn count_of(map: Option<&DofMap>) -> u32
    ensures count { result ≡ row_count (option_copied map.entry) }
    ensures all { AreAllRows (option_copied map.entry) }
{
    match map {
        Some(map) => map.count(),
        None => 1,
    }
}

impl<'a> Rows<'a> {
    /// Runs the functions of a form on all cells and keeps their values. It takes all memory that later calls need.
    ///
    /// Errors: `TooManyEntries` exactly where all cells together have more than 2^24 local entries; else `Zero` or
    /// `CellPassed` of the first cell whose run stops; `Memory`.
    pub fn new(
        alloc: Global,
        f: &Funs,
        l: &Layout,
        m: &Mesh,
        rows: Option<&'a DofMap>,
        cols: Option<&'a DofMap>,
        coefs: &[CoefData],
    ) -> Result<Rows<'a>, RunRefusal>
        requires { Fits l.now (assembly_of f.now m.now (option_copied rows) (option_copied cols) coefs.now) }
        ensures rows { IfOk result (AreStarted
            (assembly_of f.now m.now (option_copied rows.entry) (option_copied cols.entry) coefs.now)) }
        ensures within { IfOk result HasNoneBeyond }
        ensures few { OnOk result (IsFew (runs_of f.now m.now coefs.now)) }
        ensures good { OnOk result (AreGood (runs_of f.now m.now coefs.now)) }
        ensures refusal { IfErr result (RunRefused (runs_of f.now m.now coefs.now)) }
    {
        let stored = store(alloc, f, l, m, rows, cols, coefs)?;
        let columns = count_of(cols);
        Ok(Rows {
            stored,
            sums: RowSums::new(alloc, columns)?,
            entries: Vec::with_capacity(alloc, columns as usize)?,
            count: count_of(rows),
            next: 0,
        })
    }

    /// How many rows there are.
    pub fn count(&self) -> u32
        ensures { result ≡ lent_count self.now }
    {
        self.count
    }

    /// Adds up the next row, whose number is answered: rows come in order, empty ones too, and `None` after the last.
    /// Where the sum of an entry passes, this call and each later one answers the first such entry of the row. It
    /// takes no memory.
    pub fn next_row(&mut self) -> Option<Result<u32, RunRefusal>>
        ensures { IsNextRow self.old result self.new }
    {
        if self.next == self.count {
            return None;
        }
        let row = self.next;
        self.stored.add_up(row, &mut self.sums);
        match finish_row(row, &mut self.sums, &mut self.entries) {
            Some(col) => Some(Err(RunRefusal::SumPassed { row, col })),
            None => {
                self.next += 1;
                Some(Ok(row))
            }
        }
    }

    /// The entries of the row that was added up last: its sums that are not zero, by rising column.
    pub fn entries(&self) -> &[Triple]
        ensures { result.now ≡ self.now.entries }
    {
        &self.entries
    }
}
