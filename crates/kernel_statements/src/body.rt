//! The statements and tables of a kernel with the contractions of its monomials.

ghost use Rattle.std.specs.Prelude.{◌≡◌, ◌+◌, ◌<◌, ◌≤◌, ◌^◌, ◌++◌, length, map, IfOk};
ghost use Rattle.std.specs.List.{AllByRecursion};
ghost use Rattle.kernel_runs.specs.Preamble.{preamble};
ghost use Rattle.kernel_statements.specs.Statements.{FitsBuffers, most_columns, most_rows, all_statements};

use crate::contraction::Contraction;
use crate::preamble::preamble;
use crate::slots::Buffers;
use c_unit::CStmt;
use ratio::Ratio;
use sqlite_items::Items;
use std::alloc::{AllocError, Global};

/// The buffers that all of them need.
pub fn buffers_of(contractions: &[Contraction]) -> Buffers
    ensures columns { result.columns ≡ most_columns contractions.now }
    ensures rows { result.rows ≡ most_rows contractions.now }
{
    let mut buffers = Buffers {
        columns: 1,
        rows: 0,
    };
    for contraction in contractions {
        buffers.columns = buffers.columns.max(contraction.columns);
        buffers.rows = buffers.rows.max(contraction.rows);
    }
    buffers
}

/// The statements of a kernel: first those that belong to no monomial.
pub fn body_of(
    alloc: Global,
    d: u8,
    contractions: &[Contraction],
    buffers: Buffers,
    entries: u32,
) -> Result<Items<CStmt>, AllocError>
    requires some { 0 < d }
    requires few { d ≤ 3 }
    requires buffers { AllByRecursion (FitsBuffers d buffers) contractions.now }
    requires tables { length contractions.now ≤ 2 ^ 20 }
    ensures { IfOk result (λ body. body ≡ preamble d ++ all_statements d buffers entries 0 contractions.now) }
{
    let mut body = preamble(alloc, d)?;
    for (table, contraction) in contractions.iter().enumerate() {
        contraction.emit(alloc, &mut body, d, table as u32, buffers, entries)?;
    }
    Ok(body)
}

/// The tables of a kernel: the counted rows of each monomial.
pub fn tables_of(
    alloc: Global,
    contractions: Vec<Contraction>,
) -> Result<Items<Items<Ratio>>, AllocError>
    ensures { IfOk result (λ tables. tables ≡ map (λ c. c.items.items) contractions.items) }
{
    let mut tables = Items::new(alloc);
    for contraction in contractions {
        tables.push(Items::from_vec(contraction.items))?;
    }
    Ok(tables)
}
