//! Kernels of sums of monomials.

ghost use Rattle.std.specs.Prelude.{◌≡◌, ℕ, ◌+◌, ◌*◌, ◌<◌, ◌≤◌, ◌^◌, ◌++◌, List, length, map, IfOk, OnOk};
ghost use Rattle.std.specs.List.{AllByRecursion};
ghost use Rattle.algebra.specs.Fraction.{Fraction};
ghost use Rattle.calculus.specs.Simplex.{Simplex, IsCell, dimension};
ghost use Rattle.c_unit.specs.Meaning.{fractions_of, tables_of, counted_list, written_list, ran};
ghost use Rattle.c_unit.specs.Rules.{KeepsSizes};
ghost use Rattle.monos.specs.Layout.{IsLawfulLayout, value_count};
ghost use Rattle.monos.specs.Monomial.{monomials_of};
ghost use Rattle.room.specs.Room.{room, numbers_of, all_values};
ghost use Rattle.kernel_runs.specs.Preamble.{coordinates};
ghost use Rattle.planner.specs.Kernels.{AreWithin, HasArguments, HasSizes, GivesShares, monos_density, NoStepPasses, kernel_tables, IsLoaded, run_bounds, text_bounds};
ghost use Rattle.kernel_statements.specs.Statements.{FitsBuffers, most_columns, most_rows};
ghost use Rattle.planner.specs.Contractions.{AreContractionsOf, AreRowsBounded, contraction_list, IsKernelOf, buffers_for};

use crate::contraction::contraction_of;
use c_unit::CFun;
use kernel_statements::{Contraction, body_of, buffers_of, entry_count, tables_of};
use monomial_weights::laws;
use monos::{CoefPlace, Layout, Mono, Weight};
use sqlite_items::Items;
use std::alloc::{AllocError, Global};

// A contraction more, where there is one.
fn keep(contractions: &mut Vec<Contraction>, found: Option<Contraction>) -> Result<(), AllocError>
    ensures { OnOk result (contractions.new.items ≡ contractions.old.items ++ contraction_list found) }
{
    match found {
        Some(contraction) => {
            contractions.push(contraction)?;
            Ok(())
        }
        None => Ok(()),
    }
}

// What is planned for each monomial whose reference tensor isn't zero.
fn contractions_of(
    alloc: Global,
    monos: &[Mono],
    l: &Layout,
    w: &Weight,
) -> Result<Vec<Contraction>, AllocError>
    requires layout { IsLawfulLayout l.now }
    requires weight { AreWithin l.now w.now (monomials_of monos.now) }
    requires arguments { AllByRecursion (HasArguments l.now) (monomials_of monos.now) }
    ensures contractions { IfOk result (λ cs. AreContractionsOf l.now (monomials_of monos.now) cs.items) }
    ensures bounds { IfOk result (λ cs. AllByRecursion (AreRowsBounded l.now w.now) (monomials_of monos.now)) }
{
    let mut contractions = Vec::new(alloc);
    for m in monos {
        let found = contraction_of(alloc, m, l, w)?;
        keep(&mut contractions, found)?;
    }
    Ok(contractions)
}

// How many coefficient values a cell has.
fn weight_count(coefs: &[CoefPlace]) -> u32
    requires { value_count coefs.now < 2 ^ 32 }
    ensures { result ≡ value_count coefs.now }
{
    let mut count = 0;
    for place in coefs {
        count += place.parts.local;
    }
    count
}

// The function of these contractions.
fn kernel_of(
    alloc: Global,
    name: &[u8],
    l: &Layout,
    contractions: Vec<Contraction>,
) -> Result<CFun, AllocError>
    requires layout { IsLawfulLayout l.now }
    requires tables { length contractions.items ≤ 2 ^ 20 }
    requires columns { most_columns contractions.items ≤ 2 ^ 20 }
    requires rows { most_rows contractions.items ≤ 2 ^ 20 }
    requires buffers { AllByRecursion (FitsBuffers l.now.d (buffers_for contractions.items)) contractions.items }
    ensures name { IfOk result (λ f. f.name ≡ name.now) }
    ensures kernel { IfOk result (IsKernelOf l.now contractions.items) }
{
    let buffers = buffers_of(contractions.as_slice());
    let a = entry_count(&l.rows) * entry_count(&l.cols);
    let body = body_of(alloc, l.d, contractions.as_slice(), buffers, a)?;
    Ok(CFun {
        name: Items::from_slice(alloc, name)?,
        x: l.d as u32 * (l.d as u32 + 1),
        w: weight_count(l.coefs.as_slice()),
        t: buffers.temporaries(),
        a,
        tables: tables_of(alloc, contractions)?,
        body,
    })
}

/// The kernel of a sum of monomials on the cells of a layout, under the name `name`: X has the coordinates of the
/// cell's vertices, W the coefficient values in the order of the layout, and A the local entries, row by row. The
/// weight is admitted and bounds the monomials, and each monomial has an atom of each argument that occurs in the
/// layout.
///
/// A run on a cell gives the cell's shares of the sum of monomials in A and returns 0; or it returns 2, where the
/// volume factor is 0 and no step before its reciprocal passes; or 1, where a step passes. None passes where the room
/// of the cell is below 2^127. The table of a monomial has the rows of its reference tensor that are neither zero nor
/// a multiple of an earlier row; a monomial without such rows has no table. Want of memory is the only refusal.
pub fn plan(
    alloc: Global,
    name: &[u8],
    monos: &[Mono],
    l: &Layout,
    w: &Weight,
) -> Result<CFun, AllocError>
    requires layout { IsLawfulLayout l.now }
    requires weight { AreWithin l.now w.now (monomials_of monos.now) }
    requires arguments { AllByRecursion (HasArguments l.now) (monomials_of monos.now) }
    ensures name { IfOk result (λ f. f.name ≡ name.now) }
    ensures sizes { IfOk result (HasSizes l.now) }
    ensures lawful { IfOk result KeepsSizes }
    ensures share { IfOk result (λ f. (v : Simplex) (w : List Fraction) → IsCell v → dimension v ≡ l.now.d
        → GivesShares (Unit {0}) (monos_density (monomials_of monos.now)) l.now v w (ran f (coordinates l.now.d v) w)) }
    ensures fits { IfOk result (λ f. (v : Simplex) (w : List Fraction) → IsCell v → dimension v ≡ l.now.d
        → NoStepPasses l.now (monomials_of monos.now) v w
        → GivesShares ⊥ (monos_density (monomials_of monos.now)) l.now v w (ran f (coordinates l.now.d v) w)) }
    ensures room { IfOk result (λ f. (v : Simplex) (values : List Fraction) → IsCell v → dimension v ≡ l.now.d
        → room w.now (numbers_of l.now.d v (all_values l.now v values)) < 2 ^ 127
        → GivesShares ⊥ (monos_density (monomials_of monos.now)) l.now v values
        (ran f (coordinates l.now.d v) values)) }
    ensures tables { IfOk result (λ f. tables_of f.tables ≡ kernel_tables l.now (monomials_of monos.now)) }
    ensures loaded { IfOk result (λ f. (k : ℕ) → k < length f.tables → IsLoaded k f.body) }
    ensures bound { IfOk result (λ f. counted_list f.body ≤ (w.now.g + w.now.rmax + 4) * w.now.cost + 200) }
    ensures statements { IfOk result (λ f. counted_list f.body ≤ 200 + run_bounds l.now (monomials_of monos.now)) }
    ensures written { IfOk result (λ f. written_list f.body ≤ 400 + text_bounds l.now (monomials_of monos.now)) }
{
    let contractions = contractions_of(alloc, monos, l, w)?;
    laws::parts();
    kernel_of(alloc, name, l, contractions)
}
