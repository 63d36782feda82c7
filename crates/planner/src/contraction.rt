//! How the contraction of a monomial's reference tensor with its columns is found.

ghost use Rattle.std.specs.Prelude.{◌≡◌, ◌-◌, ◌*◌, ◌<◌, ◌≤◌, ◌^◌, ◌++◌, [], length, IfOk, OnOk};
ghost use Rattle.std.specs.List.{AllByRecursion};
ghost use Rattle.monos.specs.Layout.{IsLawfulLayout};
ghost use Rattle.monos.specs.Monomial.{monomial_of};
ghost use Rattle.weigh.specs.Admitted.{IsAdmitted};
ghost use Rattle.monomial_weights.specs.Weighed.{IsWithin};
ghost use Rattle.tensors.specs.Rows.{fractions_of as row_fractions};
ghost use Rattle.ufl_tree.specs.declared.function.Role.TheVariants.{Test, Trial};
ghost use Rattle.monomial_products.specs.Supports.{support_of};
ghost use Rattle.kernel_statements.specs.Counted.{counted_rows};
ghost use Rattle.kernel_statements.specs.Digits.{first_node, end_node};
ghost use Rattle.kernel_statements.specs.Found.{IsFound};
ghost use Rattle.kernel_statements.specs.Placed.{placed_one};
ghost use Rattle.planner.specs.Kernels.{HasArguments};
ghost use Rattle.planner.specs.Contractions.{MayBeContractionOf, AreRowsBounded, AreStandings, HaveAllQuotients, IsOnNodes};

use kernel_runs::Entry;
use kernel_statements::{
    Contraction, CountedRows, Nodes, PlacedEntry, argument_nodes, coefficients, directions,
    entry_count,
};
use monomial_products::{test_support, trial_support};
use monos::{Atom, Layout, Mono, Weight};
use std::alloc::{AllocError, Global};
use tensors::{RefTensor, tensor};

// An entry more, where its row isn't zero.
fn place(entries: &mut Vec<PlacedEntry>, entry: u32, stands: Entry) -> Result<(), AllocError>
    ensures { OnOk result (entries.new.items ≡ entries.old.items ++ placed_one entry stands) }
{
    match stands {
        Entry::NoRow => Ok(()),
        Entry::Counted(_) | Entry::Multiple { .. } => {
            entries.push(PlacedEntry { entry, stands })?;
            Ok(())
        }
    }
}

// How the rows at these nodes stand to the counted ones, of which there are none yet.
fn find_rows(
    alloc: Global,
    tensor: &RefTensor,
    cols: u32,
    tests: Nodes,
    trials: Nodes,
    counted: &mut CountedRows,
) -> Result<Vec<PlacedEntry>, AllocError>
    requires nodes { IsOnNodes tensor.now cols tests trials }
    requires quotients { HaveAllQuotients tensor.now }
    requires width { AllByRecursion (λ row. length row ≡ counted.old.width) tensor.now }
    requires none { IsFound [] counted.old }
    requires range { length tensor.now < 2 ^ 32 }
    ensures entries { IfOk result (λ es. AreStandings (row_fractions tensor.now) es.items) }
    ensures few { IfOk result (λ es. length es.items ≤ (tests.to - tests.from) * (trials.to - trials.from)) }
    ensures rows { OnOk result (IsFound (counted_rows (row_fractions tensor.now)) counted.new) }
{
    let mut entries = Vec::new(alloc);
    let mut shape = Vec::new(alloc);
    for test in tests.from..tests.to {
        for trial in trials.from..trials.to {
            let entry = test * cols + trial;
            let stands = counted.stand(tensor.row(entry), &mut shape)?;
            place(&mut entries, entry, stands)?;
        }
    }
    Ok(entries)
}

// The local nodes of the test function at which a product of these atoms may be other than 0.
fn test_nodes(l: &Layout, atoms: &[Atom]) -> Nodes
    requires { IsLawfulLayout l.now }
    ensures from { result.from ≡ first_node (support_of l.now Test atoms.now) }
    ensures to { result.to ≡ end_node l.now.rows (support_of l.now Test atoms.now) }
{
    argument_nodes(&l.rows, test_support(l, atoms))
}

// The same of the trial function.
fn trial_nodes(l: &Layout, atoms: &[Atom]) -> Nodes
    requires { IsLawfulLayout l.now }
    ensures from { result.from ≡ first_node (support_of l.now Trial atoms.now) }
    ensures to { result.to ≡ end_node l.now.cols (support_of l.now Trial atoms.now) }
{
    argument_nodes(&l.cols, trial_support(l, atoms))
}

/// The contraction of a monomial; nothing where its reference tensor is zero.
pub fn contraction_of(
    alloc: Global,
    m: &Mono,
    l: &Layout,
    w: &Weight,
) -> Result<Option<Contraction>, AllocError>
    requires layout { IsLawfulLayout l.now }
    requires admitted { IsAdmitted l.now.d w.now }
    requires within { IsWithin l.now w.now (monomial_of m.now) }
    requires arguments { HasArguments l.now (monomial_of m.now) }
    ensures contraction { IfOk result (MayBeContractionOf l.now (monomial_of m.now)) }
    ensures bounds { IfOk result (λ c. AreRowsBounded l.now w.now (monomial_of m.now)) }
{
    let atoms = m.atoms.as_slice();
    let tensor = tensor(alloc, m, l, w)?;
    let columns = tensor.columns();
    if columns == 0 {
        return Ok(None);
    }
    let mut counted = CountedRows::new(alloc, columns as usize);
    let tests = test_nodes(l, atoms);
    let trials = trial_nodes(l, atoms);
    let cols = entry_count(&l.cols);
    let entries = find_rows(alloc, &tensor, cols, tests, trials, &mut counted)?;
    let rows = counted.count();
    if rows == 0 {
        return Ok(None);
    }
    Ok(Some(Contraction {
        coefficients: coefficients(alloc, l, atoms)?,
        directions: directions(alloc, atoms)?,
        columns,
        rows,
        items: counted.items,
        entries,
    }))
}
