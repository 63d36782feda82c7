//! The reference tensor of a monomial.

ghost use Rattle.std.specs.Prelude.{◌≡◌, ◌^◌, ◌≤◌, if◌then◌else◌, false, length, map, IfOk};
ghost use Rattle.std.specs.List.{AllByRecursion};
ghost use Rattle.algebra.specs.Fraction.{zero_fraction};
ghost use Rattle.ratio.specs.Value.{fraction_of};
ghost use Rattle.polyalg.specs.Prelude.{RangeWhere};
ghost use Rattle.ufl_tree.specs.declared.function.Role.TheVariants.{Trial};
ghost use Rattle.monos.specs.declared.weight.Weight.{Weight};
ghost use Rattle.monos.specs.Layout.{IsLawfulLayout};
ghost use Rattle.monos.specs.Monomial.{monomial_of};
ghost use Rattle.weigh.specs.Admitted.{IsAdmitted};
ghost use Rattle.refint.specs.Local.{entries_of};
ghost use Rattle.refint.specs.Reference.{is_argument, nodes_in, part_of as part_in_layout};
ghost use Rattle.monomial_products.specs.Supports.{support_of};
ghost use Rattle.monomial_products.specs.Products.{IsSmall};
ghost use Rattle.monomial_items.specs.Kept.{tests_of, kept_items};
ghost use Rattle.monomial_weights.specs.Weighed.{IsWithin, AreItems};
ghost use Rattle.monomial_weights.specs.Columns.{column_count as columns_of};
ghost use Rattle.tensors.specs.Rows.{rows_of, fractions_of};

use crate::reference::RefTensor;
use monomial_items::{KeptRows, kept_rows};
use monomial_products::{Support, are_alive, derivative_count, part_of, trial_support};
use monos::{Atom, Layout, Mono, Weight};
use polyalg::PolyFault;
use ratio::Ratio;
use spaces::Parts;
use std::alloc::{AllocError, Global};
use ufl_tree::Role;

/// How many local nodes an argument has; one that doesn't occur counts as one.
pub(crate) fn entry_count(parts: &Parts) -> u32
    ensures { result ≡ entries_of parts.now }
{
    if parts.items.is_empty() {
        1
    } else {
        parts.local
    }
}

/// How many nodes an atom is summed over; one for an argument.
fn summed_nodes(l: &Layout, atom: Atom) -> usize
    ensures { result ≡ (if is_argument atom.f.role then 1
        else nodes_in (part_in_layout l.now atom.f.role atom.component)) }
{
    match atom.f.role {
        Role::Test | Role::Trial => 1,
        Role::Position | Role::Coefficient(_) => match part_of(l, atom) {
            Some(part) => part.nodes as usize,
            None => 0,
        },
    }
}

/// How many lists of so many reference directions there are.
fn direction_lists(d: u8, count: u16) -> usize
    requires some { 1 ≤ d }
    requires few { d ^ count ≤ 2 ^ 20 }
    ensures { result ≡ d ^ count }
{
    let mut lists = 1;
    for _ in 0..count {
        lists *= d as usize;
    }
    lists
}

/// How many columns the tensor has: the product of the numbers of nodes of the coefficients' parts, and of the
/// dimension for each derivative.
fn column_count(l: &Layout, atoms: &[Atom]) -> usize
    requires layout { IsLawfulLayout l.now }
    requires small { IsSmall l.now atoms.now }
    ensures count { result ≡ columns_of l.now atoms.now }
    ensures few { result ≤ 2 ^ 20 }
{
    let mut count = 1;
    for atom in atoms {
        let nodes = summed_nodes(l, *atom);
        count *= nodes * direction_lists(l.d, derivative_count(*atom));
    }
    count
}

/// The rows that are kept. No step passes where an admitted weight bounds the monomial: the bounds of a monomial that
/// isn't 0 are small, and nothing is formed of one that is.
fn nonzero_rows(alloc: Global, l: &Layout, m: &Mono) -> Result<KeptRows, PolyFault>
    requires layout { IsLawfulLayout l.now }
    requires small { IsSmall l.now m.now.atoms }
    ensures tests { IfOk result (λ k. k.tests ≡ tests_of l.now (monomial_of m.now)) }
    ensures trials { IfOk result (λ k. k.trials ≡ support_of l.now Trial m.now.atoms) }
    ensures items { IfOk result (λ k. map fraction_of k.items.items ≡ kept_items l.now k.tests k.trials
        (monomial_of m.now)) }
    ensures range { (w : Weight) → IsAdmitted l.now.d w → IsWithin l.now w (monomial_of m.now)
        → RangeWhere false result }
    ensures bounds { IfOk result (λ k. (w : Weight) → IsAdmitted l.now.d w → IsWithin l.now w (monomial_of m.now)
        → AreItems l.now.d w (monomial_of m.now) k.items.items) }
{
    let atoms = m.atoms.as_slice();
    if m.c.is_zero() || !are_alive(l, atoms) {
        return Ok(KeptRows {
            tests: Support::Nowhere,
            trials: trial_support(l, atoms),
            items: Vec::new(alloc),
        });
    }
    kept_rows(alloc, l, m)
}

/// So many zeros.
fn zeros(alloc: Global, count: usize) -> Result<Vec<Ratio>, AllocError>
    ensures count { IfOk result (λ v. length v.items ≡ count) }
    ensures zero { IfOk result (λ v. AllByRecursion (λ x. fraction_of x ≡ zero_fraction) v.items) }
{
    let mut all = Vec::new(alloc);
    for _ in 0..count {
        all.push(Ratio::zero())?;
    }
    Ok(all)
}

/// The reference tensor of a monomial, whether or not its steps fit.
pub(crate) fn tensor_of(alloc: Global, m: &Mono, l: &Layout) -> Result<RefTensor, PolyFault>
    requires layout { IsLawfulLayout l.now }
    requires small { IsSmall l.now m.now.atoms }
    ensures rows { IfOk result (λ t. fractions_of t ≡ rows_of l.now (monomial_of m.now)) }
    ensures range { (w : Weight) → IsAdmitted l.now.d w → IsWithin l.now w (monomial_of m.now)
        → RangeWhere false result }
    ensures bounds { IfOk result (λ t. (w : Weight) → IsAdmitted l.now.d w → IsWithin l.now w (monomial_of m.now)
        → AllByRecursion (AreItems l.now.d w (monomial_of m.now)) t) }
{
    let columns = column_count(l, m.atoms.as_slice());
    let kept = nonzero_rows(alloc, l, m)?;
    let zeros = zeros(alloc, columns)?;
    Ok(RefTensor {
        kept,
        rows: entry_count(&l.rows),
        cols: entry_count(&l.cols),
        columns,
        zeros,
    })
}

/// The reference tensor of a monomial. Row k belongs to local entry k, row by row. Columns are in lexicographic order,
/// first over the atoms that are no arguments, in the order of the monomial, each by its nodes; then over the
/// derivatives, atom by atom and by physical direction, each by its reference direction. An item is the monomial's
/// number times the integral over the reference cell of the product of the basis functions in these reference
/// directions; 0 where an argument's component isn't the entry's.
///
/// The weight is admitted and bounds the monomial, so no step passes: want of memory is the only refusal. The items
/// are whole numbers over the weight's common denominator, of a size there that the weight bounds.
pub fn tensor(alloc: Global, m: &Mono, l: &Layout, w: &Weight) -> Result<RefTensor, AllocError>
    requires layout { IsLawfulLayout l.now }
    requires admitted { IsAdmitted l.now.d w.now }
    requires within { IsWithin l.now w.now (monomial_of m.now) }
    ensures rows { IfOk result (λ t. fractions_of t ≡ rows_of l.now (monomial_of m.now)) }
    ensures bounds { IfOk result (AllByRecursion (AreItems l.now.d w.now (monomial_of m.now))) }
{
    match tensor_of(alloc, m, l) {
        Ok(tensor) => Ok(tensor),
        Err(PolyFault::Memory) => Err(AllocError),
        Err(PolyFault::Range) => unreachable!(),
    }
}
