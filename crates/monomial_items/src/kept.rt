//! The rows of a monomial's reference tensor that may be other than 0.

ghost use Rattle.std.specs.Prelude.{◌≡◌, ℕ, ◌<◌, true, false, map, IfOk};
ghost use Rattle.algebra.specs.Over.{Over};
ghost use Rattle.ratio.specs.Value.{fraction_of};
ghost use Rattle.polyalg.specs.Prelude.{RangeWhere};
ghost use Rattle.ufl_tree.specs.declared.function.Role.TheVariants.{Test, Trial};
ghost use Rattle.monos.specs.Layout.{IsLawfulLayout};
ghost use Rattle.monos.specs.Monomial.{monomial_of};
ghost use Rattle.monomial_products.specs.Supports.{places_at, support_of, AreOn};
ghost use Rattle.monomial_products.specs.Products.{are_alive as are_alive_atoms, IsSmall, HaveSmallProducts, degree_left, denominator, coefficient_bound};
ghost use Rattle.monomial_items.specs.Integrals.{AreFitting, AreWithin};
ghost use Rattle.monomial_items.specs.Kept.{tests_of, kept_items};

use crate::rows::items;
use monomial_products::{Support, are_alive, test_support, trial_support};
use monos::{Layout, Mono};
use polyalg::PolyFault;
use ratio::Ratio;
use std::alloc::Global;

/// The rows at the nodes at which a monomial may be other than 0, by test node and by trial node.
#[derive(Drop)]
pub struct KeptRows {
    /// The nodes of the test function; none where the monomial is 0.
    pub tests: Support,
    /// Those of the trial function.
    pub trials: Support,
    /// The items of the rows, one row after the other.
    pub items: Vec<Ratio>,
}

/// The nodes of the test function at which a monomial may be other than 0: none where its number or the function of an atom is 0.
fn test_nodes(l: &Layout, m: &Mono) -> Support
    ensures value { result ≡ tests_of l.now (monomial_of m.now) }
    ensures alive { 0 < places_at result → are_alive_atoms l.now m.now.atoms ≡ true }
    ensures on { IsLawfulLayout l.now → 0 < places_at result → AreOn l.now Test result m.now.atoms }
{
    let atoms = m.atoms.as_slice();
    if m.c.is_zero() || !are_alive(l, atoms) {
        return Support::Nowhere;
    }
    test_support(l, atoms)
}

/// The items of the rows of a monomial's reference tensor at the nodes at which it may be other than 0. No step passes where the
/// bounds of its products and of their integrals are small.
pub fn kept_rows(alloc: Global, l: &Layout, m: &Mono) -> Result<KeptRows, PolyFault>
    requires layout { IsLawfulLayout l.now }
    requires small { IsSmall l.now m.now.atoms }
    ensures tests { IfOk result (λ k. k.tests ≡ tests_of l.now (monomial_of m.now)) }
    ensures trials { IfOk result (λ k. k.trials ≡ support_of l.now Trial m.now.atoms) }
    ensures items { IfOk result (λ k. map fraction_of k.items.items ≡ kept_items l.now k.tests k.trials
        (monomial_of m.now)) }
    ensures bounds { (j i : ℕ) → Over j i (fraction_of m.now.c) → AreFitting l.now.d (degree_left l.now m.now.atoms)
        (denominator l.now m.now.atoms) (coefficient_bound l.now m.now.atoms) (fraction_of m.now.c)
        → IfOk result (λ v. AreWithin l.now m.now.atoms j i v.items.items) }
    ensures range { HaveSmallProducts l.now m.now.atoms → AreFitting l.now.d (degree_left l.now m.now.atoms)
        (denominator l.now m.now.atoms) (coefficient_bound l.now m.now.atoms) (fraction_of m.now.c)
        → RangeWhere false result }
{
    let tests = test_nodes(l, m);
    let trials = trial_support(l, m.atoms.as_slice());
    if tests.places() == 0 {
        return Ok(KeptRows {
            tests,
            trials,
            items: Vec::new(alloc),
        });
    }
    if trials.places() == 0 {
        return Ok(KeptRows {
            tests,
            trials,
            items: Vec::new(alloc),
        });
    }
    let items = items(alloc, l, m)?;
    Ok(KeptRows {
        tests,
        trials,
        items,
    })
}
