//! The items of a monomial's rows.

ghost use Rattle.std.specs.Prelude.{◌≡◌, ℕ, true, false, map, IfOk};
ghost use Rattle.algebra.specs.Over.{Over};
ghost use Rattle.ratio.specs.Value.{fraction_of};
ghost use Rattle.polyalg.specs.Prelude.{RangeWhere};
ghost use Rattle.ufl_tree.specs.declared.function.Role.TheVariants.{Test, Trial};
ghost use Rattle.monos.specs.Layout.{IsLawfulLayout};
ghost use Rattle.monos.specs.Monomial.{monomial_of};
ghost use Rattle.monomial_products.specs.declared.support.Support.{Support};
ghost use Rattle.monomial_products.specs.Supports.{AreOn};
ghost use Rattle.monomial_products.specs.Products.{are_alive, IsSmall, HaveSmallProducts, degree_left, denominator, coefficient_bound};
ghost use Rattle.monomial_products.specs.Formed.{HaveSupports};
ghost use Rattle.monomial_items.specs.Integrals.{items_at, AreFitting, AreWithin};

use crate::integral::integrals;
use monomial_products::products;
use monos::{Layout, Mono};
use polyalg::PolyFault;
use ratio::Ratio;
use std::alloc::Global;

/// The items of the rows of a monomial's reference tensor at all nodes at which its arguments let it be other than 0, one row after
/// the other. No atom is 0, and the atoms of each argument are of one part. No step passes where the bounds are small.
pub fn items(alloc: Global, l: &Layout, m: &Mono) -> Result<Vec<Ratio>, PolyFault>
    requires layout { IsLawfulLayout l.now }
    requires small { IsSmall l.now m.now.atoms }
    requires alive { are_alive l.now m.now.atoms ≡ true }
    requires supports { HaveSupports l.now m.now.atoms }
    ensures value { (tests trials : Support) → AreOn l.now Test tests m.now.atoms → AreOn l.now Trial trials m.now.atoms
        → IfOk result (λ v. map fraction_of v.items ≡ items_at l.now tests trials (monomial_of m.now)) }
    ensures bounds { (j i : ℕ) → Over j i (fraction_of m.now.c) → AreFitting l.now.d (degree_left l.now m.now.atoms)
        (denominator l.now m.now.atoms) (coefficient_bound l.now m.now.atoms) (fraction_of m.now.c)
        → IfOk result (λ v. AreWithin l.now m.now.atoms j i v.items) }
    ensures range { HaveSmallProducts l.now m.now.atoms → AreFitting l.now.d (degree_left l.now m.now.atoms)
        (denominator l.now m.now.atoms) (coefficient_bound l.now m.now.atoms) (fraction_of m.now.c)
        → RangeWhere false result }
{
    let products = products(alloc, l, m.atoms.as_slice())?;
    let items = integrals(alloc, l.d, m.c, products.items.as_slice())?;
    Ok(items)
}
