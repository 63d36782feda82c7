//! The products of the functions of a monomial's atoms.

ghost use Rattle.std.specs.Prelude.{◌≡◌, true, false, List, ◌∷◌, IfOk};
ghost use Rattle.polyalg.specs.Prelude.{RangeWhere};
ghost use Rattle.ufl_tree.specs.declared.function.Role.TheVariants.{Test, Trial};
ghost use Rattle.monos.specs.declared.mono.Atom.{Atom};
ghost use Rattle.monos.specs.Layout.{IsLawfulLayout};
ghost use Rattle.monomial_products.specs.declared.support.Support.{Support};
ghost use Rattle.monomial_products.specs.Supports.{AreOn};
ghost use Rattle.monomial_products.specs.Products.{is_alive as is_alive_atom, are_alive as are_alive_atoms, source_of as source_in, IsSmall, HaveSmallProducts, AreProductsBounded};
ghost use Rattle.monomial_products.specs.Formed.{IsFactorOf, AreProductsOf, IsReady, HaveSupports};

use crate::places::{derivative_count, part_of};
use basis_products::{Factor, Products, Source};
use monos::{Atom, Layout};
use polyalg::PolyFault;
use std::alloc::Global;
use ufl_tree::Role;

/// Where the node of an atom of this role comes from.
fn source_of(role: Role) -> Source
    ensures { result ≡ source_in role }
{
    match role {
        Role::Test => Source::Test,
        Role::Trial => Source::Trial,
        Role::Position | Role::Coefficient(_) => Source::Summed,
    }
}

/// Whether an atom's function isn't 0: it has a part, of at least the degree that it is derived.
fn is_alive(l: &Layout, atom: Atom) -> bool
    ensures { result ≡ is_alive_atom l.now atom }
{
    match part_of(l, atom) {
        Some(part) => derivative_count(atom) <= part.degree as u16,
        None => false,
    }
}

/// Whether no atom's function is 0.
pub fn are_alive(l: &Layout, atoms: &[Atom]) -> bool
    ensures { result ≡ are_alive_atoms l.now atoms.now }
{
    for atom in atoms {
        if !is_alive(l, *atom) {
            return false;
        }
    }
    true
}

/// The functions of an atom that isn't 0, with the derivatives. No step passes.
pub fn factor(alloc: Global, l: &Layout, atom: Atom) -> Result<Factor, PolyFault>
    requires layout { IsLawfulLayout l.now }
    requires alive { is_alive_atom l.now atom ≡ true }
    ensures value { IfOk result (IsFactorOf l.now atom) }
    ensures fits { RangeWhere false result }
{
    match part_of(l, atom) {
        Some(part) => Factor::new(
            alloc,
            l.d,
            source_of(atom.f.role),
            part,
            derivative_count(atom) as u8,
        ),
        None => unreachable!(),
    }
}

/// The products with one atom more in front. A function of degree 0 is 1 on its one node, so nothing is multiplied with it.
fn with_atom(
    alloc: Global,
    l: &Layout,
    atom: Atom,
    products: Products,
) -> Result<Products, PolyFault>
    requires layout { IsLawfulLayout l.now }
    requires alive { is_alive_atom l.now atom ≡ true }
    requires ready { (xs : List Atom) × IsReady l.now atom xs products }
    ensures value { (xs : List Atom) (tests trials : Support) → AreProductsOf l.now tests trials xs products
        → AreOn l.now Test tests (atom ∷ xs) → AreOn l.now Trial trials (atom ∷ xs)
        → IfOk result (AreProductsOf l.now tests trials (atom ∷ xs)) }
    ensures range { (xs : List Atom) → AreProductsBounded l.now xs products.items.items
        → HaveSmallProducts l.now (atom ∷ xs) → RangeWhere false result }
{
    let factor = factor(alloc, l, atom)?;
    if factor.nodes <= 1 {
        return Ok(products);
    }
    let next = products.with(alloc, &factor)?;
    Ok(next)
}

/// The products of the atoms' functions: by test node, trial node, the nodes of the atoms that are summed and the reference
/// directions, each in lexicographic order of the atoms. No step passes where the bounds of the products are small.
pub fn products(alloc: Global, l: &Layout, atoms: &[Atom]) -> Result<Products, PolyFault>
    requires layout { IsLawfulLayout l.now }
    requires small { IsSmall l.now atoms.now }
    requires alive { are_alive_atoms l.now atoms.now ≡ true }
    requires supports { HaveSupports l.now atoms.now }
    ensures value { (tests trials : Support) → AreOn l.now Test tests atoms.now → AreOn l.now Trial trials atoms.now
        → IfOk result (AreProductsOf l.now tests trials atoms.now) }
    ensures range { HaveSmallProducts l.now atoms.now → RangeWhere false result }
{
    let mut products = Products::one(alloc)?;
    for k in 0..atoms.len() {
        let atom = atoms[atoms.len() - 1 - k];
        products = with_atom(alloc, l, atom, products)?;
    }
    Ok(products)
}
