//! Sums of monomials as lists: products, derivatives, other signs.

ghost use Rattle.std.specs.Prelude.{◌≡◌, ◌<◌, ◌≤◌, ◌++◌, [], ◌∷◌, length, IfOk, IfErr, MatchOption, IsPermutation, slice_index, None};
ghost use Rattle.algebra.specs.Steps.{product as step_of_product};
ghost use Rattle.ratio.specs.Value.{fraction_of};
ghost use Rattle.monos.specs.Monomial.{monomial_of, monomials_of, derivatives};
ghost use Rattle.normal.specs.Monomials.{number_mono, all_negative, atom_along, derived_at, product as product_of, products as products_of, monos_along};
ghost use Rattle.normal.specs.Collecting.{IsReordered, AreReordered, nonzero};
ghost use Rattle.normal.specs.Order.{AreInOrder};
ghost use Rattle.normal.specs.Gathering.{AllOver, AreFew, HaveRoom};
ghost use Rattle.normal.specs.declared.refusal.NormalRefusal.TheVariants.{Range, Memory};

use crate::order::digits;
use crate::refusal::NormalRefusal;
use monos::{Atom, Mono};
use ratio::Ratio;
use sqlite_items::Items;
use std::alloc::{AllocError, Global};

/// One monomial.
pub fn single(alloc: Global, c: Ratio, atoms: &[Atom]) -> Result<Vec<Mono>, AllocError>
    ensures { IfOk result (λ ms. monomials_of ms.items ≡ record { c = fraction_of c; atoms = atoms.now } ∷ []) }
{
    let atoms = Items::from_slice(alloc, atoms)?;
    let mut all = Vec::new(alloc);
    all.push(Mono { c, atoms })?;
    Ok(all)
}

/// A number: no monomial for 0.
pub fn number(alloc: Global, c: Ratio) -> Result<Vec<Mono>, AllocError>
    ensures { IfOk result (λ ms. monomials_of ms.items ≡ nonzero (number_mono (fraction_of c))) }
{
    if c.is_zero() {
        Ok(Vec::new(alloc))
    } else {
        single(alloc, c, &[])
    }
}

/// The monomials with the other sign.
pub fn negated(alloc: Global, ms: Vec<Mono>) -> Result<Vec<Mono>, AllocError>
    ensures { IfOk result (λ all. monomials_of all.items ≡ all_negative (monomials_of ms.items)) }
{
    let mut all = Vec::new(alloc);
    for m in ms {
        all.push(Mono {
            c: m.c.neg(),
            atoms: m.atoms,
        })?;
    }
    Ok(all)
}

/// Both lists in one: the shorter one moves.
pub fn joined(mut ms: Vec<Mono>, mut ns: Vec<Mono>) -> Result<Vec<Mono>, AllocError>
    ensures { IfOk result (λ all. IsPermutation (monomials_of ms.items ++ monomials_of ns.items)
        (monomials_of all.items)) }
{
    if ms.len() < ns.len() {
        ns.append(&mut ms)?;
        Ok(ns)
    } else {
        ms.append(&mut ns)?;
        Ok(ms)
    }
}

/// The product, with its atoms in order. `Range` only where the product of the coefficients does not fit.
fn product(alloc: Global, m: &Mono, n: &Mono) -> Result<Mono, NormalRefusal>
    ensures value { IfOk result (λ k. IsReordered (product_of (monomial_of m.now) (monomial_of n.now))
        (monomial_of k)) }
    ensures in_order { IfOk result (λ k. AreInOrder (monomial_of k ∷ [])) }
    ensures range { IfErr result (λ r. r ≡ Range → step_of_product (fraction_of m.now.c) (fraction_of n.now.c) ≡ None) }
{
    let Some(c) = m.c.mul(n.c) else {
        return Err(NormalRefusal::Range);
    };
    let mut atoms = Vec::from_slice(alloc, m.atoms.as_slice())?;
    atoms.extend_from_slice(n.atoms.as_slice())?;
    atoms.sort_unstable_by_key(digits);
    Ok(Mono {
        c,
        atoms: Items::from_vec(atoms),
    })
}

/// The product of two sums: one monomial for each pair, with its atoms in order.
pub fn products(alloc: Global, ms: &[Mono], ns: &[Mono]) -> Result<Vec<Mono>, NormalRefusal>
    ensures value { IfOk result (λ all. AreReordered (products_of (monomials_of ms.now) (monomials_of ns.now))
        (monomials_of all.items)) }
    ensures in_order { IfOk result (λ all. AreInOrder (monomials_of all.items)) }
    ensures range { IfErr result (λ r. HaveRoom (monomials_of ms.now) (monomials_of ns.now) → r ≡ Memory) }
{
    let mut all = Vec::new(alloc);
    for m in ms {
        for n in ns {
            all.push(product(alloc, m, n)?)?;
        }
    }
    Ok(all)
}

/// The atom with one derivative more. `None` exactly where it has 255 in this direction.
fn derived(atom: Atom, direction: usize) -> Option<Atom>
    requires { direction < 3 }
    ensures { MatchOption result (slice_index atom.dirs direction ≡ 255) (λ a. a ≡ atom_along direction atom) }
{
    let mut dirs = atom.dirs;
    if dirs[direction] == 255 {
        return None;
    }
    dirs[direction] += 1;
    Some(Atom { dirs, ..atom })
}

/// The monomial with the derivative of the atom at a place in place of it, and its atoms in order.
fn with_derivative(
    alloc: Global,
    m: &Mono,
    place: usize,
    direction: usize,
) -> Result<Mono, NormalRefusal>
    requires place { place < length m.now.atoms }
    requires direction { direction < 3 }
    ensures value { IfOk result (λ k. IsReordered (derived_at direction (monomial_of m.now) place) (monomial_of k)) }
    ensures in_order { IfOk result (λ k. AreInOrder (monomial_of k ∷ [])) }
    ensures range { IfErr result (λ r. r ≡ Range → 255 ≤ derivatives m.now.atoms) }
{
    let mut atoms = Vec::from_slice(alloc, m.atoms.as_slice())?;
    let Some(atom) = derived(atoms[place], direction) else {
        return Err(NormalRefusal::Range);
    };
    atoms[place] = atom;
    atoms.sort_unstable_by_key(digits);
    Ok(Mono {
        c: m.c,
        atoms: Items::from_vec(atoms),
    })
}

/// The derivative in a direction of space, of which there are three: by the product rule one monomial for each atom,
/// with its
/// atoms in order.
pub fn along(alloc: Global, ms: &[Mono], direction: u8) -> Result<Vec<Mono>, NormalRefusal>
    ensures value { IfOk result (λ all. AreReordered (monos_along direction (monomials_of ms.now))
        (monomials_of all.items)) }
    ensures in_order { IfOk result (λ all. AreInOrder (monomials_of all.items)) }
    ensures range { IfErr result (λ r. AreFew (monomials_of ms.now) → r ≡ Memory) }
{
    let mut all = Vec::new(alloc);
    if direction >= 3 {
        return Ok(all);
    }
    for m in ms {
        for place in 0..m.atoms.len() {
            all.push(with_derivative(alloc, m, place, direction as usize)?)?;
        }
    }
    Ok(all)
}
