//! What is proved of the products in general. Each law is the contract of a function that does nothing, for provers to call or cite.

ghost use Rattle.std.specs.Prelude.{◌≡◌, ◌^◌, List, Some, ◌∷◌, slice_get};
ghost use Rattle.calculus.specs.Polynomial.{times};
ghost use Rattle.spaces.specs.declared.parts.Part.{Part};
ghost use Rattle.ufl_tree.specs.declared.function.Role.TheVariants.{Test, Trial};
ghost use Rattle.monos.specs.declared.layout.Layout.{Layout};
ghost use Rattle.monos.specs.declared.mono.Atom.{Atom};
ghost use Rattle.monos.specs.Layout.{role_parts};
ghost use Rattle.monos.specs.Monomial.{derivative_count, derivatives};
ghost use Rattle.basis_products.specs.Functions.{derived_functions};
ghost use Rattle.basis_products.specs.Order.{joined, pairs_of, with_factor};
ghost use Rattle.monomial_products.specs.declared.support.Support.{Support};
ghost use Rattle.monomial_products.specs.Supports.{AreOn};
ghost use Rattle.monomial_products.specs.Products.{products_of, sizes_of, source_of};

/// The products with one atom more in front: each row of the atom's functions with its block of the products behind it.
pub fn next()
    ensures products { (l : Layout) (tests trials : Support) (x : Atom) (xs : List Atom) (p : Part)
        → slice_get (role_parts l x.f.role) x.component ≡ Some p → AreOn l Test tests (x ∷ xs)
        → AreOn l Trial trials (x ∷ xs) → joined times (l.d ^ derivative_count x)
        (derived_functions l.d p (derivative_count x)) (l.d ^ derivatives xs) (products_of l tests trials xs)
        (pairs_of (sizes_of l tests trials xs) (source_of x.f.role) p.nodes (l.d ^ derivative_count x))
        ≡ products_of l tests trials (x ∷ xs) }
    ensures sizes { (l : Layout) (tests trials : Support) (x : Atom) (xs : List Atom) (p : Part)
        → slice_get (role_parts l x.f.role) x.component ≡ Some p → AreOn l Test tests (x ∷ xs)
        → AreOn l Trial trials (x ∷ xs) → with_factor (sizes_of l tests trials xs) (source_of x.f.role) p.nodes
        (l.d ^ derivative_count x) ≡ sizes_of l tests trials (x ∷ xs) }
{}
