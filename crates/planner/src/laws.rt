//! What is proved of planned kernels in general. Each law is the contract of a function that does nothing, for provers
//! to call or cite.

ghost use Rattle.std.specs.Prelude.{◌≡◌, [], ◌∷◌};
ghost use Rattle.calculus.specs.Mass.{third};
ghost use Rattle.refint.specs.Examples.{mass_layout, mass_monomial};
ghost use Rattle.planner.specs.Kernels.{kernel_tables};

/// Worked: the one table of u*v with functions of degree 1 on intervals has the one item 1/3, since each other row is a
/// multiple of the first.
pub fn worked_table()
    ensures { kernel_tables mass_layout (mass_monomial ∷ []) ≡ (third ∷ []) ∷ [] }
{}
