//! What is proved of basis functions in general. Each law is the contract of a function that does nothing, for provers to call or cite.

ghost use Rattle.std.specs.Prelude.{◌≡◌, ℕ};
ghost use Rattle.calculus.specs.Polynomial.{one};
ghost use Rattle.calculus.specs.Simplex.{reference};
ghost use Rattle.calculus.specs.LocalFunction.{local_function};
ghost use Rattle.spaces.specs.declared.cell.Cell.{Cell};
ghost use Rattle.spaces.specs.Cell.{dimension};
ghost use Rattle.spaces.specs.Nodes.{nodes_of};
ghost use Rattle.lagrange.specs.Sums.{sum_over};

/// The basis functions of a part add up to 1, for every degree.
pub fn sum_of_basis()
    ensures { (c : Cell) (q : ℕ) → sum_over (local_function (reference (dimension c))) (nodes_of c q) ≡ one }
{}
