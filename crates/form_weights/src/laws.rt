//! What is proved of weights over layouts. Each law is the contract of a function that does nothing, for provers to
//! call or cite.

ghost use Rattle.std.specs.Prelude.{List};
ghost use Rattle.std.specs.List.{AllByRecursion};
ghost use Rattle.ufl_tree.specs.declared.function.Function.{Function};
ghost use Rattle.ufl_tree.specs.Places.{Table};
ghost use Rattle.monos.specs.declared.layout.Layout.{Layout};
ghost use Rattle.monos.specs.declared.weight.Weight.{Weight};
ghost use Rattle.monos.specs.Monomial.{Monomial};
ghost use Rattle.weigh.specs.Lists.{HasWeight};
ghost use Rattle.normal.specs.Bounding.{cost_of, HaveNumbers};
ghost use Rattle.form_values.specs.Problem.{Problem};
ghost use Rattle.form_values.specs.CellLayout.{Occurring, layout_of};
ghost use Rattle.monomial_weights.specs.Weighed.{cost_at, IsWithin};
ghost use Rattle.form_weights.specs.Places.{HasItsParts, HaveTheirParts, IsElementFor};

/// Where a layout has the parts of each function's element in a table, what a weight says of a sum of monomials
/// over the table it says over the layout, and it bounds each of them there.
pub fn weights()
    ensures sum { (elements : Table) (l : Layout) (w : Weight) (ms : List Monomial) → HaveTheirParts elements l ms
        → HasWeight (cost_of elements) l.d w ms → HasWeight (cost_at l) l.d w ms }
    ensures each { (elements : Table) (l : Layout) (w : Weight) (ms : List Monomial) → HaveTheirParts elements l ms
        → HasWeight (cost_of elements) l.d w ms → HaveNumbers elements w ms → AllByRecursion (IsWithin l w) ms }
{}

/// The layout of a problem has the parts of the element of each function that has its place there.
pub fn layouts()
    ensures { (p : Problem) (o : Occurring) (f : Function) → IsElementFor p o f.role f.element
        → HasItsParts p.elements (layout_of p o) f }
{}
