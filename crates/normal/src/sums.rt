//! The sum of monomials that an expanded tree is.

ghost use Rattle.std.specs.Prelude.{◌≡◌, IfOk, IfErr};
ghost use Rattle.ufl_meaning.specs.Prelude.{no_names};
ghost use Rattle.ufl_tree.specs.Places.{table_of};
ghost use Rattle.ufl_tree.specs.Reading.{term_of};
ghost use Rattle.monos.specs.Monomial.{monomials_of};
ghost use Rattle.normal.specs.Gathering.{AddsUp, IsBounded, IsSafe, IsNormalOf};
ghost use Rattle.monos.specs.declared.weight.Weight.{Weight};
ghost use Rattle.weigh.specs.Prelude.{Bounds, term_weight};
ghost use Rattle.normal.specs.Bounding.{HaveNumbers};
ghost use Rattle.normal.specs.Monomials.{monomials};
ghost use Rattle.normal.specs.Origins.{HasFunction, HasPlace, AllAtoms, HaveOrigins};
ghost use Rattle.normal.specs.Collecting.{IsStrict, HasNoZero};
ghost use Rattle.normal.specs.Order.{comes_before, AreInOrder};
ghost use Rattle.normal.specs.declared.refusal.NormalRefusal.TheVariants.{Memory};

use crate::collect::collected;
use crate::refusal::NormalRefusal;
use crate::walk::sum;
use monos::Mono;
use std::alloc::{AllocError, Global};
use ufl_expr::Elements;
use ufl_tree::Plain;

/// The monomials of a tree without free indices, whether or not its steps fit.
pub(crate) fn sum_of_monomials(
    alloc: Global,
    elements: &Elements,
    e: &Plain,
) -> Result<Vec<Mono>, NormalRefusal>
    ensures value { IfOk result (λ ms. IsNormalOf (table_of elements.now) (term_of e.now) (monomials_of ms.items)) }
    ensures range { IfErr result (λ r. IsSafe (table_of elements.now) (term_of e.now) → r ≡ Memory) }
{
    let ms = sum(alloc, elements, &[], e)?;
    collected(alloc, ms)
}

/// The monomials of an expanded tree without free indices, where no step on their coefficients passes: each with its
/// atoms in order, the list in order, no two with the same atoms, none of them 0. Each has the functions of one of the
/// monomials that the tree has before any are put together.
pub fn normal(alloc: Global, elements: &Elements, e: &Plain) -> Result<Vec<Mono>, AllocError>
    requires { IsSafe (table_of elements.now) (term_of e.now) }
    ensures value { IfOk result (λ ms. AddsUp (table_of elements.now) (term_of e.now) no_names
        (monomials_of ms.items)) }
    ensures weight { IfOk result (λ ms. IsBounded (table_of elements.now) (term_of e.now) (monomials_of ms.items)) }
    ensures numbers { IfOk result (λ ms. (w : Weight) → Bounds w (term_weight (table_of elements.now) (term_of e.now))
        → HaveNumbers (table_of elements.now) w (monomials_of ms.items)) }
    ensures leaves { IfOk result (λ ms. AllAtoms (λ a. HasFunction a.f (term_of e.now)) (monomials_of ms.items)) }
    ensures places { IfOk result (λ ms. AllAtoms (HasPlace (table_of elements.now)) (monomials_of ms.items)) }
    ensures origins { IfOk result (λ ms. HaveOrigins (monomials (table_of elements.now) (term_of e.now) no_names)
        (monomials_of ms.items)) }
    ensures strict { IfOk result (λ ms. IsStrict comes_before (monomials_of ms.items)) }
    ensures nonzero { IfOk result (λ ms. HasNoZero (monomials_of ms.items)) }
    ensures in_order { IfOk result (λ ms. AreInOrder (monomials_of ms.items)) }
{
    match sum_of_monomials(alloc, elements, e) {
        Ok(ms) => Ok(ms),
        Err(NormalRefusal::Memory) => Err(AllocError),
        Err(NormalRefusal::Range) => unreachable!(),
    }
}
