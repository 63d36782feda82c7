//! The monomials of the function of a marker.

ghost use Rattle.std.specs.Prelude.{◌≡◌, IfOk, [], Ok, true};
ghost use Rattle.monos.specs.Monomial.{monomials_of};
ghost use Rattle.normal.specs.Collecting.{IsStrict, HasNoZero};
ghost use Rattle.normal.specs.Order.{comes_before, AreInOrder};
ghost use Rattle.normal.specs.Origins.{HasPlace, AllAtoms};
ghost use Rattle.ufl_tree.specs.FormTerm.{FormTerm};
ghost use Rattle.ufl_tree.specs.Places.{table_of};
ghost use Rattle.ufl_form.specs.declared.table.FormKind.{FormKind};
ghost use Rattle.ufl_form.specs.Table.{AreTyped, form_kind, form_patterns};
ghost use Rattle.admit.specs.Admission.{has_arity, rank_of};
ghost use Rattle.integrands.specs.Flattening.{flattened};
ghost use Rattle.integrands.specs.Integrands.{integrands_of};
ghost use Rattle.form_monomials.specs.Markers.{bodies_in};
ghost use Rattle.form_monomials.specs.Monomials.{AreAdmitted, AddUp, AreBounded, HaveBoundedNumbers, HaveBodies, HaveRank};

use crate::choice::bodies;
use crate::sums::sum_of;
use integrands::Integrand;
use monos::Mono;
use normal::normal;
use std::alloc::{AllocError, Global};
use ufl_expr::Elements;

/// The monomials of the function of a marker of a form, or, where none is given, of the function of the cells whose
/// marker the form doesn't name: the bodies of its integrands, added and put in normal form, and none where it has no
/// integrand. Each has its atoms in order, the list is in order, no two have the same atoms, and none is 0. Where the
/// form has an arity, each has as many factors of the test and of the trial function as the form's rank says.
pub fn monomials(
    alloc: Global,
    elements: &Elements,
    integrands: &[Integrand],
    marker: Option<u32>,
) -> Result<Vec<Mono>, AllocError>
    requires { AreAdmitted (table_of elements.now) (integrands_of integrands.now) }
    ensures value { IfOk result (λ ms. AddUp (table_of elements.now) (integrands_of integrands.now) marker
        (monomials_of ms.items)) }
    ensures none { bodies_in marker (integrands_of integrands.now) ≡ [] → IfOk result (λ ms. ms.items ≡ []) }
    ensures weight { IfOk result (λ ms. AreBounded (table_of elements.now) (integrands_of integrands.now)
        (monomials_of ms.items)) }
    ensures numbers { IfOk result (λ ms. HaveBoundedNumbers (table_of elements.now) (integrands_of integrands.now)
        (monomials_of ms.items)) }
    ensures arguments { (f : FormTerm) (k : FormKind) → AreTyped f → form_kind f ≡ Ok k
        → has_arity (form_patterns f) ≡ true → integrands_of integrands.now ≡ flattened (table_of elements.now) f
        → IfOk result (λ ms. HaveRank (rank_of (form_patterns f)) (monomials_of ms.items)) }
    ensures leaves { IfOk result (λ ms. AllAtoms (λ a. HaveBodies a.f (bodies_in marker (integrands_of integrands.now)))
        (monomials_of ms.items)) }
    ensures places { IfOk result (λ ms. AllAtoms (HasPlace (table_of elements.now)) (monomials_of ms.items)) }
    ensures strict { IfOk result (λ ms. IsStrict comes_before (monomials_of ms.items)) }
    ensures nonzero { IfOk result (λ ms. HasNoZero (monomials_of ms.items)) }
    ensures in_order { IfOk result (λ ms. AreInOrder (monomials_of ms.items)) }
{
    let parts = bodies(alloc, integrands, marker)?;
    if parts.is_empty() {
        return Ok(Vec::new(alloc));
    }
    let body = sum_of(alloc, parts)?;
    normal(alloc, elements, &body)
}
