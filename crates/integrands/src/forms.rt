//! The integrands of a form.

ghost use Rattle.std.specs.Prelude.{◌≡◌, ◌++◌, IfOk, [], ◌∷◌, map};
ghost use Rattle.ufl_tree.specs.Places.{table_of};
ghost use Rattle.ufl_tree.specs.Reading.{typed_of};
ghost use Rattle.ufl_form.specs.Fits.{Fits};
ghost use Rattle.ufl_form.specs.Reading.{form_of};
ghost use Rattle.integrands.specs.Integrands.{integrands_of, with_body};
ghost use Rattle.integrands.specs.Flattening.{under, integrand_term, flattened};
ghost use Rattle.integrands.specs.Keeping.{AreExpanded, HaveDensity, HaveWeight};

use crate::integrand::Integrand;
use crate::operator::Operator;
use derivatives::expand;
use passes::lower;
use std::alloc::{AllocError, Global};
use typing::fitting;
use ufl_expr::{Elements, Expr};
use ufl_form::{Form, FormTree};
use ufl_tree::On;

/// These integrands, and that of an integral behind them.
fn with_integral(
    alloc: Global,
    elements: &Elements,
    on: On,
    e: &Expr,
    mut found: Vec<Integrand>,
) -> Result<Vec<Integrand>, AllocError>
    ensures { IfOk result (λ all. integrands_of all.items ≡ integrands_of found.items
        ++ record { on = on; body = integrand_term (table_of elements.now) (typed_of e.now) } ∷ []) }
{
    let component = lower(alloc, e, &[], elements)?;
    let body = expand(alloc, &component)?;
    found.push(Integrand { on, body })?;
    Ok(found)
}

/// These integrands, and others under an operator behind them.
fn with_all(
    alloc: Global,
    operator: Operator,
    others: Vec<Integrand>,
    found: Vec<Integrand>,
) -> Result<Vec<Integrand>, AllocError>
    ensures { IfOk result (λ all. integrands_of all.items ≡ integrands_of found.items
        ++ map (with_body (under operator)) (integrands_of others.items)) }
{
    let mut all = found;
    for one in others {
        all.push(one.under(alloc, operator)?)?;
    }
    Ok(all)
}

/// These integrands, and those of a form behind them.
#[tactic(auto, using(ufl_form::proofs::FormReadings::form_readings))]
#[cycle(flattening)]
fn with_form(
    alloc: Global,
    elements: &Elements,
    form: &FormTree,
    found: Vec<Integrand>,
) -> Result<Vec<Integrand>, AllocError>
    ensures { IfOk result (λ all. integrands_of all.items
        ≡ integrands_of found.items ++ flattened (table_of elements.now) (form_of form.now)) }
{
    match form {
        FormTree::Integral { on, body } => with_integral(alloc, elements, *on, body, found),
        FormTree::Sum(f, g) => {
            let first = with_form(alloc, elements, f.get(), found)?;
            with_form(alloc, elements, g.get(), first)
        }
        FormTree::Scale(c, f) => {
            with_changed(alloc, elements, f.get(), Operator::Scale(*c), found)
        }
        FormTree::Left(f) => with_changed(alloc, elements, f.get(), Operator::Left, found),
        FormTree::Right(f) => with_changed(alloc, elements, f.get(), Operator::Right, found),
        FormTree::Action { body, last, f } => {
            let action = Operator::Action {
                last: *last,
                by: f.role,
            };
            with_changed(alloc, elements, body.get(), action, found)
        }
        FormTree::Adjoint(f) => with_changed(alloc, elements, f.get(), Operator::Adjoint, found),
        FormTree::Derivative { body, w, du } => {
            let derivative = Operator::Derivative {
                coef: w.role,
                dir: du.role,
            };
            with_changed(alloc, elements, body.get(), derivative, found)
        }
    }
}

/// These integrands, and those of a form under an operator behind them.
#[cycle(flattening)]
fn with_changed(
    alloc: Global,
    elements: &Elements,
    form: &FormTree,
    operator: Operator,
    found: Vec<Integrand>,
) -> Result<Vec<Integrand>, AllocError>
    ensures { IfOk result (λ all. integrands_of all.items ≡ integrands_of found.items
        ++ map (with_body (under operator)) (flattened (table_of elements.now) (form_of form.now))) }
{
    let others = with_form(alloc, elements, form, Vec::new(alloc))?;
    with_all(alloc, operator, others, found)
}

/// The integrands of a form in index notation, one for each integral, from left to right: the operators on the form
/// and all derivatives are carried out. Where the form fits the elements, as those that a file exports do, they add up
/// to its density, and its weight bounds the sum of each choice of them.
pub fn flatten(
    alloc: Global,
    form: &Form,
    elements: &Elements,
) -> Result<Vec<Integrand>, AllocError>
    ensures tree { IfOk result (λ all. integrands_of all.items
        ≡ flattened (table_of elements.now) (form_of form.now)) }
    ensures expanded { IfOk result (λ all. AreExpanded (integrands_of all.items)) }
    ensures density { Fits (table_of elements.now) form.now
        → IfOk result (λ all. HaveDensity (table_of elements.now) (form_of form.now) (integrands_of all.items)) }
    ensures weight { Fits (table_of elements.now) form.now
        → IfOk result (λ all. HaveWeight (table_of elements.now) (form_of form.now) (integrands_of all.items)) }
{
    // Lowering keeps the meaning over lawful elements.
    elements.lawful();
    fitting(form, elements);
    with_form(alloc, elements, form.tree(), Vec::new(alloc))
}
