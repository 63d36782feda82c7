//! The functions of a form.

ghost use Rattle.std.specs.Prelude.{◌≡◌, ℕ, List, IfOk};
ghost use Rattle.ufl_tree.specs.FormTerm.{FormTerm};
ghost use Rattle.ufl_tree.specs.Places.{table_of};
ghost use Rattle.ufl_form.specs.declared.table.FormKind.{FormKind};
ghost use Rattle.ufl_form.specs.Reading.{form_of};
ghost use Rattle.monos.specs.declared.weight.Weight.{Weight};
ghost use Rattle.form_kernels.specs.Admitted.{HasFormFunctions, HasFormLayout, IsAdmittedForm};
ghost use Rattle.form_kernels.specs.Parts.{AreMarkedFunctions, AreParts, ArePartsOf, IsFunctionFor};

use crate::names::{marked_name, plain_name};
use admit::{admission_law, weigh};
use assembly::{Funs, MarkedFun};
use c_unit::CFun;
use form_layouts::form_layout;
use form_monomials::{markers, monomials};
use integrands::{Integrand, flatten};
use monos::{Layout, Weight};
use planner::plan;
use std::alloc::{AllocError, Global};
use ufl_expr::Elements;
use ufl_form::Form;

/// The functions of a form, and where its local values stand.
#[derive(Drop)]
pub struct FormFunctions {
    pub layout: Layout,
    pub functions: Funs,
}

/// What the functions of a form are made of.
#[derive(Drop)]
struct FormParts {
    integrands: Vec<Integrand>,
    layout: Layout,
    weight: Weight,
}

/// The integrands, the layout and the weight of an admitted form.
fn form_parts(
    alloc: Global,
    form: &Form,
    elements: &Elements,
    coefficients: &[u16],
) -> Result<FormParts, AllocError>
    ensures { (k : FormKind) (w : Weight) → IsAdmittedForm (table_of elements.now) coefficients.now (form_of form.now) k w
        → IfOk result (ArePartsOf (table_of elements.now) coefficients.now (form_of form.now) k w) }
{
    // That the table is lawful, that the table of forms allows the tree, and that the weight is the admitted one.
    elements.lawful();
    let _tree = form.tree();
    admission_law();
    let integrands = flatten(alloc, form, elements)?;
    let layout = form_layout(alloc, elements, coefficients, form)?;
    Ok(FormParts {
        integrands,
        layout,
        weight: weigh(form, elements),
    })
}

/// The function of a marker, or of the cells whose marker the form doesn't name.
fn function(
    alloc: Global,
    name: &[u8],
    elements: &Elements,
    parts: &FormParts,
    marker: Option<u32>,
) -> Result<CFun, AllocError>
    requires { AreParts (table_of elements.now) parts.now }
    ensures { (numbers : List ℕ) (f : FormTerm) (k : FormKind) (w : Weight)
        → ArePartsOf (table_of elements.now) numbers f k w parts.now
        → IfOk result (IsFunctionFor (table_of elements.now) numbers f k w marker name.now) }
{
    let monomials = monomials(alloc, elements, parts.integrands.as_slice(), marker)?;
    plan(
        alloc,
        name,
        monomials.as_slice(),
        &parts.layout,
        &parts.weight,
    )
}

/// The functions of these markers.
fn marked_functions(
    alloc: Global,
    name: &[u8],
    elements: &Elements,
    parts: &FormParts,
    markers: &[u32],
) -> Result<Vec<MarkedFun>, AllocError>
    requires { AreParts (table_of elements.now) parts.now }
    ensures { (numbers : List ℕ) (f : FormTerm) (k : FormKind) (w : Weight)
        → ArePartsOf (table_of elements.now) numbers f k w parts.now
        → IfOk result (λ all. AreMarkedFunctions (table_of elements.now) numbers f k w name.now markers.now all.items) }
{
    let mut marked = Vec::new(alloc);
    for marker in markers {
        let own_name = marked_name(alloc, *marker, name)?;
        let fun = function(alloc, own_name.as_slice(), elements, parts, Some(*marker))?;
        marked.push(MarkedFun {
            marker: *marker,
            fun,
        })?;
    }
    Ok(marked)
}

/// The functions of a form on the cells of each marker: X has the coordinates of the cell's vertices, W the values of the
/// coefficients that occur, by rising number, and A the local entries, row by row. Of those for markers the rising ones
/// that the form names.
///
/// A form with more than 2^24 coefficient values on a cell counts as out of memory.
pub fn functions(
    alloc: Global,
    name: &[u8],
    form: &Form,
    elements: &Elements,
    coefficients: &[u16],
) -> Result<FormFunctions, AllocError>
    requires { (k : FormKind) × (w : Weight)
        × IsAdmittedForm (table_of elements.now) coefficients.now (form_of form.now) k w }
    ensures layout { (k : FormKind) (w : Weight)
        → IsAdmittedForm (table_of elements.now) coefficients.now (form_of form.now) k w
        → IfOk result (λ r. HasFormLayout (table_of elements.now) coefficients.now (form_of form.now) k.cell r.layout) }
    ensures functions { (k : FormKind) (w : Weight)
        → IsAdmittedForm (table_of elements.now) coefficients.now (form_of form.now) k w
        → IfOk result (λ r. HasFormFunctions (table_of elements.now) coefficients.now (form_of form.now) k.cell w name.now
        r.functions) }
{
    let parts = form_parts(alloc, form, elements, coefficients)?;
    let own_name = plain_name(alloc, name)?;
    let plain = function(alloc, own_name.as_slice(), elements, &parts, None)?;
    let named = markers(alloc, parts.integrands.as_slice())?;
    let marked = marked_functions(alloc, name, elements, &parts, named.as_slice())?;
    Ok(FormFunctions {
        layout: parts.layout,
        functions: Funs { plain, marked },
    })
}
