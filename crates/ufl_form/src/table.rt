//! What a form is on: its cell and the elements of its arguments.

ghost use Rattle.std.specs.Prelude.{◌≡◌, Some, slice_get};
ghost use Rattle.spaces.specs.Reading.{space_of};
ghost use Rattle.ufl_tree.specs.Reading.{typed_of};
ghost use Rattle.ufl_expr.specs.Shapes.{is_scalar};
ghost use Rattle.ufl_tree.specs.Places.{table_of};
ghost use Rattle.spaces.specs.Cell.{same_cell};
ghost use Rattle.ufl_form.specs.Table.{no_free, integral_from, integral_kind, with_arguments, sum_kind, right_kind, adjoint_kind, is_coefficient, is_direction, element_of, has_element, dropped, action_kind, derivative_kind, last_of, is_real, is_constant, varies_on, turned_kind};

use crate::arguments::{Arguments, joined, tree_arguments};
use crate::pattern_set::PatternSet;
use spaces::{Cell, Element, ElementTree, Family, same_cell};
use ufl_expr::{Elements, Expr, TypeRefusal};
use ufl_tree::{Free, Function, Role};

/// The cell of a form and the elements of its arguments.
#[derive(Clone, Copy, Debug, PartialEq, Eq)]
pub(crate) struct FormKind {
    pub cell: Cell,
    pub arguments: Arguments,
}

fn is_scalar(shape: &[u8]) -> bool
    ensures { result ≡ is_scalar shape.now }
{
    match shape.split_first() {
        None => true,
        Some(_) => false,
    }
}

fn no_free(free: &[Free]) -> bool
    ensures { result ≡ no_free free.now }
{
    match free.split_first() {
        None => true,
        Some(_) => false,
    }
}

/// `Kind`, then `Shape`, then `FreeIndex`.
fn integral_from(
    cell: Option<Cell>,
    arguments: Option<Arguments>,
    scalar: bool,
    bound: bool,
) -> Result<FormKind, TypeRefusal>
    ensures { result ≡ integral_from cell arguments scalar bound }
{
    match (cell, arguments) {
        (None, _) => Err(TypeRefusal::Kind),
        (Some(_), None) => Err(TypeRefusal::Kind),
        (Some(cell), Some(arguments)) => if !scalar {
            Err(TypeRefusal::Shape)
        } else if !bound {
            Err(TypeRefusal::FreeIndex)
        } else {
            Ok(FormKind { cell, arguments })
        },
    }
}

/// Of the integral of an expression.
pub(crate) fn integral_kind(body: &Expr) -> Result<FormKind, TypeRefusal>
    ensures { result ≡ integral_kind (typed_of body.now) }
{
    integral_from(
        body.cell(),
        tree_arguments(body.tree()),
        is_scalar(body.shape()),
        no_free(body.free()),
    )
}

/// `Kind` exactly where an argument has two elements.
fn with_arguments(cell: Cell, arguments: Option<Arguments>) -> Result<FormKind, TypeRefusal>
    ensures { result ≡ with_arguments cell arguments }
{
    match arguments {
        None => Err(TypeRefusal::Kind),
        Some(arguments) => Ok(FormKind { cell, arguments }),
    }
}

/// Of a sum.
pub(crate) fn sum_kind(a: FormKind, b: FormKind) -> Result<FormKind, TypeRefusal>
    ensures { result ≡ sum_kind a b }
{
    if same_cell(a.cell, b.cell) {
        with_arguments(a.cell, joined(a.arguments, b.arguments))
    } else {
        Err(TypeRefusal::Kind)
    }
}

/// Of the part without the trial function.
pub(crate) fn right_kind(a: FormKind) -> FormKind
    ensures { result ≡ right_kind a }
{
    FormKind {
        cell: a.cell,
        arguments: Arguments {
            test: a.arguments.test,
            trial: None,
        },
    }
}

/// With the arguments exchanged.
pub(crate) fn adjoint_kind(a: FormKind) -> FormKind
    ensures { result ≡ adjoint_kind a }
{
    FormKind {
        cell: a.cell,
        arguments: Arguments {
            test: a.arguments.trial,
            trial: a.arguments.test,
        },
    }
}

fn is_coefficient(role: Role) -> bool
    ensures { result ≡ is_coefficient role }
{
    match role {
        Role::Test | Role::Trial | Role::Position => false,
        Role::Coefficient(_) => true,
    }
}

/// The last argument of a form with these patterns. `Kind` exactly where it has none.
pub(crate) fn last_of(patterns: PatternSet) -> Result<Role, TypeRefusal>
    ensures { result ≡ last_of patterns }
{
    if patterns.has_trial() {
        Ok(Role::Trial)
    } else if patterns.has_test() {
        Ok(Role::Test)
    } else {
        Err(TypeRefusal::Kind)
    }
}

/// The element of an argument.
pub(crate) fn element_of(role: Role, arguments: Arguments) -> Option<u16>
    ensures { result ≡ element_of role arguments }
{
    match role {
        Role::Test => arguments.test,
        Role::Trial => arguments.trial,
        Role::Position | Role::Coefficient(_) => None,
    }
}

fn has_element(element: Option<u16>, number: u16) -> bool
    ensures { result ≡ has_element element number }
{
    match element {
        None => false,
        Some(element) => element == number,
    }
}

/// The arguments without this one.
fn dropped(role: Role, arguments: Arguments) -> Arguments
    ensures { result ≡ dropped role arguments }
{
    match role {
        Role::Test => Arguments {
            test: None,
            trial: arguments.trial,
        },
        Role::Trial => Arguments {
            test: arguments.test,
            trial: None,
        },
        Role::Position | Role::Coefficient(_) => arguments,
    }
}

/// With a function in place of this argument.
pub(crate) fn action_kind(a: FormKind, last: Role, f: Function) -> Result<FormKind, TypeRefusal>
    ensures { result ≡ action_kind a last f }
{
    if !is_coefficient(f.role) {
        return Err(TypeRefusal::Kind);
    }
    if !has_element(element_of(last, a.arguments), f.element) {
        return Err(TypeRefusal::Kind);
    }
    Ok(FormKind {
        cell: a.cell,
        arguments: dropped(last, a.arguments),
    })
}

/// An argument or a coefficient.
fn is_direction(role: Role) -> bool
    ensures { result ≡ is_direction role }
{
    match role {
        Role::Test | Role::Trial | Role::Coefficient(_) => true,
        Role::Position => false,
    }
}

/// Of the derivative by w in the direction du.
fn derivative_kind(a: FormKind, w: Function, du: Function) -> Result<FormKind, TypeRefusal>
    ensures { result ≡ derivative_kind a w du }
{
    if !is_coefficient(w.role) || !is_direction(du.role) {
        return Err(TypeRefusal::Kind);
    }
    if w.element != du.element {
        return Err(TypeRefusal::Kind);
    }
    with_arguments(a.cell, joined(a.arguments, Arguments::of(du)))
}

fn is_real(family: Family) -> bool
    ensures { result ≡ is_real family }
{
    match family {
        Family::Real => true,
        Family::Lagrange | Family::Dg => false,
    }
}

/// Functions of the element have one value for the whole mesh.
#[tactic(auto, using(spaces::proofs::ReadingLaws::readings))]
fn is_constant(tree: &ElementTree) -> bool
    ensures { result ≡ is_constant (space_of tree.now) }
{
    match tree {
        ElementTree::Scalar { family, .. } => is_real(*family),
        ElementTree::Vector { part, .. } => is_constant(part.get()),
        ElementTree::Tensor { part, .. } => is_constant(part.get()),
        ElementTree::Mixed { .. } => false,
    }
}

/// Functions of the element aren't constants, and are on this cell.
fn element_varies_on(element: &Element, cell: Cell) -> bool
    ensures { result ≡ varies_on (Some (space_of element.now)) cell }
{
    if is_constant(element.tree()) {
        return false;
    }
    same_cell(element.cell(), cell)
}

/// The same of the element of this number, where there is one.
#[tactic(auto, using(crate::proofs::DirectionLaws::no_element, crate::proofs::DirectionLaws::at_element))]
fn varies_on(elements: &Elements, number: u16, cell: Cell) -> bool
    ensures { result ≡ varies_on (slice_get (table_of elements.now) number) cell }
{
    match elements.get(number) {
        None => false,
        Some(element) => element_varies_on(element, cell),
    }
}

/// Of the derivative by w in the direction du, with the elements of this table.
pub(crate) fn turned_kind(
    elements: &Elements,
    a: FormKind,
    w: Function,
    du: Function,
) -> Result<FormKind, TypeRefusal>
    ensures { result ≡ turned_kind (table_of elements.now) a w du }
{
    if !varies_on(elements, w.element, a.cell) {
        return Err(TypeRefusal::Kind);
    }
    derivative_kind(a, w, du)
}
