//! The layout of a form's local values, and how many entries its local tensor has.

ghost use Rattle.std.specs.Prelude.{◌≡◌, ℕ, List, ◌≤◌, ◌<◌, ◌^◌, nat_le, if◌then◌else◌, slice_get, IfOk};
ghost use Rattle.algebra.specs.Fraction.{Fraction};
ghost use Rattle.mesh_in.specs.MeshData.{MeshData};
ghost use Rattle.spaces.specs.Reading.{space_of};
ghost use Rattle.spaces.specs.Scalar.{laid_out};
ghost use Rattle.spaces.specs.Space.{scalars};
ghost use Rattle.monos.specs.Layout.{position_parts, value_count};
ghost use Rattle.ufl_tree.specs.Places.{table_of};
ghost use Rattle.ufl_form.specs.Reading.{form_of};
ghost use Rattle.ufl_form.specs.Table.{form_patterns};
ghost use Rattle.admit.specs.Admission.{rank_of};
ghost use Rattle.assembly.specs.Assembly.{entry_count, width_of};
ghost use Rattle.form_values.specs.CellLayout.{Occurring, layout_of, parts_of, places_from};
ghost use Rattle.form_values.specs.Problem.{Problem};
ghost use Rattle.form_layouts.specs.Layouts.{element_at, IsLayoutOf, IsLawfulFor};
ghost use Rattle.form_layouts.specs.Problems.{arguments_of, form_problem, ranked};

use crate::occurrences::find_occurrences;
use admit::rank;
use monos::{CoefPlace, Layout};
use spaces::{Cell, Element, Family, Part, Parts, node_count};
use sqlite_items::Items;
use std::alloc::{AllocError, Global};
use ufl_expr::Elements;
use ufl_form::Form;
use ufl_tree::Role;

/// Most values of all coefficients on a cell.
const MOST_VALUES: u32 = 1 << 24;

/// The number of the test function's element, where the form has a test function in each of its terms.
pub fn test_element(form: &Form) -> Option<u16>
    ensures { result ≡ ranked (nat_le 1 (rank_of (form_patterns (form_of form.now))))
        (arguments_of (form_of form.now)).test }
{
    // That the table of forms allows the tree gives its arguments.
    let _tree = form.tree();
    if rank(form) >= 1 {
        form.element(Role::Test)
    } else {
        None
    }
}

/// The number of the trial function's element, where the form has a trial function in each of its terms.
pub fn trial_element(form: &Form) -> Option<u16>
    ensures { result ≡ ranked (nat_le 2 (rank_of (form_patterns (form_of form.now))))
        (arguments_of (form_of form.now)).trial }
{
    let _tree = form.tree();
    if rank(form) >= 2 {
        form.element(Role::Trial)
    } else {
        None
    }
}

/// The parts of the element of this number; none where there is no such element.
fn parts_of(alloc: Global, elements: &Elements, number: Option<u16>) -> Result<Parts, AllocError>
    ensures { IfOk result (λ parts. parts ≡ parts_of (element_at (table_of elements.now) number)) }
{
    let Some(number) = number else {
        return Ok(Parts::none(alloc));
    };
    match elements.get(number) {
        None => Ok(Parts::none(alloc)),
        Some(element) => element.parts(alloc),
    }
}

/// How many local values an element has.
fn local_size(element: &Element) -> u32
    ensures value { result ≡ width_of (laid_out (scalars (space_of element.now))) }
    ensures few { result ≤ 1280 }
{
    // That the tree is lawful bounds the nodes of each part.
    let _tree = element.tree();
    match element.part_of(element.value_size() - 1) {
        None => unreachable!(),
        Some(last) => last.offset + last.nodes as u32,
    }
}

/// How many local rows an argument with the element of this number has, at most 1280; one where there is no such
/// element.
fn width(elements: &Elements, number: Option<u16>) -> u32
    ensures value { result ≡ width_of (parts_of (element_at (table_of elements.now) number)) }
    ensures few { result ≤ 1280 }
{
    let Some(number) = number else {
        return 1;
    };
    match elements.get(number) {
        None => 1,
        Some(element) => local_size(element),
    }
}

/// The parts of the coordinate of space: one function of degree 1 for each coordinate.
fn position_parts(alloc: Global, cell: Cell) -> Result<Parts, AllocError>
    ensures { IfOk result (λ parts. parts ≡ position_parts cell) }
{
    let part = Part {
        family: Family::Lagrange,
        degree: 1,
        nodes: node_count(cell, 1),
        offset: 0,
    };
    Parts::copies(alloc, part, cell.dim())
}

/// The parts of the coordinate of space, where it occurs.
fn optional_position(alloc: Global, cell: Cell, occurs: bool) -> Result<Option<Parts>, AllocError>
    ensures { IfOk result (λ position. position ≡ (if occurs then Some (position_parts cell) else None)) }
{
    if occurs {
        Ok(Some(position_parts(alloc, cell)?))
    } else {
        Ok(None)
    }
}

/// The number of a coefficient's element, where there is such a coefficient.
fn element_number(coefficients: &[u16], number: u32) -> Option<u16>
    ensures { result ≡ slice_get coefficients.now number }
{
    coefficients.get(number as usize).copied()
}

/// The places of the coefficients of these numbers, one behind the other. Memory is wanting where they have over 2^24
/// values on a cell.
fn places(
    alloc: Global,
    elements: &Elements,
    coefficients: &[u16],
    numbers: &[u32],
) -> Result<Items<CoefPlace>, AllocError>
    ensures places { (p : Problem) → p.elements ≡ table_of elements.now → p.coefficients ≡ coefficients.now
        → IfOk result (λ places. places ≡ places_from p 0 numbers.now) }
    ensures few { IfOk result (λ places. value_count places ≤ 2 ^ 24) }
{
    let mut places = Items::new(alloc);
    let mut offset = 0;
    for number in numbers {
        let parts = parts_of(alloc, elements, element_number(coefficients, *number))?;
        let local = parts.local;
        if local > MOST_VALUES - offset {
            return Err(AllocError);
        }
        places.push(CoefPlace {
            number: *number,
            offset,
            parts,
        })?;
        offset += local;
    }
    Ok(places)
}

/// The layout of a form over these elements and with the coefficients of these elements, on any mesh of its cell.
/// Only what occurs in the form has its place. A layout with over 2^24 values of all coefficients on a cell isn't
/// given: memory is wanting.
pub fn form_layout(
    alloc: Global,
    elements: &Elements,
    coefficients: &[u16],
    form: &Form,
) -> Result<Layout, AllocError>
    ensures layout { IfOk result (IsLayoutOf (table_of elements.now) coefficients.now (form_of form.now)) }
    ensures lawful { IfOk result (IsLawfulFor (table_of elements.now) coefficients.now (form_of form.now)) }
    ensures few { IfOk result (λ l. entry_count l ≤ 2 ^ 24) }
{
    // That the form has a kind, and that its elements have few local rows, bounds the entries.
    let _tree = form.tree();
    let _entries = entry_count(elements, form);
    let found = find_occurrences(alloc, form, coefficients.len())?;
    let rows = parts_of(alloc, elements, test_element(form))?;
    let cols = parts_of(alloc, elements, trial_element(form))?;
    let coefs = places(alloc, elements, coefficients, found.coefficients.as_slice())?;
    let position = optional_position(alloc, form.cell(), found.position)?;
    Ok(Layout {
        d: form.cell().dim(),
        rows,
        cols,
        coefs,
        position,
    })
}

/// How many entries the local tensor of a form has on each cell, from 1 to 1280 * 1280: the local rows of the test
/// function times those of the trial function, where one that the form doesn't have counts as one row. Takes no
/// memory.
pub fn entry_count(elements: &Elements, form: &Form) -> u32
    ensures value { (coefficients : List ℕ) (m : MeshData Fraction) (values : ℕ → List Fraction) (o : Occurring)
        → result
        ≡ entry_count (layout_of (form_problem (table_of elements.now) coefficients (form_of form.now) m values) o) }
    ensures few { result ≤ 2 ^ 24 }
{
    width(elements, test_element(form)) * width(elements, trial_element(form))
}
