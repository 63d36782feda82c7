//! What a node says of its value, from what its operands say of theirs.

ghost use Rattle.std.specs.Prelude.{◌≡◌, ◌++◌, Ok};
ghost use Rattle.ufl_tree.specs.Reading.{kind_of, typed_of};
ghost use Rattle.ufl_expr.specs.Answer.{Gives};
ghost use Rattle.ufl_expr.specs.Table.{kind_from, joined_cell, identity_kind, one_kind, two_kind, power_kind, index_kind, partial_kind, tensor_kind, variable_cell, variable_kind, diff_cell, diff_kind, has_argument};
ghost use Rattle.ufl_tree.specs.Indices.{cell_size};
ghost use Rattle.ufl_expr.specs.Signatures.{kinds};

use crate::arguments::has_argument;
use crate::frees::{bound, free_of, joined, named, none_free, sizes_of, two_free};
use crate::refusal::TypeRefusal;
use crate::shapes::{along_shape, is_scalar, one_shape, rest_shape, shape_if, sizes, two_shape};
use spaces::Cell;
use sqlite_items::Items;
use std::alloc::Global;
use ufl_tree::{Free, Ix, Op1, Op2, Tree};

/// Largest identity matrix.
const MOST_ROWS: u8 = 64;

/// The shape, the free indices and the cell of a value.
#[derive(Drop)]
pub(crate) struct Signature {
    pub shape: Items<u8>,
    pub free: Items<Free>,
    pub cell: Option<Cell>,
}

/// A signature, or why there is none.
type Signed = Result<Signature, TypeRefusal>;

/// All three, or the first refusal in this order.
pub(crate) fn together(
    cell: Result<Option<Cell>, TypeRefusal>,
    shape: Result<Items<u8>, TypeRefusal>,
    free: Result<Items<Free>, TypeRefusal>,
) -> Signed
    ensures { kinds result ≡ kind_from cell shape free }
{
    match (cell, shape, free) {
        (Err(refusal), _, _) => Err(refusal),
        (Ok(_), Err(refusal), _) => Err(refusal),
        (Ok(_), Ok(_), Err(refusal)) => Err(refusal),
        (Ok(cell), Ok(shape), Ok(free)) => Ok(Signature { shape, free, cell }),
    }
}

/// The cell of two operands.
pub(crate) fn joined_cell(a: Option<Cell>, b: Option<Cell>) -> Result<Option<Cell>, TypeRefusal>
    ensures { result ≡ joined_cell a b }
{
    match (a, b) {
        (None, cell) => Ok(cell),
        (Some(cell), None) => Ok(Some(cell)),
        (Some(cell), Some(other)) => if cell == other {
            Ok(Some(cell))
        } else {
            Err(TypeRefusal::Kind)
        },
    }
}

/// Of the identity matrix of n rows.
pub(crate) fn identity_signature(alloc: Global, n: u8) -> Signed
    ensures { Gives (kinds result) (identity_kind n) }
{
    if n == 0 || n > MOST_ROWS {
        return Err(TypeRefusal::Kind);
    }
    Ok(Signature {
        shape: Items::from_slice(alloc, &[n, n])?,
        free: Items::new(alloc),
        cell: None,
    })
}

/// Of an operator of one operand.
pub(crate) fn one_signature(alloc: Global, op: Op1, a: &Tree) -> Signed
    ensures { Gives (kinds result) (one_kind op (kind_of a.now)) }
{
    together(
        Ok(a.cell),
        one_shape(alloc, op, a.shape.as_slice(), a.cell),
        free_of(alloc, a),
    )
}

/// Of an operator of two operands.
pub(crate) fn two_signature(alloc: Global, op: Op2, a: &Tree, b: &Tree) -> Signed
    ensures { Gives (kinds result) (two_kind op (kind_of a.now) (kind_of b.now)) }
{
    together(
        joined_cell(a.cell, b.cell),
        two_shape(alloc, op, a.shape.as_slice(), b.shape.as_slice()),
        two_free(alloc, op, a.free.as_slice(), b.free.as_slice()),
    )
}

/// Of a power.
pub(crate) fn power_signature(alloc: Global, a: &Tree) -> Signed
    ensures { Gives (kinds result) (power_kind (kind_of a.now)) }
{
    together(
        Ok(a.cell),
        shape_if(alloc, is_scalar(a.shape.as_slice()), &[]),
        none_free(alloc, a.free.as_slice()),
    )
}

/// Of a component.
pub(crate) fn index_signature(alloc: Global, a: &Tree, at: &[Ix]) -> Signed
    ensures { Gives (kinds result) (index_kind (kind_of a.now) at.now) }
{
    let names = named(alloc, at, a.shape.as_slice())?;
    together(
        Ok(a.cell),
        rest_shape(alloc, at, a.shape.as_slice()),
        joined(alloc, a.free.as_slice(), names.as_slice()),
    )
}

/// The dimension of the cell, or 0 where there is none.
fn cell_size(cell: Option<Cell>) -> u8
    ensures { result ≡ cell_size cell }
{
    match cell {
        Some(cell) => cell.dim(),
        None => 0,
    }
}

/// Of a derivative in a direction.
pub(crate) fn partial_signature(alloc: Global, a: &Tree, at: Ix) -> Signed
    ensures { Gives (kinds result) (partial_kind (kind_of a.now) at) }
{
    let names = named(alloc, &[at], &[cell_size(a.cell)])?;
    together(
        Ok(a.cell),
        along_shape(alloc, at, a.shape.as_slice(), a.cell),
        joined(alloc, a.free.as_slice(), names.as_slice()),
    )
}

/// Of a scalar as a tensor over some of its free indices.
pub(crate) fn tensor_signature(alloc: Global, a: &Tree, by: &[u16]) -> Signed
    ensures { Gives (kinds result) (tensor_kind (kind_of a.now) by.now) }
{
    let sizes = sizes_of(alloc, by, a.free.as_slice())?;
    together(
        Ok(a.cell),
        shape_if(alloc, is_scalar(a.shape.as_slice()), sizes.as_slice()),
        bound(alloc, by, a.free.as_slice()),
    )
}

/// The cell of what a label is put on, in which no argument occurs.
fn variable_cell(a: &Tree) -> Result<Option<Cell>, TypeRefusal>
    ensures { result ≡ variable_cell (has_argument (typed_of a.now)) a.now.cell }
{
    if has_argument(a) {
        return Err(TypeRefusal::Kind);
    }
    Ok(a.cell)
}

/// Of a variable.
pub(crate) fn variable_signature(alloc: Global, a: &Tree) -> Signed
    ensures { Gives (kinds result) (variable_kind (has_argument (typed_of a.now)) (kind_of a.now)) }
{
    together(
        variable_cell(a),
        sizes(alloc, a.shape.as_slice(), &[]),
        none_free(alloc, a.free.as_slice()),
    )
}

/// The cell of a derivative by a variable, which is that of what is differentiated.
fn diff_cell(cell: Option<Cell>, other: Option<Cell>) -> Result<Option<Cell>, TypeRefusal>
    ensures { result ≡ diff_cell cell (joined_cell cell other) }
{
    match joined_cell(cell, other) {
        Ok(_) => Ok(cell),
        Err(refusal) => Err(refusal),
    }
}

/// Of a derivative by a variable.
pub(crate) fn diff_signature(alloc: Global, f: &Tree, v: &Tree) -> Signed
    ensures { Gives (kinds result) (diff_kind (kind_of f.now) (kind_of v.now)) }
{
    together(
        diff_cell(f.cell, v.cell),
        sizes(alloc, f.shape.as_slice(), v.shape.as_slice()),
        free_of(alloc, f),
    )
}
