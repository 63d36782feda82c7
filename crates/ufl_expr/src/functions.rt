//! What functions say of their values.

ghost use Rattle.std.specs.Prelude.{◌≡◌, IfOk};
ghost use Rattle.spaces.specs.Reading.{space_of};
ghost use Rattle.ufl_tree.specs.Places.{table_of, element_shape};
ghost use Rattle.ufl_expr.specs.Answer.{Gives};
ghost use Rattle.ufl_expr.specs.Elements.{function_in};
ghost use Rattle.ufl_expr.specs.Signatures.{kinds};

use crate::elements::Elements;
use crate::refusal::TypeRefusal;
use crate::signature::Signature;
use spaces::{Element, ElementTree};
use sqlite_items::Items;
use std::alloc::{AllocError, Global};
use ufl_tree::Function;

/// The shape of a function of this element. Of a mixed element it is one vector of all components.
#[tactic(auto, using(spaces::proofs::ReadingLaws::readings))]
fn element_shape(alloc: Global, element: &Element) -> Result<Items<u8>, AllocError>
    ensures { IfOk result (λ shape. shape ≡ element_shape (space_of element.now)) }
{
    match element.tree() {
        ElementTree::Scalar { .. } => Ok(Items::new(alloc)),
        ElementTree::Vector { dim, .. } => Items::from_slice(alloc, &[*dim]),
        ElementTree::Tensor { rows, cols, .. } => Items::from_slice(alloc, &[*rows, *cols]),
        ElementTree::Mixed { .. } => Items::from_slice(alloc, &[element.value_size()]),
    }
}

/// Of a function of an element in the table. `Kind` exactly where there is no such element, or f is a position and has another one than positions have.
pub(crate) fn function_signature(
    alloc: Global,
    f: Function,
    elements: &Elements,
) -> Result<Signature, TypeRefusal>
    ensures { Gives (kinds result) (function_in (table_of elements.now) f) }
{
    match elements.element_of(f) {
        None => Err(TypeRefusal::Kind),
        Some(element) => Ok(Signature {
            shape: element_shape(alloc, element)?,
            free: Items::new(alloc),
            cell: Some(element.cell()),
        }),
    }
}
