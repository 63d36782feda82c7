//! Which functions occur in a form.

ghost use Rattle.std.specs.Prelude.{◌≡◌, IfOk};
ghost use Rattle.ufl_form.specs.Reading.{form_of};
ghost use Rattle.form_layouts.specs.Occurrences.{occurring_in};
ghost use Rattle.form_layouts.specs.Occurring.{occurring};

use crate::marks::Marks;
use crate::walk::mark_form;
use sqlite_items::Items;
use std::alloc::{AllocError, Global};
use ufl_form::Form;

/// The functions beside its arguments that occur in a form.
#[derive(Debug, Drop)]
pub struct Occurrences {
    /// The numbers of the coefficients, rising.
    pub coefficients: Items<u32>,
    /// Does the coordinate of space occur?
    pub position: bool,
}

/// The coefficients of numbers below `count` and the position, where they occur in a form: in an integrand, whatever
/// becomes of it there, as the function of an action, or as the direction of a derivative. In time linear in `count`
/// and the form's nodes. A `count` of 2^32 or more counts as want of memory.
#[tactic(auto, using(crate::proofs::MarkLaws::found))]
pub fn find_occurrences(alloc: Global, form: &Form, count: usize) -> Result<Occurrences, AllocError>
    ensures { IfOk result (λ o. occurring_in o ≡ occurring count (form_of form.now)) }
{
    if count > u32::MAX as usize {
        return Err(AllocError);
    }
    let mut marks = Marks::none(alloc, count as u32)?;
    mark_form(form.tree(), &mut marks);
    Ok(Occurrences {
        coefficients: marks.numbers(alloc)?,
        position: marks.position,
    })
}
