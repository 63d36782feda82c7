//! What a file makes besides values: the table of elements, coefficients and labels.

ghost use Rattle.std.specs.Prelude.{◌≡◌, ◌<◌, [], Some, length, slice_get};
ghost use Rattle.std.specs.Bool.{OnFalse};
ghost use Rattle.spaces.specs.Reading.{space_of};
ghost use Rattle.ufl_tree.specs.Places.{table_of};
ghost use Rattle.ufl_values.specs.Answer.{Answers, Makes};
ghost use Rattle.ufl_calls.specs.Made.{nothing, element_number, function_of, coefficient_of, label_of, whole_value, part_count_of, piece_value, pieces};

use spaces::{Element, ElementTree};
use sqlite_items::Items;
use std::alloc::Global;
use ufl_expr::{Elements, Expr};
use ufl_tree::{Function, Role};
use ufl_values::{Reason, Value, expressed};

/// Largest number of an element and of a coefficient. A file within its limit can't make so many.
const LAST: u16 = 65_535;

/// The elements of the functions, the element of each coefficient, and how many labels there are.
#[derive(Drop)]
pub struct Made {
    pub elements: Elements,
    pub coefficients: Items<u16>,
    pub labels: u32,
}

/// How many sub-elements the element has, where it is mixed.
#[tactic(auto, using(spaces::proofs::ReadingLaws::readings, crate::proofs::MadeLaws::few_parts, crate::proofs::MadeLaws::count_of_list))]
fn sub_element_count(element: &Element) -> Option<u8>
    ensures { result ≡ part_count_of (Some (space_of element.now)) }
{
    match element.tree() {
        ElementTree::Mixed { parts } => Some(parts.len() as u8),
        ElementTree::Scalar { .. } => None,
        ElementTree::Vector { .. } => None,
        ElementTree::Tensor { .. } => None,
    }
}

impl Made {
    /// Nothing yet.
    pub fn new(alloc: Global) -> Made
        ensures { result ≡ nothing }
    {
        Made {
            elements: Elements::new(alloc),
            coefficients: Items::new(alloc),
            labels: 0,
        }
    }

    /// The table has an element of the largest number.
    #[tactic(auto, using(crate::proofs::MadeLaws::room_behind))]
    fn is_full(&self) -> bool
        ensures room { OnFalse result (length self.now.elements < 65536) }
    {
        match self.elements.get(LAST) {
            Some(_) => true,
            None => false,
        }
    }

    /// The number of the element in the table, which has it then.
    #[tactic(auto, using(crate::proofs::MadeLaws::numbered_at))]
    fn element_number(&mut self, element: Element) -> Result<u16, Reason>
        ensures { Makes result self.new (element_number element self.old) }
    {
        if self.is_full() {
            return Err(Reason::Memory);
        }
        Ok(self.elements.add(element)?)
    }

    /// A function of this role and this element.
    pub fn function(&mut self, role: Role, element: Element) -> Result<Function, Reason>
        ensures { Makes result self.new (function_of role element self.old) }
    {
        let element = self.element_number(element)?;
        Ok(Function { role, element })
    }

    /// A new coefficient of the element.
    pub fn coefficient(&mut self, element: Element) -> Result<Function, Reason>
        ensures { Makes result self.new (coefficient_of element self.old) }
    {
        let element = self.element_number(element)?;
        let number = self.coefficients.len();
        if number > LAST as usize {
            return Err(Reason::Memory);
        }
        self.coefficients.push(element)?;
        let role = Role::Coefficient(number as u32);
        Ok(Function { role, element })
    }

    /// A new label.
    pub fn label(&mut self) -> Result<u32, Reason>
        ensures { Makes result self.new (label_of self.old) }
    {
        let label = self.labels;
        if label == u32::MAX {
            return Err(Reason::Memory);
        }
        self.labels += 1;
        Ok(label)
    }

    /// The function as an expression.
    pub fn whole(&self, alloc: Global, f: Function) -> Result<Value, Reason>
        ensures { Answers result (whole_value f self.now) }
    {
        expressed(Expr::function(alloc, f, &self.elements))
    }

    /// How many sub-elements the function's element has, where it is mixed.
    fn part_count(&self, f: Function) -> Option<u8>
        ensures { result ≡ part_count_of (slice_get (table_of self.now.elements) f.element) }
    {
        match self.elements.get(f.element) {
            Some(element) => sub_element_count(element),
            None => None,
        }
    }

    /// One of the parts of a function of a mixed element, as an expression.
    fn piece(&self, alloc: Global, f: Function, which: u8) -> Result<Value, Reason>
        ensures { Answers result (piece_value (table_of self.now.elements) f which) }
    {
        expressed(Expr::piece(alloc, f, &self.elements, which))
    }

    /// The tuple of the parts of a function of a mixed element, else `Kind`.
    pub fn pieces(&self, alloc: Global, f: Function) -> Result<Value, Reason>
        ensures { Answers result (pieces f self.now) }
    {
        let Some(count) = self.part_count(f) else {
            return Err(Reason::Kind);
        };
        let mut all = Items::new(alloc);
        for which in 0..count {
            let piece = self.piece(alloc, f, which)?;
            all.push(piece)?;
        }
        Ok(Value::Tuple(all))
    }
}
