//! Tables of elements.

ghost use Rattle.std.specs.Prelude.{◌≡◌, ◌<◌, [], length, map, Some, IfOk, OnErr, OnOk, slice_get};
ghost use Rattle.std.specs.Option.{option_copied};
ghost use Rattle.spaces.specs.declared.family.Family.TheVariants.{Lagrange};
ghost use Rattle.spaces.specs.Space.{scalar};
ghost use Rattle.spaces.specs.Equality.{same_space};
ghost use Rattle.spaces.specs.Reading.{space_of};
ghost use Rattle.ufl_tree.specs.Places.{table_of, IsLawfulTable};
ghost use Rattle.ufl_expr.specs.Elements.{position_space, may_have, spaces_of, space_in, number_of, with_element};

use spaces::{Cell, Element, ElementTree, Family, same_element};
use sqlite_items::Items;
use std::alloc::{AllocError, Global};
use std::marker::Model;
use ufl_tree::{Function, Role};

/// Distinct elements, numbered from 0.
#[derive(Drop)]
pub struct Elements {
    items: Items<Element>,
}

impl Model for Elements {
    ghost use Rattle.std.specs.Prelude.{List};
    ghost use Rattle.spaces.specs.declared.element_tree.ElementTree.{ElementTree};

    ghost Value = { List ElementTree };

    ghost use Rattle.spaces.specs.contracts.element_tree.ElementTree as t;
    ghost use Rattle.std.specs.Coded.{codes, coded_list};

    ghost coded = { coded_list (Prim.hlevel (codes, t.the_row.coded)) };

    ghost use Rattle.ufl_expr.specs.Distinct.{IsTable};

    ghost view = { λ e. e.items };

    ghost invariant = { IsTable };
}

/// The number of an equal element.
fn number_of(tree: &ElementTree, items: &[Element]) -> Option<usize>
    ensures { result ≡ number_of (space_of tree.now) (table_of items.now) }
{
    for number in 0..items.len() {
        if same_element(items[number].tree(), tree) {
            return Some(number);
        }
    }
    None
}

/// The linear scalar element on this cell.
#[tactic(auto, using(spaces::proofs::ReadingLaws::readings))]
fn is_linear(tree: &ElementTree, cell: Cell) -> bool
    ensures { result ≡ same_space (space_of tree.now) (scalar Lagrange cell 1) }
{
    let linear = ElementTree::Scalar {
        family: Family::Lagrange,
        cell,
        degree: 1,
    };
    same_element(tree, &linear)
}

/// The element of positions in this cell.
#[tactic(auto, using(spaces::proofs::ReadingLaws::readings))]
fn is_position(tree: &ElementTree, cell: Cell) -> bool
    ensures { result ≡ same_space (space_of tree.now) (position_space cell) }
{
    match tree {
        ElementTree::Scalar { .. } => false,
        ElementTree::Vector { part, dim } => *dim == cell.dim() && is_linear(part.get(), cell),
        ElementTree::Tensor { .. } => false,
        ElementTree::Mixed { .. } => false,
    }
}

/// Functions of this role may have the element.
fn may_have(role: Role, element: &Element) -> bool
    ensures { result ≡ may_have role (space_of element.now) }
{
    match role {
        Role::Test | Role::Trial | Role::Coefficient(_) => true,
        Role::Position => is_position(element.tree(), element.cell()),
    }
}

/// The number of the element of positions in this cell.
fn position_in(cell: Cell, items: &[Element]) -> Option<usize>
    ensures { result ≡ number_of (position_space cell) (table_of items.now) }
{
    for number in 0..items.len() {
        if is_position(items[number].tree(), cell) {
            return Some(number);
        }
    }
    None
}

impl Elements {
    /// No elements.
    pub fn new(alloc: Global) -> Elements
        ensures { result ≡ [] }
    {
        Elements {
            items: Items::new(alloc),
        }
    }

    /// Says that each element of the table is lawful; it does nothing.
    pub fn lawful(&self)
        ensures { IsLawfulTable (table_of self.now) }
    {
        let _items = &self.items;
    }

    /// The element of this number, or `None` exactly where there is none.
    pub fn get(&self, number: u16) -> Option<&Element>
        ensures { option_copied result ≡ slice_get self.now number }
    {
        self.items.get(number as usize)
    }

    /// The element of a function, or `None` exactly where there is none of its number, or the function is a position and may not have it.
    pub(crate) fn element_of(&self, f: Function) -> Option<&Element>
        ensures { spaces_of (option_copied result) ≡ space_in (table_of self.now) f }
    {
        let element = self.get(f.element)?;
        if may_have(f.role, element) {
            Some(element)
        } else {
            None
        }
    }

    /// The number of the element of positions in this cell, which is the Lagrange vector element of degree 1.
    pub(crate) fn position(&self, cell: Cell) -> Option<u16>
        ensures { result ≡ number_of (position_space cell) (table_of self.now) }
    {
        match position_in(cell, self.items.as_slice()) {
            None => None,
            Some(number) => Some(number as u16),
        }
    }

    /// The number of the equal element, which is added behind the others where there is none yet.
    pub fn add(&mut self, element: Element) -> Result<u16, AllocError>
        requires { length self.old < 65536 }
        ensures number { IfOk result (λ k. slice_get (table_of self.new) k ≡ Some (space_of element)) }
        ensures numbered { IfOk result (λ k. number_of (space_of element) (table_of self.new) ≡ Some k) }
        ensures table { OnOk result (self.new ≡ with_element element self.old) }
        ensures err { OnErr result (self.new ≡ self.old) }
    {
        match number_of(element.tree(), self.items.as_slice()) {
            Some(number) => Ok(number as u16),
            None => {
                let number = self.items.len() as u16;
                self.items.push(element)?;
                Ok(number)
            }
        }
    }
}
