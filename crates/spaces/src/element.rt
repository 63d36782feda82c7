//! Elements, which are lawful trees.

ghost use Rattle.std.specs.Prelude.{◌≡◌, ◌*◌, ◌<◌, ◌≤◌, ◌^◌, OnOk, IfOk, if◌then◌else◌, length, slice_get};
ghost use Rattle.spaces.specs.Family.{has_degree};
ghost use Rattle.spaces.specs.Scalar.{placed, laid_out, local_size, repeated};
ghost use Rattle.spaces.specs.Space.{scalars, scalars_of, cell_of, depth_of, IsLawful, AreLawful};
ghost use Rattle.spaces.specs.Reading.{space_of, spaces_in};
ghost use Rattle.spaces.specs.Refusal.{block_refusal, common_cell, common_depth, mixed_refusal, Gives};
ghost use Rattle.spaces.specs.Single.{SingleOf};

use crate::cell::Cell;
use crate::element_tree::{ElementTree, copy_tree};
use crate::family::{Family, node_count};
use crate::flat::{Flat, copy_flat, items, local};
use crate::parts::{Part, Parts};
use crate::refusal::SpaceRefusal;
use sqlite_items::{Boxed, Items};
use std::alloc::{AllocError, Global};
use std::marker::Model;

/// Most scalar parts of an element.
const MOST_PARTS: u8 = 64;

/// Deepest nesting of the elements of a list; a scalar element is nested 1 deep.
const MOST_DEPTH: u8 = 63;

/// A lawful element: its families have their degrees, its parts share one cell, vectors and
/// tensors are over a scalar element, and it has 1 to 64 scalar parts, nested at most 64 deep.
#[derive(Drop)]
pub struct Element {
    tree: ElementTree,
    cell: Cell,
    depth: u8,
    flat: Flat,
}

impl Model for Element {
    ghost use Rattle.spaces.specs.declared.element_tree.ElementTree.{ElementTree};

    ghost Value = { ElementTree };

    ghost use Rattle.spaces.specs.contracts.element_tree.ElementTree as t;
    ghost use Rattle.std.specs.Coded.{codes};

    ghost coded = { Prim.hlevel (codes, t.the_row.coded) };

    ghost use Rattle.spaces.specs.Sound.{IsSound};

    ghost view = { λ e. e.tree };

    ghost invariant = { IsSound };
}

impl Element {
    /// The scalar element of this family and degree on the cell, or `None` exactly where the
    /// family has no such degree.
    pub fn scalar(family: Family, cell: Cell, degree: u8) -> Option<Element>
        ensures { result ≡ (if has_degree family degree then Some (ElementTree.Scalar family cell degree) else None) }
    {
        if !family.has_degree(degree) {
            return None;
        }
        Some(Element {
            tree: ElementTree::Scalar {
                family,
                cell,
                degree,
            },
            cell,
            depth: 1,
            flat: Flat::One(Part {
                family,
                degree,
                nodes: node_count(cell, degree),
                offset: 0,
            }),
        })
    }

    pub fn tree(&self) -> &ElementTree
        ensures same { result.now ≡ self.now }
        ensures lawful { IsLawful (space_of self.now) }
    {
        &self.tree
    }

    /// The cell of all parts.
    pub fn cell(&self) -> Cell
        ensures { result ≡ cell_of (space_of self.now) }
    {
        self.cell
    }

    /// How many scalar parts the element has, from 1 to 64.
    pub fn value_size(&self) -> u8
        ensures size { result ≡ length (scalars (space_of self.now)) }
        ensures some { 0 < result }
        ensures few { result ≤ 64 }
    {
        items(&self.flat).len() as u8
    }

    /// An equal element.
    pub fn copy(&self, alloc: Global) -> Result<Element, AllocError>
        ensures { IfOk result (λ e. e ≡ self.now) }
    {
        Ok(Element {
            tree: copy_tree(alloc, &self.tree)?,
            cell: self.cell,
            depth: self.depth,
            flat: copy_flat(alloc, &self.flat)?,
        })
    }

    /// This many of a scalar element. `Kind` exactly where the part isn't scalar, then `Size`
    /// exactly where there would be no part or more than 64.
    pub fn vector(alloc: Global, part: Element, dim: u8) -> Result<Element, SpaceRefusal>
        ensures { Gives result (block_refusal (space_of part) dim) (ElementTree.Vector part dim) }
    {
        let flat = block(alloc, &part, dim as u16)?;
        let Element { tree, cell, .. } = part;
        let part = Boxed::new(alloc, tree)?;
        Ok(Element {
            tree: ElementTree::Vector { part, dim },
            cell,
            depth: 2,
            flat: Flat::Many(flat),
        })
    }

    /// A scalar element for each row and column; the refusals are those of a vector with as many
    /// parts.
    pub fn tensor(alloc: Global, part: Element, rows: u8, cols: u8) -> Result<Element, SpaceRefusal>
        ensures { Gives result (block_refusal (space_of part) (rows * cols)) (ElementTree.Tensor part rows cols) }
    {
        let flat = block(alloc, &part, rows as u16 * cols as u16)?;
        let Element { tree, cell, .. } = part;
        let part = Boxed::new(alloc, tree)?;
        Ok(Element {
            tree: ElementTree::Tensor { part, rows, cols },
            cell,
            depth: 2,
            flat: Flat::Many(flat),
        })
    }

    /// The elements one after the other. `Kind` exactly where there is none or their cells
    /// differ, then `Size` exactly where they have more than 64 scalar parts together or the
    /// list would be nested deeper than 64.
    pub fn mixed(alloc: Global, parts: Vec<Element>) -> Result<Element, SpaceRefusal>
        ensures { Gives result (mixed_refusal (spaces_in parts.items)) (ElementTree.Mixed parts.items) }
    {
        let cell = cell_of_all(parts.as_slice())?;
        let depth = depth_of_all(parts.as_slice())?;
        let flat = joined(alloc, parts.as_slice())?;
        let parts = trees(alloc, parts)?;
        Ok(Element {
            tree: ElementTree::Mixed { parts },
            cell,
            depth: depth + 1,
            flat: Flat::Many(flat),
        })
    }

    /// The scalar parts in order, with the number of local values.
    pub fn parts(&self, alloc: Global) -> Result<Parts, AllocError>
        ensures { IfOk result (λ p. p ≡ laid_out (scalars (space_of self.now))) }
    {
        Ok(Parts {
            items: Items::from_slice(alloc, items(&self.flat))?,
            local: local(&self.flat),
        })
    }

    /// The scalar part of a component, or `None` exactly where there are not so many.
    pub fn part_of(&self, component: u8) -> Option<Part>
        ensures { result ≡ slice_get (placed 0 (scalars (space_of self.now))) component }
    {
        items(&self.flat).get(component as usize).copied()
    }
}

/// The scalar part that the element is, if it is scalar.
fn single(part: &Element) -> Option<Part>
    ensures { SingleOf (space_of part.now) result }
{
    match part.tree() {
        ElementTree::Scalar {
            family,
            cell,
            degree,
        } => Some(Part {
            family: *family,
            degree: *degree,
            nodes: node_count(*cell, *degree),
            offset: 0,
        }),
        ElementTree::Vector { .. } => None,
        ElementTree::Tensor { .. } => None,
        ElementTree::Mixed { .. } => None,
    }
}

/// The parts of so many of one scalar element.
fn block(alloc: Global, part: &Element, copies: u16) -> Result<Parts, SpaceRefusal>
    ensures { Gives result (block_refusal (space_of part.now) copies) (laid_out (repeated copies (scalars (space_of part.now)))) }
{
    let Some(single) = single(part) else {
        return Err(SpaceRefusal::Kind);
    };
    if copies == 0 || copies > MOST_PARTS as u16 {
        return Err(SpaceRefusal::Size);
    }
    Ok(Parts::copies(alloc, single, copies as u8)?)
}

/// The cell of the elements.
fn cell_of_all(parts: &[Element]) -> Result<Cell, SpaceRefusal>
    ensures { result ≡ common_cell (spaces_in parts.now) }
{
    let Some((first, rest)) = parts.split_first() else {
        return Err(SpaceRefusal::Kind);
    };
    let cell = first.cell();
    for part in rest {
        if part.cell() != cell {
            return Err(SpaceRefusal::Kind);
        }
    }
    Ok(cell)
}

/// The deepest nesting of the elements.
fn depth_of_all(parts: &[Element]) -> Result<u8, SpaceRefusal>
    ensures depth { result ≡ common_depth (spaces_in parts.now) }
    ensures lawful { OnOk result (AreLawful (spaces_in parts.now)) }
{
    let mut depth: u8 = 0;
    let mut count: u8 = 0;
    for part in parts {
        depth = depth.max(part.depth);
        count += part.value_size();
        if count > MOST_PARTS {
            return Err(SpaceRefusal::Size);
        }
    }
    if depth > MOST_DEPTH {
        return Err(SpaceRefusal::Size);
    }
    Ok(depth)
}

/// The scalar parts of the elements, one after the other.
fn joined(alloc: Global, parts: &[Element]) -> Result<Parts, AllocError>
    requires { local_size (scalars_of (spaces_in parts.now)) < 2 ^ 32 }
    ensures { IfOk result (λ p. p ≡ laid_out (scalars_of (spaces_in parts.now))) }
{
    let mut all = Parts::none(alloc);
    for part in parts {
        all.push_all(items(&part.flat))?;
    }
    Ok(all)
}

/// Their trees.
fn trees(alloc: Global, parts: Vec<Element>) -> Result<Items<ElementTree>, AllocError>
    ensures { IfOk result (λ ts. ts ≡ parts.items) }
{
    let mut all = Items::new(alloc);
    for part in parts {
        let Element { tree, .. } = part;
        all.push(tree)?;
    }
    Ok(all)
}
