//! The counted rows of a reference tensor: those that are neither zero nor a multiple of an earlier one.

ghost use Rattle.std.specs.List.{AllByRecursion};
ghost use Rattle.std.specs.Prelude.{◌≡◌, ◌*◌, ◌+◌, ◌<◌, ◌≤◌, ◌^◌, ◌++◌, ◌∷◌, [], List, true, false, length, map, take, drop, IfOk, OnOk, MatchOption, Some};
ghost use Rattle.algebra.specs.Fraction.{Fraction, mul, inverse, is_zero_fraction};
ghost use Rattle.ratio.specs.Value.{fraction_of};
ghost use Rattle.c_unit.specs.Meaning.{fractions_of};
ghost use Rattle.kernel_statements.specs.Counted.{is_zero_row, counted_with, standing, standing_of, first_multiple, leading as leading_of, shape as shape_of};
ghost use Rattle.kernel_statements.specs.Found.{DivideBy, HaveQuotients, IsFound};

use crate::pieces::piece;
use kernel_runs::Entry;
use ratio::Ratio;
use std::alloc::{AllocError, Global};

// x over y.
fn quotient(x: Ratio, y: Ratio) -> Ratio
    requires some { is_zero_fraction (fraction_of y) ≡ false }
    requires fits { DivideBy y x }
    ensures { fraction_of result ≡ mul (fraction_of x) (inverse (fraction_of y)) }
{
    match y.inv() {
        Some(reciprocal) => match x.mul(reciprocal) {
            Some(quotient) => quotient,
            None => unreachable!(),
        },
        None => unreachable!(),
    }
}

// The first item of a row that isn't 0.
fn first_nonzero(row: &[Ratio]) -> Option<Ratio>
    ensures { MatchOption result (is_zero_row (fractions_of row.now) ≡ true) (λ x. (is_zero_row (fractions_of row.now)
        ≡ false) × ((fraction_of x ≡ leading_of (fractions_of row.now)) × (is_zero_fraction (fraction_of x) ≡ false))) }
{
    for item in row {
        if !item.is_zero() {
            return Some(*item);
        }
    }
    None
}

// A row over its first item that isn't 0, in place of what `shape` holds.
fn set_shape(shape: &mut Vec<Ratio>, row: &[Ratio], leading: Ratio) -> Result<(), AllocError>
    requires some { is_zero_fraction (fraction_of leading) ≡ false }
    requires fits { AllByRecursion (DivideBy leading) row.now }
    ensures { OnOk result (fractions_of shape.new.items
        ≡ map (λ x. mul x (inverse (fraction_of leading))) (fractions_of row.now)) }
{
    shape.clear();
    for item in row {
        shape.push(quotient(*item, leading))?;
    }
    Ok(())
}

/// The rows that are counted so far, all of one width, with their first items that aren't 0 and the rows over these.
/// Of two rows one is a multiple of the other exactly where these shapes are equal, so no product of two items is
/// ever formed.
#[derive(Drop)]
pub struct CountedRows {
    pub width: usize,
    /// The rows, one after the other.
    pub items: Vec<Ratio>,
    pub leading: Vec<Ratio>,
    pub shapes: Vec<Ratio>,
}

impl CountedRows {
    /// None yet, of this width.
    pub fn new(alloc: Global, width: usize) -> CountedRows
        requires { 0 < width }
        ensures found { IsFound [] result }
        ensures width { result.width ≡ width }
    {
        CountedRows {
            width,
            items: Vec::new(alloc),
            leading: Vec::new(alloc),
            shapes: Vec::new(alloc),
        }
    }

    /// How many there are.
    pub fn count(&self) -> u32
        requires { length self.now.leading.items < 2 ^ 32 }
        ensures { result ≡ length self.now.leading.items }
    {
        self.leading.len() as u32
    }

    // The number of the first row with this shape.
    fn place(&self, shape: &[Ratio]) -> Option<u32>
        requires whole { length self.now.shapes.items ≡ length self.now.leading.items * self.now.width }
        requires few { length self.now.leading.items < 2 ^ 32 }
        ensures { (found : List (List Fraction)) (row : List Fraction) → IsFound found self.now
            → length row ≡ self.now.width → is_zero_row row ≡ false → fractions_of shape.now ≡ shape_of row
            → result ≡ first_multiple 0 found row }
    {
        for k in 0..self.count() {
            if piece(self.shapes.as_slice(), self.width, k as usize) == shape {
                return Some(k);
            }
        }
        None
    }

    // One row more, with its shape.
    fn push(&mut self, row: &[Ratio], leading: Ratio, shape: &[Ratio]) -> Result<(), AllocError>
        ensures found { OnOk result ((found : List (List Fraction)) → IsFound found self.old
            → length row.now ≡ self.old.width
            → fraction_of leading ≡ leading_of (fractions_of row.now) → fractions_of shape.now
            ≡ shape_of (fractions_of row.now) → IsFound (found ++ fractions_of row.now ∷ []) self.new) }
        ensures width { OnOk result (self.new.width ≡ self.old.width) }
    {
        self.items.extend_from_slice(row)?;
        self.leading.push(leading)?;
        self.shapes.extend_from_slice(shape)
    }

    /// How a row stands to those that are counted, of which it is one from now on where it is neither zero nor a
    /// multiple of one. What `shape` holds doesn't matter.
    pub fn stand(&mut self, row: &[Ratio], shape: &mut Vec<Ratio>) -> Result<Entry, AllocError>
        requires width { length row.now ≡ self.old.width }
        requires few { length self.old.leading.items < 2 ^ 20 }
        requires fits { HaveQuotients row.now row.now }
        requires own { HaveQuotients row.now self.old.leading.items }
        requires found { (found : List (List Fraction)) × IsFound found self.old }
        ensures value { IfOk result (λ e. (found : List (List Fraction)) → IsFound found self.old
            → standing_of e ≡ standing found (fractions_of row.now)) }
        ensures found { OnOk result ((found : List (List Fraction)) → IsFound found self.old
            → IsFound (counted_with found (fractions_of row.now)) self.new) }
        ensures width { OnOk result (self.new.width ≡ self.old.width) }
    {
        let Some(leading) = first_nonzero(row) else {
            return Ok(Entry::NoRow);
        };
        set_shape(shape, row, leading)?;
        let Some(place) = self.place(shape.as_slice()) else {
            let own = self.count();
            self.push(row, leading, shape.as_slice())?;
            return Ok(Entry::Counted(own));
        };
        let by = quotient(leading, self.leading[place as usize]);
        if by == Ratio::one() {
            Ok(Entry::Counted(place))
        } else {
            Ok(Entry::Multiple { by, row: place })
        }
    }
}
