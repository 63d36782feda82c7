//! Values of coefficients in memory.

ghost use Rattle.std.specs.Prelude.{◌≡◌, ◌<◌, ◌≤◌, ℕ, List, map, Some};
ghost use Rattle.std.specs.Option.{option_map, option_copied};
ghost use Rattle.ratio.specs.declared.reduced.Ratio.{Ratio};
ghost use Rattle.data_in.specs.CoefficientValues.{CoefficientValues, AreRising, block_of, values_in};
ghost use Rattle.data_in.specs.Needs.{check_refusal, first_extra, first_unmet, unless, unmet};

use crate::refusal::{ValueKind, ValueRefusal};
use ratio::Ratio;
use std::marker::Model;

/// The values of one coefficient.
#[derive(Drop)]
pub(crate) struct Block {
    /// Of the coefficient.
    pub(crate) number: u32,
    /// Of the text, in which the block begins.
    pub(crate) line: u32,
    pub(crate) values: Vec<Ratio>,
}

/// A coefficient that occurs in a form, and how many rows it has on a mesh.
#[derive(Clone, Copy, Debug)]
pub struct Need {
    pub number: u32,
    pub count: u32,
}

// The block of a coefficient, by halving.
fn find(blocks: &[Block], number: u32) -> Option<&Block>
    requires { AreRising 0 (map values_in blocks.now) }
    ensures { option_map values_in (option_copied result) ≡ block_of (map values_in blocks.now) number }
{
    let mut low = 0;
    let mut high = blocks.len();
    'halves: while low < high {
        let middle = low + (high - low) / 2;
        let block = &blocks[middle];
        if block.number == number {
            return Some(block);
        }
        if block.number < number {
            low = middle + 1;
        } else {
            high = middle;
        }
    }
    None
}

// The first block of a coefficient that isn't known.
fn first_extra(blocks: &[Block], known: u32) -> Option<ValueRefusal>
    ensures { result ≡ first_extra known (map values_in blocks.now) }
{
    for block in blocks {
        if block.number >= known {
            return Some(ValueRefusal {
                kind: ValueKind::Extra,
                line: block.line,
            });
        }
    }
    None
}

// Why a need isn't met.
fn unmet(blocks: &[Block], need: Need) -> Option<ValueRefusal>
    requires { AreRising 0 (map values_in blocks.now) }
    ensures { result ≡ unmet (block_of (map values_in blocks.now) need.number) need.count }
{
    let Some(block) = find(blocks, need.number) else {
        return Some(ValueRefusal {
            kind: ValueKind::Missing,
            line: 0,
        });
    };
    if block.values.len() == need.count as usize {
        return None;
    }
    Some(ValueRefusal {
        kind: ValueKind::WrongCount,
        line: block.line,
    })
}

// The first need that isn't met.
fn first_unmet(blocks: &[Block], needs: &[Need]) -> Option<ValueRefusal>
    requires { AreRising 0 (map values_in blocks.now) }
    ensures { result ≡ first_unmet (map values_in blocks.now) needs.now }
{
    for need in needs {
        let refusal = unmet(blocks, *need);
        if refusal.is_some() {
            return refusal;
        }
    }
    None
}

/// The values of coefficients: blocks of rising numbers.
#[derive(Drop)]
pub struct Values {
    blocks: Vec<Block>,
}

impl Model for Values {
    ghost Value = { List (CoefficientValues Ratio) };

    ghost view = { λ v. map values_in v.blocks.items };

    ghost invariant = { λ v. AreRising 0 (map values_in v.blocks.items) };
}

impl Values {
    /// Of these blocks.
    pub(crate) fn new(blocks: Vec<Block>) -> Values
        requires { AreRising 0 (map values_in blocks.items) }
        ensures { result ≡ map values_in blocks.items }
    {
        Values { blocks }
    }

    /// The values of a coefficient, row by row, if there is a block of its number.
    pub fn of(&self, number: u32) -> Option<&[Ratio]>
        ensures { option_map (λ values. values.now) result ≡ option_map (λ b. b.values) (block_of self.now number) }
    {
        match find(&self.blocks, number) {
            Some(block) => Some(block.values.as_slice()),
            None => None,
        }
    }

    /// That all blocks are of the first `known` coefficients, and that each coefficient of `needs` has a block, with
    /// so many values. `Extra` names the first block of another coefficient. Else `Missing`, with line 0, or
    /// `WrongCount` is of the first need that isn't met. The line is that in which the block begins. Takes no memory,
    /// in time linear in the blocks and needs but for a logarithm.
    pub fn check(&self, known: u32, needs: &[Need]) -> Result<(), ValueRefusal>
        ensures { result ≡ unless (check_refusal known needs.now self.now) }
    {
        if let Some(refusal) = first_extra(&self.blocks, known) {
            return Err(refusal);
        }
        if let Some(refusal) = first_unmet(&self.blocks, needs) {
            return Err(refusal);
        }
        Ok(())
    }
}
