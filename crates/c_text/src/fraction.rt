// Fractions and tables.

ghost use Rattle.std.specs.Prelude.{◌≡◌, ◌<◌, ◌≤◌, ◌^◌, ◌↔◌, pos, IsTrue, OnOk, ◌&&◌, ◌==◌, false};
ghost use Rattle.algebra.specs.Sign.{signed};
ghost use Rattle.algebra.specs.LowestTerms.{top, bottom};
ghost use Rattle.ratio.specs.Value.{fraction_of};
ghost use Rattle.c_text.specs.Stream.{Gives};
ghost use Rattle.c_text.specs.Parser.{stream, left};
ghost use Rattle.c_text.specs.Lowest.{is_out, fraction_from};
ghost use Rattle.c_text.specs.Fractions.{sign_at, half_at, part_at, fraction_at, item_at, further_item_at, further_items_at, items_at, table_name_at, table_at, tables_at};

use crate::number::{half, table_number};
use crate::parser::{Parser, syntax};
use crate::place::refused;
use crate::refusal::{KernelKind, ReadFault};
use ratio::Ratio;
use sqlite_items::Items;
use std::alloc::Global;

const LIMIT: u128 = 0x8000_0000_0000_0000_0000_0000_0000_0000;

/// The greatest size.
pub const LARGEST: u32 = 0x100_0000;

// Whether the parts are no fraction's in lowest terms, but for a common divisor.
#[tactic(auto, unfolding(crate::specs::Lowest::is_out))]
fn is_out_of_range(negative: bool, top: u128, bottom: u128) -> bool
    ensures { result ≡ is_out negative top bottom }
{
    bottom == 0 || top >= LIMIT || bottom >= LIMIT || (negative && top == 0)
}

fn with_sign(negative: bool, size: u128) -> i128
    requires { size < 2 ^ 127 }
    ensures { result ≡ signed negative size }
{
    let size = size as i128;
    if negative { -size } else { size }
}

fn has_parts(value: Ratio, num: i128, den: i128) -> bool
    ensures { IsTrue result ↔ ((top (fraction_of value) ≡ num) × (pos (bottom (fraction_of value)) ≡ den)) }
{
    value.num() == num && value.den() == den
}

// The fraction of these parts, where they have no common divisor.
fn fraction_in_range(negative: bool, top: u128, bottom: u128) -> Option<Ratio>
    requires top_fits { top < 2 ^ 127 }
    requires bottom_fits { bottom < 2 ^ 127 }
    requires proper { (negative && top == 0) ≡ false }
    ensures { result ≡ fraction_from negative top bottom }
{
    let num = with_sign(negative, top);
    let den = bottom as i128;
    let Some(value) = Ratio::new(num, den) else {
        return None;
    };
    if has_parts(value, num, den) {
        Some(value)
    } else {
        None
    }
}

// The fraction of these parts, where they are below 2^127, in lowest terms and no negative zero.
fn fraction_of_parts(negative: bool, top: u128, bottom: u128) -> Option<Ratio>
    ensures { result ≡ fraction_from negative top bottom }
{
    if is_out_of_range(negative, top, bottom) {
        return None;
    }
    fraction_in_range(negative, top, bottom)
}

impl<'a> Parser<'a> {
    // Whether the fraction is negative.
    #[tactic(auto, unfolding(crate::specs::Fractions::sign_at))]
    fn sign(&mut self) -> Result<bool, ReadFault>
        ensures read { Gives (λ x. x) result (stream self.new) (sign_at (stream self.old)) }
        ensures shorter { OnOk result (left self.new < left self.old) }
    {
        let token = self.shift()?;
        match token.text {
            b"0" => Ok(false),
            b"1" => Ok(true),
            _ => Err(syntax(token.line)),
        }
    }

    // A number below 2^64 behind a comma, and its line.
    #[tactic(auto, unfolding(crate::specs::Fractions::half_at))]
    fn half(&mut self) -> Result<(u64, u32), ReadFault>
        ensures read { Gives (λ x. x) result (stream self.new) (half_at (stream self.old)) }
        ensures shorter { OnOk result (left self.new < left self.old) }
    {
        self.expect(b",")?;
        let token = self.shift()?;
        match half(token.text) {
            Some(value) => Ok((value, token.line)),
            None => Err(syntax(token.line)),
        }
    }

    // A part of a fraction, and the line of its second half.
    #[tactic(auto, unfolding(crate::specs::Fractions::part_at))]
    fn part(&mut self) -> Result<(u128, u32), ReadFault>
        ensures read { Gives (λ x. x) result (stream self.new) (part_at (stream self.old)) }
        ensures shorter { OnOk result (left self.new < left self.old) }
    {
        let (high, _line) = self.half()?;
        let (low, line) = self.half()?;
        Ok(((high as u128) * 0x1_0000_0000_0000_0000 + low as u128, line))
    }

    /// The sign and the four halves of a fraction.
    #[tactic(auto, unfolding(crate::specs::Fractions::fraction_at))]
    pub fn fraction(&mut self) -> Result<Ratio, ReadFault>
        ensures read { Gives (λ x. x) result (stream self.new) (fraction_at (stream self.old)) }
        ensures shorter { OnOk result (left self.new < left self.old) }
    {
        let negative = self.sign()?;
        let (top, _line) = self.part()?;
        let (bottom, line) = self.part()?;
        match fraction_of_parts(negative, top, bottom) {
            Some(value) => Ok(value),
            None => Err(refused(KernelKind::Bound, line)),
        }
    }

    // An item of a table.
    #[tactic(auto, unfolding(crate::specs::Fractions::item_at))]
    fn item(&mut self) -> Result<Ratio, ReadFault>
        ensures read { Gives (λ x. x) result (stream self.new) (item_at (stream self.old)) }
        ensures shorter { OnOk result (left self.new < left self.old) }
    {
        self.expect(b"{")?;
        let value = self.fraction()?;
        self.expect(b"}")?;
        Ok(value)
    }

    // An item behind a comma.
    #[tactic(auto, unfolding(crate::specs::Fractions::further_item_at))]
    fn further_item(&mut self) -> Result<Ratio, ReadFault>
        ensures read { Gives (λ x. x) result (stream self.new) (further_item_at (stream self.old)) }
        ensures shorter { OnOk result (left self.new < left self.old) }
    {
        self.expect(b",")?;
        self.item()
    }

    #[tactic(auto, unfolding(crate::specs::Fractions::further_items_at))]
    fn further_items(&mut self, first: Items<Ratio>) -> Result<Items<Ratio>, ReadFault>
        ensures read { Gives (λ x. x) result (stream self.new) (further_items_at first (stream self.old)) }
        ensures shorter { OnOk result (left self.new ≤ left self.old) }
    {
        let mut items = first;
        'all: loop {
            if !self.next_is(b",") {
                return Ok(items);
            }
            let item = self.further_item()?;
            items.push(item)?;
        }
    }

    #[tactic(auto, unfolding(crate::specs::Fractions::items_at))]
    fn items(&mut self, alloc: Global) -> Result<Items<Ratio>, ReadFault>
        ensures read { Gives (λ x. x) result (stream self.new) (items_at (stream self.old)) }
        ensures shorter { OnOk result (left self.new ≤ left self.old) }
    {
        let mut items = Items::new(alloc);
        if self.next_is(b"}") {
            return Ok(items);
        }
        let item = self.item()?;
        items.push(item)?;
        self.further_items(items)
    }

    // The name of the table with this number.
    #[tactic(auto, unfolding(crate::specs::Fractions::table_name_at))]
    fn table_name(&mut self, number: usize) -> Result<(), ReadFault>
        ensures read { Gives (λ x. x) result (stream self.new) (table_name_at number (stream self.old)) }
        ensures shorter { OnOk result (left self.new < left self.old) }
    {
        let token = self.shift()?;
        match table_number(token.text) {
            Some(found) if found as usize == number => Ok(()),
            _ => Err(syntax(token.line)),
        }
    }

    #[tactic(auto, unfolding(crate::specs::Fractions::table_at))]
    fn table(&mut self, alloc: Global, number: usize) -> Result<Items<Ratio>, ReadFault>
        ensures read { Gives (λ x. x) result (stream self.new) (table_at number (stream self.old)) }
        ensures shorter { OnOk result (left self.new < left self.old) }
    {
        self.expect_all(&[b"static", b"const", b"fr_lit"])?;
        self.table_name(number)?;
        self.expect(b"[")?;
        let (stated, _line) = self.number()?;
        self.expect_all(&[b"]", b"=", b"{"])?;
        let items = self.items(alloc)?;
        let line = self.expect(b"}")?;
        let count = items.len();
        if count == 0 || count > LARGEST as usize || count != stated as usize {
            return Err(refused(KernelKind::Bound, line));
        }
        self.expect(b";")?;
        Ok(items)
    }

    /// The tables of a function.
    #[tactic(auto, unfolding(crate::specs::Fractions::tables_at))]
    pub fn tables(&mut self, alloc: Global) -> Result<Items<Items<Ratio>>, ReadFault>
        ensures read { Gives (λ x. x) result (stream self.new) (tables_at (stream self.old)) }
        ensures shorter { OnOk result (left self.new ≤ left self.old) }
    {
        let mut tables = Items::new(alloc);
        'all: loop {
            if !self.next_is(b"static") {
                return Ok(tables);
            }
            let table = self.table(alloc, tables.len())?;
            tables.push(table)?;
        }
    }
}
