//! Values from their text.

ghost use Rattle.std.specs.Prelude.{◌≡◌, ◌⊎◌, ◌≤◌, ◌+◌, ◌∷◌, [], ℕ, List, IfOk, IfErr, OnOk, Ok, Err, Some, length, map};
ghost use Rattle.std.specs.Str.Lines.{lines};
ghost use Rattle.algebra.specs.Fraction.{Fraction};
ghost use Rattle.ratio.specs.Value.{fraction_of};
ghost use Rattle.data_in.specs.CoefficientValues.{CoefficientValues, AreRising, fractions, fractions_in, values_in};
ghost use Rattle.data_in.specs.DataReading.{start, within, blocks_in, reading, meaning, out_of_memory};
ghost use Rattle.data_in.specs.DataRefusal.{IsRefused};
ghost use Rattle.data_in.specs.DataText.{IsDataText, longest};
ghost use Rattle.data_in.specs.Reader.{left_of, remaining, goes_on, behind_values, behind_blocks, Fails, Gives};

use crate::lines::{Line, Lines};
use crate::refusal::{ValueKind, ValueRefusal};
use crate::rows::{is_heading, read_head, read_value};
use crate::values::{Block, Values};
use ratio::Ratio;
use std::alloc::Global;

/// How many bytes the text of data may have.
pub const DATA_LIMIT: u32 = 67_108_864;

fn read_heading(lines: &mut Lines<'_>) -> Result<(), ValueRefusal>
    ensures ok { OnOk result (remaining lines.old start ≡ remaining lines.new (within 0 0)) }
    ensures err { IfErr result (λ e. remaining lines.old start ≡ Err e) }
{
    let line = lines.row()?;
    if is_heading(line.text) {
        Ok(())
    } else {
        Err(line.refused())
    }
}

// So many values. The vector grows as the lines come, whatever the block promises.
fn read_values(alloc: Global, lines: &mut Lines<'_>, count: u32) -> Result<Vec<Ratio>, ValueRefusal>
    ensures ok { IfOk result (λ v. (low : ℕ) → remaining lines.old (within low count)
        ≡ behind_values (map fraction_of v.items) (remaining lines.new (within low 0))) }
    ensures err { IfErr result (λ e. (low : ℕ) → Fails e (remaining lines.old (within low count))) }
    ensures left { IfOk result (λ v. left_of lines.new ≤ left_of lines.old) }
{
    let mut values = Vec::new(alloc);
    'values: for _ in 0..count {
        let line = lines.row()?;
        let Some(value) = read_value(line.text) else {
            return Err(line.refused());
        };
        values.push(value)?;
    }
    Ok(values)
}

// The block that begins in a line, with a number from `low` on.
fn read_block(
    alloc: Global,
    lines: &mut Lines<'_>,
    line: Line<'_>,
    low: u64,
) -> Result<Block, ValueRefusal>
    ensures rises { IfOk result (λ b. low ≤ b.number) }
    ensures ok { IfOk result (λ b. goes_on (Some line.entry) lines.old (within low 0)
        ≡ behind_blocks (fractions_in (values_in b) ∷ []) (remaining lines.new (within (b.number + 1) 0))) }
    ensures err { IfErr result (λ e. Fails e (goes_on (Some line.entry) lines.old (within low 0))) }
    ensures left { IfOk result (λ b. left_of lines.new ≤ left_of lines.old) }
{
    let Some(head) = read_head(line.text) else {
        return Err(line.refused());
    };
    if (head.number as u64) < low {
        return Err(line.refused());
    }
    let values = read_values(alloc, lines, head.count)?;
    Ok(Block {
        number: head.number,
        line: line.number,
        values,
    })
}

// All blocks.
fn read_blocks(alloc: Global, lines: &mut Lines<'_>) -> Result<Vec<Block>, ValueRefusal>
    ensures rising { IfOk result (λ v. AreRising 0 (map values_in v.items)) }
    ensures ok { IfOk result (λ v. blocks_in (remaining lines.old (within 0 0))
        ≡ Ok (fractions (map values_in v.items))) }
    ensures err { IfErr result (λ e. Fails e (remaining lines.old (within 0 0))) }
{
    let mut blocks = Vec::new(alloc);
    let mut low: u64 = 0;
    'all: loop {
        let Some(line) = lines.next()? else {
            return Ok(blocks);
        };
        let block = read_block(alloc, lines, line, low)?;
        low = block.number as u64 + 1;
        blocks.push(block)?;
    }
}

fn read_lines(alloc: Global, text: &[u8]) -> Result<Values, ValueRefusal>
    requires { length text.now ≤ longest }
    ensures { Gives result (blocks_in (reading 0 start (lines text.now))) }
{
    let mut lines = Lines::new(text);
    read_heading(&mut lines)?;
    Ok(Values::new(read_blocks(alloc, &mut lines)?))
}

fn read_any(alloc: Global, text: &[u8]) -> Result<Values, ValueRefusal>
    ensures { Gives result (meaning text.now) }
{
    if text.len() > DATA_LIMIT as usize {
        return Err(ValueRefusal {
            kind: ValueKind::TooLong,
            line: 0,
        });
    }
    read_lines(alloc, text)
}

/// The values of a text, or what is wrong with its first bad line.
///
/// The format is in docs/FORMATS.md. Refusals are 1 to 3 of `ValueKind`, and `Memory` where memory runs out.
pub fn read_data(alloc: Global, text: &[u8]) -> Result<Values, ValueRefusal>
    // What is read are the blocks of the text, and the blocks of a text are read.
    ensures blocks { IfOk result (λ v. IsDataText text.now (fractions v)) }
    ensures all_blocks { (bs : List (CoefficientValues Fraction)) → IsDataText text.now bs → Gives result (Ok bs) }

    // The refusal is that of the first bad line, and each text with one is refused.
    ensures refusal { IfErr result (λ e. (e ≡ out_of_memory) ⊎ IsRefused text.now e) }
    ensures every_refusal { (e : ValueRefusal) → IsRefused text.now e → Gives result (Err e) }

    // Each text has one meaning.
    ensures meaning { Gives result (meaning text.now) }
{
    read_any(alloc, text)
}
