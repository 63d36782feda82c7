//! The text of the values of a form.
ghost use Rattle.std.specs.Prelude.{◌≡◌, ◌++◌, map, decimal, IfErr, OnOk};
ghost use Rattle.std.specs.List.{flat_map};
ghost use Rattle.assembly.specs.Kept.{seen};
ghost use Rattle.assembly.specs.Lent.{HasNoneBeyond};
ghost use Rattle.assembly.specs.LentRows.{lent_entries};
ghost use Rattle.answers.specs.ValuesText.{entry_line, header_line, GainsValues, SumRefusal};

use assembly::{Rows, RunRefusal, Triple};
use itoa::Buffer;
use std::alloc::AllocError;

fn push_number(text: &mut Vec<u8>, number: u32) -> Result<(), AllocError>
    ensures { OnOk result (text.new.items ≡ text.old.items ++ decimal number) }
{
    text.extend_from_slice(Buffer::new().format(number).as_bytes())
}

// `row column VALUE`
fn push_entry(text: &mut Vec<u8>, triple: &Triple) -> Result<(), AllocError>
    ensures { OnOk result (text.new.items ≡ text.old.items ++ entry_line (seen triple.now)) }
{
    push_number(text, triple.row)?;
    text.extend_from_slice(b" ")?;
    push_number(text, triple.col)?;
    text.extend_from_slice(b" ")?;
    triple.value.write(text)?;
    text.extend_from_slice(b"\n")
}

// Words, and a number behind them.
fn push_count(text: &mut Vec<u8>, words: &[u8], count: u32) -> Result<(), AllocError>
    ensures { OnOk result (text.new.items ≡ text.old.items ++ (words.now ++ decimal count)) }
{
    text.extend_from_slice(words)?;
    push_number(text, count)
}

// `form NAME rank R rows M columns N`
fn push_header(
    text: &mut Vec<u8>,
    name: &[u8],
    rank: u8,
    rows: u32,
    cols: u32,
) -> Result<(), AllocError>
    ensures { OnOk result (text.new.items ≡ text.old.items ++ header_line name.now rank rows cols) }
{
    text.extend_from_slice(b"form ")?;
    text.extend_from_slice(name)?;
    push_count(text, b" rank ", rank as u32)?;
    push_count(text, b" rows ", rows)?;
    push_count(text, b" columns ", cols)?;
    text.extend_from_slice(b"\n")?;
    Ok(())
}

// A line for each entry.
fn push_entries(text: &mut Vec<u8>, triples: &[Triple]) -> Result<(), AllocError>
    ensures { OnOk result (text.new.items ≡ text.old.items ++ flat_map entry_line (map seen triples.now)) }
{
    for triple in triples {
        push_entry(text, triple)?;
    }
    Ok(())
}

/// Appends the text of the values of a form whose rows are lent: the header, with the rank and as many columns as are
/// given, and a line for each entry. Each row is written as it is lent.
///
/// At a refusal only a part of the text was appended.
pub fn push_values(
    text: &mut Vec<u8>,
    name: &[u8],
    rank: u8,
    cols: u32,
    rows: &mut Rows<'_>,
) -> Result<(), RunRefusal>
    requires first { rows.old.next ≡ 0 }
    requires within { HasNoneBeyond rows.old }
    ensures text { OnOk result (GainsValues name.now rank rows.old cols text.old.items text.new.items) }
    ensures refusal { IfErr result (SumRefusal (lent_entries rows.old)) }
{
    push_header(text, name, rank, rows.count(), cols)?;
    while let Some(row) = rows.next_row() {
        row?;
        push_entries(text, rows.entries())?;
    }
    Ok(())
}
