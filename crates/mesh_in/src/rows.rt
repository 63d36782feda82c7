//! The lines of points and cells.

ghost use Rattle.std.specs.Prelude.{◌≡◌, ◌⊎◌, ◌+◌, ◌++◌, ℕ, List, Some, None, map, OnOk, IfErr};
ghost use Rattle.algebra.specs.Fraction.{Fraction};
ghost use Rattle.ratio.specs.Value.{fraction_of, valued};
ghost use Rattle.mesh_in.specs.CellLine.{cell_size, IsCellLine};
ghost use Rattle.mesh_in.specs.Line.{words};
ghost use Rattle.mesh_in.specs.Number.{number_of};
ghost use Rattle.mesh_in.specs.NumberReading.{coordinate_of};
ghost use Rattle.mesh_in.specs.MeshData.{are_below, is_distinct};
ghost use Rattle.mesh_in.specs.MeshText.{row, after_cell};
ghost use Rattle.mesh_in.specs.Refusal.{refusal, out_of_memory};
ghost use Rattle.mesh_in.specs.Reader.{appended, IsRefusedBy};

use crate::header::Header;
use crate::lines::Line;
use crate::refusal::{MeshKind, MeshRefusal};
use crate::words::{first_word, has_words, read_number};
use ratio::Ratio;

fn read_coordinate(word: &[u8]) -> Option<Ratio>
    ensures { valued result ≡ coordinate_of word.now }
{
    Ratio::read(word)
}

/// Appends the coordinates of a point: just so many numbers.
pub fn push_coordinates(
    coordinates: &mut Vec<Ratio>,
    line: Line<'_>,
    count: u8,
) -> Result<(), MeshRefusal>
    ensures ok { OnOk result (appended (map fraction_of coordinates.old.items) (row coordinate_of count (words line.entry.text.now)) ≡ Some (map fraction_of coordinates.new.items)) }
    ensures err { IfErr result (λ e. (e ≡ out_of_memory) ⊎ ((row coordinate_of count (words line.entry.text.now) ≡ None) × (e ≡ refusal MeshKind.Syntax line.entry.number))) }
{
    let mut rest = line.text;
    'words: for _ in 0..count {
        let Some((word, after)) = first_word(rest) else {
            return Err(line.refused(MeshKind::Syntax));
        };
        let Some(coordinate) = read_coordinate(word) else {
            return Err(line.refused(MeshKind::Syntax));
        };
        coordinates.push(coordinate)?;
        rest = after;
    }
    if has_words(rest) {
        return Err(line.refused(MeshKind::Syntax));
    }
    Ok(())
}

// Appends just so many numbers.
fn push_numbers(numbers: &mut Vec<u32>, line: Line<'_>, count: u8) -> Result<(), MeshRefusal>
    ensures ok { OnOk result (appended numbers.old.items (row number_of count (words line.entry.text.now)) ≡ Some numbers.new.items) }
    ensures err { IfErr result (λ e. (e ≡ out_of_memory) ⊎ ((row number_of count (words line.entry.text.now) ≡ None) × (e ≡ refusal MeshKind.Syntax line.entry.number))) }
{
    let mut rest = line.text;
    'words: for _ in 0..count {
        let Some((word, after)) = first_word(rest) else {
            return Err(line.refused(MeshKind::Syntax));
        };
        let Some(number) = read_number(word) else {
            return Err(line.refused(MeshKind::Syntax));
        };
        numbers.push(number)?;
        rest = after;
    }
    if has_words(rest) {
        return Err(line.refused(MeshKind::Syntax));
    }
    Ok(())
}

fn are_below(limit: u32, vertices: &[u32]) -> bool
    ensures { result ≡ are_below limit vertices.now }
{
    vertices.iter().all(|vertex| *vertex < limit)
}

fn is_distinct(vertices: &[u32]) -> bool
    ensures { result ≡ is_distinct vertices.now }
{
    match vertices {
        [] => true,
        [first, others @ ..] => !others.contains(first) && is_distinct(others),
    }
}

/// Appends the numbers of a cell's line.
pub fn push_cell(numbers: &mut Vec<u32>, line: Line<'_>, header: Header) -> Result<(), MeshRefusal>
    ensures ok { OnOk result ((cell : List ℕ) × (numbers.new.items ≡ numbers.old.items ++ cell) × IsCellLine header cell
        × (row number_of (cell_size header) (words line.entry.text.now) ≡ Some cell)) }
    ensures err { IfErr result (λ e. (e ≡ out_of_memory) ⊎ ((points : List (List Fraction)) (cells : List (List ℕ)) →
        IsRefusedBy e line.entry.number (after_cell header points cells (row number_of (cell_size header) (words line.entry.text.now))))) }
{
    let before = numbers.len();
    push_numbers(numbers, line, header.cell_size())?;
    let (_, cell) = numbers.split_at(before);
    let (vertices, _) = cell.split_at(header.kind.dim() as usize + 1);
    if !are_below(header.vertices, vertices) {
        return Err(line.refused(MeshKind::VertexRange));
    }
    if !is_distinct(vertices) {
        return Err(line.refused(MeshKind::RepeatedVertex));
    }
    Ok(())
}
