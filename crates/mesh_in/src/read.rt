//! A mesh from its text.

ghost use Rattle.std.specs.Prelude.{◌≡◌, ◌⊎◌, ◌+◌, ◌*◌, ◌≤◌, [], List, IfOk, IfErr, Ok, Err, length};
ghost use Rattle.std.specs.List.{AllByRecursion};
ghost use Rattle.std.specs.Str.Lines.{lines};
ghost use Rattle.algebra.specs.Fraction.{Fraction};
ghost use Rattle.spaces.specs.Cell.{dimension};
ghost use Rattle.mesh_in.specs.CellLine.{cell_size, IsCellLine};
ghost use Rattle.mesh_in.specs.HeaderLine.{header_line, IsWrongCell};
ghost use Rattle.mesh_in.specs.Line.{words};
ghost use Rattle.mesh_in.specs.MeshData.{MeshData, IsMesh, fractions, rows, most};
ghost use Rattle.mesh_in.specs.MeshGrammar.{IsMeshText, IsRefused};
ghost use Rattle.mesh_in.specs.MeshText.{longest, nothing, begun, header_of, after_header, reading, meaning};
ghost use Rattle.mesh_in.specs.Refusal.{out_of_memory};
ghost use Rattle.mesh_in.specs.Reader.{remaining, row_number, points_of, Fails, Gives, IsRefusedBy};

use crate::header::{Header, read_header};
use crate::lines::{Line, Lines};
use crate::mesh::Mesh;
use crate::refusal::{MeshKind, MeshRefusal};
use crate::rows::{push_cell, push_coordinates};
use ratio::Ratio;
use spaces::Cell;
use std::alloc::Global;

/// How many bytes the text of a mesh may have.
pub const MESH_LIMIT: u32 = 67_108_864;

/// The most vertices, and the most cells.
const MOST: u32 = 1_000_000;

fn first_row(line: Line<'_>) -> Result<Header, MeshRefusal>
    ensures few { IfOk result (λ header. (header.vertices ≤ most) × (header.cells ≤ most)) }
    ensures ok { IfOk result (λ header. after_header (header_of (words line.entry.text.now)) ≡ Ok (begun header [] [])) }
    ensures err { IfErr result (λ e. IsRefusedBy e line.entry.number (after_header (header_of (words line.entry.text.now)))) }
{
    let Some(header) = read_header(line.text) else {
        return Err(line.refused(MeshKind::Syntax));
    };
    if header.vertices > MOST || header.cells > MOST {
        return Err(line.refused(MeshKind::Count));
    }
    Ok(header)
}

// The header, and the number of its line.
fn read_first(lines: &mut Lines<'_>) -> Result<(Header, u32), MeshRefusal>
    ensures few { IfOk result (λ r. (r.0.vertices ≤ most) × (r.0.cells ≤ most)) }
    ensures ok { IfOk result (λ r. remaining lines.old nothing ≡ remaining lines.new (begun r.0 [] [])) }
    ensures number { IfOk result (λ r. r.1 ≡ row_number lines.old) }
    ensures err { IfErr result (λ e. Fails e (remaining lines.old nothing)) }
{
    let line = lines.row()?;
    let header = first_row(line)?;
    Ok((header, line.number))
}

// The coordinates of all points. The vectors grow as the lines come, whatever the header promises.
fn read_points(
    alloc: Global,
    lines: &mut Lines<'_>,
    header: Header,
) -> Result<Vec<Ratio>, MeshRefusal>
    ensures fit { IfOk result (λ v. length v.items ≡ header.vertices * dimension header.kind) }
    ensures ok { IfOk result (λ v. remaining lines.old (begun header [] []) ≡ remaining lines.new (begun header (points_of header header.vertices v.items) [])) }
    ensures err { IfErr result (λ e. Fails e (remaining lines.old (begun header [] []))) }
{
    let mut coordinates = Vec::new(alloc);
    'points: for _ in 0..header.vertices {
        let line = lines.row()?;
        push_coordinates(&mut coordinates, line, header.kind.dim())?;
    }
    Ok(coordinates)
}

// The numbers of all cells: their vertices and markers.
fn read_cells(alloc: Global, lines: &mut Lines<'_>, header: Header) -> Result<Vec<u32>, MeshRefusal>
    ensures fit { IfOk result (λ v. length v.items ≡ header.cells * cell_size header) }
    ensures cells { IfOk result (λ v. AllByRecursion (IsCellLine header) (rows (cell_size header) header.cells v.items)) }
    ensures ok { IfOk result (λ v. (points : List (List Fraction)) → length points ≡ header.vertices →
        remaining lines.old (begun header points []) ≡ remaining lines.new (begun header points (rows (cell_size header) header.cells v.items))) }
    ensures err { IfErr result (λ e. (points : List (List Fraction)) → length points ≡ header.vertices → Fails e (remaining lines.old (begun header points []))) }
{
    let mut numbers = Vec::new(alloc);
    'cells: for _ in 0..header.cells {
        let line = lines.row()?;
        push_cell(&mut numbers, line, header)?;
    }
    Ok(numbers)
}

// The mesh, and the line of its header.
fn read_lines(alloc: Global, text: &[u8]) -> Result<(Mesh, u32), MeshRefusal>
    requires { length text.now ≤ longest }
    ensures ok { IfOk result (λ r. reading 0 nothing (lines text.now) ≡ Ok (fractions r.0)) }
    ensures line { IfOk result (λ r. r.1 ≡ header_line text.now) }
    ensures err { IfErr result (λ e. Fails e (reading 0 nothing (lines text.now))) }
{
    let mut lines = Lines::new(text);
    let (header, line) = read_first(&mut lines)?;
    let coordinates = read_points(alloc, &mut lines, header)?;
    let numbers = read_cells(alloc, &mut lines, header)?;
    lines.end()?;
    Ok((Mesh::new(header, coordinates, numbers), line))
}

fn read(alloc: Global, text: &[u8]) -> Result<(Mesh, u32), MeshRefusal>
    ensures ok { IfOk result (λ r. meaning text.now ≡ Ok (fractions r.0)) }
    ensures line { IfOk result (λ r. r.1 ≡ header_line text.now) }
    ensures err { IfErr result (λ e. Fails e (meaning text.now)) }
{
    if text.len() > MESH_LIMIT as usize {
        return Err(MeshRefusal {
            kind: MeshKind::TooLong,
            line: 0,
            cell: 0,
        });
    }
    read_lines(alloc, text)
}

fn read_any(alloc: Global, text: &[u8]) -> Result<Mesh, MeshRefusal>
    ensures { Gives result (meaning text.now) }
{
    let (mesh, _) = read(alloc, text)?;
    Ok(mesh)
}

/// The mesh of a text, or what is wrong with its first bad line.
///
/// The format is in docs/FORMATS.md. Refusals are 1 to 6 of `MeshKind`, and `Memory` where memory runs out.
pub fn read_mesh(alloc: Global, text: &[u8]) -> Result<Mesh, MeshRefusal>
    // What is read is the mesh of the text, and the mesh of a text is read.
    ensures mesh { IfOk result (λ m. IsMeshText text.now (fractions m)) }
    ensures every_mesh { (m : MeshData Fraction) → IsMeshText text.now m → Gives result (Ok m) }

    // The refusal is that of the first bad line, and each text with one is refused.
    ensures refusal { IfErr result (λ e. (e ≡ out_of_memory) ⊎ IsRefused text.now e) }
    ensures every_refusal { (e : MeshRefusal) → IsRefused text.now e → Gives result (Err e) }

    // Each text has one meaning.
    ensures meaning { Gives result (meaning text.now) }
{
    read_any(alloc, text)
}

/// The mesh of a text, if its cells are of this kind. A mesh of other cells is refused as `WrongCell`, with the line of its
/// header; every other text as by `read_mesh`.
pub fn read_mesh_of(alloc: Global, kind: Cell, text: &[u8]) -> Result<Mesh, MeshRefusal>
    ensures mesh { IfOk result (λ m. meaning text.now ≡ Ok (fractions m)) }
    ensures kind { IfOk result (λ m. m.kind ≡ kind) }
    ensures lawful { IfOk result IsMesh }
    ensures refusal { IfErr result (λ e. Fails e (meaning text.now) ⊎ IsWrongCell kind text.now e) }
{
    let (mesh, line) = read(alloc, text)?;
    if mesh.kind() == kind {
        Ok(mesh)
    } else {
        Err(MeshRefusal {
            kind: MeshKind::WrongCell,
            line,
            cell: 0,
        })
    }
}
