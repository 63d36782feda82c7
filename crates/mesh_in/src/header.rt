//! The first line of a mesh text.

ghost use Rattle.std.specs.Prelude.{◌≡◌, Option, Some};
ghost use Rattle.std.specs.Option.{option_map};
ghost use Rattle.mesh_in.specs.CellLine.{cell_size};
ghost use Rattle.mesh_in.specs.Line.{words};
ghost use Rattle.mesh_in.specs.Number.{number_of};
ghost use Rattle.mesh_in.specs.MeshText.{keyword, one, version_named, cell_named, header_of};

use crate::words::{first_word, has_words, read_number};
use spaces::Cell;

/// The version of the format.
#[derive(Clone, Copy, PartialEq, Eq)]
pub enum Version {
    /// 1: the line of a cell has its vertices alone.
    Plain,
    /// 2: a marker follows them.
    Marked,
}

/// What the first line says: the kind of the cells, the version, and how many vertices and cells follow.
#[derive(Clone, Copy)]
pub struct Header {
    pub kind: Cell,
    pub version: Version,
    pub vertices: u32,
    pub cells: u32,
}

impl Header {
    /// How many numbers the line of a cell has: 2 to 5.
    pub fn cell_size(&self) -> u8
        ensures { result ≡ cell_size self.now }
    {
        let vertices = self.kind.dim() + 1;
        match self.version {
            Version::Plain => vertices,
            Version::Marked => vertices + 1,
        }
    }
}

// What follows the word.
fn skip_keyword<'a>(line: &'a [u8], word: &[u8]) -> Option<&'a [u8]>
    ensures { option_map (λ rest. words rest.now) result ≡ keyword word.now (words line.now) }
{
    let (first, rest) = first_word(line)?;
    if first == word { Some(rest) } else { None }
}

fn read_cell(name: &[u8]) -> Option<Cell>
    ensures { result ≡ cell_named name.now }
{
    Cell::named(name)
}

fn read_version(name: &[u8]) -> Option<Version>
    ensures { result ≡ version_named name.now }
{
    if name == b"1".as_slice() {
        Some(Version::Plain)
    } else if name == b"2".as_slice() {
        Some(Version::Marked)
    } else {
        None
    }
}

fn first_version(line: &[u8]) -> Option<(Version, &[u8])>
    ensures { option_map (λ r. (r.0, words r.1.now)) result ≡ one version_named (words line.now) }
{
    let (first, rest) = first_word(line)?;
    Some((read_version(first)?, rest))
}

fn first_cell(line: &[u8]) -> Option<(Cell, &[u8])>
    ensures { option_map (λ r. (r.0, words r.1.now)) result ≡ one cell_named (words line.now) }
{
    let (first, rest) = first_word(line)?;
    Some((read_cell(first)?, rest))
}

fn first_number(line: &[u8]) -> Option<(u32, &[u8])>
    ensures { option_map (λ r. (r.0, words r.1.now)) result ≡ one number_of (words line.now) }
{
    let (first, rest) = first_word(line)?;
    Some((read_number(first)?, rest))
}

/// The header that the words of a line spell.
#[tactic(auto, unfolding(crate::specs::MeshText::header_of))]
pub fn read_header(line: &[u8]) -> Option<Header>
    ensures { result ≡ header_of (words line.now) }
{
    let rest = skip_keyword(line, b"mesh")?;
    let (version, rest) = first_version(rest)?;
    let (kind, rest) = first_cell(rest)?;
    let (vertices, rest) = first_number(rest)?;
    let (cells, rest) = first_number(rest)?;
    if has_words(rest) {
        return None;
    }
    Some(Header {
        kind,
        version,
        vertices,
        cells,
    })
}
