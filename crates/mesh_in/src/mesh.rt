//! A mesh in memory.

ghost use Rattle.std.specs.Prelude.{◌≡◌, ◌+◌, ◌<◌, ◌≤◌, Some, take, drop, length, slice_get};
ghost use Rattle.spaces.specs.Cell.{dimension};
ghost use Rattle.ratio.specs.declared.reduced.Ratio.{Ratio};
ghost use Rattle.mesh_in.specs.MeshData.{MeshData, IsCell, IsMesh};
ghost use Rattle.mesh_in.specs.Storage.{stored, IsStored};

use crate::header::Header;
use ratio::Ratio;
use spaces::Cell;
use std::marker::Model;

fn part<T>(items: &[T], start: usize, size: usize) -> &[T]
    requires { start + size ≤ length items.now }
    ensures { result.now ≡ take size (drop start items.now) }
{
    let (_, rest) = items.split_at(start);
    let (part, _) = rest.split_at(size);
    part
}

/// Points, and cells of one kind on them. A vertex is the number of its point, counted from 0.
#[derive(Drop)]
pub struct Mesh {
    header: Header,
    // Point after point.
    coordinates: Vec<Ratio>,
    // Cell after cell: the numbers of its line.
    numbers: Vec<u32>,
}

impl Model for Mesh {
    ghost Value = { MeshData Ratio };

    ghost view = { λ m. stored m.header m.coordinates.items m.numbers.items };

    ghost invariant = { λ m. IsStored m.header m.coordinates.items m.numbers.items };
}

/// A cell of a mesh.
#[derive(Clone, Copy, Debug)]
pub struct CellView<'a> {
    /// The numbers of its vertices, one more than the dimension, each another.
    pub vertices: &'a [u32],
    /// What its line says behind them, and 0 in a mesh of version 1.
    pub marker: u32,
}

impl Mesh {
    /// Of what a text said.
    pub(crate) fn new(header: Header, coordinates: Vec<Ratio>, numbers: Vec<u32>) -> Mesh
        requires { IsStored header coordinates.items numbers.items }
        ensures { result ≡ stored header coordinates.items numbers.items }
    {
        Mesh {
            header,
            coordinates,
            numbers,
        }
    }

    /// The kind of all cells.
    pub fn kind(&self) -> Cell
        ensures kind { result ≡ self.now.kind }
        ensures mesh { IsMesh self.now }
    {
        self.header.kind
    }

    /// How many cells there are.
    pub fn cells(&self) -> u32
        ensures { result ≡ length self.now.cells }
    {
        self.header.cells
    }

    /// How many points there are.
    pub fn vertices(&self) -> u32
        ensures { result ≡ length self.now.points }
    {
        self.header.vertices
    }

    /// The cell of this number, counted from 0.
    pub fn cell(&self, k: u32) -> CellView<'_>
        requires { k < length self.now.cells }
        ensures vertices { slice_get self.now.cells k ≡ Some result.vertices.now }
        ensures marker { slice_get self.now.markers k ≡ Some result.marker }
        ensures cell { IsCell (dimension self.now.kind) (length self.now.points) result.vertices.now }
    {
        let size = self.header.cell_size() as usize;
        let numbers = part(&self.numbers, k as usize * size, size);
        let (vertices, markers) = numbers.split_at(self.header.kind.dim() as usize + 1);
        CellView {
            vertices,
            marker: markers.first().copied().unwrap_or(0),
        }
    }

    /// The coordinates of a vertex, as many as the dimension.
    pub fn point(&self, v: u32) -> &[Ratio]
        requires { v < length self.now.points }
        ensures coordinates { slice_get self.now.points v ≡ Some result.now }
        ensures dimension { length result.now ≡ dimension self.now.kind }
    {
        let size = self.header.kind.dim() as usize;
        let start = v as usize * size;
        part(&self.coordinates, start, size)
    }
}
