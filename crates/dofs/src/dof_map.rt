//! The degrees of freedom of an element on a mesh.

ghost use Rattle.std.specs.Prelude.{◌≡◌, ℕ, ◌<◌, ◌≤◌, ◌^◌, [], Some, length, slice_get, IfOk};
ghost use Rattle.std.specs.List.{All};
ghost use Rattle.dofs.specs.Rows.{Numbering};
ghost use Rattle.dofs.specs.Places.{row_places};
ghost use Rattle.dofs.specs.Table.{numbered, IsNumbered, IsIndexed};

use crate::key::Key;
use crate::places::{PlacesByRow, RowPlace, group_by_row};
use std::alloc::{AllocError, Global};
use std::marker::Model;

/// The rows of an element on a mesh: their labels in order, and the row of each local node of each cell.
#[derive(Drop)]
pub struct DofMap {
    labels: Vec<Key>,
    // Cell after cell, so many a cell.
    rows: Vec<u32>,
    local: u32,
    cells: u32,
    // Where the places of each row start, and where the last row's end.
    starts: Vec<u32>,
    places: Vec<RowPlace>,
}

impl Model for DofMap {
    ghost Value = { Numbering };

    ghost view = { λ d. numbered d.labels.items d.rows.items d.local d.cells };

    ghost invariant = { λ d. IsIndexed d.labels.items d.rows.items d.local d.cells d.starts.items d.places.items };
}

/// The label of a row. Two local nodes are one degree of freedom exactly where their labels are equal.
#[derive(Clone, Copy, Debug)]
pub struct LabelView<'a> {
    /// The number of the scalar part.
    pub part: u8,
    /// The cell, where the part is discontinuous.
    pub cell: Option<u32>,
    /// The vertices that the node lies between, by rising number.
    pub vertices: &'a [u32],
    /// Its weights there, which add up to the degree.
    pub weights: &'a [u8],
}

impl DofMap {
    /// Of labels in order, and the rows of all cells, so many a cell.
    pub(crate) fn new(
        alloc: Global,
        labels: Vec<Key>,
        rows: Vec<u32>,
        local: u32,
        cells: u32,
    ) -> Result<DofMap, AllocError>
        requires numbered { IsNumbered labels.items rows.items local cells }
        requires few { length rows.items < 2 ^ 32 }
        ensures { IfOk result (λ d. d ≡ numbered labels.items rows.items local cells) }
    {
        let count = labels.len() as u32;
        let PlacesByRow { starts, places } = group_by_row(alloc, &rows, local, cells, count)?;
        Ok(DofMap {
            labels,
            rows,
            local,
            cells,
            starts,
            places,
        })
    }

    /// The row numbers of the local nodes of cell k, counted from 0: parts in order, nodes in order.
    pub fn of_cell(&self, k: u32) -> &[u32]
        requires { k < length self.now.cells }
        ensures rows { slice_get self.now.cells k ≡ Some result.now }
        ensures in_range { All (λ n. n < length self.now.labels) result.now }
    {
        let size = self.local as usize;
        let start = k as usize * size;
        let (_, rest) = self.rows.split_at(start);
        let (of_cell, _) = rest.split_at(size);
        of_cell
    }

    /// All places of row n, counted from 0: by cell and then local number. There are none where no row has the number.
    pub fn cells_of(&self, n: u32) -> &[RowPlace]
        ensures { result.now ≡ row_places n self.now.cells }
    {
        if n >= self.count() {
            return &self.places[..0];
        }
        let start = self.starts[n as usize] as usize;
        let end = self.starts[n as usize + 1] as usize;
        let (_, rest) = self.places.split_at(start);
        let (of_row, _) = rest.split_at(end - start);
        of_row
    }

    /// How many rows there are. No local node has a row behind the last.
    pub fn count(&self) -> u32
        ensures count { result ≡ length self.now.labels }
        ensures all { (n : ℕ) → length self.now.labels ≤ n → row_places n self.now.cells ≡ [] }
    {
        self.labels.len() as u32
    }

    /// The label of row n, counted from 0.
    pub fn label(&self, n: u32) -> LabelView<'_>
        requires { n < length self.now.labels }
        ensures { slice_get self.now.labels n ≡ Some (record { part = result.part; cell = result.cell; vertices = result.vertices.now; weights = result.weights.now }) }
    {
        let key = &self.labels[n as usize];
        let count = key.support.count as usize;
        LabelView {
            part: key.part,
            cell: key.cell,
            vertices: &key.support.vertices[..count],
            weights: &key.support.weights[..count],
        }
    }
}
