//! The kinds of cell.

ghost use Rattle.std.specs.Prelude.{◌≡◌, ◌≢◌, IfNone, IfSome};
ghost use Rattle.spaces.specs.Cell.{dimension, cell_name};

/// A simplex of dimension one, two or three.
#[derive(Clone, Copy, Debug, PartialEq, Eq)]
pub enum Cell {
    Interval,
    Triangle,
    Tetrahedron,
}

impl Cell {
    /// The dimension, from 1 to 3. A cell has one vertex more.
    pub fn dim(self) -> u8
        ensures { result ≡ dimension self }
    {
        match self {
            Cell::Interval => 1,
            Cell::Triangle => 2,
            Cell::Tetrahedron => 3,
        }
    }

    /// The name in form files and meshes.
    pub fn name(self) -> &'static str
        ensures { result.now ≡ cell_name self }
    {
        match self {
            Cell::Interval => "interval",
            Cell::Triangle => "triangle",
            Cell::Tetrahedron => "tetrahedron",
        }
    }

    /// The cell of this name.
    pub fn named(name: &[u8]) -> Option<Cell>
        ensures found { IfSome result (λ cell. name.now ≡ cell_name cell) }
        ensures none { IfNone result ((cell : Cell) → name.now ≢ cell_name cell) }
    {
        if name == Cell::Interval.name().as_bytes() {
            Some(Cell::Interval)
        } else if name == Cell::Triangle.name().as_bytes() {
            Some(Cell::Triangle)
        } else if name == Cell::Tetrahedron.name().as_bytes() {
            Some(Cell::Tetrahedron)
        } else {
            None
        }
    }
}
