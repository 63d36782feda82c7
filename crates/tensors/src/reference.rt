//! Reference tensors as they are kept and read.

ghost use Rattle.std.specs.Prelude.{◌≡◌, ℕ, suc, ◌*◌, ◌<◌, ◌≤◌, length, slice_index_or, []};
ghost use Rattle.basis_products.specs.Order.{piece as piece_of};
ghost use Rattle.tensors.specs.Stored.{kept_place as place_of};

use monomial_items::KeptRows;
use monomial_products::Support;
use ratio::Ratio;
use std::marker::Model;

/// The reference tensor of a monomial: a row for each entry of the local tensor, row by row, and a column for each
/// choice of coefficient nodes and reference directions. The rows at the nodes at which the monomial may be other than
/// 0 are kept, and one row of zeros that stands for all others.
#[derive(Drop)]
pub struct RefTensor {
    pub(crate) kept: KeptRows,
    /// How many local nodes the test and the trial function have; at least one each.
    pub(crate) rows: u32,
    pub(crate) cols: u32,
    pub(crate) columns: usize,
    pub(crate) zeros: Vec<Ratio>,
}

impl Model for RefTensor {
    ghost use Rattle.std.specs.Prelude.{List};
    ghost use Rattle.ratio.specs.declared.reduced.Ratio.{Ratio};
    ghost use Rattle.tensors.specs.Stored.{stored_rows, IsStored};

    ghost Value = { List (List Ratio) };

    ghost view = { λ t. stored_rows t.kept.tests t.kept.trials t.rows t.cols t.columns t.kept.items.items
        t.zeros.items };

    ghost invariant = { λ t. IsStored t.kept.tests t.kept.trials t.rows t.cols t.columns t.kept.items.items
        t.zeros.items };
}

/// Which of the kept rows is that of local nodes a and b; none where it is 0 throughout.
fn kept_place(tests: Support, trials: Support, a: u32, b: u32) -> Option<usize>
    ensures { result ≡ place_of tests trials a b }
{
    let test = tests.place(a)?;
    let trial = trials.place(b)?;
    Some(test as usize * trials.places() as usize + trial as usize)
}

/// Row number `place` of rows of this size, one after the other.
fn piece(items: &[Ratio], size: usize, place: usize) -> &[Ratio]
    requires { suc place * size ≤ length items.now }
    ensures { result.now ≡ piece_of size place items.now }
{
    let start = place * size;
    &items[start..start + size]
}

impl RefTensor {
    /// How many rows there are, one for each entry of the local tensor.
    pub fn rows(&self) -> u32
        ensures { result ≡ length self.now }
    {
        self.rows * self.cols
    }

    /// How many columns each row has.
    pub fn columns(&self) -> u32
        ensures { (k : ℕ) → k < length self.now → length (slice_index_or self.now k []) ≡ result }
    {
        self.columns as u32
    }

    /// The row of entry k: that of the test function's local node a and the trial function's b, where k is a times the
    /// number of the trial function's local nodes, plus b.
    pub fn row(&self, k: u32) -> &[Ratio]
        requires { k < length self.now }
        ensures { result.now ≡ slice_index_or self.now k [] }
    {
        let place = kept_place(
            self.kept.tests,
            self.kept.trials,
            k / self.cols,
            k % self.cols,
        );
        match place {
            Some(place) => piece(self.kept.items.as_slice(), self.columns, place),
            None => self.zeros.as_slice(),
        }
    }
}
