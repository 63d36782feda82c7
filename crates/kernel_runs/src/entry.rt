//! How the entries of a local tensor stand to the rows that are counted.

use ratio::Ratio;

/// How an entry of the local tensor stands to the counted rows of a monomial's reference tensor: those that are
/// neither zero nor a multiple of an earlier one.
#[derive(Clone, Copy, Debug, PartialEq, Eq)]
pub enum Entry {
    /// The entry's row is zero.
    NoRow,
    /// The entry's row is this counted one.
    Counted(u32),
    /// The entry's row is a counted one times a number.
    Multiple { by: Ratio, row: u32 },
}
