//! Pieces of lists.

ghost use Rattle.std.specs.Prelude.{◌≡◌, ◌+◌, ◌*◌, ◌≤◌, length, take, drop};

use ratio::Ratio;

/// Piece k of a list of pieces of this width.
pub fn piece(items: &[Ratio], width: usize, k: usize) -> &[Ratio]
    requires { (k + 1) * width ≤ length items.now }
    ensures { result.now ≡ take width (drop (k * width) items.now) }
{
    let start = k * width;
    &items[start..start + width]
}
