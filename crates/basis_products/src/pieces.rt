//! Pieces of equal size.

ghost use Rattle.std.specs.Prelude.{◌≡◌, suc, ◌*◌, ◌≤◌, length};
ghost use Rattle.basis_products.specs.Order.{piece as piece_of};

/// Piece number `number` of the items, cut into pieces of this size.
pub fn piece<T>(items: &[T], size: usize, number: usize) -> &[T]
    requires { suc number * size ≤ length items.now }
    ensures { result.now ≡ piece_of size number items.now }
{
    let start = number * size;
    &items[start..start + size]
}
