// Lists that are short.

ghost use Rattle.std.specs.Prelude.{[], ◌∷◌, ◌++◌, ◌≡◌, OnOk};

use sqlite_items::Items;
use std::alloc::{AllocError, Global};

// Puts an item at the end. Most lists of a file have one item: the first takes the room of one, and not of four.
pub fn add<T: Drop>(alloc: Global, items: &mut Items<T>, item: T) -> Result<(), AllocError>
    ensures { OnOk result (items.new ≡ items.old ++ item ∷ []) }
{
    if items.is_empty() {
        *items = Items::from_vec(Vec::with_capacity(alloc, 1)?);
    }
    items.push(item)
}
