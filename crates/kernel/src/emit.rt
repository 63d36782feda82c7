// Statements, one after the other.

ghost use Rattle.std.specs.Prelude.{◌≡◌, ◌++◌, ◌∷◌, [], OnOk};
ghost use Rattle.kernel.specs.Statements.{plain};

use c_unit::{Array, CStmt, Place, Slot};
use sqlite_items::Items;
use std::alloc::AllocError;

/// A slot that is the same in all turns.
pub fn plain(array: Array, base: u32) -> Place
    ensures { result ≡ plain array base }
{
    Place {
        array,
        slot: Slot {
            base,
            steps: [0, 0, 0, 0],
        },
    }
}

/// `body` with one more statement.
pub fn emit(body: &mut Items<CStmt>, statement: CStmt) -> Result<(), AllocError>
    ensures { OnOk result (body.new ≡ body.old ++ statement ∷ []) }
{
    body.push(statement)
}
