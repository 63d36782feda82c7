//! How many scalar parts an element has.

ghost use Rattle.std.specs.Prelude.{◌≡◌, ◌+◌, ◌*◌, IfOk, length};
ghost use Rattle.spaces.specs.Space.{scalars, scalars_of};
ghost use Rattle.spaces.specs.Reading.{space_of, spaces_in};

use reference::Fault;
use spaces::ElementTree;

/// How many scalar parts an element has.
#[cycle(counts)]
pub fn count(tree: &ElementTree) -> Result<usize, Fault>
    ensures { IfOk result (λ n. n ≡ length (scalars (space_of tree.now))) }
{
    match tree {
        ElementTree::Scalar { .. } => Ok(1),
        ElementTree::Vector { part, dim } => {
            let one = count(part.get())?;
            copies(one, *dim as usize)
        }
        ElementTree::Tensor { part, rows, cols } => {
            let one = count(part.get())?;
            copies(one, *rows as usize * *cols as usize)
        }
        ElementTree::Mixed { parts } => count_all(parts.as_slice()),
    }
}

#[cycle(counts)]
pub fn count_all(parts: &[ElementTree]) -> Result<usize, Fault>
    ensures { IfOk result (λ n. n ≡ length (scalars_of (spaces_in parts.now))) }
{
    let mut total = 0;
    for part in parts {
        total = behind(total, count(part)?)?;
    }
    Ok(total)
}

fn copies(one: usize, n: usize) -> Result<usize, Fault>
    ensures { IfOk result (λ m. m ≡ n * one) }
{
    n.checked_mul(one).ok_or(Fault::Range)
}

pub fn behind(before: usize, more: usize) -> Result<usize, Fault>
    ensures { IfOk result (λ m. m ≡ before + more) }
{
    before.checked_add(more).ok_or(Fault::Range)
}
