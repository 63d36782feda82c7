//! Sums of trees in index notation, in brackets that are balanced.

ghost use Rattle.std.specs.Prelude.{◌≡◌, ◌≤◌, IfOk, map, vec_len};
ghost use Rattle.ufl_tree.specs.Reading.{term_of};
ghost use Rattle.form_monomials.specs.Sums.{IsSumOf, IsSumOfLast};

use passes::nodes::sum;
use std::alloc::{AllocError, Global};
use ufl_tree::Plain;

/// The sum of the last trees, so many, which leave the list. It is higher than the highest of them by the logarithm of
/// their number.
fn sum_of_last(alloc: Global, trees: &mut Vec<Plain>, count: usize) -> Result<Plain, AllocError>
    requires some { 1 ≤ count }
    requires there { count ≤ vec_len trees.old }
    ensures { IfOk result (IsSumOfLast trees.old.items trees.new.items count) }
{
    if count < 2 {
        return match trees.pop() {
            Some(tree) => Ok(tree),
            None => unreachable!(),
        };
    }
    let half = count / 2;
    let second = sum_of_last(alloc, trees, half)?;
    let first = sum_of_last(alloc, trees, count - half)?;
    sum(alloc, first, second)
}

/// The sum of these trees, at least one, in their order.
pub(crate) fn sum_of(alloc: Global, mut trees: Vec<Plain>) -> Result<Plain, AllocError>
    requires { 1 ≤ vec_len trees }
    ensures { IfOk result (λ e. IsSumOf (term_of e) (map term_of trees.items)) }
{
    let count = trees.len();
    sum_of_last(alloc, &mut trees, count)
}
