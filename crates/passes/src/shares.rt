//! One part in n, as a number.

ghost use Rattle.std.specs.Prelude.{◌≡◌, ◌≤◌};
ghost use Rattle.ufl_tree.specs.Reading.{term_of};
ghost use Rattle.ufl_tree.specs.Term as t;
ghost use Rattle.lower.specs.Shares.{share_of};

use ratio::Ratio;
use ufl_tree::Plain;

/// 1/n.
pub fn share(n: u8) -> Plain
    requires { 1 ≤ n }
    ensures { term_of result ≡ t.num (share_of n) }
{
    match Ratio::new(1, n as i128) {
        Some(part) => Plain::Num(part),
        None => unreachable!(),
    }
}
