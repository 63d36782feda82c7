// One statement that is not a loop.

ghost use Rattle.std.specs.Prelude.{◌≡◌, List, ℕ, false};
ghost use Rattle.ratio.specs.declared.reduced.Ratio.{Ratio as TheRatio};
ghost use Rattle.ratio.specs.Value.{fraction_of, valued};
ghost use Rattle.c_unit.specs.Meaning.{put_or_pass, put_or_zero, run_one, tables_of};
ghost use Rattle.c_run.specs.Answer.{end_of, is_loop, slots_of};

use crate::place::{Inputs, Turns, address, item, read, write};
use crate::ret::Ret;
use c_unit::{CStmt, Op, Place};
use ratio::Ratio;

// Writes what a step gave, or ends the run.
#[inline(always)]
fn settle(
    given: Option<Ratio>,
    op: Op,
    left: Ratio,
    right: Ratio,
    to: Place,
    is: Turns,
    t: &mut [Ratio],
    a: &mut [Ratio],
) -> Ret
    ensures { (x w : List TheRatio) → end_of result (slots_of x w t.new a.new) ≡ put_or_pass (valued given) op (fraction_of left) (fraction_of right) to is.of (slots_of x w t.old a.old) }
{
    match given {
        Some(v) => {
            write(to, is, v, t, a);
            Ret::Good
        }
        None => Ret::Passed {
            at: 0,
            op,
            left,
            right,
        },
    }
}

// Writes a reciprocal, or ends the run.
#[inline(always)]
fn settle_inverse(
    given: Option<Ratio>,
    to: Place,
    is: Turns,
    t: &mut [Ratio],
    a: &mut [Ratio],
) -> Ret
    ensures { (x w : List TheRatio) → end_of result (slots_of x w t.new a.new) ≡ put_or_zero (valued given) to is.of (slots_of x w t.old a.old) }
{
    match given {
        Some(v) => {
            write(to, is, v, t, a);
            Ret::Good
        }
        None => Ret::Zero { at: 0 },
    }
}

#[inline(always)]
pub fn run_statement(s: &CStmt, is: Turns, from: &Inputs, t: &mut [Ratio], a: &mut [Ratio]) -> Ret
    requires { is_loop s.now ≡ false }
    ensures { (depth : ℕ) → end_of result (slots_of from.now.x.now from.now.w.now t.new a.new) ≡ run_one s.now (tables_of from.now.tables.now) depth is.of (slots_of from.now.x.now from.now.w.now t.old a.old) }
{
    match s {
        CStmt::Set { to, value } => {
            write(*to, is, *value, t, a);
            Ret::Good
        }
        CStmt::Copy { to, arg } => {
            let v = read(*arg, is, from, t, a);
            write(*to, is, v, t, a);
            Ret::Good
        }
        CStmt::Abs { to, arg } => {
            let v = read(*arg, is, from, t, a);
            write(*to, is, v.abs(), t, a);
            Ret::Good
        }
        CStmt::Inv { to, arg } => {
            let v = read(*arg, is, from, t, a);
            settle_inverse(v.inv(), *to, is, t, a)
        }
        CStmt::Add { to, left, right } => {
            let l = read(*left, is, from, t, a);
            let r = read(*right, is, from, t, a);
            settle(l.add(r), Op::Add, l, r, *to, is, t, a)
        }
        CStmt::Sub { to, left, right } => {
            let l = read(*left, is, from, t, a);
            let r = read(*right, is, from, t, a);
            settle(l.sub(r), Op::Sub, l, r, *to, is, t, a)
        }
        CStmt::Mul { to, left, right } => {
            let l = read(*left, is, from, t, a);
            let r = read(*right, is, from, t, a);
            settle(l.mul(r), Op::Mul, l, r, *to, is, t, a)
        }
        CStmt::Load { to, table, at } => {
            let v = item(from.tables, *table, address(*at, is));
            write(*to, is, v, t, a);
            Ret::Good
        }
        CStmt::For { .. } => Ret::Good,
    }
}
