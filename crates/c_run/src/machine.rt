// A machine for one function.

ghost use Rattle.std.specs.Prelude.{◌≡◌, IfOk, length, replicate};
ghost use Rattle.algebra.specs.Fraction.{zero_fraction};
ghost use Rattle.c_unit.specs.Meaning.{fractions_of, ran};
ghost use Rattle.c_run.specs.Answer.{answer, answer_of};
ghost use Rattle.c_run.specs.Busy.{IsListed};

use crate::block::run_block;
use crate::busy::{Busy, list_statements};
use crate::place::{Inputs, Turns};
use crate::ret::Ret;
use c_unit::CFun;
use ratio::Ratio;
use std::alloc::{AllocError, Global};
use std::marker::Model;

/// A function with the slots of its temporaries, seen as that function.
#[derive(Drop)]
pub struct Machine<'f> {
    fun: &'f CFun,
    busy: Vec<Busy>,
    t: Vec<Ratio>,
}

impl<'f> Model for Machine<'f> {
    ghost use Rattle.std.specs.Prelude.{◌≡◌, length};
    ghost use Rattle.std.specs.Coded.{codes};
    ghost use Rattle.c_unit.specs.declared.unit.CFun.{CFun};
    ghost use Rattle.c_run.specs.Busy.{IsListed};
    ghost use Rattle.c_unit.specs.contracts.unit.CStmt as statement;

    ghost Value = { CFun };

    ghost coded = { Prim.hlevel (codes, statement.the_row.coded) };

    ghost view = { λ m. m.fun.now };

    ghost invariant = { λ m. (length m.t.items ≡ m.fun.now.t) × IsListed 0 m.fun.now.body m.busy.items };
}

// Sets all slots to 0, as they are when a run begins.
fn clear(slots: &mut [Ratio])
    ensures { fractions_of slots.new ≡ replicate (length slots.old) zero_fraction }
{
    slots.fill(Ratio::zero());
}

// A run of the function, whose statements `busy` lists, over the slots `t` of its temporaries.
fn run_function(
    fun: &CFun,
    busy: &[Busy],
    x: &[Ratio],
    w: &[Ratio],
    t: &mut [Ratio],
    a: &mut [Ratio],
) -> Ret
    requires listed { IsListed 0 fun.now.body busy.now }
    requires temporaries { length t.old ≡ fun.now.t }
    requires tensor { length a.old ≡ fun.now.a }
    ensures { answer_of result a.new ≡ answer (ran fun.now (fractions_of x.now) (fractions_of w.now)) }
{
    clear(t);
    clear(a);
    let is = Turns {
        depth: 0,
        of: [0, 0, 0, 0],
    };
    let from = Inputs {
        tables: fun.tables.as_slice(),
        x,
        w,
    };
    run_block(fun.body.as_slice(), busy, is, &from, t, a)
}

impl<'f> Machine<'f> {
    /// A machine for `fun`. It takes the memory of the temporaries, 32 bytes a slot, and of a list of the statements, 16
    /// bytes each, and no run takes more; where that memory isn't there, it gives an `AllocError`.
    pub fn new(alloc: Global, fun: &'f CFun) -> Result<Machine<'f>, AllocError>
        ensures { IfOk result (λ m. m ≡ fun.now) }
    {
        let t = vec![in alloc; Ratio::zero(); fun.t as usize]?;
        let busy = list_statements(alloc, fun)?;
        Ok(Machine { fun, busy, t })
    }

    /// Runs the function on coordinates `x` and coefficient values `w`, and writes the local tensor to `a`, whose length is
    /// the function's size `a`. Where a statement ends the run early, `a` holds what the statements before it wrote.
    pub fn run(&mut self, x: &[Ratio], w: &[Ratio], a: &mut [Ratio]) -> Ret
        requires { length a.old ≡ self.old.a }
        ensures function { self.new ≡ self.old }
        ensures meaning { answer_of result a.new ≡ answer (ran self.old (fractions_of x.now) (fractions_of w.now)) }
    {
        run_function(
            self.fun,
            self.busy.as_slice(),
            x,
            w,
            self.t.as_mut_slice(),
            a,
        )
    }
}

#[cfg(test)]
mod tests {
    use super::*;
    use c_unit::{Array, CStmt, Op, Place, Slot};
    use sqlite_items::Items;
    use std::test::Fail;

    fn place(array: Array, base: u32, steps: [u32; 4]) -> Place {
        Place {
            array,
            slot: Slot { base, steps },
        }
    }

    fn pair(first: (i128, i128), second: (i128, i128)) -> Result<[Ratio; 2], Fail> {
        let first = Ratio::new(first.0, first.1).ok_or("doesn't fit")?;
        let second = Ratio::new(second.0, second.1).ok_or("doesn't fit")?;
        Ok([first, second])
    }

    // A[i] = table[i] * X[0] * X[1] for both i, and then the reciprocal of A[1].
    fn products(alloc: Global, table: Items<Ratio>) -> Result<CFun, AllocError>
        ensures { IfOk result (λ f. f.a ≡ 2) }
    {
        let entry = place(Array::A, 0, [1, 0, 0, 0]);
        let mut inner = Items::new(alloc);
        inner.push(CStmt::Mul {
            to: entry,
            left: entry,
            right: place(Array::X, 0, [0, 1, 0, 0]),
        })?;
        let mut outer = Items::new(alloc);
        outer.push(CStmt::Load {
            to: entry,
            table: 0,
            at: entry.slot,
        })?;
        outer.push(CStmt::For {
            turns: 2,
            body: inner,
        })?;
        let mut body = Items::new(alloc);
        body.push(CStmt::For {
            turns: 2,
            body: outer,
        })?;
        body.push(CStmt::Inv {
            to: place(Array::T, 0, [0, 0, 0, 0]),
            arg: place(Array::A, 1, [0, 0, 0, 0]),
        })?;
        let mut tables = Items::new(alloc);
        tables.push(table)?;
        Ok(CFun {
            name: Items::new(alloc),
            x: 2,
            w: 0,
            t: 1,
            a: 2,
            tables,
            body,
        })
    }

    fn run_products(rt: &HostRuntime, x: (i128, i128)) -> Result<(Ret, [Ratio; 2]), Fail> {
        let table = Items::from_slice(rt.alloc(), &pair((1, 2), (2, 3))?)?;
        let fun = products(rt.alloc(), table)?;
        let mut machine = Machine::new(rt.alloc(), &fun)?;
        let mut a = [Ratio::one(), Ratio::one()];
        let end = machine.run(&pair((x.0, 1), (x.1, 1))?, &[], &mut a);
        Ok((end, a))
    }

    #[test]
    fn loops_run_over_a_table(rt: HostRuntime) -> Result<(), Fail> {
        let (end, a) = run_products(&rt, (4, 3))?;
        assert!(rt; matches!(end, Ret::Good));
        assert!(rt; a == pair((6, 1), (8, 1))?);
        let (end, a) = run_products(&rt, (4, 0))?;
        assert!(rt; matches!(end, Ret::Zero { at: 4 }));
        assert!(rt; a == pair((0, 1), (0, 1))?);
        Ok(())
    }

    #[test]
    fn a_step_that_passes_is_named(rt: HostRuntime) -> Result<(), Fail> {
        let (end, a) = run_products(&rt, (1 << 126, 5))?;
        let Ret::Passed {
            at,
            op,
            left,
            right,
        } = end
        else {
            return Err("no product passed".into());
        };
        assert_eq!(rt; at, 3);
        assert!(rt; matches!(op, Op::Mul));
        assert!(rt; [left, right] == pair((1 << 125, 1), (5, 1))?);
        assert!(rt; a == pair((1 << 125, 1), (0, 1))?);
        Ok(())
    }
}
