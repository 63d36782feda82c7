// Statements one after the other, and loops.

ghost use Rattle.std.specs.Prelude.{◌≡◌};
ghost use Rattle.c_unit.specs.Meaning.{run_list, tables_of, written_list};
ghost use Rattle.c_run.specs.Answer.{end_of, number, numbered, slots_of};
ghost use Rattle.c_run.specs.Busy.{IsListed};

use crate::busy::Busy;
use crate::place::{Inputs, Turns};
use crate::ret::Ret;
use crate::statement::run_statement;
use c_unit::CStmt;
use ratio::Ratio;

// How many statements stand in the text, a loop's header counted as one.
fn written(body: &[CStmt]) -> u32
    ensures { result ≡ number (written_list body.now) }
{
    let mut count = 0u32;
    for s in body {
        let more = match s {
            CStmt::For { body: inner, .. } => written(inner.as_slice()).saturating_add(1),
            _ => 1,
        };
        count = count.saturating_add(more);
    }
    count
}

// The listed statements one after the other; a loop's body once for each turn. `body` is the block, and `busy` lists it.
pub fn run_block(
    body: &[CStmt],
    busy: &[Busy],
    is: Turns,
    from: &Inputs,
    t: &mut [Ratio],
    a: &mut [Ratio],
) -> Ret
    requires { IsListed 0 body.now busy.now }
    ensures { end_of result (slots_of from.now.x.now from.now.w.now t.new a.new) ≡ numbered (run_list body.now (tables_of from.now.tables.now) is.depth is.of (slots_of from.now.x.now from.now.w.now t.old a.old)) }
{
    let mut rest = busy;
    'all: loop {
        let Some((first, behind)) = rest.split_first() else {
            return Ret::Good;
        };
        let (inside, others) = behind.split_at(first.inside);
        match &body[first.index] {
            CStmt::For { turns, body: inner } => {
                let inner = inner.as_slice();
                for i in 0..*turns {
                    let r = run_block(inner, inside, is.within(i), from, t, a);
                    if !r.is_good() {
                        return r.further(1).further(written(&body[..first.index]));
                    }
                }
            }
            s => {
                let r = run_statement(s, is, from, t, a);
                if !r.is_good() {
                    return r.further(written(&body[..first.index]));
                }
            }
        }
        rest = others;
    }
}
