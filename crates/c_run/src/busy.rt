// The statements that a run comes to, without the loops that make none.

ghost use Rattle.std.specs.Prelude.{◌≡◌, ◌<◌, IfOk, OnOk, length};
ghost use Rattle.c_run.specs.Busy.{AddsBlock, AddsLoop, AddsStatement, Closes, IsListed};

use c_unit::{CFun, CStmt};
use std::alloc::{AllocError, Global};

/// A statement that a run makes, or a loop whose turns make some.
#[derive(Clone, Copy)]
pub struct Busy {
    /// Its place among the statements of its block.
    pub index: usize,
    /// How many entries behind this one are those of a loop's body.
    pub inside: usize,
}

// Ends the entry of a loop with what was listed behind it, or takes it away where that is nothing.
fn close(busy: &mut Vec<Busy>, at: usize)
    requires { at < length busy.old.items }
    ensures { Closes at busy.old.items busy.new.items }
{
    let inside = busy.len() - at - 1;
    if inside == 0 {
        busy.truncate(at);
    } else {
        let index = busy[at].index;
        busy[at] = Busy { index, inside };
    }
}

// Lists a loop of some turns, whose place among the statements of its block is `index`.
#[cycle(list)]
fn list_loop(index: usize, body: &[CStmt], busy: &mut Vec<Busy>) -> Result<(), AllocError>
    ensures { OnOk result (AddsLoop index body.now busy.old.items busy.new.items) }
{
    let at = busy.len();
    busy.push(Busy { index, inside: 0 })?;
    list_block(body, busy)?;
    close(busy, at);
    Ok(())
}

#[cycle(list)]
fn list_statement(index: usize, s: &CStmt, busy: &mut Vec<Busy>) -> Result<(), AllocError>
    ensures { OnOk result (AddsStatement index s.now busy.old.items busy.new.items) }
{
    match s {
        CStmt::For { turns, body } => {
            if *turns == 0 {
                return Ok(());
            }
            list_loop(index, body.as_slice(), busy)
        }
        _ => {
            busy.push(Busy { index, inside: 0 })?;
            Ok(())
        }
    }
}

// Lists the statements of a block that make some, in their order, each in front of those of its body.
#[cycle(list)]
fn list_block(body: &[CStmt], busy: &mut Vec<Busy>) -> Result<(), AllocError>
    ensures { OnOk result (AddsBlock body.now busy.old.items busy.new.items) }
{
    for (index, s) in body.iter().enumerate() {
        list_statement(index, s, busy)?;
    }
    Ok(())
}

/// The list of a function's statements.
#[tactic(auto, using(crate::proofs::Listed::listed_alone))]
pub fn list_statements(alloc: Global, fun: &CFun) -> Result<Vec<Busy>, AllocError>
    ensures { IfOk result (λ busy. IsListed 0 fun.now.body busy.items) }
{
    let mut busy = Vec::new(alloc);
    list_block(fun.body.as_slice(), &mut busy)?;
    Ok(busy)
}
