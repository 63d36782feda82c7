//! What `check` prints of a form file.
ghost use Rattle.std.specs.Prelude.{◌≡◌, ◌++◌, ◌⊎◌, decimal, IfErr, IfOk, OnOk, Err, Ok};
ghost use Rattle.ufl_tree.specs.Places.{table_of};
ghost use Rattle.ufl_read.specs.Refusals.{wordless};
ghost use Rattle.ufl_read.specs.declared.refusal.FormKind.TheVariants.{Memory};
ghost use Rattle.form_files.specs.Checks.{IsCheck, form_line, form_lines};

use crate::admissions::{Admitted, admission};
use crate::program::read_program;
use itoa::Buffer;
use std::alloc::{AllocError, Global};
use ufl_elab::Named;
use ufl_expr::Elements;
use ufl_read::{FormKind, FormRefusal};
use ufl_syntax::Span;

// Words, and a number behind them.
fn push_number(text: &mut Vec<u8>, words: &[u8], number: u128) -> Result<(), AllocError>
    ensures { OnOk result (text.new.items ≡ text.old.items ++ (words.now ++ decimal number)) }
{
    text.extend_from_slice(words)?;
    text.extend_from_slice(Buffer::new().format(number).as_bytes())
}

// `form NAME rank R cost C size S`
fn push_form(text: &mut Vec<u8>, name: &[u8], form: Admitted) -> Result<(), AllocError>
    ensures { OnOk result (text.new.items ≡ text.old.items ++ form_line name.now form) }
{
    text.extend_from_slice(b"form ")?;
    text.extend_from_slice(name)?;
    push_number(text, b" rank ", form.rank as u128)?;
    push_number(text, b" cost ", form.cost)?;
    push_number(text, b" size ", form.size)?;
    text.extend_from_slice(b"\n")
}

// The lines of the forms, one behind the other.
fn lines(
    alloc: Global,
    file: &[u8],
    elements: &Elements,
    forms: &[Named],
) -> Result<Vec<u8>, FormRefusal>
    ensures lines { IfOk result (λ text. form_lines file.now (table_of elements.now) forms.now ≡ Ok text.items) }
    ensures refused { IfErr result (λ e. (e ≡ wordless Memory 0)
        ⊎ (form_lines file.now (table_of elements.now) forms.now ≡ Err e)) }
{
    let mut text = Vec::new(alloc);
    for named in forms {
        let form = admission(elements, named)?;
        let Named { from, len, .. } = *named;
        push_form(&mut text, Span { from, len }.text(file), form)?;
    }
    Ok(text)
}

/// The lines of the forms that a form file exports, or why it is refused. `NoForm` comes where it exports none.
pub fn check_text(alloc: Global, file: &[u8]) -> Result<Vec<u8>, FormRefusal>
    ensures lines { IfOk result (λ text. IsCheck file.now (Ok text.items)) }
    ensures refused { IfErr result (λ e. (e ≡ wordless Memory 0) ⊎ IsCheck file.now (Err e)) }
{
    let program = read_program(alloc, file)?;
    let forms = program.forms.as_slice();
    if forms.is_empty() {
        return Err(FormRefusal::new(FormKind::NoForm, 0));
    }
    lines(alloc, file, &program.elements, forms)
}
