//! The forms of a form file that a command asks for.
ghost use Rattle.std.specs.Prelude.{◌≡◌, ◌≢◌, [], Ok, IfOk, IfErr};
ghost use Rattle.std.specs.List.{AllByRecursion};
ghost use Rattle.std.specs.Option.{option_copied};
ghost use Rattle.form_files.specs.Admissions.{IsFileOf};
ghost use Rattle.ufl_program.specs.Names.{name_of};
ghost use Rattle.ffc.specs.Forms.{form_named, no_form, not_yet, IsExported, HasWeight, IsNamed, ProgramCause, NamedOrMemory, CompileCause};

use answers::{FormName, Outcome};
use form_files::admitted_program;
use form_layouts::find_occurrences;
use std::alloc::Global;
use ufl_elab::{Named, UflProgram};
use ufl_read::{FormKind, FormRefusal};
use ufl_syntax::Span;

/// The text of a form's name.
pub fn name_of<'a>(file: &'a [u8], named: &Named) -> &'a [u8]
    ensures { result.now ≡ name_of file.now named.now }
{
    Span {
        from: named.from,
        len: named.len,
    }
    .text(file)
}

fn no_form() -> Outcome
    ensures { result ≡ no_form }
{
    Outcome::Form(FormRefusal::new(FormKind::NoForm, 0))
}

fn not_yet(named: &Named) -> Outcome
    ensures { result ≡ not_yet named.now }
{
    Outcome::NotYet(FormName {
        line: named.line,
        from: named.from,
        len: named.len,
    })
}

/// The program of a form file, its forms admitted.
pub fn program_of(alloc: Global, file: &[u8]) -> Result<UflProgram, Outcome>
    ensures says { IfOk result (λ p. IsFileOf file.now (Ok p)) }
    ensures exported { IfOk result (λ p. AllByRecursion (IsExported p) p.forms) }
    ensures cause { IfErr result (ProgramCause file.now) }
{
    match admitted_program(alloc, file) {
        Ok(program) => Ok(program),
        Err(refusal) => Err(Outcome::from(refusal)),
    }
}

/// The program of a form file that exports a form.
pub fn some_forms(alloc: Global, file: &[u8]) -> Result<UflProgram, Outcome>
    ensures says { IfOk result (λ p. IsFileOf file.now (Ok p)) }
    ensures exported { IfOk result (λ p. AllByRecursion (IsExported p) p.forms) }
    ensures some { IfOk result (λ p. p.forms ≢ []) }
    ensures cause { IfErr result (CompileCause file.now) }
{
    let program = program_of(alloc, file)?;
    if program.forms.is_empty() {
        return Err(no_form());
    }
    Ok(program)
}

/// The first of the forms that has the name.
fn named_form<'p>(file: &[u8], forms: &'p [Named], name: &[u8]) -> Option<&'p Named>
    ensures { option_copied result ≡ form_named file.now forms.now name.now }
{
    for named in forms {
        if name_of(file, named) == name {
            return Some(named);
        }
    }
    None
}

/// The form of this name in the program of this file, where no coefficient occurs in it. All forms there are admitted.
pub fn form_of_name<'p>(
    alloc: Global,
    file: &[u8],
    program: &'p UflProgram,
    name: &[u8],
) -> Result<&'p Named, Outcome>
    requires { AllByRecursion (IsExported program.now) program.now.forms }
    ensures named { IfOk result (λ n. IsNamed file.now program.now name.now n.now) }
    ensures weight { IfOk result (λ n. HasWeight program.now n.now) }
    ensures cause { IfErr result (NamedOrMemory file.now program.now name.now) }
{
    let Some(named) = named_form(file, program.forms.as_slice(), name) else {
        return Err(no_form());
    };
    // That the table of forms allows the tree gives the form's cell.
    let _tree = named.form.tree();
    let occurrences = find_occurrences(alloc, &named.form, program.coefficients.len())?;
    if !occurrences.coefficients.is_empty() {
        return Err(not_yet(named));
    }
    Ok(named)
}
