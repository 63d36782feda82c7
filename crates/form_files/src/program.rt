//! From a text to its program.
ghost use Rattle.std.specs.Prelude.{◌≡◌};
ghost use Rattle.ufl_tree.specs.Places.{table_of};
ghost use Rattle.form_files.specs.FileProgram.{Answers};
ghost use Rattle.form_files.specs.Admissions.{IsFormFile, first_refused};

use crate::admissions::admission;
use std::alloc::Global;
use ufl_elab::{Named, UflProgram, elaborate};
use ufl_expr::Elements;
use ufl_read::{FormRefusal, read_file};

/// The program of a form file, or the first refusal of its text or of its statements.
pub fn read_program(alloc: Global, text: &[u8]) -> Result<UflProgram, FormRefusal>
    ensures { Answers text.now result }
{
    let statements = read_file(alloc, text)?;
    elaborate(alloc, text, statements.as_slice())
}

// The refusal of the first form that isn't admitted.
fn admit_all(elements: &Elements, forms: &[Named]) -> Result<(), FormRefusal>
    ensures { result ≡ first_refused (table_of elements.now) forms.now }
{
    for named in forms {
        admission(elements, named)?;
    }
    Ok(())
}

/// The program of a form file whose exported forms are all admitted, or the first refusal.
pub fn admitted_program(alloc: Global, text: &[u8]) -> Result<UflProgram, FormRefusal>
    ensures { IsFormFile text.now result }
{
    let program = read_program(alloc, text)?;
    admit_all(&program.elements, program.forms.as_slice())?;
    Ok(program)
}
