//! The command `compile`.
ghost use Rattle.std.specs.Prelude.{◌≡◌, ◌≢◌, ◌++◌, [], Ok, IfOk, IfErr, OnOk, OnErr};
ghost use Rattle.std.specs.List.{AllByRecursion};
ghost use Rattle.form_files.specs.Admissions.{IsFileOf};
ghost use Rattle.ffc.specs.Compile.{IsUnitText};
ghost use Rattle.ffc.specs.Forms.{CompileCause, IsExported};
ghost use Rattle.ffc.specs.Unit.{AreFunctionsOf, IsFormUnit, function_list};

use crate::forms::{name_of, some_forms};
use answers::Outcome;
use assembly::Funs;
use c_text::print_unit;
use c_unit::{CFun, CUnit};
use form_kernels::functions;
use sqlite_items::Items;
use std::alloc::{AllocError, Global};
use ufl_elab::{Named, UflProgram};

/// The functions of a form behind those of the forms before it: that for the other cells, and then those for its markers.
fn push_functions(funs: Funs, all: &mut Items<CFun>) -> Result<(), AllocError>
    ensures { OnOk result (all.new ≡ all.old ++ function_list funs) }
{
    all.push(funs.plain)?;
    for marked in funs.marked {
        all.push(marked.fun)?;
    }
    Ok(())
}

/// The functions of an exported form.
fn functions_of(
    alloc: Global,
    file: &[u8],
    program: &UflProgram,
    named: &Named,
) -> Result<Funs, AllocError>
    requires { IsExported program.now named.now }
    ensures { IfOk result (λ funs. IsFormUnit file.now program.now named.now (function_list funs)) }
{
    // That the table of forms allows the tree gives the form's cell.
    let _tree = named.form.tree();
    let of_form = functions(
        alloc,
        name_of(file, named),
        &named.form,
        &program.elements,
        program.coefficients.as_slice(),
    )?;
    Ok(of_form.functions)
}

/// Those of all these forms, in order.
fn all_functions(
    alloc: Global,
    file: &[u8],
    program: &UflProgram,
    forms: &[Named],
) -> Result<Items<CFun>, AllocError>
    requires { AllByRecursion (IsExported program.now) forms.now }
    ensures { IfOk result (AreFunctionsOf file.now program.now forms.now) }
{
    let mut all = Items::new(alloc);
    for named in forms {
        let functions = functions_of(alloc, file, program, named)?;
        push_functions(functions, &mut all)?;
    }
    Ok(all)
}

/// The C text of the unit of the forms that a file exports.
pub fn compile(alloc: Global, file: &[u8]) -> Result<Vec<u8>, Outcome>
    ensures text { IfOk result (λ text. IsUnitText file.now text.items) }
    ensures cause { IfErr result (CompileCause file.now) }
{
    let program = some_forms(alloc, file)?;
    let unit = CUnit {
        funs: all_functions(alloc, file, &program, program.forms.as_slice())?,
    };
    let mut text = Vec::new(alloc);
    print_unit(&unit, &mut text)?;
    Ok(text)
}
