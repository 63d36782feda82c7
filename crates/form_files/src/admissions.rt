//! The exported forms that are admitted.
ghost use Rattle.std.specs.Prelude.{◌≡◌, ◌<◌, ◌^◌};
ghost use Rattle.ufl_tree.specs.Places.{table_of};
ghost use Rattle.ufl_form.specs.Reading.{form_of};
ghost use Rattle.weigh.specs.Refusals.{size};
ghost use Rattle.weigh.specs.Weighing.{exact};
ghost use Rattle.admit.specs.Admission.{admission};
ghost use Rattle.form_files.specs.Admissions.{refused_kind, refused, dimension_of, admission_of};

use admit::{admission_law, admit, rank, size};
use monos::Weight;
use ufl_elab::Named;
use ufl_expr::Elements;
use ufl_form::Form;
use ufl_read::{FormKind, FormRefusal};
use weigh::WeightRefusal;

/// What is known of an admitted form: its rank, from 0 to 2; its cost, up to 2^20; and its size, below 2^100.
#[derive(Clone, Copy, Debug)]
pub struct Admitted {
    pub rank: u8,
    pub cost: u128,
    pub size: u128,
}

fn refused_kind(refusal: WeightRefusal) -> FormKind
    ensures { result ≡ refused_kind refusal }
{
    match refusal {
        WeightRefusal::Arity => FormKind::Arity,
        WeightRefusal::Cost => FormKind::Cost,
        WeightRefusal::Size => FormKind::Size,
    }
}

// The refusal names the form: the target of its last assignment.
fn refused(refusal: WeightRefusal, named: &Named) -> FormRefusal
    ensures { result ≡ refused refusal named.now }
{
    FormRefusal {
        kind: refused_kind(refusal),
        line: named.line,
        from: named.from,
        len: named.len,
    }
}

// The weight by exact numbers. Kept ones decide as these do, since the table is lawful and the form has a cell.
fn exact_weight(elements: &Elements, form: &Form) -> Result<Weight, WeightRefusal>
    ensures { result ≡ admission exact (dimension_of (form_of form.now)) (table_of elements.now) (form_of form.now) }
{
    elements.lawful();
    admission_law();
    let _typed = form.tree();
    admit(form, elements)
}

// The size of the weight of an admitted form is below 2^100, so that it is kept as it is.
fn exact_size(form: &Form, weight: &Weight) -> u128
    requires { size (dimension_of (form_of form.now)) weight.now < 2 ^ 100 }
    ensures { result ≡ size (dimension_of (form_of form.now)) weight.now }
{
    let _typed = form.tree();
    size(form, weight)
}

/// An exported form as it is admitted, or why it isn't: first by its arity, then by its cost and by its size. Takes no
/// memory.
pub fn admission(elements: &Elements, named: &Named) -> Result<Admitted, FormRefusal>
    ensures { result ≡ admission_of (table_of elements.now) named.now }
{
    match exact_weight(elements, &named.form) {
        Err(refusal) => Err(refused(refusal, named)),
        Ok(weight) => Ok(Admitted {
            rank: rank(&named.form),
            cost: weight.cost,
            size: exact_size(&named.form, &weight),
        }),
    }
}
