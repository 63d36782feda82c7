//! The weights of forms, and which forms are admitted.

ghost use Rattle.std.specs.Prelude.{◌≡◌, ℕ, IfOk};
ghost use Rattle.spaces.specs.Cell.{dimension};
ghost use Rattle.ufl_tree.specs.Places.{table_of};
ghost use Rattle.ufl_form.specs.Reading.{form_of};
ghost use Rattle.calculus.specs.LocalFunction.{factorial};
ghost use Rattle.weigh.specs.declared.refusal.WeightRefusal.{WeightRefusal};
ghost use Rattle.weigh.specs.Refusals.{size, weight_refusal};
ghost use Rattle.weigh.specs.Weighing.{exact, kept, form_weight};
ghost use Rattle.ufl_form.specs.Table.{form_kind, form_patterns};
ghost use Rattle.ufl_tree.specs.FormTerm.{FormTerm};
ghost use Rattle.ufl_tree.specs.Places.{IsLawfulTable, Table};
ghost use Rattle.admit.specs.Admission.{same_flag, same_numbers, same_pairs, has_arity, rank_of, admission};
ghost use Rattle.admit.specs.Denominators.{HasDenominators};

use crate::steps::{linear, number, part, plus, product, times};
use crate::trees::tree_weight;
use monos::Weight;
use ufl_expr::Elements;
use ufl_form::{Form, FormTree, Numbers, PatternSet, patterns};
use weigh::WeightRefusal;

/// Most monomials, each counted by the nodes of its functions and its derivatives.
const MOST_COST: u128 = 1 << 20;

/// Most factors of a monomial.
const MOST_FACTORS: u128 = 256;

/// The first size that is too large.
const SIZE_LIMIT: u128 = 1 << 100;

#[tactic(auto, using(ufl_form::proofs::FormReadings::form_readings))]
fn form_weight(elements: &Elements, form: &FormTree) -> Weight
    ensures value { result ≡ form_weight kept (table_of elements.now) (form_of form.now) }
    ensures denominators { HasDenominators result }
{
    match form {
        FormTree::Integral { body, .. } => tree_weight(elements, body.tree()),
        FormTree::Sum(f, g) => plus(
            form_weight(elements, f.get()),
            form_weight(elements, g.get()),
        ),
        FormTree::Scale(c, f) => times(number(*c), form_weight(elements, f.get())),
        FormTree::Left(f) => linear(form_weight(elements, f.get())),
        FormTree::Right(f) => part(form_weight(elements, f.get())),
        FormTree::Action { body, .. } => form_weight(elements, body.get()),
        FormTree::Adjoint(f) => form_weight(elements, f.get()),
        FormTree::Derivative { body, .. } => linear(form_weight(elements, body.get())),
    }
}

/// The weight of a form over these elements, by the table; a number that would reach 2^127 stays at 2^127 - 1. Takes no memory.
pub fn weigh(form: &Form, elements: &Elements) -> Weight
    ensures { result ≡ form_weight kept (table_of elements.now) (form_of form.now) }
{
    form_weight(elements, form.tree())
}

fn same_flag(a: bool, b: bool) -> bool
    ensures { result ≡ same_flag a b }
{
    if a { b } else { !b }
}

fn same_numbers(a: Numbers, b: Numbers) -> bool
    ensures { result ≡ same_numbers a b }
{
    same_flag(a.zero, b.zero) && same_flag(a.one, b.one) && same_flag(a.more, b.more)
}

fn same_pairs(a: PatternSet, b: PatternSet) -> bool
    ensures { result ≡ same_pairs a b }
{
    same_numbers(a.zero, b.zero) && same_numbers(a.one, b.one) && same_numbers(a.more, b.more)
}

const NONE: Numbers = Numbers {
    zero: false,
    one: false,
    more: false,
};

const ZERO: Numbers = Numbers {
    zero: true,
    one: false,
    more: false,
};

const ONE: Numbers = Numbers {
    zero: false,
    one: true,
    more: false,
};

/// Each term has no argument; the test function once; or the test and the trial function once.
#[tactic(auto, unfolding(ufl_form::specs::Patterns::product))]
fn has_arity(p: PatternSet) -> bool
    ensures { result ≡ has_arity p }
{
    let of = |zero, one| PatternSet {
        zero,
        one,
        more: NONE,
    };
    same_pairs(p, of(ZERO, NONE)) || same_pairs(p, of(NONE, ZERO)) || same_pairs(p, of(NONE, ONE))
}

/// n! where it is below 2^127, and else 2^127 - 1; no factorial from that of 40 on is.
#[tactic(auto, using(crate::proofs::FormLaws::factorial_kept_at))]
fn kept_factorial(n: u128) -> u128
    ensures { result ≡ kept (factorial n) }
{
    let mut all = 1;
    for k in 0..n.min(40) {
        all = product(all, k + 1);
    }
    all
}

/// The size of a weight in d dimensions, kept within 127 bits.
#[tactic(auto, using(crate::proofs::StepLaws::kept_times))]
fn kept_size(d: u8, w: &Weight) -> u128
    ensures { result ≡ kept (size d w.now) }
{
    let scale = product(kept_factorial(w.deg.saturating_add(d as u128)), w.fac);
    product(product(product(scale, w.cost), w.num), w.s)
}

fn weight_refusal(d: u8, w: &Weight) -> Option<WeightRefusal>
    ensures { result ≡ weight_refusal d w.now }
{
    if w.cost > MOST_COST || w.g > MOST_FACTORS {
        return Some(WeightRefusal::Cost);
    }
    if kept_size(d, w) >= SIZE_LIMIT {
        return Some(WeightRefusal::Size);
    }
    None
}

/// The weight of a form that is admitted, or why it isn't: first by its arity, then by its cost and by its size. Takes no memory.
///
/// Over lawful elements the numbers decide as exact ones do, and an admitted weight is the exact one: `admission_law`.
pub fn admit(form: &Form, elements: &Elements) -> Result<Weight, WeightRefusal>
    ensures { IfOk (form_kind (form_of form.now)) (λ kind. result ≡ admission kept (dimension kind.cell) (table_of elements.now) (form_of form.now)) }
{
    if !has_arity(patterns(form)) {
        return Err(WeightRefusal::Arity);
    }
    let weight = weigh(form, elements);
    match weight_refusal(form.cell().dim(), &weight) {
        Some(refusal) => Err(refusal),
        None => Ok(weight),
    }
}

/// The size of a weight of the form, in the dimension of its cell; one that would reach 2^127 stays at 2^127 - 1. Takes no memory.
pub fn size(form: &Form, weight: &Weight) -> u128
    ensures { IfOk (form_kind (form_of form.now)) (λ kind. result ≡ kept (size (dimension kind.cell) weight.now)) }
{
    kept_size(form.cell().dim(), weight)
}

/// The number of arguments of a form that has an arity: 0, 1 or 2. Takes no memory.
pub fn rank(form: &Form) -> u8
    ensures { result ≡ rank_of (form_patterns (form_of form.now)) }
{
    let p = patterns(form);
    if p.zero.zero {
        0
    } else if p.one.zero {
        1
    } else {
        2
    }
}

/// Over lawful elements, numbers kept within 127 bits admit exactly the forms that exact numbers admit, with the same weight.
pub fn admission_law()
    ensures { (d : ℕ) (elements : Table) (f : FormTerm) → IsLawfulTable elements → admission kept d elements f ≡ admission exact d elements f }
{}
