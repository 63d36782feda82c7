//! Polynomials as lists of terms, in no order.

ghost use Rattle.std.specs.Prelude.{◌≡◌, IfOk, OnOk};
ghost use Rattle.ratio.specs.Value.{fraction_of};
ghost use Rattle.calculus.specs.Polynomial.{nil, one, plus, minus, times, negative, constant, coordinate, power as raised_to, coefficient_of};
ghost use Rattle.ufl_meaning.specs.Environment.{parameter, parameter_number};
ghost use Rattle.ufl_meaning.specs.Operators.{along};
ghost use Rattle.tree_values.specs.TermValue.{term_of, part_value, sum_of};

use crate::term::Term;
use ratio::Ratio;
use reference::Fault;
use sqlite_items::Items;
use std::alloc::Global;

/// A polynomial in the coordinates of space and up to three parameters. Contracts see its value, `value_of`.
#[derive(Drop)]
pub struct Poly {
    terms: Items<Term>,
}

/// Appends the products of one term with each of q.
fn append_multiple(out: &mut Items<Term>, t: Term, q: &[Term]) -> Result<(), Fault>
    ensures { OnOk result (sum_of out.new ≡ plus (sum_of out.old) (times (term_of t) (sum_of q.now))) }
{
    for u in q {
        out.push(t.product(*u)?)?;
    }
    Ok(())
}

fn append(out: &mut Items<Term>, q: &[Term]) -> Result<(), Fault>
    ensures { OnOk result (sum_of out.new ≡ plus (sum_of out.old) (sum_of q.now)) }
{
    for u in q {
        out.push(*u)?;
    }
    Ok(())
}

fn negatives(alloc: Global, p: &[Term]) -> Result<Items<Term>, Fault>
    ensures { IfOk result (λ r. sum_of r ≡ negative (sum_of p.now)) }
{
    let mut terms = Items::new(alloc);
    for t in p {
        terms.push(t.negated())?;
    }
    Ok(terms)
}

fn products(alloc: Global, p: &[Term], q: &[Term]) -> Result<Items<Term>, Fault>
    ensures { IfOk result (λ r. sum_of r ≡ times (sum_of p.now) (sum_of q.now)) }
{
    let mut terms = Items::new(alloc);
    for t in p {
        append_multiple(&mut terms, *t, q)?;
    }
    Ok(terms)
}

fn derivatives(alloc: Global, p: &[Term], direction: u8) -> Result<Items<Term>, Fault>
    ensures { IfOk result (λ r. sum_of r ≡ along direction (sum_of p.now)) }
{
    let mut terms = Items::new(alloc);
    for t in p {
        terms.push(t.along(direction)?)?;
    }
    Ok(terms)
}

fn append_part(out: &mut Items<Term>, t: Option<Term>) -> Result<(), Fault>
    ensures { OnOk result (sum_of out.new ≡ plus (sum_of out.old) (part_value t)) }
{
    match t {
        Some(u) => {
            out.push(u)?;
            Ok(())
        }
        None => Ok(()),
    }
}

fn linear_parts(alloc: Global, p: &[Term], k: usize) -> Result<Items<Term>, Fault>
    ensures { IfOk result (λ r. sum_of r ≡ coefficient_of (parameter_number k) 1 (sum_of p.now)) }
{
    let mut terms = Items::new(alloc);
    for t in p {
        append_part(&mut terms, t.linear_part(k))?;
    }
    Ok(terms)
}

fn constant_parts(alloc: Global, p: &[Term], k: usize) -> Result<Items<Term>, Fault>
    ensures { IfOk result (λ r. sum_of r ≡ coefficient_of (parameter_number k) 0 (sum_of p.now)) }
{
    let mut terms = Items::new(alloc);
    for t in p {
        append_part(&mut terms, t.constant_part(k))?;
    }
    Ok(terms)
}

impl Poly {
    ghost use Rattle.tree_values.specs.PolyValue.{value_of};

    pub fn zero(alloc: Global) -> Poly
        ensures { value_of result ≡ nil }
    {
        Poly {
            terms: Items::new(alloc),
        }
    }

    fn from_term(alloc: Global, t: Term) -> Result<Poly, Fault>
        ensures { IfOk result (λ r. value_of r ≡ term_of t) }
    {
        let mut terms = Items::new(alloc);
        terms.push(t)?;
        Ok(Poly { terms })
    }

    pub fn constant(alloc: Global, c: Ratio) -> Result<Poly, Fault>
        ensures { IfOk result (λ r. value_of r ≡ constant (fraction_of c)) }
    {
        Poly::from_term(alloc, Term::constant(c))
    }

    pub fn one(alloc: Global) -> Result<Poly, Fault>
        ensures { IfOk result (λ r. value_of r ≡ one) }
    {
        let one = Poly::constant(alloc, Ratio::one())?;
        Ok(one)
    }

    /// A coordinate of space; there are three.
    pub fn coordinate(alloc: Global, direction: u8) -> Result<Poly, Fault>
        ensures { IfOk result (λ r. value_of r ≡ coordinate direction) }
    {
        let Some(t) = Term::coordinate(direction) else {
            return Err(Fault::Range);
        };
        Poly::from_term(alloc, t)
    }

    /// The terms, which the polynomial is the sum of.
    pub fn terms(&self) -> &[Term]
        ensures { sum_of result.now ≡ value_of self.now }
    {
        self.terms.as_slice()
    }

    /// A parameter; there are three.
    pub fn parameter(alloc: Global, k: usize) -> Result<Poly, Fault>
        ensures { IfOk result (λ r. value_of r ≡ parameter k) }
    {
        let Some(t) = Term::parameter(k) else {
            return Err(Fault::Range);
        };
        Poly::from_term(alloc, t)
    }

    pub fn copy(&self, alloc: Global) -> Result<Poly, Fault>
        ensures { IfOk result (λ r. value_of r ≡ value_of self.now) }
    {
        Ok(Poly {
            terms: Items::from_slice(alloc, self.terms.as_slice())?,
        })
    }

    pub fn sum(&self, alloc: Global, q: &Poly) -> Result<Poly, Fault>
        ensures { IfOk result (λ r. value_of r ≡ plus (value_of self.now) (value_of q.now)) }
    {
        let mut terms = Items::from_slice(alloc, self.terms.as_slice())?;
        append(&mut terms, q.terms.as_slice())?;
        Ok(Poly { terms })
    }

    pub fn negated(&self, alloc: Global) -> Result<Poly, Fault>
        ensures { IfOk result (λ r. value_of r ≡ negative (value_of self.now)) }
    {
        Ok(Poly {
            terms: negatives(alloc, self.terms.as_slice())?,
        })
    }

    pub fn difference(&self, alloc: Global, q: &Poly) -> Result<Poly, Fault>
        ensures { IfOk result (λ r. value_of r ≡ minus (value_of self.now) (value_of q.now)) }
    {
        self.sum(alloc, &q.negated(alloc)?)
    }

    pub fn product(&self, alloc: Global, q: &Poly) -> Result<Poly, Fault>
        ensures { IfOk result (λ r. value_of r ≡ times (value_of self.now) (value_of q.now)) }
    {
        Ok(Poly {
            terms: products(alloc, self.terms.as_slice(), q.terms.as_slice())?,
        })
    }

    pub fn power(&self, alloc: Global, n: u8) -> Result<Poly, Fault>
        ensures { IfOk result (λ r. value_of r ≡ raised_to (value_of self.now) n) }
    {
        let mut out = Poly::one(alloc)?;
        for _i in 0..n {
            out = self.product(alloc, &out)?;
        }
        Ok(out)
    }

    /// The derivative in a direction of space.
    pub fn along(&self, alloc: Global, direction: u8) -> Result<Poly, Fault>
        ensures { IfOk result (λ r. value_of r ≡ along direction (value_of self.now)) }
    {
        Ok(Poly {
            terms: derivatives(alloc, self.terms.as_slice(), direction)?,
        })
    }

    /// The coefficient of power 1 of a parameter.
    pub fn linear_part(&self, alloc: Global, k: usize) -> Result<Poly, Fault>
        ensures { IfOk result (λ r. value_of r ≡ coefficient_of (parameter_number k) 1 (value_of self.now)) }
    {
        Ok(Poly {
            terms: linear_parts(alloc, self.terms.as_slice(), k)?,
        })
    }

    /// The coefficient of power 0 of a parameter.
    pub fn constant_part(&self, alloc: Global, k: usize) -> Result<Poly, Fault>
        ensures { IfOk result (λ r. value_of r ≡ coefficient_of (parameter_number k) 0 (value_of self.now)) }
    {
        Ok(Poly {
            terms: constant_parts(alloc, self.terms.as_slice(), k)?,
        })
    }
}

#[cfg(test)]
mod tests {
    use super::*;

    // The sum of the coefficients.
    fn total(p: &Poly) -> Result<Ratio, Fault> {
        let mut sum = Ratio::zero();
        for t in p.terms() {
            sum = sum.add(t.coefficient).ok_or(Fault::Range)?;
        }
        Ok(sum)
    }

    fn adds_up_to(found: Result<Poly, Fault>, n: i128) -> bool {
        let Ok(p) = found else {
            return false;
        };
        let Ok(sum) = total(&p) else {
            return false;
        };
        Ratio::new(n, 1) == Some(sum)
    }

    // (1 + x + t)^n
    fn power(alloc: Global, n: u8) -> Result<Poly, Fault> {
        let x = Poly::coordinate(alloc, 0)?;
        let x_and_t = x.sum(alloc, &Poly::parameter(alloc, 0)?)?;
        Poly::one(alloc)?.sum(alloc, &x_and_t)?.power(alloc, n)
    }

    // The coefficients add up to 3^n, those of the derivative in x to n 3^(n-1), those of the power 0 of t to 2^n and those of the power 1 to
    // n 2^(n-1).
    #[test]
    fn powers_of_a_sum(rt: HostRuntime) -> Result<(), Fault> {
        let alloc = rt.alloc();
        for (n, all, slope, constant, linear) in [
            (0, 1, 0, 1, 0),
            (1, 3, 1, 2, 1),
            (2, 9, 6, 4, 4),
            (4, 81, 108, 16, 32),
        ] {
            let p = power(alloc, n)?;
            assert!(rt; adds_up_to(p.copy(alloc), all));
            assert!(rt; adds_up_to(p.along(alloc, 0), slope));
            assert!(rt; adds_up_to(p.linear_part(alloc, 0), linear));
            assert!(rt; adds_up_to(p.constant_part(alloc, 0), constant));
            assert!(rt; adds_up_to(p.difference(alloc, &p), 0));
        }
        Ok(())
    }
}
