//! The columns of a monomial: the size of the volume factor times one value of each factor.

ghost use Rattle.std.specs.Prelude.{◌≡◌, ◌+◌, ◌*◌, ◌≤◌, ◌^◌, ◌++◌, ◌∷◌, [], IfOk, OnOk, map};
ghost use Rattle.std.specs.List.{AllByRecursion};
ghost use Rattle.kernel_runs.specs.Strips.{Fastest, Slowest, in_turn, from_last, factors_in};
ghost use Rattle.kernel_runs.specs.Planned.{outer_code, in_t, columns_code, columns_at, counts_after};
ghost use Rattle.kernel_runs.specs.Body.{strip_of, IsDirected};
ghost use Rattle.kernel_runs.specs.declared.digit.Digit.TheVariants.{Growth};
ghost use Rattle.kernel_statements.specs.Emitted.{code_from, columns_after, CountsFit};

use crate::slots::{Buffers, SIZE, place, strip_of};
use c_unit::{Array, CStmt};
use kernel_runs::{Digit, Strip};
use sqlite_items::Items;
use std::alloc::{AllocError, Global};

/// Columns that a kernel has formed.
#[derive(Clone, Copy, Debug, PartialEq, Eq)]
pub struct Columns {
    /// Where the first of them stands in T.
    pub at: u32,
    /// How many there are.
    pub count: u32,
    /// Where the next ones go, and the ones after those.
    pub next: u32,
    pub following: u32,
}

// for i0 < left.count, for i1 < right.count: T[new + right.count*i0 + i1] = left[i0] * right[i1]
fn outer_product(alloc: Global, new: u32, left: Strip, right: Strip) -> Result<CStmt, AllocError>
    ensures { IfOk result (λ c. c ≡ outer_code new left right) }
{
    let mut inner = Items::new(alloc);
    inner.push(CStmt::Mul {
        to: place(Array::T, new, right.count, 1),
        left: place(left.array, left.base, left.step, 0),
        right: place(right.array, right.base, 0, right.step),
    })?;
    let mut outer = Items::new(alloc);
    outer.push(CStmt::For {
        turns: right.count,
        body: inner,
    })?;
    Ok(CStmt::For {
        turns: left.count,
        body: outer,
    })
}

impl Columns {
    /// The one column without factors: the size of the volume factor.
    pub fn first(buffers: Buffers) -> Columns
        requires { buffers.columns ≤ 2 ^ 20 }
        ensures at { result.at ≡ 20 }
        ensures count { result.count ≡ 1 }
        ensures next { result.next ≡ 33 }
        ensures following { result.following ≡ 33 + buffers.columns }
    {
        Columns {
            at: SIZE,
            count: 1,
            next: buffers.first(),
            following: buffers.second(),
        }
    }

    // The columns as values that a loop goes over.
    fn strip(self) -> Strip
        ensures { result ≡ in_t self.at self.count }
    {
        Strip {
            array: Array::T,
            base: self.at,
            step: 1,
            count: self.count,
        }
    }

    // After one more factor of so many values.
    fn after(self, count: u32) -> Columns
        requires { self.count * count ≤ 2 ^ 20 }
        ensures { result
            ≡ record { at = self.next; count = self.count * count; next = self.following; following = self.next } }
    {
        Columns {
            at: self.next,
            count: self.count * count,
            next: self.following,
            following: self.next,
        }
    }

    /// The columns with one more factor, whose values run fastest, by a statement behind `body`.
    pub fn with_fastest(
        self,
        alloc: Global,
        body: &mut Items<CStmt>,
        factor: Strip,
    ) -> Result<Columns, AllocError>
        requires { self.count * factor.count ≤ 2 ^ 20 }
        ensures columns { IfOk result (λ columns. columns ≡ columns_after self (Fastest factor ∷ [])) }
        ensures code { OnOk result (body.new ≡ body.old ++ code_from self (Fastest factor ∷ [])) }
    {
        body.push(outer_product(alloc, self.next, self.strip(), factor)?)?;
        Ok(self.after(factor.count))
    }

    /// The same with values that run slowest.
    pub fn with_slowest(
        self,
        alloc: Global,
        body: &mut Items<CStmt>,
        factor: Strip,
    ) -> Result<Columns, AllocError>
        requires { self.count * factor.count ≤ 2 ^ 20 }
        ensures columns { IfOk result (λ columns. columns ≡ columns_after self (Slowest factor ∷ [])) }
        ensures code { OnOk result (body.new ≡ body.old ++ code_from self (Slowest factor ∷ [])) }
    {
        body.push(outer_product(alloc, self.next, factor, self.strip())?)?;
        Ok(self.after(factor.count))
    }
}

/// The columns with a factor for each direction, in order, each running fastest, by statements behind `body`.
fn emit_growths(
    alloc: Global,
    body: &mut Items<CStmt>,
    d: u8,
    directions: &[u8],
    start: Columns,
) -> Result<Columns, AllocError>
    requires directions { AllByRecursion (λ i. IsDirected (Growth i)) directions.now }
    requires few { CountsFit d start.count (in_turn (map Growth directions.now) []) }
    ensures columns { IfOk result (λ columns. columns
        ≡ columns_after start (in_turn (map (λ i. strip_of d (Growth i)) directions.now) [])) }
    ensures code { OnOk result (body.new ≡ body.old
        ++ code_from start (in_turn (map (λ i. strip_of d (Growth i)) directions.now) [])) }
{
    let mut columns = start;
    for direction in directions {
        let growths = strip_of(d, Digit::Growth(*direction));
        columns = columns.with_fastest(alloc, body, growths)?;
    }
    Ok(columns)
}

/// The columns with a factor for each coefficient, from the last to the first, each running slowest, by statements
/// behind `body`.
fn emit_values(
    alloc: Global,
    body: &mut Items<CStmt>,
    d: u8,
    coefficients: &[Digit],
    start: Columns,
) -> Result<Columns, AllocError>
    requires directions { AllByRecursion IsDirected coefficients.now }
    requires few { CountsFit d start.count (from_last coefficients.now []) }
    ensures columns { IfOk result (λ columns. columns
        ≡ columns_after start (from_last (map (strip_of d) coefficients.now) [])) }
    ensures code { OnOk result (body.new ≡ body.old
        ++ code_from start (from_last (map (strip_of d) coefficients.now) [])) }
{
    let mut columns = start;
    for coefficient in coefficients.iter().rev() {
        let values = strip_of(d, *coefficient);
        columns = columns.with_slowest(alloc, body, values)?;
    }
    Ok(columns)
}

/// All columns of a monomial with these coefficients and directions, by statements behind `body`: digits in
/// lexicographic order, first over the coefficients and then over the directions.
pub fn emit_columns(
    alloc: Global,
    body: &mut Items<CStmt>,
    d: u8,
    coefficients: &[Digit],
    directions: &[u8],
    buffers: Buffers,
) -> Result<Columns, AllocError>
    requires directions { AllByRecursion (λ i. IsDirected (Growth i)) directions.now }
    requires coefficients { AllByRecursion IsDirected coefficients.now }
    requires buffers { buffers.columns ≤ 2 ^ 20 }
    requires few { CountsFit d 1 (factors_in coefficients.now (map Growth directions.now)) }
    ensures at { IfOk result (λ columns. columns.at ≡ columns_at 33 (33 + buffers.columns) 20
        (factors_in (map (strip_of d) coefficients.now) (map (λ i. strip_of d (Growth i)) directions.now))) }
    ensures count { IfOk result (λ columns. columns.count ≡ counts_after 1
        (factors_in (map (strip_of d) coefficients.now) (map (λ i. strip_of d (Growth i)) directions.now))) }
    ensures code { OnOk result (body.new ≡ body.old ++ columns_code 33 (33 + buffers.columns) 20 1
        (factors_in (map (strip_of d) coefficients.now) (map (λ i. strip_of d (Growth i)) directions.now))) }
{
    let grown = emit_growths(alloc, body, d, directions, Columns::first(buffers))?;
    emit_values(alloc, body, d, coefficients, grown)
}
