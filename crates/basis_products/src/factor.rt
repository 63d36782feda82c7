//! What an atom contributes to the products of a monomial: the functions of its part's nodes, with their derivatives.

ghost use Rattle.std.specs.Prelude.{◌≡◌, ℕ, ◌+◌, ◌-◌, ◌*◌, ◌^◌, ◌≤◌, ◌<◌, [], ◌∷◌, ◌++◌, length, map, false, IfOk, OnOk};
ghost use Rattle.std.specs.List.{flat_map};
ghost use Rattle.calculus.specs.Polynomial.{derivative, one};
ghost use Rattle.calculus.specs.Simplex.{reference};
ghost use Rattle.calculus.specs.LocalFunction.{factorial};
ghost use Rattle.lagrange.specs.Bounds.{basis_bound};
ghost use Rattle.polyalg.specs.Prelude.{value_of, RangeWhere};
ghost use Rattle.spaces.specs.Family.{node_count};
ghost use Rattle.refint.specs.Local.{numbers_below, cell_in, node_function as node_function_of};
ghost use Rattle.basis_products.specs.Functions.{derived_functions, all_along, AreDerived, AreBounded, IsBounded};
ghost use Rattle.basis_products.specs.Order.{piece as piece_of};
ghost use Rattle.basis_products.specs.declared.factor.Source.TheVariants.{Summed};

use crate::pieces::piece;
use lagrange::basis;
use polyalg::{Poly, PolyFault};
use ratio::Ratio;
use spaces::{Cell, Part};
use std::alloc::{AllocError, Global};

/// Where the node of a factor comes from.
#[derive(Clone, Copy, Debug, PartialEq, Eq)]
pub enum Source {
    /// The row of an entry.
    Test,
    /// The column of an entry.
    Trial,
    /// A digit of its own: the factor is summed over its nodes.
    Summed,
}

/// The derived functions of a part: for each node those in all lists of reference directions, in lexicographic order.
#[derive(Drop)]
pub struct Factor {
    pub source: Source,
    /// How many nodes the part has.
    pub nodes: usize,
    /// How many functions each node has: the dimension to the number of derivatives.
    pub directions: usize,
    /// No function has a greater degree.
    pub degree: u8,
    pub functions: Vec<Poly>,
    ghost shape: { length functions.items ≡ nodes * directions },
}

impl Factor {
    /// The constant 1, without a node or a derivative.
    pub fn one(alloc: Global) -> Result<Factor, AllocError>
        ensures value { IfOk result (λ f. map value_of f.functions.items ≡ one ∷ []) }
        ensures sizes { IfOk result (λ f. (f.source ≡ Summed) × (f.nodes ≡ 1) × (f.directions ≡ 1) × (f.degree ≡ 0)) }
        ensures bounds { (d : ℕ) → IfOk result (λ f. AreBounded d 0 1 1 f.functions.items) }
    {
        let one = Poly::constant(alloc, Ratio::one())?;
        let mut functions = Vec::new(alloc);
        functions.push(one)?;
        Ok(Factor {
            source: Source::Summed,
            nodes: 1,
            directions: 1,
            degree: 0,
            functions,
        })
    }

    /// The functions of a part, derived so many times. No step passes.
    pub fn new(
        alloc: Global,
        d: u8,
        source: Source,
        part: Part,
        derivatives: u8,
    ) -> Result<Factor, PolyFault>
        requires dimension { (1 ≤ d) × (d ≤ 3) }
        requires degree { part.degree ≤ 3 }
        requires derivatives { derivatives ≤ part.degree }
        requires nodes { part.nodes ≡ node_count (cell_in d) part.degree }
        ensures value { IfOk result (λ f. map value_of f.functions.items ≡ derived_functions d part derivatives) }
        ensures sizes { IfOk result (λ f. (f.source ≡ source) × (f.nodes ≡ part.nodes)
            × (f.directions ≡ d ^ derivatives) × (f.degree ≡ part.degree - derivatives)) }
        ensures bounds { IfOk result (λ f. AreDerived d part derivatives f.functions.items) }
        ensures fits { RangeWhere false result }
    {
        let functions = part_functions(alloc, d, part, derivatives)?;
        Ok(Factor {
            source,
            nodes: part.nodes as usize,
            directions: power(d, derivatives),
            degree: part.degree - derivatives,
            functions,
        })
    }

    /// The functions of a node.
    pub fn row(&self, node: usize) -> &[Poly]
        requires { node < self.now.nodes }
        ensures { result.now ≡ piece_of self.now.directions node self.now.functions.items }
    {
        piece(self.functions.as_slice(), self.directions, node)
    }
}

/// `d^n`.
fn power(d: u8, n: u8) -> usize
    requires dimension { d ≤ 3 }
    requires few { n ≤ 3 }
    ensures { result ≡ d ^ n }
{
    let mut power = 1;
    for _ in 0..n {
        power *= d as usize;
    }
    power
}

/// The cell of this dimension.
fn cell_of(d: u8) -> Cell
    requires { d ≤ 3 }
    ensures { result ≡ cell_in d }
{
    match d {
        0 | 1 => Cell::Interval,
        2 => Cell::Triangle,
        _ => Cell::Tetrahedron,
    }
}

/// The function of a node of a part, not derived.
fn node_function(alloc: Global, d: u8, part: Part, node: u8) -> Result<Poly, AllocError>
    requires dimension { (1 ≤ d) × (d ≤ 3) }
    requires degree { part.degree ≤ 3 }
    requires nodes { part.nodes ≡ node_count (cell_in d) part.degree }
    requires node { node < part.nodes }
    ensures value { IfOk result (λ p. value_of p ≡ node_function_of d (reference d) part node) }
    ensures bounds { IfOk result (IsBounded d part.degree (factorial part.degree) (basis_bound part.degree)) }
{
    let function = basis(alloc, cell_of(d), part.degree, node)?;
    let _terms = function.terms();
    Ok(function)
}

/// The derived functions of a part, node by node.
fn part_functions(alloc: Global, d: u8, part: Part, derivatives: u8) -> Result<Vec<Poly>, PolyFault>
    requires dimension { (1 ≤ d) × (d ≤ 3) }
    requires degree { part.degree ≤ 3 }
    requires derivatives { derivatives ≤ part.degree }
    requires nodes { part.nodes ≡ node_count (cell_in d) part.degree }
    ensures value { IfOk result (λ v. map value_of v.items ≡ derived_functions d part derivatives) }
    ensures bounds { IfOk result (λ v. AreDerived d part derivatives v.items) }
    ensures fits { RangeWhere false result }
{
    let mut functions = Vec::new(alloc);
    for node in 0..part.nodes {
        let function = node_function(alloc, d, part, node)?;
        let mut derived = derivatives_of(alloc, d, function, derivatives)?;
        functions.append(&mut derived)?;
    }
    Ok(functions)
}

/// Appends the derivatives of the functions in one reference direction.
fn push_derivatives(
    alloc: Global,
    direction: u8,
    functions: &[Poly],
    all: &mut Vec<Poly>,
) -> Result<(), PolyFault>
    requires { direction < 3 }
    ensures value { OnOk result (map value_of all.new.items ≡ map value_of all.old.items ++ map (derivative direction)
        (map value_of functions.now)) }
    ensures bounds { (d n l b : ℕ) → 0 < l → AreBounded d n l b functions.now → AreBounded d (n - 1) l (b * n)
        all.old.items → OnOk result (AreBounded d (n - 1) l (b * n) all.new.items) }
    ensures fits { (d n l b : ℕ) → l < 2 ^ 127 → b * n < 2 ^ 127 → AreBounded d n l b functions.now → RangeWhere false
        result }
{
    for function in functions {
        all.push(function.derive(alloc, direction)?)?;
    }
    Ok(())
}

/// The derivatives of the functions: in reference direction 0 all of them, in order, then those in direction 1, and so on.
/// `bounds` says when no step passes.
fn along_each(alloc: Global, d: u8, functions: &[Poly]) -> Result<Vec<Poly>, PolyFault>
    requires { d ≤ 3 }
    ensures value { IfOk result (λ v. map value_of v.items ≡ flat_map (λ i. map (derivative i)
        (map value_of functions.now)) (numbers_below d)) }
    ensures bounds { (n l b : ℕ) → 0 < l → AreBounded d n l b functions.now → IfOk result (λ v. AreBounded d
        (n - 1) l (b * n) v.items) }
    ensures fits { (n l b : ℕ) → l < 2 ^ 127 → b * n < 2 ^ 127 → AreBounded d n l b functions.now → RangeWhere
        false result }
{
    let mut all = Vec::new(alloc);
    for direction in 0..d {
        push_derivatives(alloc, direction, functions, &mut all)?;
    }
    Ok(all)
}

/// The derivatives of a function in all lists of so many reference directions, in lexicographic order.
fn derivatives_of(
    alloc: Global,
    d: u8,
    function: Poly,
    derivatives: u8,
) -> Result<Vec<Poly>, PolyFault>
    requires dimension { d ≤ 3 }
    requires few { derivatives ≤ 3 }
    ensures value { IfOk result (λ v. map value_of v.items ≡ all_along d derivatives (value_of function)) }
    ensures bounds { (n l b : ℕ) → n ≤ 3 → 0 < l → AreBounded d n l b (function ∷ []) → IfOk result (λ v. AreBounded d
        (n - derivatives) l (b * 3 ^ derivatives) v.items) }
    ensures fits { (n l b : ℕ) → n ≤ 3 → 0 < l → l < 2 ^ 127 → b * 27 < 2 ^ 127 → AreBounded d n l b (function ∷ [])
        → RangeWhere false result }
{
    let mut all = Vec::new(alloc);
    all.push(function)?;
    for _ in 0..derivatives {
        all = along_each(alloc, d, all.as_slice())?;
    }
    Ok(all)
}
