//! Products of the factors of a monomial, for each choice of nodes and reference directions.

ghost use Rattle.std.specs.Prelude.{◌≡◌, ℕ, ◌+◌, ◌*◌, ◌<◌, ◌≤◌, ◌^◌, [], ◌∷◌, ◌++◌, length, map, false, IfOk, OnOk};
ghost use Rattle.std.specs.List.{flat_map};
ghost use Rattle.calculus.specs.Polynomial.{one, times};
ghost use Rattle.polyalg.specs.Prelude.{value_of, degree_of, RangeWhere};
ghost use Rattle.refint.specs.Local.{numbers_below};
ghost use Rattle.basis_products.specs.Functions.{AreLow, IsBounded, AreBounded};
ghost use Rattle.basis_products.specs.Order.{own_node as own_node_of, first_row as first_row_of, row_count as row_count_of, start_at, pairs_at, pairs_of, with_factor, piece as piece_of, joined, Fit};

use crate::factor::{Factor, Source};
use crate::pieces::piece;
use polyalg::{Poly, PolyFault};
use ratio::Ratio;
use std::alloc::{AllocError, Global};

/// How many products there are: one for each node of the test function, each of the trial function, each choice of nodes of the
/// factors that are summed, and each choice of reference directions. One node stands for all where nothing depends on it.
#[derive(Clone, Copy, Debug, PartialEq, Eq)]
pub struct Sizes {
    pub tests: usize,
    pub trials: usize,
    pub nodes: usize,
    pub directions: usize,
}

/// A row of a factor, and a block of the products behind it.
#[derive(Clone, Copy, Debug, PartialEq, Eq)]
pub struct Pair {
    pub row: usize,
    pub block: usize,
}

/// The node among so many, of which one may stand for all.
fn own_node(count: usize, node: usize) -> usize
    ensures { result ≡ own_node_of count node }
{
    if count == 1 { 0 } else { node }
}

/// The first row of a factor that a test and a trial node meet.
fn first_row(source: Source, test: usize, trial: usize) -> usize
    ensures { result ≡ first_row_of source test trial }
{
    match source {
        Source::Test => test,
        Source::Trial => trial,
        Source::Summed => 0,
    }
}

/// How many rows of a factor with so many nodes they meet.
fn row_count(source: Source, nodes: usize) -> usize
    ensures { result ≡ row_count_of source nodes }
{
    match source {
        Source::Test | Source::Trial => 1,
        Source::Summed => nodes,
    }
}

impl Sizes {
    /// Those of the products with one factor more in front.
    fn with(self, factor: &Factor) -> Sizes
        requires directions { factor.now.directions * self.directions < 2 ^ 64 }
        requires nodes { factor.now.nodes * self.nodes < 2 ^ 64 }
        ensures { result ≡ with_factor self factor.now.source factor.now.nodes factor.now.directions }
    {
        let directions = factor.directions * self.directions;
        match factor.source {
            Source::Test => Sizes {
                tests: factor.nodes,
                directions,
                ..self
            },
            Source::Trial => Sizes {
                trials: factor.nodes,
                directions,
                ..self
            },
            Source::Summed => Sizes {
                nodes: factor.nodes * self.nodes,
                directions,
                ..self
            },
        }
    }

    /// The first block at a test and a trial node.
    fn start(self, test: usize, trial: usize) -> usize
        requires arguments { (test < 2 ^ 20) × (trial < 2 ^ 20) }
        requires few { (self.trials < 2 ^ 20) × (self.nodes ≤ 2 ^ 20) }
        ensures { result ≡ start_at self test trial }
    {
        (own_node(self.tests, test) * self.trials + own_node(self.trials, trial)) * self.nodes
    }

    /// Appends the pairs of a row with the blocks from `start` on, one for each choice of nodes.
    fn push_blocks(self, row: usize, start: usize, pairs: &mut Vec<Pair>) -> Result<(), AllocError>
        requires { start + self.nodes < 2 ^ 64 }
        ensures { OnOk result (pairs.new.items ≡ pairs.old.items ++ map (λ k. record { row = row; block = start + k })
            (numbers_below self.nodes)) }
    {
        for block in 0..self.nodes {
            pairs.push(Pair {
                row,
                block: start + block,
            })?;
        }
        Ok(())
    }

    /// Appends the pairs at a test and a trial node.
    fn push_pairs(
        self,
        factor: &Factor,
        test: usize,
        trial: usize,
        pairs: &mut Vec<Pair>,
    ) -> Result<(), AllocError>
        requires arguments { (test < 2 ^ 20) × (trial < 2 ^ 20) }
        requires few { (self.trials < 2 ^ 20) × (self.nodes ≤ 2 ^ 20) }
        requires factor { factor.now.nodes ≤ 20 }
        ensures { OnOk result (pairs.new.items ≡ pairs.old.items ++ pairs_at self factor.now.source factor.now.nodes
            test trial) }
    {
        let start = self.start(test, trial);
        let first = first_row(factor.source, test, trial);
        for row in 0..row_count(factor.source, factor.nodes) {
            self.push_blocks(first + row, start, pairs)?;
        }
        Ok(())
    }

    /// Appends the pairs at a test node and each of so many trial nodes.
    fn push_trials(
        self,
        factor: &Factor,
        test: usize,
        trials: usize,
        pairs: &mut Vec<Pair>,
    ) -> Result<(), AllocError>
        requires arguments { (test < 2 ^ 20) × (trials < 2 ^ 20) }
        requires few { (self.trials < 2 ^ 20) × (self.nodes ≤ 2 ^ 20) }
        requires factor { factor.now.nodes ≤ 20 }
        ensures { OnOk result (pairs.new.items ≡ pairs.old.items ++ flat_map (pairs_at self factor.now.source
            factor.now.nodes test) (numbers_below trials)) }
    {
        for trial in 0..trials {
            self.push_pairs(factor, test, trial, pairs)?;
        }
        Ok(())
    }

    /// For each block of the products with one factor more in front, in order: the factor's row and the block behind it.
    pub fn pairs(self, alloc: Global, factor: &Factor) -> Result<Vec<Pair>, AllocError>
        requires tests { self.tests < 2 ^ 20 }
        requires trials { self.trials < 2 ^ 20 }
        requires nodes { self.nodes ≤ 2 ^ 20 }
        requires factor { factor.now.nodes ≤ 20 }
        requires directions { factor.now.directions * self.directions < 2 ^ 64 }
        ensures { IfOk result (λ v. v.items ≡ pairs_of self factor.now.source factor.now.nodes factor.now.directions) }
    {
        let after = self.with(factor);
        let mut pairs = Vec::new(alloc);
        for test in 0..after.tests {
            self.push_trials(factor, test, after.trials, &mut pairs)?;
        }
        Ok(pairs)
    }
}

/// The products of factors: by test node, trial node, the nodes of the factors that are summed, and the reference directions, each
/// in lexicographic order of the factors.
#[derive(Drop)]
pub struct Products {
    pub sizes: Sizes,
    pub items: Vec<Poly>,
    ghost shape: { length items.items ≡ sizes.tests * (sizes.trials * (sizes.nodes * sizes.directions)) },
}

impl Products {
    /// The product of no factor.
    pub fn one(alloc: Global) -> Result<Products, AllocError>
        ensures value { IfOk result (λ p. map value_of p.items.items ≡ one ∷ []) }
        ensures sizes { IfOk result (λ p. p.sizes ≡ record { tests = 1; trials = 1; nodes = 1; directions = 1 }) }
        ensures bounds { (d : ℕ) → IfOk result (λ p. AreBounded d 0 1 1 p.items.items) }
    {
        let one = Poly::constant(alloc, Ratio::one())?;
        let mut items = Vec::new(alloc);
        items.push(one)?;
        let sizes = Sizes {
            tests: 1,
            trials: 1,
            nodes: 1,
            directions: 1,
        };
        Ok(Products { sizes, items })
    }

    /// The products for all reference directions at one choice of nodes.
    fn block(&self, number: usize) -> &[Poly]
        requires { number < self.now.sizes.tests * (self.now.sizes.trials * self.now.sizes.nodes) }
        ensures { result.now ≡ piece_of self.now.sizes.directions number self.now.items.items }
    {
        piece(self.items.as_slice(), self.sizes.directions, number)
    }

    /// The products with one factor more in front, one multiplication for each. Where an argument occurs in both, it has the same
    /// nodes there.
    pub fn with(&self, alloc: Global, factor: &Factor) -> Result<Products, PolyFault>
        requires sizes { Fit self.now.sizes factor.now.source factor.now.nodes factor.now.directions }
        requires left { AreLow 3 factor.now.functions.items }
        requires right { AreLow 65532 self.now.items.items }
        ensures value { IfOk result (λ p. map value_of p.items.items ≡ joined times factor.now.directions
            (map value_of factor.now.functions.items) self.now.sizes.directions (map value_of self.now.items.items)
            (pairs_of self.now.sizes factor.now.source factor.now.nodes factor.now.directions)) }
        ensures sizes { IfOk result (λ p. p.sizes ≡ with_factor self.now.sizes factor.now.source factor.now.nodes
            factor.now.directions) }
        ensures bounds { (d n l b m k e : ℕ) → 0 < l → 0 < k → AreBounded d n l b factor.now.functions.items
            → AreBounded d m k e self.now.items.items
            → IfOk result (λ p. AreBounded d (n + m) (l * k) (b * e) p.items.items) }
        ensures range { (d n l b m k e : ℕ) → 0 < l * k → l * k < 2 ^ 127 → b * e < 2 ^ 127
            → AreBounded d n l b factor.now.functions.items → AreBounded d m k e self.now.items.items
            → RangeWhere false result }
    {
        let pairs = self.sizes.pairs(alloc, factor)?;
        let mut items = Vec::new(alloc);
        for pair in &pairs {
            push_products(
                alloc,
                factor.row(pair.row),
                self.block(pair.block),
                &mut items,
            )?;
        }
        let sizes = self.sizes.with(factor);
        Ok(Products { sizes, items })
    }
}

/// Appends the product of a polynomial with each on the right.
fn push_multiples(
    alloc: Global,
    left: &Poly,
    right: &[Poly],
    items: &mut Vec<Poly>,
) -> Result<(), PolyFault>
    requires left { degree_of left.now ≤ 3 }
    requires right { AreLow 65532 right.now }
    ensures value { OnOk result (map value_of items.new.items ≡ map value_of items.old.items ++ map (times
        (value_of left.now)) (map value_of right.now)) }
    ensures bounds { (d n l b m k e : ℕ) → 0 < l → 0 < k → IsBounded d n l b left.now → AreBounded d m k e right.now
        → AreBounded d (n + m) (l * k) (b * e) items.old.items → OnOk result (AreBounded d (n + m) (l * k) (b * e)
        items.new.items) }
    ensures range { (d n l b m k e : ℕ) → 0 < l * k → l * k < 2 ^ 127 → b * e < 2 ^ 127 → IsBounded d n l b left.now
        → AreBounded d m k e right.now → RangeWhere false result }
{
    for q in right {
        items.push(left.mul(alloc, q)?)?;
    }
    Ok(())
}

/// Appends the product of each polynomial on the left with each on the right.
fn push_products(
    alloc: Global,
    left: &[Poly],
    right: &[Poly],
    items: &mut Vec<Poly>,
) -> Result<(), PolyFault>
    requires left { AreLow 3 left.now }
    requires right { AreLow 65532 right.now }
    ensures value { OnOk result (map value_of items.new.items ≡ map value_of items.old.items ++ flat_map (λ p. map
        (times p) (map value_of right.now)) (map value_of left.now)) }
    ensures bounds { (d n l b m k e : ℕ) → 0 < l → 0 < k → AreBounded d n l b left.now → AreBounded d m k e right.now
        → AreBounded d (n + m) (l * k) (b * e) items.old.items → OnOk result (AreBounded d (n + m) (l * k) (b * e)
        items.new.items) }
    ensures range { (d n l b m k e : ℕ) → 0 < l * k → l * k < 2 ^ 127 → b * e < 2 ^ 127 → AreBounded d n l b left.now
        → AreBounded d m k e right.now → RangeWhere false result }
{
    for p in left {
        push_multiples(alloc, p, right, items)?;
    }
    Ok(())
}
