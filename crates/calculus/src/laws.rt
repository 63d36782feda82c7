//! What is proved of the definitions alone. Each law is the contract of a function that does nothing, for provers to call or cite.

ghost use Rattle.std.specs.Prelude.{◌≡◌, ◌≢◌, ℕ, suc, ◌+◌, ◌*◌, ◌<◌, true, false, List, [], ◌∷◌, length};
ghost use Rattle.algebra.specs.Fraction.{Fraction, zero_fraction, one_fraction, mul, absolute, is_zero_fraction};
ghost use Rattle.calculus.specs.Point.{Point};
ghost use Rattle.calculus.specs.Polynomial.{Polynomial, one, times, minus, constant, coordinate, derivative, composed, power, whole, value};
ghost use Rattle.calculus.specs.Simplex.{Simplex, IsCell, dimension, volume, reference, affine, is_less};
ghost use Rattle.calculus.specs.Jacobian.{inverse_jacobian};
ghost use Rattle.calculus.specs.Integral.{sum_below, shadow_integral, cell_integral, pulled_back_integral, integral_value, HasOnlyBelow};
ghost use Rattle.calculus.specs.LocalFunction.{factorial, degree_of, local_function, node_in};
ghost use Rattle.calculus.specs.Mass.{mass_factor, mass_density};

/// Change of variables on an interval: its shadow integral is its volume factor times that over the unit interval, of the polynomial after the affine map.
///
/// It holds for flat intervals too, where both sides are 0, and for polynomials with parameters.
pub fn interval()
    ensures { (u w : Point Fraction) (p : Polynomial) →
        shadow_integral 1 (u ∷ w ∷ []) p ≡ times (constant (volume (u ∷ w ∷ []))) (shadow_integral 1 (reference 1) (composed (affine (u ∷ w ∷ [])) p)) }
{}

/// Change of variables on a triangle.
pub fn triangle()
    ensures { (a b c : Point Fraction) (p : Polynomial) →
        shadow_integral 2 (a ∷ b ∷ c ∷ []) p
        ≡ times (constant (volume (a ∷ b ∷ c ∷ []))) (shadow_integral 2 (reference 2) (composed (affine (a ∷ b ∷ c ∷ [])) p)) }
{}

/// Change of variables on a tetrahedron.
pub fn tetrahedron()
    ensures { (a b c e : Point Fraction) (p : Polynomial) →
        shadow_integral 3 (a ∷ b ∷ c ∷ e ∷ []) p
        ≡ times (constant (volume (a ∷ b ∷ c ∷ e ∷ []))) (shadow_integral 3 (reference 3) (composed (affine (a ∷ b ∷ c ∷ e ∷ [])) p)) }
{}

/// The integral over a cell is the one that textbooks compute on the reference cell.
pub fn cell()
    ensures { (v : Simplex) → IsCell v → (p : Polynomial) → cell_integral v p ≡ pulled_back_integral v p }
{}

/// The integral of a polynomial in the coordinates of the cell's dimension alone is a number, on flat cells too: nothing of it is
/// left out of `integral_value`.
pub fn whole_integral()
    ensures { (v : Simplex) → IsCell v → (p : Polynomial) → HasOnlyBelow (dimension v) p → constant (integral_value v p) ≡ cell_integral v p }
{}

/// The integrals of products of powers over the reference cells, by factorials.
pub fn reference_integrals()
    ensures interval { (a b : ℕ) →
        times (whole (factorial (a + suc b))) (shadow_integral 1 (reference 1) (times (power (minus one (coordinate 0)) a) (power (coordinate 0) b)))
        ≡ whole (factorial a * factorial b) }
    ensures triangle { (a b : ℕ) →
        times (whole (factorial (a + suc (suc b)))) (shadow_integral 2 (reference 2) (times (power (coordinate 0) a) (power (coordinate 1) b)))
        ≡ whole (factorial a * factorial b) }
    ensures tetrahedron { (a b c : ℕ) →
        times (whole (factorial (a + (b + suc (suc (suc c))))))
        (shadow_integral 3 (reference 3) (times (power (coordinate 0) a) (times (power (coordinate 1) b) (power (coordinate 2) c))))
        ≡ whole (factorial a * (factorial b * factorial c)) }
{}

/// After the affine map of a cell that is not flat, a local function is that of the same node on the reference cell.
pub fn local_functions()
    ensures { (v : Simplex) → IsCell v → is_zero_fraction (volume v) ≡ false → (weights : List ℕ) →
        composed (affine v) (local_function v weights) ≡ local_function (reference (dimension v)) weights }
{}

/// A derivative after the affine map of a cell that is not flat: the derivatives on the reference cell, times the inverse of the Jacobian.
pub fn derivatives()
    ensures { (v : Simplex) → IsCell v → is_zero_fraction (volume v) ≡ false → (i : ℕ) → is_less i (dimension v) ≡ true → (p : Polynomial) →
        composed (affine v) (derivative i p)
        ≡ sum_below (dimension v) (λ a. times (constant (inverse_jacobian v a i)) (derivative a (composed (affine v) p))) }
{}

/// A local function is 1 at its own node and 0 at the other nodes of its degree.
pub fn nodes()
    ensures own { (v : Simplex) → IsCell v → is_zero_fraction (volume v) ≡ false → (weights : List ℕ) → length weights ≡ length v →
        0 < degree_of weights → value (node_in v weights) (local_function v weights) ≡ one_fraction }
    ensures other { (v : Simplex) → IsCell v → is_zero_fraction (volume v) ≡ false → (weights others : List ℕ) →
        length weights ≡ length v → length others ≡ length v → 0 < degree_of weights → degree_of others ≡ degree_of weights →
        others ≢ weights → value (node_in v others) (local_function v weights) ≡ zero_fraction }
{}

/// The share of an interval in the mass form: its length over 3 for a node with itself, over 6 for its two nodes.
pub fn mass_share()
    ensures { (u w : Point Fraction) → is_zero_fraction (volume (u ∷ w ∷ [])) ≡ false → (j k : ℕ) →
        integral_value (u ∷ w ∷ []) (mass_density (u ∷ w ∷ []) j k) ≡ mul (absolute (volume (u ∷ w ∷ []))) (mass_factor j k) }
{}
