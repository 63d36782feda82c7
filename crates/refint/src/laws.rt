//! What is proved of the definitions alone. Each law is the contract of a function that does nothing, for provers to call or cite.

ghost use Rattle.std.specs.Prelude.{◌≡◌, ℕ, suc, ◌+◌, ◌*◌, ◌<◌, ◌≤◌, false, List, [], ◌∷◌, Some, length, take, drop, slice_index_or};
ghost use Rattle.algebra.specs.Fraction.{Fraction, zero_fraction, mul, absolute, is_zero_fraction};
ghost use Rattle.calculus.specs.Simplex.{Simplex, IsCell, dimension, volume};
ghost use Rattle.calculus.specs.Integral.{integral_value, sum_below};
ghost use Rattle.calculus.specs.Polynomial.{Polynomial, nil, coordinate, derivative};
ghost use Rattle.monos.specs.Prelude.{Role, Cell, Part, Parts, IsLawfulOn, Monomial};
ghost use Rattle.monos.specs.declared.layout.CoefPlace.{CoefPlace};
ghost use Rattle.monos.specs.declared.layout.Layout.{Layout};
ghost use Rattle.ufl_meaning.specs.Prelude.{Environment, HasOnlyUsed, HasNoOffset, mono_value, monos_value};
ghost use Rattle.ufl_tree.specs.declared.function.Role.TheVariants.{Position};
ghost use Rattle.refint.specs.Local.{local, local_value, local_shares, entries_of};
ghost use Rattle.calculus.specs.Mass.{mass_factor};
ghost use Rattle.refint.specs.Vertices.{coordinate_part};
ghost use Rattle.refint.specs.Examples.{mass_layout, mass_monomial};
ghost use Rattle.refint.specs.Digits.{columns, dot};
ghost use Rattle.refint.specs.Reference.{factors, items, share_of, shares_of, node_values};

/// The integral of a monomial over a cell that is not flat: its volume times the columns of the monomial with the items of its reference tensor.
pub fn mono_share()
    ensures { (l : Layout) (m : Monomial) (v : Simplex) → IsCell v → dimension v ≡ l.d
        → is_zero_fraction (volume v) ≡ false → (w : List Fraction) (a b : ℕ) →
        integral_value v (mono_value (local l v w a b) m) ≡ mul (absolute (volume v)) (dot (columns (factors l v w m.atoms)) (items l m a b)) }
{}

/// The local shares of a sum of monomials: row by row, and one of them.
pub fn monos_shares()
    ensures rows { (l : Layout) (ms : List Monomial) (v : Simplex) → IsCell v → dimension v ≡ l.d
        → is_zero_fraction (volume v) ≡ false → (w : List Fraction) →
        local_shares (λ env. monos_value env ms) l v w ≡ shares_of l v w ms }
    ensures entry { (l : Layout) (ms : List Monomial) (v : Simplex) → IsCell v → dimension v ≡ l.d
        → is_zero_fraction (volume v) ≡ false → (w : List Fraction) (a b : ℕ) →
        a < entries_of l.rows → b < entries_of l.cols →
        slice_index_or (local_shares (λ env. monos_value env ms) l v w) (entries_of l.cols * a + b) zero_fraction ≡ share_of l v w ms a b }
{}

/// Where the list of values is long enough, the values of a part's nodes are a piece of it.
pub fn values_in_place()
    ensures { (w : List Fraction) (c : CoefPlace) (p : Part) → c.offset + p.offset + p.nodes ≤ length w →
        node_values w (Some c) (Some p) ≡ take p.nodes (drop (c.offset + p.offset) w) }
{}

/// Worked: the reference tensor of u*v with functions of degree 1 on intervals has 1/3 for a node with itself and 1/6 for its two nodes.
pub fn worked_items()
    ensures { (j k : ℕ) → j < 2 → k < 2 → items mass_layout mass_monomial j k ≡ mass_factor j k ∷ [] }
{}

/// On a cell that isn't flat each coordinate of space is the sum over the vertices of their coordinate times the linear function
/// of the vertex; so, in a lawful layout, is each component of the position.
pub fn coordinates()
    ensures sum { (v : Simplex) → IsCell v → is_zero_fraction (volume v) ≡ false → (i : ℕ) → i < dimension v
        → sum_below (suc (dimension v)) (coordinate_part v i) ≡ coordinate i }
    ensures position { (c : Cell) (l : Layout) → IsLawfulOn c l → (ps : Parts) → l.position ≡ Some ps → (v : Simplex)
        → IsCell v → dimension v ≡ l.d → is_zero_fraction (volume v) ≡ false → (i : ℕ) → i < l.d
        → (w : List Fraction) (a b : ℕ) → local_value l v w a b Position i ≡ coordinate i }
{}

/// The environment of a cell has no variable at or above the dimension, no parameter and no offset.
pub fn environment()
    ensures above { (l : Layout) (v : Simplex) → IsCell v → (w : List Fraction) (a b t : ℕ) → dimension v ≤ t
        → (r : Role) (i : ℕ) → derivative t (local_value l v w a b r i) ≡ nil }
    ensures parameters { (l : Layout) (v : Simplex) → IsCell v → (w : List Fraction) (a b : ℕ)
        → HasOnlyUsed (local l v w a b) }
    ensures offsets { (l : Layout) (v : Simplex) (w : List Fraction) (a b : ℕ) → HasNoOffset (local l v w a b) }
{}

/// The local shares of a density are those of monomials that add up to it in every environment without offsets and without
/// parameters that aren't in use.
pub fn density_shares()
    ensures { (density : Environment → Polynomial) (ms : List Monomial)
        → ((env : Environment) → HasOnlyUsed env → HasNoOffset env → monos_value env ms ≡ density env)
        → (l : Layout) (v : Simplex) → IsCell v → dimension v ≡ l.d → is_zero_fraction (volume v) ≡ false
        → (w : List Fraction) → local_shares density l v w ≡ shares_of l v w ms }
{}
