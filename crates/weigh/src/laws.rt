//! What is proved of weights. Each law is the contract of a function that does nothing, for provers to call or cite.

ghost use Rattle.std.specs.Prelude.{◌≡◌, ◌≤◌, ◌+◌, ◌*◌, ℕ, List, [], ◌∷◌, ◌++◌, None, Some, IsPermutation, unsigned_abs};
ghost use Rattle.algebra.specs.LowestTerms.{top, bottom};
ghost use Rattle.monos.specs.Prelude.{Cell, Function, FormTerm, Table, Term, Typed, Monomial};
ghost use Rattle.monos.specs.declared.weight.Weight.{Weight};
ghost use Rattle.weigh.specs.Prelude.{Bounds, IsSound, HasWeight, IsLawfulTable, term_weight, exact, weight_with};
ghost use Rattle.weigh.specs.declared.refusal.WeightRefusal.TheVariants.{Cost};
ghost use Rattle.weigh.specs.Admitted.{IsAdmitted};
ghost use Rattle.weigh.specs.Examples.{cost_and_size, line_table, mass_tree, plane_table, laplacian_tree, constant_table, powered_tree, position_table, position, position_weight};
ghost use Rattle.weigh.specs.Lists.{IsWeighed, AllProducts, AllDerived, AreNegated, IsMerged, lists_below};
ghost use Rattle.weigh.specs.Refusals.{KeptDecides, weight_refusal};
ghost use Rattle.weigh.specs.Steps.{number_step, times_step, join_step, plus_step, index_step, space_step, linear_step, label_step, part_step};
ghost use Rattle.weigh.specs.Weighing.{kept, function_weight, form_weight};

/// Numbers kept within 127 bits refuse exactly the forms that exact ones do, and where they refuse none they are the exact ones.
/// What is not refused is within the limits, and has the order of its numbers that later bounds rest on.
pub fn decision_law()
    ensures kept { (elements : Table) (f : FormTerm) → IsLawfulTable elements → KeptDecides elements f }
    ensures admitted { (elements : Table) (f : FormTerm) (d : ℕ)
        → weight_refusal d (form_weight exact elements f) ≡ None → IsAdmitted d (form_weight exact elements f) }
    ensures only { (d : ℕ) (w : Weight) → IsAdmitted d w → weight_refusal d w ≡ None }
{}

/// Each number of a weight that is counted is at least 1, in every tree.
pub fn sound_law()
    ensures trees { (elements : Table) (e : Typed) → IsSound (weight_with exact elements e) }
    ensures forms { (elements : Table) (f : FormTerm) → IsSound (form_weight exact elements f) }
    ensures terms { (elements : Table) (e : Term) → IsSound (term_weight elements e) }
{}

/// Worked: u*v with functions of degree 1 on an interval, the Laplacian of degree 1 on a triangle, a power of a sum of two
/// constants that just is admitted, and one that isn't; and the coordinate of space.
pub fn worked_weights()
    ensures mass { cost_and_size 1 line_table mass_tree ≡ record { cost = 4; size = 384 } }
    ensures laplacian { cost_and_size 2 plane_table laplacian_tree ≡ record { cost = 72; size = 20736 } }
    ensures heavy { cost_and_size 1 constant_table (powered_tree 20) ≡ record { cost = 1048576; size = 1099511627776 } }
    ensures too_heavy { weight_refusal 1 (weight_with kept constant_table (powered_tree 21)) ≡ Some Cost }
    ensures position { (c : Cell) → function_weight (position_table c) position ≡ position_weight c }
{}

/// Bounds are ordered, and each step keeps them.
pub fn bounds_law()
    ensures itself { (w : Weight) → Bounds w w }
    ensures through { (w v e : Weight) → IsSound v → Bounds w v → Bounds v e → Bounds w e }
    ensures times { (w e v d : Weight) → Bounds w e → Bounds v d → Bounds (times_step w v) (times_step e d) }
    ensures plus { (w e v d : Weight) → IsSound e → Bounds w e → Bounds v d → Bounds (plus_step w v) (plus_step e d) }
    ensures join { (w e v d : Weight) → IsSound e → Bounds w e → Bounds v d → Bounds (join_step w v) (join_step e d) }
    ensures first { (w v : Weight) → Bounds (join_step w v) w }
    ensures second { (w v : Weight) → Bounds (join_step w v) v }
    ensures index { (n m : ℕ) → m ≤ n → (w e : Weight) → Bounds w e → Bounds (index_step n w) (index_step m e) }
    ensures space { (n m : ℕ) → m ≤ n → (w e : Weight) → Bounds w e → Bounds (space_step n w) (space_step m e) }
    ensures linear { (w e : Weight) → Bounds w e → Bounds (linear_step w) (linear_step e) }
    ensures label { (n m : ℕ) → m ≤ n → (w e : Weight) → Bounds w e → Bounds (label_step n w) (label_step m e) }
    ensures part { (w e : Weight) → Bounds w e → Bounds (part_step w) (part_step e) }
{}

/// What the steps of a normal form do to the numbers of a sum of monomials.
pub fn lists_law()
    ensures append { (cost : Function → ℕ) (d l : ℕ) (ms ns : List Monomial) (s t s' t' : ℕ) → IsWeighed cost d l ms s t
        → IsWeighed cost d l ns s' t' → IsWeighed cost d l (ms ++ ns) (s + s') (t + t') }
    ensures products { (cost : Function → ℕ) (d l j : ℕ) → 1 ≤ l → 1 ≤ j → (ms ns ks : List Monomial) (s t s' t' : ℕ)
        → IsWeighed cost d l ms s t → IsWeighed cost d j ns s' t' → AllProducts cost ns ms ks
        → IsWeighed cost d (l * j) ks (s * s') (t * t') }
    ensures derived { (cost : Function → ℕ) (d g l : ℕ) (ms ks : List Monomial) (s t : ℕ) → IsWeighed cost d l ms s t
        → AllDerived cost g ms ks → IsWeighed cost d l ks (s * g * d) (t * g * (3 * d)) }
    ensures sorted { (cost : Function → ℕ) (d l : ℕ) (ms ns : List Monomial) (s t : ℕ) → IsPermutation ms ns
        → IsWeighed cost d l ms s t → IsWeighed cost d l ns s t }
    ensures merged { (cost : Function → ℕ) (d l : ℕ) → 1 ≤ l → (m n k : Monomial) (ms : List Monomial) (s t : ℕ)
        → IsMerged m n k → IsWeighed cost d l (m ∷ n ∷ ms) s t → IsWeighed cost d l (k ∷ ms) s t }
    ensures dropped { (cost : Function → ℕ) (d l : ℕ) (m : Monomial) (ms : List Monomial) (s t : ℕ)
        → IsWeighed cost d l (m ∷ ms) s t → IsWeighed cost d l ms s t }
    ensures bounded { (cost : Function → ℕ) (d : ℕ) (w e : Weight) → IsSound w → IsSound e → Bounds w e
        → (ms : List Monomial) → HasWeight cost d e ms → HasWeight cost d w ms }
{}

/// The weight of a node bounds the monomials that the node makes of those of its operands.
pub fn nodes_law()
    ensures number { (cost : Function → ℕ) (d : ℕ) (m : Monomial) → m.atoms ≡ []
        → HasWeight cost d (number_step (unsigned_abs (top m.c)) (bottom m.c)) (m ∷ []) }
    ensures plus { (cost : Function → ℕ) (d : ℕ) (a b : Weight) → IsSound a → IsSound b → (ms ns : List Monomial)
        → HasWeight cost d a ms → HasWeight cost d b ns → HasWeight cost d (plus_step a b) (ms ++ ns) }
    ensures times { (cost : Function → ℕ) (d : ℕ) (a b : Weight) → IsSound a → IsSound b → (ms ns ks : List Monomial)
        → HasWeight cost d a ms → HasWeight cost d b ns → AllProducts cost ns ms ks
        → HasWeight cost d (times_step a b) ks }
    ensures index { (cost : Function → ℕ) (d n : ℕ) (a : Weight) (f : ℕ → List Monomial)
        → ((k : ℕ) → HasWeight cost d a (f k)) → HasWeight cost d (index_step n a) (lists_below n f) }
    ensures space { (cost : Function → ℕ) (d : ℕ) (a : Weight) (ms ks : List Monomial) → HasWeight cost d a ms
        → AllDerived cost a.g ms ks → HasWeight cost d (space_step d a) ks }
    ensures negated { (cost : Function → ℕ) (d l : ℕ) (ms ks : List Monomial) (s t : ℕ) → AreNegated ms ks
        → IsWeighed cost d l ms s t → IsWeighed cost d l ks s t }
{}
