//! What is proved of nodes and of equality in general. Each law is the contract of a function that does nothing, for provers to call or cite.

ghost use Rattle.std.specs.Prelude.{◌≡◌, ◌↔◌, ℕ, suc, ◌<◌, ◌≤◌, true, List, [], length, get_or};
ghost use Rattle.spaces.specs.declared.cell.Cell.{Cell};
ghost use Rattle.spaces.specs.Cell.{dimension, same_cell};
ghost use Rattle.spaces.specs.Equality.{same_space};
ghost use Rattle.spaces.specs.Nodes.{nodes_of, in_strict_order, weight_sum};
ghost use Rattle.spaces.specs.Space.{Space};

/// The nodes are all lists of weights, one for each vertex, that add up to the degree, each once and in the stated order.
pub fn all_nodes()
    ensures complete { (c : Cell) (q : ℕ) (w : List ℕ) → length w ≡ suc (dimension c) → weight_sum w ≡ q →
        (k : ℕ) × (k < length (nodes_of c q)) × (get_or (nodes_of c q) k [] ≡ w) }
    ensures sound { (c : Cell) (q : ℕ) → q ≤ 3 → (k : ℕ) → k < length (nodes_of c q) →
        (length (get_or (nodes_of c q) k []) ≡ suc (dimension c)) × (weight_sum (get_or (nodes_of c q) k []) ≡ q) }
    ensures order { (c : Cell) (q : ℕ) → q ≤ 3 → in_strict_order (nodes_of c q) ≡ true }
{}

/// The tests of equality hold exactly of what is equal.
pub fn equality()
    ensures cells { (c e : Cell) → (same_cell c e ≡ true) ↔ (c ≡ e) }
    ensures spaces { (s t : Space) → (same_space s t ≡ true) ↔ (s ≡ t) }
{}
