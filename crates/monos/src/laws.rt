//! What is proved of monomials and layouts. Each law is the contract of a function that does nothing, for provers to call or cite.

ghost use Rattle.std.specs.Prelude.{◌≡◌, ℕ, ◌+◌, ◌*◌, ◌<◌, ◌≤◌, Some, length, slice_get};
ghost use Rattle.monos.specs.Prelude.{Cell, Part, Parts, Role};
ghost use Rattle.monos.specs.declared.layout.CoefPlace.{CoefPlace};
ghost use Rattle.monos.specs.declared.layout.Layout.{Layout};
ghost use Rattle.monos.specs.declared.mono.Atom.{Atom};
ghost use Rattle.spaces.specs.Cell.{dimension};
ghost use Rattle.monos.specs.Monomial.{directions, derivative_count};
ghost use Rattle.monos.specs.Layout.{IsLawfulLayout, MayBeOn, HasPlace, position_parts, role_parts, place_of, value_count, line_layout};

/// The list of an atom's directions has one item for each derivative.
pub fn atoms()
    ensures { (a : Atom) → length (directions a) ≡ derivative_count a }
{}

/// In a lawful layout the values of each coefficient are a piece of the list of all values, and no two pieces overlap. The
/// values of each part are a piece of its function's. The coordinate of space has a part for each coordinate, with a node at each vertex.
pub fn layouts()
    ensures within { (l : Layout) → IsLawfulLayout l → (n : ℕ) (c : CoefPlace) → place_of l.coefs n ≡ Some c
        → c.offset + c.parts.local ≤ value_count l.coefs }
    ensures apart { (l : Layout) → IsLawfulLayout l → (m n : ℕ) → m < n → (c e : CoefPlace)
        → place_of l.coefs m ≡ Some c → place_of l.coefs n ≡ Some e
        → c.offset + c.parts.local ≤ e.offset }
    ensures parts { (c : Cell) (ps : Parts) → MayBeOn c ps → (i : ℕ) (p : Part) → slice_get ps.items i ≡ Some p
        → p.offset + p.nodes ≤ ps.local }
    ensures place { (l : Layout) (r : Role) → 0 < length (role_parts l r) → HasPlace l r }
    ensures components { (c : Cell) → length (position_parts c).items ≡ dimension c }
    ensures vertices { (c : Cell) → (position_parts c).local ≡ dimension c * (dimension c + 1) }
{}

/// Two coefficients with two values each: the second one's begin at 2, and nowhere else.
pub fn worked_layout()
    ensures lawful { IsLawfulLayout (line_layout 2) }
    ensures only { (n : ℕ) → IsLawfulLayout (line_layout n) → n ≡ 2 }
{}
