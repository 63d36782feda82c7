//! What is proved of the rows in general. Each law is the contract of a function that does nothing, for provers to call or cite.

ghost use Rattle.std.specs.Prelude.{◌≡◌, ◌≢◌, ◌⊎◌, ◌↔◌, ◌==◌, ℕ, List, Some, Contains, true, false, [], slice_get, if◌then◌else◌};
ghost use Rattle.std.specs.List.Sorted.{IsStrictlySortedBy};
ghost use Rattle.algebra.specs.Fraction.{Fraction};
ghost use Rattle.ratio.specs.declared.reduced.Ratio.{Ratio};
ghost use Rattle.calculus.specs.Polynomial.{nil, one};
ghost use Rattle.calculus.specs.LocalFunction.{local_function, lies_on};
ghost use Rattle.spaces.specs.Space.{Space, IsLawful, cell_of};
ghost use Rattle.mesh_in.specs.MeshData.{MeshData, IsMesh, fractions};
ghost use Rattle.dofs.specs.Label.{Label};
ghost use Rattle.dofs.specs.Basis.{CellOf, pairs, is_on, basis_value};
ghost use Rattle.dofs.specs.LocalNodes.{LocalNode, local_nodes, label_on, Occurs, HasRow};
ghost use Rattle.dofs.specs.Order.{label_cmp};
ghost use Rattle.dofs.specs.Rows.{numbering};

/// The rows don't depend on the coordinates: those of a mesh in memory are those of its values, of which the other laws speak.
pub fn rows_of_values()
    ensures { (m : MeshData Ratio) (s : Space) → numbering (fractions m) s ≡ numbering m s }
{}

/// The labels of the rows are strictly in order: by part, then cell, number of vertices, vertices and weights.
pub fn rows_in_order()
    ensures { (m : MeshData Fraction) (s : Space) → IsStrictlySortedBy label_cmp (numbering m s).labels }
{}

/// A label is that of a row exactly where it occurs: a local node of some cell has it, or it is the constant of a part that is
/// one number for the whole mesh, which has a row with or without cells.
pub fn rows_occur()
    ensures { (m : MeshData Fraction) (s : Space) (l : Label) → Contains (numbering m s).labels l ↔ Occurs m s l }
{}

/// Each local node of each cell has a row, whose label is that of the node on the cell.
pub fn rows_of_nodes()
    ensures { (m : MeshData Fraction) (s : Space) (k : ℕ) (vertices : List ℕ) (a : ℕ) (node : LocalNode) →
        slice_get m.cells k ≡ Some vertices → slice_get (local_nodes m.kind s) a ≡ Some node →
        HasRow (numbering m s) k a (label_on k vertices node) }
{}

/// Two local nodes of a cell have two rows.
pub fn distinct_rows()
    ensures { (m : MeshData Fraction) (s : Space) → IsMesh m → IsLawful s → m.kind ≡ cell_of s →
        (k a b : ℕ) (l : Label) → HasRow (numbering m s) k a l → HasRow (numbering m s) k b l → a ≡ b }
{}

/// What the label of a local node's row is on the cell: the local function of the node, in the component of the node's part, and
/// 0 in each other component.
pub fn local_functions()
    ensures { (m : MeshData Fraction) (s : Space) → IsMesh m → IsLawful s → m.kind ≡ cell_of s →
        (k : CellOf) (a : ℕ) (node : LocalNode) (l : Label) → slice_get m.cells k.number ≡ Some k.vertices →
        slice_get (local_nodes m.kind s) a ≡ Some node → HasRow (numbering m s) k.number a l →
        (i : ℕ) → basis_value l k i ≡ (if node.part == i then local_function k.corners node.weights else nil) }
{}

/// A label without vertices, as all of degree 0 have and those of the constants, is 1 in its part, on its cell or on all.
pub fn constants()
    ensures { (l : Label) (k : CellOf) → l.vertices ≡ [] → is_on l.cell k.number ≡ true → basis_value l k l.part ≡ one }
{}

/// Where a label is 0: on other cells than its own, if it has one, and on those that lack one of its vertices. So on each cell
/// only the rows of its local nodes are not 0.
pub fn functions_elsewhere()
    ensures other_cell { (l : Label) (k : CellOf) (c i : ℕ) → l.cell ≡ Some c → c ≢ k.number → basis_value l k i ≡ nil }
    ensures other_vertex { (l : Label) (k : CellOf) (i : ℕ) → lies_on (pairs l.vertices l.weights) k.vertices ≡ false → basis_value l k i ≡ nil }
    ensures only_local { (m : MeshData Fraction) (s : Space) → IsMesh m → IsLawful s → m.kind ≡ cell_of s →
        (k : CellOf) (l : Label) (i : ℕ) → slice_get m.cells k.number ≡ Some k.vertices → Contains (numbering m s).labels l →
        (basis_value l k i ≡ nil) ⊎ ((a : ℕ) × HasRow (numbering m s) k.number a l) }
{}
