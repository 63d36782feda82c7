//! What the shares of cells and the runs of kernels have to do with the values of a form. Each law is the contract of
//! a function that does nothing, for provers to call or cite.

ghost use Rattle.std.specs.Prelude.{◌≡◌, ◌≤◌, ◌^◌, ℕ, suc, List, Some, length, slice_get};
ghost use Rattle.std.specs.List.{AllByRecursion};
ghost use Rattle.algebra.specs.Ring.{natural};
ghost use Rattle.algebra.specs.Fraction.{Fraction, mul, inverse, zero_fraction, fractions as field};
ghost use Rattle.calculus.specs.Polynomial.{nil, derivative};
ghost use Rattle.ratio.specs.declared.reduced.Ratio.{Ratio};
ghost use Rattle.ratio.specs.Value.{fraction_of};
ghost use Rattle.spaces.specs.declared.cell.Cell.TheVariants.{Interval};
ghost use Rattle.spaces.specs.Cell.{dimension};
ghost use Rattle.spaces.specs.Space.{Space};
ghost use Rattle.mesh_in.specs.MeshData.{MeshData, IsMesh, fractions};
ghost use Rattle.monos.specs.Monomial.{Monomial};
ghost use Rattle.monos.specs.Layout.{IsLawfulOn, AreRising, value_count};
ghost use Rattle.dofs.specs.Basis.{CellOf};
ghost use Rattle.dofs.specs.Rows.{Numbering, numbering};
ghost use Rattle.refint.specs.Local.{local};
ghost use Rattle.ufl_tree.specs.declared.function.Role.{Role};
ghost use Rattle.ufl_meaning.specs.Density.{density};
ghost use Rattle.ufl_meaning.specs.Environment.{Environment, HasOnlyUsed};
ghost use Rattle.ufl_meaning.specs.Monomial.{HasNoOffset, monos_value};
ghost use Rattle.assembly.specs.Sums.{Entry, AreSums};
ghost use Rattle.assembly.specs.Assembly.{Assembly, AreGood, Refused, run_entries, tensor_on};
ghost use Rattle.assembly.specs.declared.funs.Funs.{Funs};
ghost use Rattle.assembly.specs.declared.run_refusal.RunRefusal.{RunRefusal};
ghost use Rattle.assembly.specs.declared.run_refusal.RunRefusal.TheVariants.{Memory};
ghost use Rattle.form_values.specs.Assembled.{IsAssemblyOf};
ghost use Rattle.form_values.specs.CellLayout.{Occurring, Fits, argument_rows, rows_on, layout_of, values_on};
ghost use Rattle.form_values.specs.CellShares.{HaveShares, IsWhole, cell_entries, density_on, tensor_entries};
ghost use Rattle.form_values.specs.FormValue.{AreTriples, AreCellTriples, form_value, start, start_value};
ghost use Rattle.form_values.specs.HatFunctions.{hat_value, row_vertices};
ghost use Rattle.form_values.specs.Linear.{HaveArguments, IsMultilinear};
ghost use Rattle.form_values.specs.Mass.{mass_problem, no_others, IsMassProblem};
ghost use Rattle.form_values.specs.Problem.{Problem, IsIn, marker_of, row_count};
ghost use Rattle.form_values.specs.Worked.{square_problem};
ghost use Rattle.form_values.specs.MassMatrix.{HasMatrix, Refuses};
ghost use Rattle.form_values.specs.MassRuns.{IsMassAssembly, mass_assembly, mass_runs};

/// Whatever makes the local tensors of the cells: where each is its cell's shares, their sums by row and column are
/// the values of the form, and those of one cell are what it adds to them. The form is linear in its arguments: that
/// is a premise.
pub fn triples()
    ensures sums { (p : Problem) (o : Occurring) → Fits p o → IsMultilinear p o
        → (tensor : CellOf → List Fraction) → HaveShares p o tensor
        → (triples : List Entry) → AreSums (tensor_entries p tensor) triples → AreTriples p triples }
    ensures cells { (p : Problem) (o : Occurring) → Fits p o → IsMultilinear p o
        → (tensor : CellOf → List Fraction) → HaveShares p o tensor → (k : CellOf) → IsIn k p
        → (triples : List Entry) → AreSums (cell_entries p tensor k) triples → AreCellTriples p k triples }
{}

/// What assembly by rows adds up are the values of the form where the run on each cell gives the cell's shares, whatever
/// the form and its functions.
pub fn assembly()
    ensures { (p : Problem) (o : Occurring) → Fits p o → IsMultilinear p o
        → (s : Assembly) → IsAssemblyOf p s → HaveShares p o (λ k. tensor_on s.runs k.number)
        → (triples : List Entry) → AreSums (run_entries s) triples → AreTriples p triples }
{}

/// A form is linear in its arguments where its density is a sum of monomials, on the cells of each marker others
/// maybe, which have one test and one trial function if the form has them, and no position if none is said to occur.
pub fn linearity()
    ensures { (p : Problem) (o : Occurring) (ms : ℕ → List Monomial)
        → ((env : Environment) → HasOnlyUsed env → HasNoOffset env
        → monos_value env (ms env.marker) ≡ density p.elements p.form env)
        → ((k : ℕ) → HaveArguments p o (ms k)) → IsMultilinear p o }
{}

/// On a cell of the mesh, what a form integrates at two local nodes is what it integrates at their rows.
pub fn local_nodes()
    ensures { (p : Problem) (o : Occurring) → Fits p o → IsMultilinear p o → (k : CellOf) → IsIn k p → IsWhole o k
        → (a b g h : ℕ) → slice_get (argument_rows p p.test k) a ≡ Some g
        → slice_get (argument_rows p p.trial k) b ≡ Some h
        → density_on p (marker_of p.mesh k.number) (local (layout_of p o) k.corners (values_on p o.coefficients k) a b)
        ≡ density p.elements p.form (start p k g h) }
{}

/// The environment of two rows has no variable at or above the dimension of the mesh, no parameter and no offset.
pub fn environment()
    ensures above { (p : Problem) (k : CellOf) → IsMesh p.mesh → IsIn k p → (g h t : ℕ) → dimension p.mesh.kind ≤ t
        → (r : Role) (i : ℕ) → derivative t (start_value p k g h r i) ≡ nil }
    ensures parameters { (p : Problem) (k : CellOf) → IsMesh p.mesh → IsIn k p → (g h : ℕ)
        → HasOnlyUsed (start p k g h) }
    ensures offsets { (p : Problem) (k : CellOf) (g h : ℕ) → HasNoOffset (start p k g h) }
{}

/// The rows of a cell are those that the numbering of the element lists.
pub fn rows_of_cells()
    ensures { (p : Problem) (s : Space) (k : CellOf) → IsIn k p
        → slice_get (numbering p.mesh s).cells k.number ≡ Some (rows_on p.mesh (Some s) k) }
{}

/// The layout of a form is lawful where the numbers of its coefficients rise and they have at most 2^24 values on a
/// cell; each cell has as many values as the layout says.
pub fn layout()
    ensures lawful { (p : Problem) (o : Occurring) → Fits p o → AreRising 0 (layout_of p o).coefs
        → value_count (layout_of p o).coefs ≤ 2 ^ 24 → IsLawfulOn p.mesh.kind (layout_of p o) }
    ensures values { (p : Problem) (o : Occurring) → Fits p o → (k : CellOf)
        → length (values_on p o.coefficients k) ≡ value_count (layout_of p o).coefs }
{}

/// The form `c*u*v*dx` of linear functions on intervals is a case of any form: it has its elements, is linear in both
/// arguments, and its values are the sums over the cells of the integrals of c times the product of two hat
/// functions, by vertices. Its rows are the vertices that occur in some cell.
pub fn mass_case()
    ensures fits { (c : Ratio) (m : MeshData Fraction) → m.kind ≡ Interval → IsMesh m
        → Fits (mass_problem c m) no_others }
    ensures multilinear { (c : Ratio) (m : MeshData Fraction) → IsMultilinear (mass_problem c m) no_others }
    ensures values { (c : Ratio) (m : MeshData Fraction) → m.kind ≡ Interval → IsMesh m
        → (row col : ℕ) → hat_value m (fraction_of c) row col ≡ form_value (mass_problem c m) row col }
    ensures rows { (c : Ratio) (m : MeshData Fraction) → m.kind ≡ Interval → IsMesh m
        → row_count (mass_problem c m) (mass_problem c m).test ≡ length (row_vertices m) }
{}

/// The form has these values, rows and columns in each problem in which it stands, whatever else the tables of elements and
/// of coefficients have.
pub fn mass_problems()
    ensures values { (p : Problem) (c : Ratio) → IsMassProblem p c
        → (row col : ℕ) → form_value p row col ≡ form_value (mass_problem c p.mesh) row col }
    ensures rows { (p : Problem) (c : Ratio) → IsMassProblem p c
        → row_count p p.test ≡ row_count (mass_problem c p.mesh) (mass_problem c p.mesh).test }
    ensures columns { (p : Problem) (c : Ratio) → IsMassProblem p c
        → row_count p p.trial ≡ row_count (mass_problem c p.mesh) (mass_problem c p.mesh).trial }
{}

/// Worked: on the cells from 0 to 1, with marker 0, and from 3 to 1, with marker 1, the form `x[0]*x[0]*dx(1)` has
/// the value 26/3, and no other row.
pub fn worked_value()
    ensures value { form_value square_problem 0 0 ≡ mul (natural field 26) (inverse (natural field 3)) }
    ensures only { (row : ℕ) → form_value square_problem (suc row) 0 ≡ zero_fraction }
{}

/// Where the runs of the form's function go to their ends on all cells and their values can be added up, the sums are
/// the values of the form `c*u*v*dx` of linear functions on intervals. Then no cell is flat, and neither a cell nor a
/// sum passes.
pub fn matrix()
    ensures values { (c : Ratio) (m : MeshData Ratio) (funs : Funs) (rows : Numbering) → IsMassAssembly c m funs rows
        → AreGood (mass_runs funs m) → (triples : List Entry)
        → AreSums (run_entries (mass_assembly funs m rows)) triples → AreTriples (mass_problem c (fractions m)) triples }
    ensures whole { (c : Ratio) (m : MeshData Ratio) (funs : Funs) (rows : Numbering) → IsMassAssembly c m funs rows
        → AreGood (mass_runs funs m) → (triples : List Entry)
        → AreSums (run_entries (mass_assembly funs m rows)) triples → HasMatrix (fractions m) c }
{}

/// Where the assembly refuses, there is no matrix of the form, for the same cell or entry; and where there is one,
/// memory alone may be wanting.
pub fn refusals()
    ensures cause { (c : Ratio) (m : MeshData Ratio) (funs : Funs) (rows : Numbering) → IsMassAssembly c m funs rows
        → (e : RunRefusal) → Refused (mass_assembly funs m rows) e → Refuses (fractions m) c e }
    ensures apart { (m : MeshData Fraction) (c : Ratio) (e : RunRefusal) → HasMatrix m c
        → Refuses m c e → e ≡ Memory }
{}
