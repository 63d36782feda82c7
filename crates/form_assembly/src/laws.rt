//! What is proved of assemblies of forms. Each law is the contract of a function that does nothing, for provers to call or
//! cite.

ghost use Rattle.std.specs.Prelude.{◌≡◌, ◌<◌, ◌^◌, ℕ, List, Option, length};
ghost use Rattle.std.specs.List.{AllByRecursion};
ghost use Rattle.ratio.specs.declared.reduced.Ratio.{Ratio};
ghost use Rattle.mesh_in.specs.MeshData.{MeshData, fractions};
ghost use Rattle.dofs.specs.Rows.{Numbering};
ghost use Rattle.monos.specs.declared.layout.Layout.{Layout};
ghost use Rattle.monos.specs.declared.weight.Weight.{Weight};
ghost use Rattle.assembly.specs.Assembly.{Assembly, AreGood, Fits, IsDataOf, IsFew, Refused, assembly_of, run_entries};
ghost use Rattle.assembly.specs.declared.coef_data.CoefData.{CoefData};
ghost use Rattle.assembly.specs.declared.funs.Funs.{Funs};
ghost use Rattle.assembly.specs.Sums.{Entry, AreSums};
ghost use Rattle.assembly.specs.declared.run_refusal.RunRefusal.{RunRefusal};
ghost use Rattle.assembly.specs.declared.run_refusal.RunRefusal.TheVariants.{Memory};
ghost use Rattle.form_values.specs.CellLayout.{Occurring};
ghost use Rattle.form_values.specs.FormValue.{AreTriples};
ghost use Rattle.form_values.specs.Problem.{Problem};
ghost use Rattle.form_assembly.specs.Assembled.{IsFormAssembly, HasValues, Refuses, cell_count, cell_room};
ghost use Rattle.form_assembly.specs.Prepared.{IsPrepared, HaveValues};

/// What is made for a form fits together, with data for the cells of its mesh; with those of its coefficients it is an
/// assembly of the form.
pub fn prepared()
    ensures fits { (p : Problem) (o : Occurring) (w : Weight) (name : List ℕ) (l : Layout) (funs : Funs)
        (test trial : Option Numbering) → IsPrepared p o w name l funs test trial
        → (m : MeshData Ratio) → fractions m ≡ p.mesh
        → (coefs : List CoefData) → AllByRecursion (IsDataOf (length m.cells)) coefs
        → Fits l (assembly_of funs m test trial coefs) }
    ensures assembly { (p : Problem) (o : Occurring) (w : Weight) (name : List ℕ) (l : Layout) (funs : Funs)
        (test trial : Option Numbering) → IsPrepared p o w name l funs test trial
        → (m : MeshData Ratio) → fractions m ≡ p.mesh → (coefs : List CoefData) → HaveValues p o coefs
        → IsFormAssembly p o w (assembly_of funs m test trial coefs) }
{}

/// Where all runs of a form's functions go to their ends and their values can be added up, the sums are the values of the
/// form. Then no cell is flat, and no sum of shares passes.
pub fn values()
    ensures triples { (p : Problem) (o : Occurring) (w : Weight) (s : Assembly) → IsFormAssembly p o w s
        → AreGood s.runs → (triples : List Entry) → AreSums (run_entries s) triples → AreTriples p triples }
    ensures whole { (p : Problem) (o : Occurring) (w : Weight) (s : Assembly) → IsFormAssembly p o w s
        → IsFew s.runs → AreGood s.runs → (triples : List Entry) → AreSums (run_entries s) triples → HasValues p o }
{}

/// Where the assembly refuses, the form has no values for the same cause: a cell is flat, or its room is too large, or a
/// sum passes. Where there are values and each cell's room is below 2^127, memory alone may be wanting.
pub fn refusals()
    ensures cause { (p : Problem) (o : Occurring) (w : Weight) (s : Assembly) → IsFormAssembly p o w s
        → (e : RunRefusal) → Refused s e → Refuses p o w e }
    ensures apart { (p : Problem) (o : Occurring) (w : Weight) → HasValues p o
        → ((k : ℕ) → k < cell_count p → cell_room p o w k < 2 ^ 127)
        → (e : RunRefusal) → Refuses p o w e → e ≡ Memory }
{}
