// The runs of a form's functions on the cells of a mesh.

ghost use Rattle.std.specs.Prelude.{◌≡◌, ℕ, ◌<◌, ◌≤◌, ◌+◌, ◌*◌, ◌^◌, ◌++◌, List, true, [], length, map, take, drop, IfOk, IfErr, OnOk, slice_index_or};
ghost use Rattle.std.specs.List.{AllByRecursion, flat_map};
ghost use Rattle.c_unit.specs.Meaning.{ran, fractions_of};
ghost use Rattle.c_run.specs.Answer.{answer, answer_of};
ghost use Rattle.mesh_in.specs.MeshData.{fractions};
ghost use Rattle.assembly.specs.Run.{coordinates_of, tensor_of, is_good};
ghost use Rattle.ratio.specs.declared.reduced.Ratio.{Ratio as TheRatio};
ghost use Rattle.assembly.specs.Assembly.{IsDataOf, FitRuns, AreRising, fun_on, coefficient_values, runs_of, tensor_on, AreGood, IsFew, CellRefused, RunRefused};
ghost use Rattle.assembly.specs.Machines.{AreMachines};

use crate::coef_data::CoefData;
use crate::funs::Funs;
use crate::run_refusal::RunRefusal;
use c_run::{Machine, Ret};
use mesh_in::Mesh;
use ratio::Ratio;
use std::alloc::{AllocError, Global};

/// The coordinates of the vertices of cell k, in place of what `x` holds.
fn gather_coordinates(mesh: &Mesh, k: u32, x: &mut Vec<Ratio>) -> Result<(), AllocError>
    requires { k < length mesh.now.cells }
    ensures { OnOk result (fractions_of x.new.items
        ≡ coordinates_of (fractions mesh.now) (slice_index_or mesh.now.cells k [])) }
{
    x.clear();
    let vertices = mesh.cell(k).vertices;
    for vertex in vertices {
        x.extend_from_slice(mesh.point(*vertex))?;
    }
    Ok(())
}

/// The values of a coefficient at the rows of its local nodes on cell k, behind what `w` holds.
fn push_values(coef: &CoefData, k: u32, w: &mut Vec<Ratio>) -> Result<(), AllocError>
    requires cell { k < length coef.now.map.cells }
    requires data { length coef.now.values.items ≡ length coef.now.map.labels }
    ensures { OnOk result (fractions_of w.new.items ≡ fractions_of w.old.items ++ coefficient_values k coef.now) }
{
    let rows = coef.map.of_cell(k);
    for row in rows {
        w.push(coef.values[*row as usize])?;
    }
    Ok(())
}

/// The values of all coefficients on cell k, in place of what `w` holds.
fn gather_values(
    coefs: &[CoefData],
    k: u32,
    cells: u32,
    w: &mut Vec<Ratio>,
) -> Result<(), AllocError>
    requires cell { k < cells }
    requires data { AllByRecursion (IsDataOf cells) coefs.now }
    ensures { OnOk result (fractions_of w.new.items ≡ flat_map (coefficient_values k) coefs.now) }
{
    w.clear();
    for coef in coefs {
        push_values(coef, k, w)?;
    }
    Ok(())
}

/// The machines of a form's functions, as they stand in `Funs`, and the markers of those that are for one.
#[derive(Drop)]
pub struct Machines<'f> {
    pub funs: &'f Funs,
    pub plain: Machine<'f>,
    pub markers: Vec<u32>,
    pub marked: Vec<Machine<'f>>,
}

impl<'f> Machines<'f> {
    fn new(alloc: Global, funs: &'f Funs) -> Result<Machines<'f>, AllocError>
        ensures funs { IfOk result (λ m. m.funs.now ≡ funs.now) }
        ensures machines { IfOk result AreMachines }
    {
        let count = funs.marked.len();
        let mut markers = Vec::with_capacity(alloc, count)?;
        let mut marked = Vec::with_capacity(alloc, count)?;
        for m in &funs.marked {
            markers.push(m.marker)?;
            marked.push(Machine::new(alloc, &m.fun)?)?;
        }
        Ok(Machines {
            funs,
            plain: Machine::new(alloc, &funs.plain)?,
            markers,
            marked,
        })
    }

    // Runs the function for the cells of a marker.
    fn run(&mut self, marker: u32, x: &[Ratio], w: &[Ratio], a: &mut [Ratio]) -> Ret
        requires rising { AreRising self.old.funs.now.marked.items }
        requires machines { AreMachines self.old }
        requires tensor { length a.old ≡ (fun_on self.old.funs.now marker).a }
        ensures funs { self.new.funs ≡ self.old.funs }
        ensures machines { AreMachines self.new }
        ensures meaning { answer_of result a.new
            ≡ answer (ran (fun_on self.old.funs.now marker) (fractions_of x.now) (fractions_of w.now)) }
    {
        match self.markers.binary_search(&marker) {
            Ok(i) => self.marked[i].run(x, w, a),
            Err(_) => self.plain.run(x, w, a),
        }
    }
}

// What the answer of a run on cell k is as a result.
fn outcome(k: u32, ret: Ret) -> Result<(), RunRefusal>
    ensures good { (a : List TheRatio) → OnOk result (is_good (answer_of ret a) ≡ true) }
    ensures tensor { (a : List TheRatio) → OnOk result (tensor_of (answer_of ret a) ≡ fractions_of a) }
    ensures refusal { (a : List TheRatio) → IfErr result (CellRefused (answer_of ret a) k) }
{
    match ret {
        Ret::Good => Ok(()),
        Ret::Zero { at } => Err(RunRefusal::Zero { cell: k, at }),
        Ret::Passed {
            at,
            op,
            left,
            right,
        } => Err(RunRefusal::CellPassed {
            cell: k,
            at,
            op,
            left,
            right,
        }),
    }
}

// Runs the function for a marker, and puts its local tensor of so many entries behind `values`.
fn run_cell(
    machines: &mut Machines<'_>,
    k: u32,
    marker: u32,
    x: &[Ratio],
    w: &[Ratio],
    values: &mut Vec<Ratio>,
) -> Result<(), RunRefusal>
    requires rising { AreRising machines.old.funs.now.marked.items }
    requires machines { AreMachines machines.old }
    requires size { (fun_on machines.old.funs.now marker).a ≡ machines.old.funs.now.plain.a }
    requires room { length values.old.items + machines.old.funs.now.plain.a < 2 ^ 63 }
    ensures funs { machines.new.funs ≡ machines.old.funs }
    ensures machines { AreMachines machines.new }
    ensures size { OnOk result (length values.new.items ≡ length values.old.items + machines.old.funs.now.plain.a) }
    ensures good { OnOk result (is_good
        (answer (ran (fun_on machines.old.funs.now marker) (fractions_of x.now) (fractions_of w.now))) ≡ true) }
    ensures values { OnOk result (fractions_of values.new.items ≡ fractions_of values.old.items
        ++ tensor_of (answer (ran (fun_on machines.old.funs.now marker) (fractions_of x.now) (fractions_of w.now)))) }
    ensures refusal { IfErr result (CellRefused
        (answer (ran (fun_on machines.old.funs.now marker) (fractions_of x.now) (fractions_of w.now))) k) }
{
    let start = values.len();
    let size = machines.funs.plain.a as usize;
    values.resize(start + size, Ratio::zero())?;
    let ret = machines.run(marker, x, w, &mut values[start..]);
    outcome(k, ret)?;
    Ok(())
}

/// The local tensors of all cells, cell after cell. The memory for them is taken before the first run.
pub fn run_cells(
    alloc: Global,
    f: &Funs,
    m: &Mesh,
    coefs: &[CoefData],
) -> Result<Vec<Ratio>, RunRefusal>
    requires fit { FitRuns f.now.plain.a (runs_of f.now m.now coefs.now) }
    requires few { IsFew (runs_of f.now m.now coefs.now) }
    ensures size { IfOk result (λ v. length v.items ≡ length m.now.cells * f.now.plain.a) }
    ensures values { IfOk result (λ v. (k : ℕ) → k < length m.now.cells
        → take f.now.plain.a (drop (k * f.now.plain.a) (fractions_of v.items))
        ≡ tensor_on (runs_of f.now m.now coefs.now) k) }
    ensures good { OnOk result (AreGood (runs_of f.now m.now coefs.now)) }
    ensures refusal { IfErr result (RunRefused (runs_of f.now m.now coefs.now)) }
{
    let mut machines = Machines::new(alloc, f)?;
    let mut x = Vec::new(alloc);
    let mut w = Vec::new(alloc);
    let cells = m.cells();
    let mut values = Vec::with_capacity(alloc, cells as usize * f.plain.a as usize)?;
    for k in 0..cells {
        gather_coordinates(m, k, &mut x)?;
        gather_values(coefs, k, cells, &mut w)?;
        let marker = m.cell(k).marker;
        run_cell(&mut machines, k, marker, &x, &w, &mut values)?;
    }
    Ok(values)
}
