//! What is proved of the functions of a form. Each law is the contract of a function that does nothing, for provers to
//! call or cite.

ghost use Rattle.std.specs.Prelude.{◌≡◌, ◌⊎◌, ℕ, List, Option, None, Some, Ok, Contains};
ghost use Rattle.spaces.specs.Cell.{dimension};
ghost use Rattle.ufl_tree.specs.FormTerm.{FormTerm};
ghost use Rattle.ufl_tree.specs.Places.{Table};
ghost use Rattle.ufl_form.specs.declared.table.FormKind.{FormKind};
ghost use Rattle.ufl_form.specs.Fits.{FormFits};
ghost use Rattle.ufl_form.specs.Table.{AreTyped, form_kind};
ghost use Rattle.ufl_meaning.specs.Prelude.{Environment, HasOnlyUsed, HasNoOffset, monos_value, density};
ghost use Rattle.monos.specs.Monomial.{Monomial};
ghost use Rattle.monos.specs.declared.weight.Weight.{Weight};
ghost use Rattle.weigh.specs.Admitted.{IsAdmitted};
ghost use Rattle.weigh.specs.Weighing.{exact};
ghost use Rattle.admit.specs.Admission.{admission};
ghost use Rattle.integrands.specs.Flattening.{flattened};
ghost use Rattle.integrands.specs.Integrands.{IntegrandTerm};
ghost use Rattle.integrands.specs.Keeping.{HaveDensity, HaveWeight};
ghost use Rattle.form_monomials.specs.Markers.{RunsOn, named, named_in, function_on};
ghost use Rattle.form_monomials.specs.Monomials.{AddUp, AreWithin};

/// The weight of an admitted form bounds the form's integrands, in the directions of its cell.
pub fn admitted()
    ensures within { (elements : Table) (f : FormTerm) (k : FormKind) (w : Weight) → AreTyped f → FormFits elements f
        → form_kind f ≡ Ok k → admission exact (dimension k.cell) elements f ≡ Ok w
        → HaveWeight elements f (flattened elements f) → AreWithin elements (dimension k.cell) w (flattened elements f) }
    ensures admitted { (d : ℕ) (elements : Table) (f : FormTerm) (w : Weight)
        → admission exact d elements f ≡ Ok w → IsAdmitted d w }
{}

/// On the cells of each marker runs one function of the form: that of the marker where the form names it, and else that of
/// the cells whose marker it doesn't name. A form's integrands name the markers that its integrals do.
pub fn functions()
    ensures runs { (ps : List IntegrandTerm) (k : ℕ) → RunsOn (function_on ps k) ps k }
    ensures named { (ps : List IntegrandTerm) (k : ℕ)
        → (function_on ps k ≡ None) ⊎ ((function_on ps k ≡ Some k) × Contains (named ps) k) }
    ensures markers { (elements : Table) (f : FormTerm) → named (flattened elements f) ≡ named_in f }
{}

/// The monomials of a function are the density of the form on its cells; so on the cells of each marker those of some
/// function are.
pub fn densities()
    ensures there { (elements : Table) (f : FormTerm) (ps : List IntegrandTerm) → HaveDensity elements f ps
        → (marker : Option ℕ) (ms : List Monomial) → AddUp elements ps marker ms
        → (env : Environment) → HasOnlyUsed env → HasNoOffset env → RunsOn marker ps env.marker
        → monos_value env ms ≡ density elements f env }
    ensures everywhere { (elements : Table) (f : FormTerm) (ps : List IntegrandTerm) → HaveDensity elements f ps
        → (env : Environment) → HasOnlyUsed env → HasNoOffset env
        → (ms : List Monomial) → AddUp elements ps (function_on ps env.marker) ms
        → monos_value env ms ≡ density elements f env }
{}
