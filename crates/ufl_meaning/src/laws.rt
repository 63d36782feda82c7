//! What is proved of the definitions in general.
//!
//! Each function takes nothing, does nothing and answers nothing: its contract is the law.

ghost use Rattle.std.specs.Prelude.{ℕ, List};
ghost use Rattle.monos.specs.Prelude.{Role, FormTerm, Names, Table, Term, Typed};
ghost use Rattle.ufl_meaning.specs.Prelude.{density as density_of, Environment, HasOnlyUsed, HasParametersBelow, raised, turned, scaled, with_function, exchanged, meaning as meaning_of, value as value_of};

/// Each change of an environment keeps that no polynomial has a parameter that isn't in use, so derivatives within derivatives never share one.
pub fn parameters()
    ensures raised { (l : ℕ) (b : List ℕ) (env : Environment) → HasOnlyUsed env → HasOnlyUsed (raised l b env) }
    ensures turned { (w d : Role) (env : Environment) → HasOnlyUsed env → HasOnlyUsed (turned w d env) }
    ensures scaled { (w : Role) (env : Environment) → HasOnlyUsed env → HasOnlyUsed (scaled w env) }
    ensures with_function { (w f : Role) (env : Environment) → HasOnlyUsed env → HasOnlyUsed (with_function w f env) }
    ensures exchanged { (env : Environment) → HasOnlyUsed env → HasOnlyUsed (exchanged env) }
{}

/// Where no polynomial of an environment has a parameter that isn't in use, no value, no meaning and no density has one: what a derivative takes
/// inside is gone outside.
pub fn freshness()
    ensures value { (elements : Table) (e : Typed) (env : Environment) (b : List ℕ) (v : Names) → HasOnlyUsed env → HasParametersBelow env.used (value_of elements e env b v) }
    ensures meaning { (elements : Table) (e : Term) (env : Environment) (v : Names) → HasOnlyUsed env → HasParametersBelow env.used (meaning_of elements e env v) }
    ensures density { (elements : Table) (f : FormTerm) (env : Environment) → HasOnlyUsed env → HasParametersBelow env.used (density_of elements f env) }
{}
