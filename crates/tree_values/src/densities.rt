//! The density of a form, word for word as it is defined.

ghost use Rattle.std.specs.Prelude.{◌≡◌, IfOk, if◌then◌else◌};
ghost use Rattle.calculus.specs.Polynomial.{nil};
ghost use Rattle.ufl_meaning.specs.Density.{covers as is_covered};
ghost use Rattle.tree_values.specs.PolyValue.{value_of};
ghost use Rattle.tree_values.specs.Density.{density_in, density_changed, integrand_in};

use crate::environment::{Change, used, with_change};
use crate::poly::Poly;
use crate::scene::Scene;
use crate::values::value;
use reference::Fault;
use std::alloc::Global;
use ufl_form::FormTree;
use ufl_tree::{On, Role, Tree};

/// The polynomial that is integrated over a cell; names play no part. `Range` where a number doesn't fit, a mixed element in a list has more than 255
/// scalar parts, or more than three derivatives, left or right sides are nested.
#[cycle(densities)]
pub fn density(alloc: Global, scene: &Scene, form: &FormTree) -> Result<Poly, Fault>
    ensures { IfOk result (λ p. value_of p ≡ density_in scene.now form.now) }
{
    match form {
        FormTree::Integral { on, body } => {
            let part = integrand(alloc, scene, body.tree())?;
            where_it_is(alloc, *on, scene.marker, part)
        }
        FormTree::Sum(a, b) => {
            let right = density(alloc, scene, b.get())?;
            density(alloc, scene, a.get())?.sum(alloc, &right)
        }
        FormTree::Scale(c, a) => {
            let part = density(alloc, scene, a.get())?;
            Poly::constant(alloc, *c)?.product(alloc, &part)
        }
        FormTree::Left(a) => {
            let whole = changed(alloc, scene, a.get(), Change::Scaled(Role::Trial))?;
            whole.linear_part(alloc, used(scene.changes))
        }
        FormTree::Right(a) => {
            let whole = changed(alloc, scene, a.get(), Change::Scaled(Role::Trial))?;
            whole
                .constant_part(alloc, used(scene.changes))?
                .negated(alloc)
        }
        FormTree::Action { body, last, f } => {
            let change = Change::Replaced {
                last: *last,
                by: f.role,
            };
            changed(alloc, scene, body.get(), change)
        }
        FormTree::Adjoint(a) => changed(alloc, scene, a.get(), Change::Exchanged),
        FormTree::Derivative { body, w, du } => {
            let change = Change::Turned {
                coef: w.role,
                dir: du.role,
            };
            let whole = changed(alloc, scene, body.get(), change)?;
            whole.linear_part(alloc, used(scene.changes))
        }
    }
}

/// Is a cell with this marker one of those that an integral is over?
fn covers(on: On, marker: u32) -> bool
    ensures { result ≡ is_covered on marker }
{
    match on {
        On::All => true,
        On::Marked(k) => k == marker,
    }
}

/// The polynomial on the cells of an integral, 0 on the others.
fn where_it_is(alloc: Global, on: On, marker: u32, part: Poly) -> Result<Poly, Fault>
    ensures { IfOk result (λ p. value_of p ≡ (if is_covered on marker then value_of part else nil)) }
{
    if covers(on, marker) {
        Ok(part)
    } else {
        Ok(Poly::zero(alloc))
    }
}

/// The value of an integrand, which has no free index.
fn integrand(alloc: Global, scene: &Scene, tree: &Tree) -> Result<Poly, Fault>
    ensures { IfOk result (λ p. value_of p ≡ integrand_in scene.now tree.now) }
{
    let here = Scene {
        names: &[],
        ..*scene
    };
    value(alloc, &here, tree, &[])
}

/// The density under one more change.
#[cycle(densities)]
fn changed(alloc: Global, scene: &Scene, form: &FormTree, change: Change) -> Result<Poly, Fault>
    ensures { IfOk result (λ p. value_of p ≡ density_changed scene.now form.now change) }
{
    let changes = with_change(alloc, scene.changes, change)?;
    let here = Scene {
        changes: changes.as_slice(),
        ..*scene
    };
    density(alloc, &here, form)
}
