//! Forms as plain data: any tree can be written.

ghost use Rattle.std.specs.Prelude.{◌≡◌, IfOk};

use ratio::Ratio;
use sqlite_items::Boxed;
use std::alloc::{AllocError, Global};
use ufl_expr::Expr;
use ufl_tree::{Function, On, Role};

/// A form as it is written.
#[derive(Drop)]
pub enum FormTree {
    /// The integral over these cells.
    Integral {
        on: On,
        body: Expr,
    },
    Sum(Boxed<FormTree>, Boxed<FormTree>),
    Scale(Ratio, Boxed<FormTree>),
    /// The part that is linear in the trial function.
    Left(Boxed<FormTree>),
    /// The negative of the part without the trial function.
    Right(Boxed<FormTree>),
    /// The function f in place of the last argument, which has the role `last`.
    Action {
        body: Boxed<FormTree>,
        last: Role,
        f: Function,
    },
    /// The test and the trial function exchanged.
    Adjoint(Boxed<FormTree>),
    /// The derivative by the function w in the direction du.
    Derivative {
        body: Boxed<FormTree>,
        w: Function,
        du: Function,
    },
}

/// An equal tree.
#[cycle(forms)]
pub(crate) fn copy_form(alloc: Global, form: &FormTree) -> Result<FormTree, AllocError>
    ensures { IfOk result (λ r. r ≡ form.now) }
{
    match form {
        FormTree::Integral { on, body } => Ok(FormTree::Integral {
            on: *on,
            body: body.copy(alloc)?,
        }),
        FormTree::Sum(a, b) => Ok(FormTree::Sum(copy_part(alloc, a)?, copy_part(alloc, b)?)),
        FormTree::Scale(c, a) => Ok(FormTree::Scale(*c, copy_part(alloc, a)?)),
        FormTree::Left(a) => Ok(FormTree::Left(copy_part(alloc, a)?)),
        FormTree::Right(a) => Ok(FormTree::Right(copy_part(alloc, a)?)),
        FormTree::Action { body, last, f } => Ok(FormTree::Action {
            body: copy_part(alloc, body)?,
            last: *last,
            f: *f,
        }),
        FormTree::Adjoint(a) => Ok(FormTree::Adjoint(copy_part(alloc, a)?)),
        FormTree::Derivative { body, w, du } => Ok(FormTree::Derivative {
            body: copy_part(alloc, body)?,
            w: *w,
            du: *du,
        }),
    }
}

#[cycle(forms)]
fn copy_part(alloc: Global, form: &Boxed<FormTree>) -> Result<Boxed<FormTree>, AllocError>
    ensures { IfOk result (λ r. r ≡ form.now) }
{
    Boxed::new(alloc, copy_form(alloc, form.get())?)
}
