//! Index notation: scalar trees of few kinds of node.

ghost use Rattle.std.specs.Prelude.{◌≡◌, IfOk};

use crate::copies::copy_plain;
use crate::function::{Function, Ix};
use ratio::Ratio;
use sqlite_items::{Boxed, Items};
use std::alloc::{AllocError, Global};

/// A scalar in index notation.
#[derive(Drop)]
pub enum Plain {
    Num(Ratio),
    /// A component of a function, one index per entry of its shape.
    Fun {
        f: Function,
        at: Items<Ix>,
    },
    /// A component of the variable of this label, whose value there is `body`.
    Mark {
        label: u32,
        at: Items<Ix>,
        body: Boxed<Plain>,
    },
    Neg(Boxed<Plain>),
    Sum(Boxed<Plain>, Boxed<Plain>),
    Prod(Boxed<Plain>, Boxed<Plain>),
    /// The sum over the values of an index below `dim`.
    Over {
        index: u16,
        dim: u8,
        body: Boxed<Plain>,
    },
    /// The derivative in a direction.
    Dx {
        at: Ix,
        body: Boxed<Plain>,
    },
    /// 1 where both indices are equal, else 0.
    Delta(Ix, Ix),
    /// The item of this number, counted from 0.
    Pick {
        at: Ix,
        items: Items<Plain>,
    },
    /// The derivative of `body` by a component of the variable of this label.
    Raise {
        label: u32,
        at: Items<Ix>,
        body: Boxed<Plain>,
    },
    /// The derivative of `body` by the function `coef` in the direction `dir`.
    Turn {
        coef: Function,
        dir: Function,
        body: Boxed<Plain>,
    },
}

impl Plain {
    /// An equal tree.
    pub fn copy(&self, alloc: Global) -> Result<Plain, AllocError>
        ensures { IfOk result (λ e. e ≡ self.now) }
    {
        copy_plain(alloc, self)
    }
}
