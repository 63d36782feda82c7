//! The flat list of scalar parts.

ghost use Rattle.std.specs.Prelude.{◌≡◌, ◌+◌, ◌*◌, ◌<◌, ◌≤◌, ◌^◌, [], ◌∷◌, length, map, IfOk, OnOk};

use crate::family::Family;
use sqlite_items::Items;
use std::alloc::{AllocError, Global};

/// A scalar part of an element: its local values are those at `offset .. offset + nodes` of the
/// local values of the element.
#[derive(Clone, Copy, Debug, PartialEq, Eq)]
pub struct Part {
    pub family: Family,
    pub degree: u8,
    pub nodes: u8,
    pub offset: u32,
}

/// The scalar parts of an element in order, and the number of its local values.
#[derive(Debug, Drop)]
pub struct Parts {
    pub items: Items<Part>,
    pub local: u32,
}

impl Parts {
    ghost use Rattle.spaces.specs.Scalar.{scalar_of, local_size, repeated, appended, laid_out};

    pub fn none(alloc: Global) -> Parts
        ensures { result ≡ record { items = []; local = 0 } }
    {
        Parts {
            items: Items::new(alloc),
            local: 0,
        }
    }

    /// The part behind those that are there; its own offset doesn't count.
    fn push(&mut self, part: Part) -> Result<(), AllocError>
        requires { self.old.local + part.nodes < 2 ^ 32 }
        ensures { OnOk result (self.new ≡ appended self.old (scalar_of part ∷ [])) }
    {
        let offset = self.local;
        self.items.push(Part {
            family: part.family,
            degree: part.degree,
            nodes: part.nodes,
            offset,
        })?;
        self.local = offset + part.nodes as u32;
        Ok(())
    }

    /// The parts behind those that are there.
    pub fn push_all(&mut self, parts: &[Part]) -> Result<(), AllocError>
        requires { self.old.local + local_size (map scalar_of parts.now) < 2 ^ 32 }
        ensures { OnOk result (self.new ≡ appended self.old (map scalar_of parts.now)) }
    {
        for part in parts {
            self.push(*part)?;
        }
        Ok(())
    }

    /// The part so many times.
    pub fn copies(alloc: Global, part: Part, copies: u8) -> Result<Parts, AllocError>
        requires { part.nodes ≤ 20 }
        ensures { IfOk result (λ p. p ≡ laid_out (repeated copies (scalar_of part ∷ []))) }
    {
        let mut parts = Parts::none(alloc);
        for _i in 0..copies {
            parts.push(part)?;
        }
        Ok(parts)
    }
}
