//! Values that several names may share.

ghost use Rattle.std.specs.Prelude.{◌≡◌, min, IfOk};
ghost use Rattle.ufl_values.specs.Values.{nodes_of, height_of};

use std::alloc::{AllocError, Global};
use std::marker::Model;
use std::rc::Rc;
use ufl_values::{Value, copy_value, height_of, nodes_of};

/// A value that several names may share, with its number of nodes and its height. Contracts see it as the value.
#[derive(Drop)]
pub struct Shared {
    value: Rc<Value>,
    nodes: u32,
    height: u32,
}

impl Model for Shared {
    ghost use Rattle.ufl_values.specs.declared.value.Value.{Value as AnyValue};
    ghost use Rattle.std.specs.Prelude.{◌≡◌, min};
    ghost use Rattle.ufl_values.specs.Values.{nodes_of, height_of};

    ghost Value = { AnyValue };

    ghost use Rattle.ufl_values.specs.contracts.value.Value as t;
    ghost use Rattle.std.specs.Coded.{codes};

    ghost coded = { Prim.hlevel (codes, t.the_row.coded) };

    ghost view = { λ s. s.value.value };

    ghost invariant = { λ s. (s.nodes ≡ min (nodes_of s.value.value) 4294967295)
        × (s.height ≡ min (height_of s.value.value) 4294967295) };
}

impl Shared {
    /// A value that nothing else holds.
    pub fn new(alloc: Global, value: Value) -> Result<Shared, AllocError>
        ensures { IfOk result (λ s. s ≡ value) }
    {
        let nodes = nodes_of(&value);
        let height = height_of(&value);
        match Rc::new(alloc, value) {
            Ok(value) => Ok(Shared {
                value,
                nodes,
                height,
            }),
            Err(_) => Err(AllocError),
        }
    }

    /// The value.
    pub fn get(&self) -> &Value
        ensures { result.now ≡ self.now }
    {
        Rc::as_ref(&self.value)
    }

    /// How many nodes the value has, at most 4,294,967,295.
    pub fn nodes(&self) -> u32
        ensures { result ≡ min (nodes_of self.now) 4294967295 }
    {
        self.nodes
    }

    /// The height of the value, at most 4,294,967,295.
    pub fn height(&self) -> u32
        ensures { result ≡ min (height_of self.now) 4294967295 }
    {
        self.height
    }

    /// The same value once more, without a copy.
    pub fn share(&self) -> Result<Shared, AllocError>
        ensures { IfOk result (λ s. s ≡ self.now) }
    {
        let nodes = self.nodes;
        let height = self.height;
        let value = self.value.clone()?;
        Ok(Shared {
            value,
            nodes,
            height,
        })
    }

    /// The value itself: a copy where something else holds it too.
    pub fn into_value(self, alloc: Global) -> Result<Value, AllocError>
        ensures { IfOk result (λ a. a ≡ self) }
    {
        let Shared { value, .. } = self;
        match Rc::try_unwrap(value) {
            Ok(value) => Ok(value),
            Err(shared) => copy_value(alloc, Rc::as_ref(&shared)),
        }
    }
}
