//! The items of tuples and lists.

ghost use Rattle.std.specs.Prelude.{◌≡◌, [], ◌∷◌, ◌++◌, ◌||◌, List, OnOk, nat_le};
ghost use Rattle.ufl_values.specs.declared.value.Value.{Value as AnyValue};
ghost use Rattle.ufl_calls.specs.Groups.{IsGroup, grouped};

use sqlite_items::Items;
use std::alloc::{AllocError, Global};
use ufl_expr::{MOST_HEIGHT, MOST_NODES};
use ufl_values::{Reason, Value, height_of, nodes_of};

/// The items of a tuple or a list, with how many nodes they have and the height of the highest. Once they are too large
/// they are let go.
#[derive(Drop)]
pub struct Group {
    pub alloc: Global,
    pub items: Items<Value>,
    pub nodes: u32,
    pub height: u32,
}

/// No tuple or list has items of so many nodes and this height: it is one node more, and one higher.
fn is_large(nodes: u32, height: u32) -> bool
    ensures { result ≡ (nat_le 10000 nodes || nat_le 128 height) }
{
    nodes >= MOST_NODES || height >= MOST_HEIGHT
}

impl Group {
    /// No items.
    pub fn new(alloc: Global) -> Group
        ensures { IsGroup [] result }
    {
        Group {
            alloc,
            items: Items::new(alloc),
            nodes: 0,
            height: 0,
        }
    }

    /// One more item.
    pub fn push(&mut self, item: Value) -> Result<(), AllocError>
        ensures { OnOk result ((vs : List AnyValue) → IsGroup vs self.old → IsGroup (vs ++ item ∷ []) self.new) }
    {
        self.nodes = self.nodes.saturating_add(nodes_of(&item));
        self.height = self.height.max(height_of(&item));
        if is_large(self.nodes, self.height) {
            self.items = Items::new(self.alloc);
            return Ok(());
        }
        self.items.push(item)
    }

    /// All items, or `Nodes` where they are too large.
    pub fn finish(self) -> Result<Items<Value>, Reason>
        ensures { (vs : List AnyValue) → IsGroup vs self → result ≡ grouped vs }
    {
        if is_large(self.nodes, self.height) {
            return Err(Reason::Nodes);
        }
        let Group { items, .. } = self;
        Ok(items)
    }
}
