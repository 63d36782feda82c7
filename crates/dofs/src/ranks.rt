//! The places of keys in the sorted list of all.

ghost use Rattle.std.specs.Prelude.{◌≡◌, ◌<◌, ◌^◌, ◌↔◌, length, map, IfOk, IsTrue};
ghost use Rattle.std.specs.List.Sorted.{IsStrictlySortedBy};
ghost use Rattle.dofs.specs.Arrays.{key_cmp};
ghost use Rattle.dofs.specs.Order.{place, sorted_set};
ghost use Rattle.dofs.specs.Items.{items_from, IsFirst};

use crate::key::Key;
use std::alloc::{AllocError, Global};

/// A key, and its place in a list of keys.
#[derive(Clone, Copy, PartialEq, Eq, PartialOrd, Ord)]
pub struct Item {
    pub key: Key,
    pub place: u32,
}

/// The keys in order, each once, and the number of each in that order.
#[derive(Drop)]
pub struct RankedKeys {
    pub labels: Vec<Key>,
    pub ranks: Vec<u32>,
}

/// Each key with its place.
fn items(alloc: Global, keys: &[Key]) -> Result<Vec<Item>, AllocError>
    requires { length keys.now < 2 ^ 32 }
    ensures { IfOk result (λ items. items.items ≡ items_from 0 keys.now) }
{
    let mut items = Vec::with_capacity(alloc, keys.len())?;
    let mut place = 0;
    for key in keys {
        items.push(Item { key: *key, place })?;
        place += 1;
    }
    Ok(items)
}

/// Whether the key at i is another than the one before it.
fn is_first(items: &[Item], i: usize) -> bool
    requires { i < length items.now }
    ensures { IsTrue result ↔ IsFirst items.now i }
{
    i == 0 || items[i - 1].key.cmp(&items[i].key).is_lt()
}

/// By one sort of all, and one pass over what is equal.
pub fn ranked(alloc: Global, keys: &[Key]) -> Result<RankedKeys, AllocError>
    requires { length keys.now < 2 ^ 32 }
    ensures labels { IfOk result (λ r. r.labels.items ≡ sorted_set key_cmp keys.now) }
    ensures ranks { IfOk result (λ r. r.ranks.items ≡ map (λ k. place key_cmp k (sorted_set key_cmp keys.now)) keys.now) }
{
    let mut items = items(alloc, keys)?;
    items.sort_unstable();
    let mut labels = Vec::new(alloc);
    let mut ranks = vec![in alloc; 0; keys.len()]?;
    let mut row = 0;
    for i in 0..items.len() {
        let item = items[i];
        if is_first(&items, i) {
            row = labels.len() as u32;
            labels.push(item.key)?;
        }
        ranks[item.place as usize] = row;
    }
    Ok(RankedKeys { labels, ranks })
}
