// A store whose rows are kept in key order, and found by halving.
#![tactic(auto)]

ghost use Rattle.std.specs.Prelude.{◌≡◌, ◌≤◌, true};
ghost use Rattle.order.specs.Names.{key_of};
ghost use Rattle.order.specs.Orders.{sorted};
ghost use Rattle.arrays.specs.Items.{items};
ghost use Rattle.keys.specs.KeyOrder.{key_order};
ghost use Rattle.store.specs.EntryMeans.{entry_means};

use arrays::ArrayVec;
use store::entry::Entry;

pub mod rows;

// No model: the laws of `Store` would have to hold of every list of keys, sorted or not.
#[derive(Drop)]
pub struct Index<const N: usize> {
    rows: ArrayVec<Entry, N>,
    // each key is before every later one
    ghost sorted: { sorted key_order (λ e. key_of (entry_means e)) (items rows) ≡ true },
    // the capacity is within its range
    ghost lawful: { N ≤ 512 },
}
