// A store whose rows stand as they came, and are found one after the other.
#![tactic(auto)]

ghost use Rattle.std.specs.Prelude.{◌≡◌, ◌≤◌, true, map};
ghost use Rattle.order.specs.Names.{distinct};
ghost use Rattle.arrays.specs.Items.{items};
ghost use Rattle.keys.specs.KeyOrder.{key_order};
ghost use Rattle.store.specs.EntryMeans.{entry_means};

use arrays::ArrayVec;
use store::entry::Entry;

mod find;
pub mod rows;

// No model, as of an index: the laws of `Store` would have to hold of every list of keys.
#[derive(Drop)]
pub struct Sheet<const N: usize> {
    rows: ArrayVec<Entry, N>,
    // no key comes twice
    ghost apart: { distinct key_order (map entry_means (items rows)) ≡ true },
    // the capacity is within its range
    ghost lawful: { N ≤ 512 },
}
