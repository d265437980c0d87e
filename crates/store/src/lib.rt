// What a store is: keys with their values, within a fixed capacity.
#![tactic(auto)]

ghost use Rattle.std.specs.Prelude.{◌≡◌, ℕ, ◌≤◌, true, length};
ghost use Rattle.std.specs.Option.{option_map};
ghost use Rattle.order.specs.Names.{key_of};
ghost use Rattle.order.specs.Orders.{sorted};
ghost use Rattle.refusals.specs.Refusals.{Guarded};
ghost use Rattle.refusals.specs.declared.Refusal.TheVariants.{UnsetKey, StoreFull};
ghost use Rattle.keys.specs.KeyMeans.{key_means};
ghost use Rattle.keys.specs.KeyOrder.{key_order};
ghost use Rattle.values.specs.Means.{value_means};
ghost use Rattle.store.specs.Laws.{SameLookUps, PutSets, RemoveUnsets};
ghost use Rattle.store.specs.Names.{Names, value_at, read_at, is_set, with, without, has_room};

use keys::key::Key;
use refusals::Refusal;
use values::value::Value;

pub mod entry;

// The largest capacity that a store may have.
pub const MOST_KEYS: usize = 512;

// A maker's own store shows by the ghost members what it means, and proves the contracts.
pub trait Store {
    // the keys that are set, in key order, with their values: stores with equal look-ups have equal names
    ghost names: { Self → Names };

    // how many keys it holds at most: a fact of the value, since a store may be sized when it is made
    ghost capacity: { Self → ℕ };

    // The value of a key, or that it is unset.
    fn ask(&self, key: &Key) -> Option<Value>
        ensures { option_map value_means result ≡ value_at (key_means key.now) (names self.now) };

    // Sets that key alone, exactly where it is set already or fewer keys than the capacity stand; else 23.
    fn put(&mut self, key: &Key, value: &Value) -> Result<(), Refusal>
        ensures names { Guarded (has_room (capacity self.old) (key_means key.now) (names self.old)) (names self.old) (with (key_means key.now) (value_means value.now) (names self.old)) (names self.new) StoreFull result }
        ensures capacity { capacity self.new ≡ capacity self.old };

    // Unsets that key alone; an unset key is 19.
    fn remove(&mut self, key: &Key) -> Result<(), Refusal>
        ensures names { Guarded (is_set (key_means key.now) (names self.old)) (names self.old) (without (key_means key.now) (names self.old)) (names self.new) UnsetKey result }
        ensures capacity { capacity self.new ≡ capacity self.old };

    // How many keys are set.
    fn len(&self) -> usize
        ensures { result ≡ length (names self.now) };

    // How many keys it holds at most.
    fn capacity(&self) -> usize
        ensures { result ≡ capacity self.now };

    // the names stand in key order
    ghost ordered: { (s : Self) → sorted key_order key_of (names s) ≡ true };

    // no more keys than the capacity are set
    ghost within: { (s : Self) → length (names s) ≤ capacity s };

    // the capacity is within its range
    ghost lawful: { (s : Self) → capacity s ≤ 512 };
}

// The value of a key; an unset key reads as the value of no elements.
pub fn read<S: Store>(store: &S, key: &Key) -> Value
    ensures { value_means result ≡ read_at (key_means key.now) (S.Store.names store.now) }
{
    store.ask(key).unwrap_or_default()
}

// How many keys are set. What is promised beyond that is why the names of a store say what it means.
pub fn count_names<S: Store>(store: &S) -> usize
    ensures count { result ≡ length (S.Store.names store.now) }
    ensures same { SameLookUps }
    ensures put { PutSets }
    ensures remove { RemoveUnsets }
{
    store.len()
}
