// What an `Index` can do.
ghost use Rattle.std.specs.Prelude.{◌≡◌, [], map, nat_le};
ghost use Rattle.refusals.specs.Refusals.{answered, meant};
ghost use Rattle.refusals.specs.declared.Refusal.TheVariants.{OutOfRange};
ghost use Rattle.arrays.specs.Items.{items};
ghost use Rattle.keys.specs.KeyMeans.{key_means};
ghost use Rattle.store.specs.EntryMeans.{entry_means};
ghost use Rattle.index.specs.IndexMeans.{Placed, index_names, names_ordered, names_within};

use super::Index;
use arrays::ArrayVec;
use keys::key::Key;
use order::search;
use refusals::Refusal;
use store::entry::Entry;
use store::{MOST_KEYS, Store};
use values::value::Value;

impl<const N: usize> Index<N> {
    // An empty store, where its capacity is at most 512; else 1.
    pub fn new() -> Result<Index<N>, Refusal>
        ensures { meant index_names result ≡ answered (nat_le N 512) [] OutOfRange }
    {
        if N > MOST_KEYS {
            return Err(Refusal::OutOfRange);
        }
        Ok(Index {
            rows: ArrayVec::new(Entry::placeholder()),
        })
    }

    // The rows, in key order.
    pub fn rows(&self) -> &[Entry]
        ensures { map entry_means result.now ≡ index_names self.now }
    {
        self.rows.as_slice()
    }

    // The place of a key's row, or the place where it would go.
    fn place(&self, key: &Key) -> Result<usize, usize>
        ensures { Placed (items self.now.rows) (key_means key.now) result }
    {
        search(self.rows.as_slice(), key)
    }
}

impl<const N: usize> Store for Index<N> {
    ghost names = { index_names };

    ghost capacity = { λ _. N };

    ghost ordered = { names_ordered };

    ghost within = { names_within };

    ghost lawful = { λ s. s.lawful };

    #[tactic(auto, using(crate::proofs::Changes::is_set_placed, crate::proofs::Changes::value_placed))]
    fn ask(&self, key: &Key) -> Option<Value> {
        let at = self.place(key).ok()?;
        Some(self.rows.as_slice()[at].value)
    }

    #[tactic(auto, using(crate::proofs::Changes::puts))]
    fn put(&mut self, key: &Key, value: &Value) -> Result<(), Refusal> {
        let row = Entry {
            key: *key,
            value: *value,
        };
        match self.place(key) {
            Ok(at) => {
                self.rows.write(at, row);
                Ok(())
            }
            Err(at) => self.rows.insert(at, row).map_err(|_| Refusal::StoreFull),
        }
    }

    #[tactic(auto, using(crate::proofs::Changes::removes))]
    fn remove(&mut self, key: &Key) -> Result<(), Refusal> {
        let at = self.place(key).map_err(|_| Refusal::UnsetKey)?;
        self.rows.remove(at);
        Ok(())
    }

    fn len(&self) -> usize {
        self.rows.len()
    }

    fn capacity(&self) -> usize {
        N
    }
}
