// What a `Sheet` can do.
ghost use Rattle.std.specs.Prelude.{◌≡◌, [], nat_le};
ghost use Rattle.refusals.specs.Refusals.{answered, meant};
ghost use Rattle.refusals.specs.declared.Refusal.TheVariants.{OutOfRange};
ghost use Rattle.arrays.specs.Items.{items};
ghost use Rattle.keys.specs.KeyMeans.{key_means};
ghost use Rattle.sheet.specs.FreeRows.{AnyOrder, FirstAt};
ghost use Rattle.sheet.specs.SheetMeans.{sheet_names, names_ordered, names_within};

use super::Sheet;
use super::find::find;
use arrays::ArrayVec;
use keys::key::Key;
use refusals::Refusal;
use store::entry::Entry;
use store::{MOST_KEYS, Store};
use values::value::Value;

impl<const N: usize> Sheet<N> {
    // An empty store, where its capacity is at most 512; else 1.
    pub fn new() -> Result<Sheet<N>, Refusal>
        ensures { meant sheet_names result ≡ answered (nat_le N 512) [] OutOfRange }
    {
        if N > MOST_KEYS {
            return Err(Refusal::OutOfRange);
        }
        Ok(Sheet {
            rows: ArrayVec::new(Entry::placeholder()),
        })
    }

    // The rows, in an order that is free.
    pub fn rows(&self) -> &[Entry]
        ensures { AnyOrder (sheet_names self.now) result.now }
    {
        self.rows.as_slice()
    }

    // The place of a key's row, or that none has it.
    fn place(&self, key: &Key) -> Option<usize>
        ensures { FirstAt (items self.now.rows) (key_means key.now) result }
    {
        find(self.rows.as_slice(), key)
    }
}

impl<const N: usize> Store for Sheet<N> {
    ghost names = { sheet_names };

    ghost capacity = { λ _. N };

    ghost ordered = { names_ordered };

    ghost within = { names_within };

    ghost lawful = { λ s. s.lawful };

    #[tactic(auto, using(crate::proofs::Changes::is_set_placed, crate::proofs::Changes::value_placed))]
    fn ask(&self, key: &Key) -> Option<Value> {
        let at = self.place(key)?;
        Some(self.rows.as_slice()[at].value)
    }

    #[tactic(auto, using(crate::proofs::Changes::puts))]
    fn put(&mut self, key: &Key, value: &Value) -> Result<(), Refusal> {
        let row = Entry {
            key: *key,
            value: *value,
        };
        match self.place(key) {
            Some(at) => {
                self.rows.write(at, row);
                Ok(())
            }
            None => self.rows.push(row).map_err(|_| Refusal::StoreFull),
        }
    }

    // The last row takes the place of the one that goes.
    #[tactic(auto, using(crate::proofs::Changes::is_set_placed))]
    fn remove(&mut self, key: &Key) -> Result<(), Refusal> {
        let at = self.place(key).ok_or(Refusal::UnsetKey)?;
        self.rows.swap_remove(at);
        Ok(())
    }

    #[tactic(auto, using(crate::proofs::Changes::count))]
    fn len(&self) -> usize {
        self.rows.len()
    }

    fn capacity(&self) -> usize {
        N
    }
}
