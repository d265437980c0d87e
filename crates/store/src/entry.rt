// A row of a store: a key with its value.
ghost use Rattle.std.specs.Prelude.{◌≡◌, [], ◌∷◌, None};
ghost use Rattle.store.specs.EntryMeans.{entry_means};

use keys::key::Key;
use keys::name::Name;
use order::Row;
use values::value::Value;

#[derive(Clone, Copy)]
pub struct Entry {
    pub key: Key,
    pub value: Value,
}

impl Entry {
    // A row for slots that are not in use.
    pub fn placeholder() -> Entry
        ensures { entry_means result ≡ ((95 ∷ [], None), []) }
    {
        Entry {
            key: Key {
                name: Name::placeholder(),
                subscript: None,
            },
            value: Value::new(),
        }
    }
}

impl Row for Entry {
    type Key = Key;

    ghost keyed = { λ e. e.key };

    fn key(&self) -> &Key {
        &self.key
    }
}
